//! Komihash, a fast hash of 64 bits that is not cryptographic, in its versions 4 and 5.
//!
//! ```rust
//! use komihash::{StreamedKomihash, komihash};
//!
//! let mut stream = StreamedKomihash::new_with_seed(42);
//! stream.write(b"hello ");
//! stream.write(b"world");
//! assert_eq!(rt; stream.finish(), komihash(b"hello world", 42));
//! ```
//!
//! In one version, `komihash` and streams return the same hash for the same bytes and seed, however
//! the bytes were cut. It is proved to be the hash that the definitions in `specs/` give.

// `rust/erase.py` makes the crate for Rust of the other files, but for `version`, which Rust has by
// hand, and `laws`, `tally` and `tests`, which it lacks. In the others,
// - `Rattle alone.` begins what Rust lacks, up to an empty line;
// - `For Rust: ..` is before a function that Rust has `const` or as `must_use`, or of which debug
//   builds there share the copy that was compiled with this crate;
// - `Inlined, but not in C.` means in Rust, but for debug builds, and not in the library for C by
//   clang and MSVC, which has one copy;
// - Rust lacks lines of comments that begin with `In Rattle,`, and C sentences that begin with
//   `In Rust,`;
// - in comments, for Rust alone are also examples (CALLING has those for Rattle), `# Panics`, links
//   in brackets, `version`, and "the type of both versions", which Rust's pages show beside the
//   other name of a type;
// - in code, for Rust alone are `const fn`, which calls that are `const` in Rust need, `repr(C)`,
//   since C and `c/verify/layout.py` know where the words of streams and generators lie,
//   `allow(clippy::..)`, and `#[track_caller]`, by which `erase.py` knows that the called function
//   tests the length.

#![tactic(auto)]

pub use v5::{KomiHasher, Komirand, StreamedKomihash, komihash};

mod generator;
mod hash;
mod hasher;
pub mod laws;
mod padding;
mod pending;
mod rounds;
pub mod stream;
pub mod tally;
#[cfg(test)]
mod tests;
mod utils;
pub mod v4;
pub mod v5;
mod version;
mod whole_words;
