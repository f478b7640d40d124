//! Tests, above all that the definitions give the hashes of komihash, which no contract says. Those
//! that compare two calls try on the compiled code what is proved of the source.

mod calls;
mod generator;
mod hash;
mod messages;
mod padding;
mod saved;
mod stream;
