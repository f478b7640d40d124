//! Stores of what a hash reads: entries with the digest of all of them, and padded keys.

ghost use Rattle.std.specs.Prelude.{◌≡◌, ◌++◌, ◌+◌, ◌/◌, ◌≤◌, ◌↔◌, [], length, true};
ghost use Rattle.std.specs.Prelude.{is_ok, if◌then◌else◌};
ghost use Rattle.komihash.specs.Hash.{komi};
ghost use Rattle.komihash.specs.Stream.{HasAbsorbed};
ghost use Rattle.komihash.proofs.Propositions.{HasAbsorbed-prop};

use komihash::{StreamedKomihash, v5};
use std::alloc::{AllocError, Global};

/// Entries, one after the other, and a stream that has absorbed them.
#[derive(Drop)]
pub struct Journal {
    pub bytes: Vec<u8>,
    stream: StreamedKomihash,
    // Takes no memory. The lemma shows that there is at most one proof of this.
    ghost known: { HasAbsorbed 5 0 stream.state bytes.items } by { HasAbsorbed-prop _ _ _ _ },
}

impl Journal {
    /// Returns a journal without entries.
    pub fn new(alloc: Global) -> Self
        ensures { result.bytes.items ≡ [] }
    {
        Journal {
            bytes: Vec::new(alloc),
            stream: StreamedKomihash::new(),
        }
    }

    /// Appends an entry. Returns an error, and appends nothing, if memory runs out.
    pub fn append(&mut self, entry: &[u8]) -> Result<(), AllocError>
        ensures { self.new.bytes.items
            ≡ (if is_ok result then self.old.bytes.items ++ entry.now else self.old.bytes.items) }
    {
        self.bytes.extend_from_slice(entry)?;
        self.stream.write(entry);
        Ok(())
    }

    /// Returns the digest of all entries, without reading them again.
    pub fn digest(&self) -> u64
        ensures { result ≡ komi 5 0 self.now.bytes.items }
    {
        self.stream.finish()
    }
}

/// Returns whether two keys are equal, from their padded words.
pub fn are_equal_keys(
    left: &[u8],
    right: &[u8],
    left_words: &mut [u64],
    right_words: &mut [u64],
) -> bool
    requires left { length left.now / 8 + 1 ≤ length left_words.old }
    requires right { length right.now / 8 + 1 ≤ length right_words.old }
    ensures { result ≡ true ↔ left.now ≡ right.now }
{
    let left_count = v5::pad(left, left_words);
    let right_count = v5::pad(right, right_words);
    left_words[..left_count] == right_words[..right_count]
}
