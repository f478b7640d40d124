//! Uploads that arrive in parts, of which no byte is kept.

ghost use Rattle.std.specs.Prelude.{◌≡◌, ◌++◌, [], ℕ, List};
ghost use Rattle.komihash.specs.Hash.{komi};
ghost use Rattle.komihash.specs.Stream.{HasAbsorbed, StateOf};

use komihash::StreamedKomihash;
use std::marker::Model;

/// The parts of an upload that have arrived. In a clause, an upload is its stream.
#[derive(Drop)]
pub struct Upload {
    stream: StreamedKomihash,
}

impl Model for Upload {
    ghost Value = { StateOf 5 };

    ghost view = { λ upload. upload.stream };
}

impl Upload {
    /// Returns an upload of which nothing has arrived.
    pub fn new() -> Self
        ensures { HasAbsorbed 5 0 result.state [] }
    {
        Upload {
            stream: StreamedKomihash::new(),
        }
    }

    /// Takes the next part.
    pub fn receive(&mut self, part: &[u8])
        ensures { (m : List ℕ) → HasAbsorbed 5 0 self.old.state m
            → HasAbsorbed 5 0 self.new.state (m ++ part.now) }
    {
        self.stream.write(part);
    }

    /// Returns the digest of all parts so far.
    pub fn digest(&self) -> u64
        ensures { (m : List ℕ) → HasAbsorbed 5 0 self.now.state m → result ≡ komi 5 0 m }
    {
        self.stream.finish()
    }
}

/// Returns the digest of an upload in two parts.
pub fn digest_of_two(first: &[u8], second: &[u8]) -> u64
    ensures { result ≡ komi 5 0 (first.now ++ second.now) }
{
    let mut upload = Upload::new();
    upload.receive(first);
    upload.receive(second);
    upload.digest()
}
