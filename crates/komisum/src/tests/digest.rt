//! Hashes of what readers give, and what a fault leaves.

ghost use Rattle.std.specs.Prelude.{◌≡◌, ◌≢◌, ◌↔◌, ◌+◌, ◌^◌, ◌<◌, ◌≤◌};
ghost use Rattle.std.specs.Prelude.{List, length, true, false, OnOk, IfOk, IfSome, ℕ};
ghost use Rattle.std.specs.Io.KnownBytes.{Consumes, IsAtEnd};
ghost use Rattle.komihash.specs.Hash.{komi};

use super::fakes::{Calls, ERRORS, FakeReader};
use super::{SIX_IN_FIVE, ZERO};
use crate::digest::digest;
use crate::faults::Fault;
use crate::watched::Watched;
use komihash::stream::{Call, KomiStream, LONGEST_TEXT, run_on};
use komihash::tally::Tally;
use komihash::v5::StreamedKomihash;
use std::io::Read;

// Does what `digest` does, and states its promises again.
fn digested_as_promised<R: Read, S: KomiStream>(
    reader: &mut Watched<R>,
    seed: u64,
    chunk: &mut [u8],
    most: u64,
) -> Result<u64, Fault>
    requires room { 0 < length chunk.old }
    requires most { most < 2 ^ 63 }
    requires sound { reader.old.failed ≡ false }
    ensures hash { IfOk result (λ hash. IfSome (R.remaining reader.old.inner) (λ bytes.
        hash ≡ komi S.VERSION seed bytes)) }
    ensures all_read { OnOk result (IsAtEnd (R.remaining reader.new.inner)) }
    ensures read { (result ≡ Err Fault.Read) ↔ (reader.new.failed ≡ true) }
    ensures too_long { IfSome (R.remaining reader.old.inner) (λ _. (bytes : List ℕ)
        × Consumes (R.remaining reader.old.inner) (R.remaining reader.new.inner) bytes
        × ((result ≡ Err Fault.TooLong)
        ↔ ((reader.new.failed ≡ false) × (most < length bytes)))) }
    ensures no_write { result ≢ Err Fault.Write }
    ensures bound { IfSome (R.remaining reader.old.inner) (λ _. (bytes : List ℕ)
        × Consumes (R.remaining reader.old.inner) (R.remaining reader.new.inner) bytes
        × (length bytes ≤ most + length chunk.old)) }
    ensures read_bound { result ≡ Err Fault.Read
        → IfSome (R.remaining reader.old.inner) (λ _. (bytes : List ℕ)
        × Consumes (R.remaining reader.old.inner) (R.remaining reader.new.inner) bytes
        × (length bytes ≤ most)) }
{
    digest::<R, S>(reader, seed, chunk, most)
}

// Calls `digest` in version 5 with seed 0 and a chunk of `size` bytes. Also returns the number of
// reads.
fn digested(bytes: &[u8], calls: Calls, most: u32, size: usize) -> (Result<u64, Fault>, usize)
    requires some { 0 < size }
    requires fits { size ≤ 96 }
{
    let mut chunk = [0xee; 96];
    let mut reader = Watched::new(FakeReader::new(bytes, calls));
    let most = u64::from(most);
    let chunk = &mut chunk[..size];
    let result = digested_as_promised::<_, StreamedKomihash>(&mut reader, 0, chunk, most);
    (result, reader.into_inner().calls.made)
}

// Messages, the most bytes accepted, and how many come per read. The hash is `None` for `TooLong`.
const ROWS: [(&[u8], u32, usize, Option<u64>); 7] = [
    (ZERO, 16, 96, Some(0)),
    (ZERO, 15, 96, None),
    (SIX_IN_FIVE, 95, 96, Some(6)),
    (SIX_IN_FIVE, 94, 96, None),
    (SIX_IN_FIVE, 95, 1, Some(6)),
    (b"", 0, 96, Some(0xb7683ea7430132b4)),
    (b"a", 0, 96, None),
];

#[test]
fn chunks_of_every_size(rt: HostRuntime) {
    for size in [1, 7, 64, 95, 96] {
        for (bytes, most, per_read, hash) in ROWS {
            let calls = Calls::endless(per_read);
            match digested(bytes, calls, most, size).0 {
                Ok(given) => assert_eq!(rt; Some(given), hash),
                Err(fault) => assert!(rt; matches!(fault, Fault::TooLong) && hash.is_none()),
            }
        }
    }
}

#[test]
fn nothing_is_read_after_a_fault(rt: HostRuntime) {
    for error in ERRORS {
        let (result, reads) = digested(ZERO, Calls::stopping(8, 2, Some(error)), 16, 96);
        assert!(rt; matches!(result, Err(Fault::Read)) && reads == 2);
    }
    let (result, reads) = digested(SIX_IN_FIVE, Calls::endless(7), 20, 96);
    assert!(rt; matches!(result, Err(Fault::TooLong)) && reads == 3);
}

// Returns the hash of bytes that come in pieces. After each piece the stream is saved, and another
// one is resumed from the saved text. Returns `None` if a saved text is refused.
fn of_resumed_streams(bytes: &[u8], size: usize) -> Option<u64>
    requires { 0 < size }
{
    let mut tally = Tally::new();
    let mut stream = <StreamedKomihash as KomiStream>::start(0, &mut tally);
    let mut text = [0; LONGEST_TEXT];
    let mut out = [0];
    for piece in bytes.chunks(size) {
        run_on(&mut stream, &[Call::Absorb(piece)], &mut out, &mut tally);
        let end = stream.store(&mut text);
        stream = StreamedKomihash::restore(&text[..end])?;
    }
    run_on(&mut stream, &[Call::Answer], &mut out, &mut tally);
    Some(out[0])
}

#[test]
fn saving_changes_nothing(rt: HostRuntime) {
    for size in [1, 7, 63, 64, 95] {
        let calls = Calls::endless(96);
        let hash = digested(SIX_IN_FIVE, calls, 95, size).0.ok();
        assert!(rt; hash == Some(6) && of_resumed_streams(SIX_IN_FIVE, size) == hash);
    }
}
