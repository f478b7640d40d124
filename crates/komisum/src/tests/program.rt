//! Lines of inputs, and what a fault leaves.

ghost use Rattle.std.specs.Prelude.{◌≡◌, ◌≢◌, ◌↔◌, ℕ, ◌+◌, ◌^◌, ◌<◌, ◌≤◌};
ghost use Rattle.std.specs.Prelude.{⊤, true, false, List, length, take};
ghost use Rattle.std.specs.Prelude.{OnOk, IfOk, IsErr, IsOkAnd, IfSome, MatchResult};
ghost use Rattle.std.specs.Io.KnownBytes.{Appends, Consumes, IsAtEnd};
ghost use Rattle.komisum.specs.Program.{Shows, hash_line};

use super::fakes::{Calls, ERRORS, FakeReader, FakeWriter};
use super::{HIGH_END, SIX_IN_FIVE, ZERO};
use crate::digest::hex_line;
use crate::ending::{Ending, Refusal};
use crate::faults::Fault;
use crate::program::{run, show};
use crate::settings::Version;
use crate::watched::Watched;
use komihash::v5;
use std::io::{self, Read, Write};
use std::process::Abort;

// Does what `show` does, and states its promises again: a clause of `Shows` that gets weaker leaves
// one of these unproved.
fn shown_as_promised<R: Read, W: Write>(
    reader: &mut Watched<R>,
    writer: &mut Watched<W>,
    version: Version,
    seed: u64,
) -> Result<(), Fault>
    requires reader { reader.old.failed ≡ false }
    requires writer { writer.old.failed ≡ false }
    ensures read { (result ≡ Err Fault.Read) ↔ (reader.new.failed ≡ true) }
    ensures too_long { IfSome (R.remaining reader.old.inner) (λ _. (bytes : List ℕ)
        × Consumes (R.remaining reader.old.inner) (R.remaining reader.new.inner) bytes
        × ((result ≡ Err Fault.TooLong)
        ↔ ((reader.new.failed ≡ false) × (2 ^ 40 < length bytes)))) }
    ensures write { (result ≡ Err Fault.Write) ↔ (writer.new.failed ≡ true) }
    ensures all { OnOk result (IsAtEnd (R.remaining reader.new.inner)) }
    ensures all_before { result ≡ Err Fault.Write → IsAtEnd (R.remaining reader.new.inner) }
    ensures bound { IfSome (R.remaining reader.old.inner) (λ _. (bytes : List ℕ)
        × Consumes (R.remaining reader.old.inner) (R.remaining reader.new.inner) bytes
        × (length bytes ≤ 2 ^ 40 + 4096)) }
    ensures read_bound { result ≡ Err Fault.Read
        → IfSome (R.remaining reader.old.inner) (λ _. (bytes : List ℕ)
        × Consumes (R.remaining reader.old.inner) (R.remaining reader.new.inner) bytes
        × (length bytes ≤ 2 ^ 40)) }
    ensures line { OnOk result (IfSome (R.remaining reader.old.inner) (λ bytes.
        Appends (W.contents writer.old.inner) (W.contents writer.new.inner)
        (hash_line version seed bytes))) }
    ensures partial { result ≡ Err Fault.Write → IfSome (R.remaining reader.old.inner) (λ bytes.
        (n : ℕ) × Appends (W.contents writer.old.inner) (W.contents writer.new.inner)
        (take n (hash_line version seed bytes))) }
    ensures read_unwritten { result ≡ Err Fault.Read → writer.new ≡ writer.old }
    ensures too_long_unwritten { result ≡ Err Fault.TooLong → writer.new ≡ writer.old }
{
    show(reader, writer, version, seed)
}

// Does what `run` does, and states again when it shows and when it refuses.
fn ran_as_promised<R: Read, W: Write>(
    asked: Result<(Version, u64), Refusal>,
    input: &mut io::Result<Watched<R>>,
    output: &mut Watched<W>,
) -> Ending
    requires input { IfOk input.old (λ reader. reader.failed ≡ false) }
    requires output { output.old.failed ≡ false }
    ensures shows { IfOk input.old (λ old. IsOkAnd input.new (λ new. MatchResult asked
        (λ settings. Shows settings.0 settings.1 result R.remaining old new
        W.contents output.old output.new)
        (λ refusal. (result ≡ Ending.Refused refusal) × (new ≡ old)
        × (output.new ≡ output.old)))) }
    ensures begun { IfOk input.old (λ _. MatchResult asked
        (λ _. (refusal : Refusal) → result ≢ Ending.Refused refusal) (λ _. ⊤)) }
    ensures no_memory { IsErr input.old → result ≡ Ending.Refused Refusal.NoMemory }
    ensures unread { IsErr input.old → input.new ≡ input.old }
    ensures unwritten { IsErr input.old → output.new ≡ output.old }
{
    run(asked, input, output)
}

// Calls `show` on fakes. Returns its result, the number of reads and the writer.
fn shown(
    bytes: &[u8],
    reads: Calls,
    writes: Calls,
    version: Version,
    seed: u64,
) -> (Result<(), Fault>, usize, FakeWriter) {
    let mut reader = Watched::new(FakeReader::new(bytes, reads));
    let mut writer = Watched::new(FakeWriter::new(writes));
    let result = shown_as_promised(&mut reader, &mut writer, version, seed);
    (result, reader.into_inner().calls.made, writer.into_inner())
}

// Shows a line and compares it. It takes reads of 4,096 bytes, one write and a flush.
fn shows(rt: &impl Abort, bytes: &[u8], version: Version, seed: u64, line: &[u8; 17]) {
    let calls = Calls::endless(usize::MAX);
    let (result, reads, writer) = shown(bytes, calls, Calls::endless(17), version, seed);
    assert!(rt; result.is_ok());
    assert_eq!(rt; writer.taken(), line.as_slice());
    assert_eq!(rt; reads, bytes.len().div_ceil(4096) + 1);
    assert_eq!(rt; writer.calls.made, 2);
}

#[test]
fn lines(rt: HostRuntime) {
    assert_eq!(rt; &hex_line(0), b"0000000000000000\n");
    shows(&rt, ZERO, Version::Five, 0, b"0000000000000000\n");
    shows(&rt, b"", Version::Five, 0, b"b7683ea7430132b4\n");
    shows(&rt, b"", Version::Five, u64::MAX, b"4bcc041f3f885859\n");
    shows(&rt, SIX_IN_FIVE, Version::Five, 0, b"0000000000000006\n");
    shows(&rt, HIGH_END, Version::Four, 0, b"0000000000000007\n");
    let zeros = [0; 5000];
    for length in [63, 4096, 4097, 5000] {
        let bytes = &zeros[..length];
        let line = hex_line(v5::komihash(bytes, 0));
        shows(&rt, bytes, Version::Five, 0, &line);
    }
}

#[test]
fn reads_that_fail(rt: HostRuntime) {
    for error in ERRORS {
        for call in 1..=16usize {
            let calls = Calls::stopping(7, call, Some(error));
            let (result, reads, writer) = shown(
                SIX_IN_FIVE,
                calls,
                Calls::endless(17),
                Version::Five,
                0,
            );
            if call == 16 {
                assert!(rt; result.is_ok());
                assert_eq!(rt; writer.taken(), b"0000000000000006\n".as_slice());
            } else {
                assert!(rt; matches!(result, Err(Fault::Read)) && reads == call);
                assert_eq!(rt; writer.calls.made, 0);
            }
        }
    }
}

// Compares what `show` writes of a line if one call of the writer stops, after which none comes.
fn fails(rt: &impl Abort, bytes: &[u8], writes: Calls, written: &[u8]) {
    let calls = Calls::endless(usize::MAX);
    let (result, _, writer) = shown(bytes, calls, writes, Version::Five, 0);
    assert!(rt; matches!(result, Err(Fault::Write)));
    assert_eq!(rt; writer.taken(), written);
    assert_eq!(rt; writer.calls.made, writer.calls.stops_at);
}

#[test]
fn writes_and_flushes_that_fail(rt: HostRuntime) {
    let line = hex_line(0);
    fails(&rt, ZERO, Calls::stopping(17, 1, None), b"");
    for error in ERRORS {
        for call in 1..=17usize {
            let calls = Calls::stopping(1, call, Some(error));
            fails(&rt, ZERO, calls, &line[..call - 1]);
        }
        fails(&rt, ZERO, Calls::stopping(17, 2, Some(error)), &line);
        fails(&rt, b"", Calls::stopping(5, 2, Some(error)), b"b7683");
    }
}
