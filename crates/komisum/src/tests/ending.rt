//! The lines on standard error, and the statuses of endings.

ghost use Rattle.std.specs.Prelude.{◌≡◌, ℕ, false, take};
ghost use Rattle.std.specs.Io.KnownBytes.{Appends};
ghost use Rattle.std.specs.Process.{exit_status};
ghost use Rattle.komisum.specs.Ending.{line_of, status_of};

use super::fakes::{Calls, FakeWriter};
use crate::ending::Ending::{self, Failed, Refused};
use crate::ending::{Refusal, report};
use crate::faults::Fault;
use crate::watched::Watched;
use std::io::Write;
use std::process::{Abort, ExitCode};

// Does what `report` does, and states its promises again.
fn reported_as_promised<W: Write>(errors: &mut Watched<W>, ending: &Ending) -> ExitCode
    requires { errors.old.failed ≡ false }
    ensures status { exit_status result ≡ status_of ending.now }
    ensures line { errors.new.failed ≡ false → Appends (W.contents errors.old.inner)
        (W.contents errors.new.inner) (line_of ending.now) }
    ensures partial { (n : ℕ) × Appends (W.contents errors.old.inner)
        (W.contents errors.new.inner) (take n (line_of ending.now)) }
    ensures silent { ending.now ≡ Ending.Shown → errors.new ≡ errors.old }
{
    report(errors, ending)
}

// Compares the line of an ending on standard error, which is one write, and the status.
fn reports(rt: &impl Abort, ending: Ending, line: &[u8], status: u8) {
    let mut errors = Watched::new(FakeWriter::new(Calls::endless(usize::MAX)));
    assert!(rt; reported_as_promised(&mut errors, &ending) == ExitCode::from(status));
    let errors = errors.into_inner();
    assert_eq!(rt; errors.taken(), line);
    assert_eq!(rt; errors.calls.made, 1);
}

#[test]
fn messages(rt: HostRuntime) {
    assert_eq!(rt; Fault::Read.text(), "read failed");
    assert_eq!(rt; Fault::TooLong.text(), "too long");
    assert_eq!(rt; Fault::Write.text(), "write failed");
    reports(&rt, Failed(Fault::Read), b"komisum: read failed\n", 1);
    reports(&rt, Failed(Fault::TooLong), b"komisum: too long\n", 1);
    reports(&rt, Failed(Fault::Write), b"komisum: write failed\n", 1);
    reports(&rt, Refused(Refusal::NoMemory), b"komisum: no memory\n", 1);
    let usage = b"komisum: usage: komisum [4|5 SEED]\n";
    reports(&rt, Refused(Refusal::Usage), usage, 2);
}
