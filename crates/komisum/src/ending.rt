//! How the program ends: its line on standard error, and its status.

ghost use Rattle.std.specs.Prelude.{◌≡◌, false};
ghost use Rattle.std.specs.Io.KnownBytes.{Appends};
ghost use Rattle.std.specs.Process.{exit_status};
ghost use Rattle.komisum.specs.Ending.{line_of, status_of};
ghost use Rattle.komisum.specs.Watched.{AppendsPrefix};

use crate::faults::Fault;
use crate::watched::{Watched, write_whole};
use std::io::Write;
use std::process::ExitCode;

/// Why the program did not begin to read.
#[derive(Drop)]
pub enum Refusal {
    /// The arguments or the input's buffer could not be allocated.
    NoMemory,
    /// There are arguments, but not exactly a version and a seed. All errors in place of the
    /// arguments count as this, but for `OutOfMemory`.
    Usage,
}

/// How the program ends.
#[derive(Drop)]
pub enum Ending {
    /// The line was written and flushed.
    Shown,
    /// A fault ended the program.
    Failed(Fault),
    /// The program did not begin to read.
    Refused(Refusal),
}

impl Ending {
    // Returns the program's status, and the line on standard error, which is empty for no message.
    fn status_and_line(&self) -> (u8, &'static str)
        ensures status { result.0 ≡ status_of self.now }
        ensures line { result.1.now ≡ line_of self.now }
    {
        match self {
            Ending::Shown => (0, ""),
            Ending::Failed(Fault::Read) => (1, "komisum: read failed\n"),
            Ending::Failed(Fault::TooLong) => (1, "komisum: too long\n"),
            Ending::Failed(Fault::Write) => (1, "komisum: write failed\n"),
            Ending::Refused(Refusal::NoMemory) => (1, "komisum: no memory\n"),
            Ending::Refused(Refusal::Usage) => (2, "komisum: usage: komisum [4|5 SEED]\n"),
        }
    }
}

/// Writes the message of an ending, if it has one, as a line: the program's name, the message and a
/// newline. Returns the program's status, even if that line could not be written.
///
/// If the writer accepts the line in one call, no other output can come between its parts. The
/// writer must not have failed before.
pub fn report<W: Write>(errors: &mut Watched<W>, ending: &Ending) -> ExitCode
    requires { errors.old.failed ≡ false }
    ensures status { exit_status result ≡ status_of ending.now }
    ensures line { errors.new.failed ≡ false → Appends (W.contents errors.old.inner)
        (W.contents errors.new.inner) (line_of ending.now) }
    ensures partial { AppendsPrefix (W.contents errors.old.inner) (W.contents errors.new.inner)
        (line_of ending.now) }
    ensures silent { ending.now ≡ Ending.Shown → errors.new ≡ errors.old }
{
    let (status, line) = ending.status_and_line();
    if !line.is_empty() {
        let _ = write_whole(errors, line.as_bytes());
    }
    ExitCode::from(status)
}
