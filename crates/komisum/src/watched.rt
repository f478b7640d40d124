//! Readers and writers that remember whether a call through them has failed, and calls that write.

ghost use Rattle.std.specs.Prelude.{◌≡◌, ◌↔◌, ◌||◌, true, false, is_err, length};
ghost use Rattle.std.specs.Prelude.{OnOk, IsErr};
ghost use Rattle.std.specs.Io.{ReadsAtMost, WritesAtMost};
ghost use Rattle.std.specs.Io.KnownBytes.{ReadConsumes, WriteAppends, Appends, Keeps};
ghost use Rattle.komisum.specs.Watched.{AppendsPrefix, write_failed};

use std::io::{self, ErrorKind, Read, Write};

/// A reader or a writer, and whether a call through it has failed.
///
/// A read, a write or a flush has failed if it returned an error, and a write also if it accepted
/// none of at least one byte. Each call returns what the inner one returns.
#[derive(Drop)]
pub struct Watched<T> {
    inner: T,
    failed: bool,
}

impl<T> Watched<T> {
    /// Wraps a reader or a writer. No call through it has failed yet.
    pub fn new(inner: T) -> Self
        ensures inner { result.inner ≡ inner }
        ensures failed { result.failed ≡ false }
    {
        Watched {
            inner,
            failed: false,
        }
    }

    /// Returns whether a call has failed. Once true, this stays true.
    pub fn failed(&self) -> bool
        ensures { result ≡ self.now.failed }
    {
        self.failed
    }

    /// Returns the reader or the writer.
    pub fn into_inner(self) -> T
        ensures { result ≡ self.inner }
    {
        self.inner
    }
}

impl<R: Read> Read for Watched<R> {
    ghost remaining = { λ watched. R.remaining watched.inner };

    fn read(&mut self, buf: &mut [u8]) -> io::Result<usize>
        ensures bound { ReadsAtMost result buf.new }
        ensures bytes { ReadConsumes (R.remaining self.old.inner) (R.remaining self.new.inner)
            result buf.new }
        ensures failed { self.new.failed ≡ (self.old.failed || is_err result) }
    {
        let result = self.inner.read(buf);
        self.failed |= result.is_err();
        result
    }
}

impl<W: Write> Write for Watched<W> {
    ghost contents = { λ watched. W.contents watched.inner };

    fn write(&mut self, buf: &[u8]) -> io::Result<usize>
        ensures bound { WritesAtMost result buf.now }
        ensures bytes { WriteAppends (W.contents self.old.inner) (W.contents self.new.inner)
            result buf.now }
        ensures failed { self.new.failed
            ≡ (self.old.failed || write_failed result (length buf.now)) }
    {
        let result = self.inner.write(buf);
        self.failed |= match &result {
            Ok(taken) => *taken == 0 && !buf.is_empty(),
            Err(_) => true,
        };
        result
    }

    fn flush(&mut self) -> io::Result<()>
        ensures bytes { Keeps (W.contents self.old.inner) (W.contents self.new.inner) }
        ensures failed { self.new.failed ≡ (self.old.failed || is_err result) }
    {
        let result = self.inner.flush();
        self.failed |= result.is_err();
        result
    }
}

/// Writes all bytes, however few of them a write accepts.
///
/// Returns an error if a write fails or is interrupted. Some of the bytes may then have been
/// written. The writer must not have failed before.
pub fn write_whole<W: Write>(writer: &mut Watched<W>, bytes: &[u8]) -> io::Result<()>
    requires { writer.old.failed ≡ false }
    ensures whole { OnOk result
        (Appends (W.contents writer.old.inner) (W.contents writer.new.inner) bytes.now) }
    ensures partial { AppendsPrefix (W.contents writer.old.inner) (W.contents writer.new.inner)
        bytes.now }
    ensures failed { IsErr result ↔ (writer.new.failed ≡ true) }
{
    let mut written = 0;
    while written < bytes.len() {
        match writer.write(&bytes[written..])? {
            0 => return Err(ErrorKind::WriteZero.into()),
            count => written += count,
        }
    }
    Ok(())
}
