//! Calls through a watched reader or writer return what the inner one returns. Once one has failed,
//! `failed` stays true.

ghost use Rattle.std.specs.Prelude.{◌≡◌, false};

use super::ZERO;
use super::fakes::{Calls, ERRORS, FakeReader, FakeWriter};
use crate::watched::Watched;
use std::io::{Read, Result, Write};

// Wraps a reader or a writer, and states again what `new` promises.
fn wrapped<T>(inner: T) -> Watched<T>
    ensures failed { result.failed ≡ false }
    ensures inner { result.inner ≡ inner }
{
    Watched::new(inner)
}

// Takes one apart, and states again what `failed` and `into_inner` promise, after any calls.
fn taken_apart<T: Drop>(watched: Watched<T>) -> (bool, T)
    ensures failed { result.0 ≡ watched.failed }
    ensures inner { result.1 ≡ watched.inner }
{
    (watched.failed(), watched.into_inner())
}

// Returns the number of the system's error.
fn error_of(returned: Result<usize>) -> Option<i32> {
    returned.err()?.raw_os_error()
}

#[test]
fn reads(rt: HostRuntime) {
    for error in ERRORS {
        let mut reader = Watched::new(FakeReader::new(ZERO, Calls::stopping(8, 3, Some(error))));
        let mut bytes = [0u8; 16];
        for half in ZERO.chunks(8) {
            assert!(rt; matches!(reader.read(&mut bytes), Ok(8)));
            assert!(rt; bytes.starts_with(half) && !reader.failed());
        }
        assert_eq!(rt; error_of(reader.read(&mut bytes)), Some(error));
        assert!(rt; reader.failed());
        assert!(rt; matches!(reader.read(&mut []), Ok(0)) && reader.failed());
        assert_eq!(rt; reader.into_inner().calls.made, 4);
    }
}

#[test]
fn writes_and_a_flush(rt: HostRuntime) {
    for error in ERRORS {
        let mut writer = Watched::new(FakeWriter::new(Calls::stopping(3, 3, Some(error))));
        for bytes in [b"12345", b"45678"] {
            assert!(rt; matches!(writer.write(bytes), Ok(3)));
            assert!(rt; !writer.failed());
        }
        assert_eq!(rt; error_of(writer.flush().map(|()| 0)), Some(error));
        assert!(rt; writer.failed());
        assert!(rt; writer.flush().is_ok() && writer.failed());
        assert!(rt; matches!(writer.write(b"78"), Ok(2)) && writer.failed());
        let writer = writer.into_inner();
        assert_eq!(rt; writer.taken(), b"12345678".as_slice());
        assert_eq!(rt; writer.calls.made, 5);
    }
}

#[test]
fn a_write_that_fails(rt: HostRuntime) {
    for error in ERRORS {
        let mut writer = Watched::new(FakeWriter::new(Calls::stopping(3, 1, Some(error))));
        assert_eq!(rt; error_of(writer.write(ZERO)), Some(error));
    }
}
