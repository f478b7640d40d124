//! Digests of all that a reader gives.

ghost use Rattle.std.specs.Prelude.{◌≡◌, ◌<◌, length, IfOk, IfSome};
ghost use Rattle.komihash.specs.Hash.{komi};

use komihash::StreamedKomihash;
use std::io::{self, Read};

/// Returns the digest of all bytes that a reader has left, or an error if a read fails or is
/// interrupted. Reads the bytes into `chunk`.
pub fn digest_of_reader<R: Read>(reader: &mut R, chunk: &mut [u8]) -> io::Result<u64>
    requires { 0 < length chunk.old }
    ensures { IfOk result (λ hash. IfSome (R.remaining reader.old) (λ bytes.
        hash ≡ komi 5 0 bytes)) }
{
    let mut stream = StreamedKomihash::new();
    // Each loop must be proved to end, as a `for` over a range does.
    for _ in 0..u64::MAX {
        let count = reader.read(chunk)?;
        if count == 0 {
            return Ok(stream.finish());
        }
        stream.write(&chunk[..count]);
    }
    Err(io::Error::from(io::ErrorKind::FileTooLarge))
}
