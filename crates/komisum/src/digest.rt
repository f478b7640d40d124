//! The hash of all bytes that a reader gives, and its line of hexadecimal digits.

ghost use Rattle.std.specs.Prelude.{◌≡◌, ◌≢◌, ◌↔◌, ◌+◌, ◌^◌, ◌<◌, ◌≤◌};
ghost use Rattle.std.specs.Prelude.{length, true, false, OnOk, IfOk, IfSome};
ghost use Rattle.std.specs.Io.KnownBytes.{IsAtEnd};
ghost use Rattle.komihash.specs.Hash.{komi};
ghost use Rattle.komisum.specs.Program.{line};
ghost use Rattle.komisum.specs.Watched.{Takes};

use crate::faults::Fault;
use crate::watched::Watched;
use komihash::stream::KomiStream;
use komihash::tally::Tally;
use std::io::Read;

/// Returns the hash of all bytes that a reader has left, in the version of `S`.
///
/// Reads into `chunk` until a read returns 0, at most `most + 1` times. Returns `Fault::Read` if a
/// read returns an error, of any kind, and `Fault::TooLong` if more than `most` bytes come. After
/// either it reads nothing more, and the reader stands after the bytes taken.
///
/// The chunk must not be empty, `most` must be below 2^63, and the reader must not have failed
/// before.
pub fn digest<R: Read, S: KomiStream>(
    reader: &mut Watched<R>,
    seed: u64,
    chunk: &mut [u8],
    most: u64,
) -> Result<u64, Fault>
    requires room { 0 < length chunk.old }
    requires most { most < 2 ^ 63 }
    requires sound { reader.old.failed ≡ false }

    // The number is the hash of all bytes, and none is left.
    ensures hash { IfOk result (λ hash. IfSome (R.remaining reader.old.inner) (λ bytes.
        hash ≡ komi S.VERSION seed bytes)) }
    ensures all_read { OnOk result (IsAtEnd (R.remaining reader.new.inner)) }

    // Each fault is returned exactly if its cause occurs, and `Fault::Write` never.
    ensures read { (result ≡ Err Fault.Read) ↔ (reader.new.failed ≡ true) }
    ensures too_long { Takes R.remaining reader.old reader.new (λ taken.
        (result ≡ Err Fault.TooLong) ↔ ((reader.new.failed ≡ false) × (most < taken))) }
    ensures no_write { result ≢ Err Fault.Write }

    // At most one chunk is taken beyond `most` bytes, and nothing beyond them if a read fails.
    ensures bound { Takes R.remaining reader.old reader.new (λ taken.
        taken ≤ most + length chunk.old) }
    ensures read_bound { result ≡ Err Fault.Read
        → Takes R.remaining reader.old reader.new (λ taken. taken ≤ most) }
{
    let tally = &mut Tally::new();
    let mut stream = S::start(seed, tally);
    let mut taken = 0u64;
    loop {
        match reader.read(chunk) {
            Ok(0) => return Ok(stream.answer(tally)),
            Ok(count) => {
                taken += count as u64;
                let is_too_long = taken > most;
                if is_too_long {
                    return Err(Fault::TooLong);
                }
                stream.absorb(&chunk[..count], tally);
            }
            Err(_) => return Err(Fault::Read),
        }
    }
}

/// Returns the line of a number: 16 lower-case hexadecimal digits, the highest first, and a
/// newline.
pub fn hex_line(number: u64) -> [u8; 17]
    ensures { result ≡ line number }
{
    let mut line = [b'\n'; 17];
    for i in 0..16u32 {
        let digit = number / 16u64.pow(15 - i) % 16;
        line[i as usize] = b"0123456789abcdef"[digit as usize];
    }
    line
}
