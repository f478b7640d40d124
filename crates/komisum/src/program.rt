//! The program, over any reader and writer.

ghost use Rattle.std.specs.Prelude.{◌≡◌, false, IfOk, IsErr, IsOkAnd};
ghost use Rattle.komisum.specs.Ending.{ending_of};
ghost use Rattle.komisum.specs.Program.{EndsAsAsked, Shows};

use crate::digest::{digest, hex_line};
use crate::ending::{Ending, Refusal};
use crate::faults::Fault;
use crate::settings::Version;
use crate::watched::{Watched, write_whole};
use komihash::{v4, v5};
use std::io::{self, Read, Write};

// The most bytes that an input may have.
const LONGEST_INPUT: u64 = 1 << 40;

// The most bytes that one read asks for.
const CHUNK_LENGTH: usize = 4096;

/// Writes the line of the hash of all bytes that a reader has left: 16 hexadecimal digits and a
/// newline. Then flushes.
///
/// Accepts up to 2^40 bytes, reads up to 4,096 at once, and allocates nothing.
///
/// Returns `Fault::Read` if a read returns an error, of any kind, `Fault::TooLong` if more bytes
/// come, and `Fault::Write` if a write or the flush returns an error, or a write accepts no byte.
///
/// Neither the reader nor the writer may have failed before.
pub fn show<R: Read, W: Write>(
    reader: &mut Watched<R>,
    writer: &mut Watched<W>,
    version: Version,
    seed: u64,
) -> Result<(), Fault>
    requires reader { reader.old.failed ≡ false }
    requires writer { writer.old.failed ≡ false }
    ensures { Shows version seed (ending_of result) R.remaining reader.old reader.new
        W.contents writer.old writer.new }
{
    let mut chunk = [0u8; CHUNK_LENGTH];
    let hash = match version {
        Version::Four => digest::<R, v4::StreamedKomihash>(reader, seed, &mut chunk, LONGEST_INPUT),
        Version::Five => digest::<R, v5::StreamedKomihash>(reader, seed, &mut chunk, LONGEST_INPUT),
    }?;
    write_whole(writer, &hex_line(hash)).map_err(|_| Fault::Write)?;
    writer.flush().map_err(|_| Fault::Write)
}

/// Runs the program on what `main` got from its host. Returns how it ended.
///
/// Shows the line for the version and the seed that the arguments ask for. If the arguments were
/// refused, or the input's buffer could not be allocated, it reads and writes nothing. Without a
/// buffer it ends with `no memory`, whatever the arguments.
///
/// Neither the input nor the output may have failed before.
pub fn run<R: Read, W: Write>(
    asked: Result<(Version, u64), Refusal>,
    input: &mut io::Result<Watched<R>>,
    output: &mut Watched<W>,
) -> Ending
    requires input { IfOk input.old (λ reader. reader.failed ≡ false) }
    requires output { output.old.failed ≡ false }
    ensures ended { IfOk input.old (λ old. IsOkAnd input.new (λ new.
        EndsAsAsked result asked R.remaining old new W.contents output.old output.new)) }
    ensures no_memory { IsErr input.old → result ≡ Ending.Refused Refusal.NoMemory }
    ensures unread { IsErr input.old → input.new ≡ input.old }
    ensures unwritten { IsErr input.old → output.new ≡ output.old }
{
    let Ok(input) = input else {
        return Ending::Refused(Refusal::NoMemory);
    };
    match asked {
        Err(refusal) => Ending::Refused(refusal),
        Ok((version, seed)) => match show(input, output, version, seed) {
            Ok(()) => Ending::Shown,
            Err(fault) => Ending::Failed(fault),
        },
    }
}
