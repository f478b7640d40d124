//! Prints the hash of standard input as a line on standard output.
//!
//! `komisum` prints the hash of version 5 with seed 0, and `komisum VERSION SEED` that of version
//! `4` or `5` with a seed of 1 to 16 lower-case hexadecimal digits.
#![tactic(auto)]

mod digest;
mod ending;
mod faults;
mod program;
mod settings;
#[cfg(test)]
mod tests;
mod watched;

use std::io::BufReader;
use std::process::ExitCode;
use watched::Watched;

// The bytes of the input's buffer: as many as a pipe holds.
const BUFFER_LENGTH: usize = 1 << 16;

fn main(rt: HostRuntime) -> ExitCode {
    let ending = program::run(
        settings::settings_from_env(&rt),
        &mut BufReader::with_capacity(rt.alloc(), BUFFER_LENGTH, rt.stdin()).map(Watched::new),
        &mut Watched::new(rt.stdout()),
    );
    ending::report(&mut Watched::new(rt.stderr()), &ending)
}
