//! The version and the seed that the program's arguments ask for.

ghost use Rattle.std.specs.Prelude.{◌≡◌, map};
ghost use Rattle.komisum.specs.Settings.{seed_of, settings_of, settings_or_refusal, version_of};

use crate::ending::Refusal;
use std::env::{Args, FillError};
use std::io::ErrorKind;
use std::rt::Env;
use std::{env, io};

/// A version of the hash.
#[derive(Drop)]
pub enum Version {
    Four,
    Five,
}

// Returns the version that an argument asks for.
fn version_in(argument: &str) -> Option<Version>
    ensures { result ≡ version_of argument.now }
{
    match argument.as_bytes() {
        b"4" => Some(Version::Four),
        b"5" => Some(Version::Five),
        _ => None,
    }
}

// Returns the seed that an argument asks for.
fn seed_in(argument: &str) -> Option<u64>
    ensures { result ≡ seed_of argument.now }
{
    let digits = argument.as_bytes();
    let is_digit = |digit: &u8| matches!(digit, b'0'..=b'9' | b'a'..=b'f');
    if digits.is_empty() || digits.len() > 16 || !digits.iter().all(is_digit) {
        return None;
    }

    // This alone would also accept capital digits and a plus.
    u64::from_str_radix(argument, 16).ok()
}

/// Returns the version and the seed that arguments ask for.
///
/// Without arguments these are version 5 and seed 0. Otherwise there must be two: VERSION, which is
/// `4` or `5`, and SEED, which is 1 to 16 of the digits `0-9a-f`, to base 16. Returns `None` for
/// all others.
pub fn settings(arguments: &[&str]) -> Option<(Version, u64)>
    ensures { result ≡ settings_of (map (λ argument. argument.now) arguments.now) }
{
    match arguments {
        [] => Some((Version::Five, 0)),
        [version, seed] => Some((version_in(version)?, seed_in(seed)?)),
        _ => None,
    }
}

// An environment whose arguments begin after the program's name, which need not be UTF-8.
#[derive(Drop)]
struct AfterName<'a, H>(&'a H);

impl<H: Env> Env for AfterName<'_, H> {
    fn arg(&self, i: usize, buf: &mut [u8]) -> Result<usize, FillError> {
        match i.checked_add(1) {
            Some(next) => self.0.arg(next, buf),
            None => Err(FillError::NotPresent),
        }
    }

    fn var(&self, name: &str, buf: &mut [u8]) -> Result<usize, FillError> {
        self.0.var(name, buf)
    }

    fn var_at(&self, i: usize, buf: &mut [u8]) -> Result<usize, FillError> {
        self.0.var_at(i, buf)
    }
}

/// Returns the version and the seed that the arguments ask for. `given` is the result of
/// `env::args`.
///
/// Returns `NoMemory` if the kind of the error in their place is `OutOfMemory`. Returns `Usage` for
/// all other errors, as for an argument that is not UTF-8, and if there are arguments, but not
/// exactly a version and a seed. Allocates nothing.
pub fn settings_from_args(given: io::Result<Args>) -> Result<(Version, u64), Refusal>
    ensures { result ≡ settings_or_refusal given }
{
    let mut arguments = given.map_err(|error| match error.kind() {
        ErrorKind::OutOfMemory => Refusal::NoMemory,
        _ => Refusal::Usage,
    })?;
    let asked = match (arguments.next(), arguments.next(), arguments.next()) {
        (None, _, _) => settings(&[]),
        (Some(version), Some(seed), None) => settings(&[version.as_str(), seed.as_str()]),
        _ => None,
    };
    asked.ok_or(Refusal::Usage)
}

/// Returns the version and the seed that the arguments after the program's name ask for, or a
/// refusal, as `settings_from_args` does.
pub fn settings_from_env<H: Env + AllocGlobal>(host: &H) -> Result<(Version, u64), Refusal> {
    settings_from_args(env::args(&(AfterName(host), host.alloc())))
}
