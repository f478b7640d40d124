//! Tests of the program, and the messages that they hash. Values were worked out from the rules.

mod digest;
mod ending;
mod fakes;
mod program;
mod settings;
mod watched;

/// The hash is 0 with seed 0, in both versions.
pub const ZERO: &[u8; 16] = b"\x23\xb7\xf5\x1b\xf5\x11\x2d\xfe\xf1\xff\xff\xff\xff\xff\xff\xff";

/// `ZERO` and 15 bytes. The hash is 7 in version 4 with seed 0.
pub const HIGH_END: &[u8; 31] = b"\x23\xb7\xf5\x1b\xf5\x11\x2d\xfe\xf1\xff\xff\xff\xff\xff\xff\xff\
    \xc8\x8a\xea\x6f\x52\xe8\xf2\x4e\0\0\0\0\0\0\x80";

/// A block and 31 bytes. The hash is 6 in version 5 with seed 0.
pub const SIX_IN_FIVE: &[u8; 95] =
    b"\xdc\x48\x0a\xe4\x0a\xee\xd2\x01\x98\x3b\x7a\xe7\x24\x64\xcb\x12\
    \x0c\x79\x95\xcd\x28\xd6\xdb\xa5\x55\x24\x44\x08\x92\x14\xfc\x09\
    \0\0\0\0\0\0\0\0\0\0\0\0\0\0\0\0\0\0\0\0\0\0\0\0\0\0\0\0\0\0\0\0\
    \x59\xaa\x2d\xb7\x32\x65\x83\xbe\xfd\xff\xff\xff\xff\xff\xff\xff\
    \xa5\x57\xd2\x48\xcd\x9a\x7c\x41\0\0\0\0\0\0\0";
