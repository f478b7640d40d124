//! Messages with hashes for seed 0 that were worked out by hand from the rules, a pattern, and the
//! lanes of seed 0, whose pair is a = 0x01d2ee0ae40a48dc, e = 0x4ef2e8526fea8bc9.

/// The eight lanes of seed 0, eight bytes each, as saved texts have them.
pub(crate) const LANES: [u8; 64] =
    *b"\xdc\x48\x0a\xe4\x0a\xee\xd2\x01\x98\x3b\x7a\xe7\x24\x64\xcb\x12\
    \x0c\x79\x95\xcd\x28\xd6\xdb\xa5\x55\x24\x44\x08\x92\x14\xfc\x09\
    \xc9\x8b\xea\x6f\x52\xe8\xf2\x4e\xa5\x87\x03\x5b\x9d\x8e\xa6\xf0\
    \x14\xdb\x96\xa6\xe5\xc1\x5e\x8e\xde\x82\xad\xda\xe7\x3d\x76\x71";

/// The pair round of these bytes takes e to 0, so both products of the closing are 0, and so is the
/// hash. The same holds after up to seven more bytes.
pub(crate) const ZERO: [u8; 16] =
    *b"\x23\xb7\xf5\x1b\xf5\x11\x2d\xfe\xf1\xff\xff\xff\xff\xff\xff\xff";

/// `ZERO` and 15 bytes, of which the last is 0x80, so that the versions pad it differently. The
/// closing multiplies 0x100 by 0x0180000000000000 in version 5, which gives the hash
/// 0x8000000000000000, and by 0x0280000000000000 in version 4, which gives 7.
pub(crate) const HIGH_END: [u8; 31] =
    *b"\x23\xb7\xf5\x1b\xf5\x11\x2d\xfe\xf1\xff\xff\xff\xff\xff\xff\xff\
    \xc8\x8a\xea\x6f\x52\xe8\xf2\x4e\0\0\0\0\0\0\x80";

/// `ZERO` and 15 bytes. The closing multiplies 2^56 by 0x200, which makes the pair (2, 2), and 2
/// xor (2 * 2) is 6. Without the last byte the hash is 0.
pub(crate) const SIX: [u8; 31] =
    *b"\x23\xb7\xf5\x1b\xf5\x11\x2d\xfe\xf1\xff\xff\xff\xff\xff\xff\xff\
    \xc8\x89\xea\x6f\x52\xe8\xf2\x4e\0\0\0\0\0\0\0";

/// A block and 31 bytes, whose hash in version 4 is 6. The block's words are the lanes s1 to s4 of
/// seed 0, each with a word 0 in its product, so that each product has a factor 0, and the joined a
/// and e are equal. The bytes after it then work as those of `SIX` do.
pub(crate) static SIX_IN_FOUR: [u8; 95] = *b"\xdc\x48\x0a\xe4\x0a\xee\xd2\x01\0\0\0\0\0\0\0\0\
    \x98\x3b\x7a\xe7\x24\x64\xcb\x12\0\0\0\0\0\0\0\0\
    \x0c\x79\x95\xcd\x28\xd6\xdb\xa5\0\0\0\0\0\0\0\0\
    \x55\x24\x44\x08\x92\x14\xfc\x09\0\0\0\0\0\0\0\0\
    \x59\xaa\x2d\xb7\x32\x65\x83\xbe\xfd\xff\xff\xff\xff\xff\xff\xff\
    \xa5\x57\xd2\x48\xcd\x9a\x7c\x41\0\0\0\0\0\0\0";

/// The same for version 5, which pairs the words i and i + 4 where version 4 pairs neighbours.
pub(crate) static SIX_IN_FIVE: [u8; 95] =
    *b"\xdc\x48\x0a\xe4\x0a\xee\xd2\x01\x98\x3b\x7a\xe7\x24\x64\xcb\x12\
    \x0c\x79\x95\xcd\x28\xd6\xdb\xa5\x55\x24\x44\x08\x92\x14\xfc\x09\
    \0\0\0\0\0\0\0\0\0\0\0\0\0\0\0\0\0\0\0\0\0\0\0\0\0\0\0\0\0\0\0\0\
    \x59\xaa\x2d\xb7\x32\x65\x83\xbe\xfd\xff\xff\xff\xff\xff\xff\xff\
    \xa5\x57\xd2\x48\xcd\x9a\x7c\x41\0\0\0\0\0\0\0";

/// The hash of no bytes.
pub(crate) const EMPTY_HASH: u64 = 0xb768_3ea7_4301_32b4;

/// The hash of the first 64 bytes of `SIX_IN_FOUR` in version 4, and of `SIX_IN_FIVE` in version 5.
pub(crate) const BLOCK_HASH: u64 = 0x2a2f_07ac_9381_0128;

/// Returns a message of 300 bytes: byte i is 7 * i + 3, modulo 256. The tests hash its prefixes.
pub(crate) fn pattern() -> [u8; 300] {
    let mut bytes = [0; 300];
    for i in 0..300usize {
        bytes[i] = ((7 * i + 3) % 256) as u8;
    }
    bytes
}
