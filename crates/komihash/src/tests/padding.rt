//! `pad` of known messages, and `unpad` of known words and of what was padded.

use super::messages::pattern;
use crate::{v4, v5};
use std::process::Abort;

// The rest of `out` is unchanged.
#[test]
fn pads_known_messages(rt: HostRuntime) {
    let rows: [(&[u8], [u64; 3], [u64; 3]); 4] = [
        (&[], [0, 7, 7], [0, 7, 7]),
        (b"abc", [0x0163_6261, 7, 7], [0x0163_6261, 7, 7]),
        (&[0x80], [0x0280, 7, 7], [0x0180, 7, 7]),
        (&[0xff; 8], [u64::MAX, 2, 7], [u64::MAX, 1, 7]),
    ];
    for (message, four, five) in rows {
        let n = message.len();
        assert!(rt; n <= 8);
        let (mut of_four, mut of_five) = ([7; 3], [7; 3]);
        let count = v4::pad(message, &mut of_four);
        let counts = [count, v5::pad(message, &mut of_five)];
        assert_eq!(rt; counts, [n / 8 + 1; 2], "{n} bytes");
        assert_eq!(rt; [of_four, of_five], [four, five], "{n} bytes");
    }
}

// Unpads words into the bytes that they need, and into one more. Writes the messages that have them
// in version 4 and in version 5, and no more.
fn assert_unpads(rt: &impl Abort, words: &[u64], messages: [Option<&[u8]>; 2]) {
    assert!(rt; words.len() <= 11);
    for size in 8 * words.len()..=8 * words.len() + 1 {
        let (mut of_four, mut of_five) = ([0xee; 89], [0xee; 89]);
        let four = v4::unpad(words, &mut of_four[..size]);
        let five = v5::unpad(words, &mut of_five[..size]);
        for (count, out, message) in [(four, of_four, messages[0]), (five, of_five, messages[1])] {
            let bytes = message.unwrap_or(&[]);
            assert!(rt; bytes.len() <= 89);
            let mut wanted = [0xee; 89];
            wanted[..bytes.len()].copy_from_slice(bytes);
            assert_eq!(rt; count, message.map(|bytes| bytes.len()), "{words:?}");
            assert_eq!(rt; out, wanted, "{words:?}");
        }
    }
}

const LOW_END: &[u8] = b"\xff\xff\xff\xff\xff\xff\xff\x7f";

const HIGH_END: &[u8] = b"\0\0\0\0\0\0\x80";

const TWO: &[u8] = b"\x02\0\0\0\0\0\0\0";

// Each row has words, and the message that has them as its padded words in version 4 and in 5.
const ROWS: [(&[u64], Option<&[u8]>, Option<&[u8]>); 20] = [
    (&[0], Some(&[]), Some(&[])),
    (&[0x0180], None, Some(&[0x80])),
    (&[0x0280], Some(&[0x80]), None),
    (&[0x0201], None, None),
    (&[1], None, None),
    (&[2], None, None),
    (&[], None, None),
    (&[0, 0], None, None),
    (&[u64::MAX, 2], Some(&[0xff; 8]), None),
    (&[u64::MAX, 1], None, Some(&[0xff; 8])),
    (&[u64::MAX / 2, 1], Some(LOW_END), Some(LOW_END)),
    (&[u64::MAX / 2, 2], None, None),
    (&[0x0100], Some(&[0]), Some(&[0])),
    (&[0x0200], None, None),
    (&[0x0100_0000_0000_0000], Some(&[0; 7]), Some(&[0; 7])),
    (&[0x0280_0000_0000_0000], Some(HIGH_END), None),
    (&[0x0180_0000_0000_0000], None, Some(HIGH_END)),
    (&[2, 1], Some(TWO), Some(TWO)),
    (&[u64::MAX, 2, 0], None, None),
    (&[u64::MAX], None, None),
];

#[test]
fn unpads_known_words(rt: HostRuntime) {
    for (words, four, five) in ROWS {
        assert_unpads(&rt, words, [four, five]);
    }
}

// A version has a message of the words of the other one only if they are its own words too.
#[test]
fn unpads_what_was_padded(rt: HostRuntime) {
    let pattern = pattern();
    for n in 0..81usize {
        let message = &pattern[..n];
        let (mut four, mut five) = ([7; 11], [7; 11]);
        let count = v4::pad(message, &mut four);
        assert_eq!(rt; [count, v5::pad(message, &mut five)], [n / 8 + 1; 2]);
        let of_other = (four == five).then_some(message);
        assert_unpads(&rt, &four[..count], [Some(message), of_other]);
        assert_unpads(&rt, &five[..count], [of_other, Some(message)]);
    }
}

// The word 0 has the empty message, and others have the byte y if x is the padding byte after it.
fn unpads_two_bytes(rt: &impl Abort, x: u8, y: u8) {
    let word = 256 * u64::from(x) + u64::from(y);
    let message = &[y][..usize::from(x > 0)];
    let unpadded = |padding: u8| (word == 0 || x == padding).then_some(message);
    let four = unpadded(if y < 128 { 1 } else { 2 });
    assert_unpads(rt, &[word], [four, unpadded(1)]);
}

#[test]
fn unpads_every_word_of_two_bytes(rt: HostRuntime) {
    for x in 0..=255u8 {
        for y in 0..=255u8 {
            unpads_two_bytes(&rt, x, y);
        }
    }
}
