//! Streams of both versions in pieces of many sizes: `finish` against `komihash` of all bytes, and
//! against known hashes. The first is proved of the source, and tried here on the compiled code.

use super::hash::hashes;
use super::messages::{BLOCK_HASH, EMPTY_HASH, HIGH_END, SIX, SIX_IN_FIVE, SIX_IN_FOUR, pattern};
use crate::{v4, v5};
use std::process::Abort;

// Writes the pieces of a message that end at these indices. After each, calls `finish` twice, and
// compares both with the hash of the bytes so far. Returns what it returned last in each version.
fn finish_pieces(rt: &impl Abort, message: &[u8], seed: u64, ends: &[usize]) -> [u64; 2] {
    let mut four = v4::StreamedKomihash::new_with_seed(seed);
    let mut five = v5::StreamedKomihash::new_with_seed(seed);
    let mut from = 0;
    for end in ends {
        assert!(rt; from <= *end && *end <= message.len());
        four.write(&message[from..*end]);
        five.write(&message[from..*end]);
        from = *end;
        let wanted = hashes(&message[..from], seed);
        assert_eq!(rt; [four.finish(), five.finish()], wanted, "{ends:?}");
        assert_eq!(rt; [four.finish(), five.finish()], wanted, "{ends:?}");
    }
    [four.finish(), five.finish()]
}

#[test]
fn finishes_alike_after_pieces_of_every_size(rt: HostRuntime) {
    let message = pattern();
    for n in 0..=200usize {
        for size in 1..=126usize {
            for seed in [0, u64::MAX] {
                let mut four = v4::StreamedKomihash::new_with_seed(seed);
                let mut five = v5::StreamedKomihash::new_with_seed(seed);
                for piece in message[..n].chunks(size) {
                    four.write(piece);
                    five.write(piece);
                }
                let wanted = hashes(&message[..n], seed);
                assert_eq!(rt; [four.finish(), five.finish()], wanted, "{n} by {size}");
            }
        }
    }
    for n in 0..=300usize {
        finish_pieces(&rt, &message, 0, &[n]);
        finish_pieces(&rt, &message, u64::MAX, &[n]);
    }
}

// Writes zeros at once after every number of pending bytes.
#[test]
fn completes_a_partial_block(rt: HostRuntime) {
    for pending_len in 0..64usize {
        let mut message = [0; 193];
        message[..pending_len].copy_from_slice(&pattern()[..pending_len]);
        for end in pending_len..=pending_len + 130 {
            finish_pieces(&rt, &message, 0, &[pending_len, end]);
        }
    }
}

// Old bytes of the buffer don't show in the next block, and version 4 keeps the top bit of a block.
#[test]
fn continues_after_finish(rt: HostRuntime) {
    let (mut ones, mut letters, mut zeros) = ([0xff; 65], [0xaa; 65], [0; 64]);
    ones[64] = 0;
    letters[63..].copy_from_slice(&[0xbb, 0xcc]);
    finish_pieces(&rt, &ones, 0, &[64, 65]);
    finish_pieces(&rt, &letters, 0, &[63, 64, 65]);
    for last in [0x80, 0x7f] {
        zeros[63] = last;
        finish_pieces(&rt, &zeros, 0, &[64]);
    }
}

// Cuts a message with these hashes in two at every index, with an empty write between, and into
// bytes. In each version, the hashes of its prefixes of `zeros` bytes and more are 0.
fn finish_known(rt: &impl Abort, message: &[u8], hashes: [u64; 2], zeros: [usize; 2]) {
    let length = message.len();
    assert!(rt; length <= 95);
    for cut in 0..=length {
        let last = finish_pieces(rt, message, 0, &[cut, cut, length]);
        assert_eq!(rt; last, hashes, "{length} bytes, cut at {cut}");
    }
    let mut ends = [0; 95];
    for n in 1..=length {
        ends[n - 1] = n;
        let given = finish_pieces(rt, message, 0, &ends[..n]);
        for i in 0..2usize {
            let wanted = if n < length { 0 } else { hashes[i] };
            assert!(rt; n < zeros[i] || given[i] == wanted, "{n} of {length} bytes");
        }
    }
}

// Each row is a message, its hashes in version 4 and in version 5, and `zeros` of each version.
#[test]
fn finishes_alike_however_known_messages_are_cut(rt: HostRuntime) {
    let rows: [(&[u8], [u64; 2], [usize; 2]); 4] = [
        (&HIGH_END, [7, 0x8000_0000_0000_0000], [31, 31]),
        (&SIX, [6, 6], [16, 16]),
        (&SIX_IN_FOUR, [6, 0x2073_08aa_ff8b_afbd], [80, 95]),
        (&SIX_IN_FIVE, [0x3d7d_a009_d026_8f13, 6], [95, 80]),
    ];
    for (message, hashes, zeros) in rows {
        finish_known(&rt, message, hashes, zeros);
    }
}

#[test]
fn a_thousand_empty_writes_change_nothing(rt: HostRuntime) {
    let of_none = finish_pieces(&rt, &[], 0, &[0; 1000]);
    let [_, of_block] = finish_pieces(&rt, &SIX_IN_FIVE, 0, &[64; 1001]);
    assert_eq!(rt; of_none, [EMPTY_HASH; 2]);
    assert_eq!(rt; of_block, BLOCK_HASH);
}
