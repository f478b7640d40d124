//! Known hashes, from the Rust crate and worked out by hand, the steps of the hash, and hashers.

ghost use Rattle.std.specs.Prelude.{◌≡◌, ℕ, ◌≤◌, List, ◌++◌, length};
ghost use Rattle.komihash.specs.Hash.{komi};

use super::messages::{
    BLOCK_HASH, EMPTY_HASH, HIGH_END, LANES, SIX, SIX_IN_FIVE, SIX_IN_FOUR, ZERO, pattern,
};
use crate::rounds::{in_order, lanes_of, pair_round, seed_pair, seed_words};
use crate::tally::Tally;
use crate::{v4, v5};
use std::hash::{BuildHasher, Hasher};
use std::process::Abort;

/// Returns the hash of a message in each version.
pub(crate) fn hashes(message: &[u8], seed: u64) -> [u64; 2] {
    [v4::komihash(message, seed), v5::komihash(message, seed)]
}

// Each row is a message and its hashes with seed 0 in version 4 and in version 5.
#[test]
fn hashes_known_messages(rt: HostRuntime) {
    assert_eq!(rt; hashes(&[], u64::MAX), [0x4bcc_041f_3f88_5859; 2]);
    let rows: [(&[u8], u64, u64); 10] = [
        (&[], EMPTY_HASH, EMPTY_HASH),
        (b"a", 0x5117_f506_4cfd_0faa, 0x5117_f506_4cfd_0faa),
        (&[0xdc], 0x471d_674f_df4d_a139, 0xfd45_482d_180d_0441),
        (&ZERO, 0, 0),
        (&HIGH_END, 7, 0x8000_0000_0000_0000),
        (&SIX, 6, 6),
        (&SIX_IN_FOUR[..64], BLOCK_HASH, 0xb2c9_abff_da7b_ea36),
        (&SIX_IN_FOUR, 6, 0x2073_08aa_ff8b_afbd),
        (&SIX_IN_FIVE[..64], 0x960d_596d_aa68_e0ca, BLOCK_HASH),
        (&SIX_IN_FIVE, 0x3d7d_a009_d026_8f13, 6),
    ];
    for (message, four, five) in rows {
        let n = message.len();
        assert_eq!(rt; hashes(message, 0), [four, five], "{n} bytes");
    }
}

// With up to seven more bytes after `ZERO`, whatever they are, the hash is 0.
fn zero_and_more()
    ensures { (v : ℕ) (bytes : List ℕ) → length bytes ≤ 7 → komi v 0 (ZERO ++ bytes) ≡ 0 }
{}

#[test]
fn stays_at_zero_until_the_last_byte(rt: HostRuntime) {
    zero_and_more();
    let mut message = pattern();
    message[..16].copy_from_slice(&ZERO);
    for n in 17..24usize {
        assert_eq!(rt; hashes(&message[..n], 0), [0; 2], "{n} bytes");
    }
    for n in 16..31usize {
        assert_eq!(rt; hashes(&SIX[..n], 0), [0; 2], "{n} bytes");
    }
    for n in 80..95usize {
        let four = v4::komihash(&SIX_IN_FOUR[..n], 0);
        let five = v5::komihash(&SIX_IN_FIVE[..n], 0);
        assert_eq!(rt; [four, five], [0; 2], "{n} bytes");
    }
}

// Each row is a seed, and the sums of the hashes of all prefixes of the pattern in version 4 and in
// version 5, as the Rust crate gives them. A sum depends on the order.
#[test]
fn hashes_every_length_as_the_rust_crate_does(rt: HostRuntime) {
    let (message, arbitrary) = (pattern(), 0x1d5c_8e2b_60f3_97a4);
    for (seed, wanted) in [
        (0, [0xc761_e2fb_2ab7_2cce, 0x209a_11db_4b56_10a5]),
        (u64::MAX, [0x36a1_5401_f459_b836, 0x2b42_7819_8267_30bd]),
        (arbitrary, [0x92af_eeab_c2ee_4ec0, 0x5bd6_0463_d324_c22f]),
    ] {
        let mut sums = [0u64; 2];
        for n in 0..=300usize {
            let hashes = hashes(&message[..n], seed);
            for i in 0..2usize {
                sums[i] = sums[i].rotate_left(1) ^ hashes[i];
            }
        }
        assert_eq!(rt; sums, wanted, "{seed:#x}");
    }
}

// The pair round is that of the words of `ZERO`. The lanes s1 and s5 are the words of its pair.
#[test]
fn makes_known_steps(rt: HostRuntime) {
    let tally = &mut Tally::new();
    let words = seed_words(u64::MAX);
    assert_eq!(rt; words, (0x716a_3fdd_d0f6_5d86, 0xef82_8b4c_927a_b9dd));
    let given = in_order(&lanes_of(seed_pair(0, tally)));
    for i in 0..8usize {
        let lane = given[i].to_le_bytes();
        assert_eq!(rt; lane.as_slice(), &LANES[8 * i..8 * i + 8], "lane {i}");
    }
    let [w0, w1] = [0xfe2d_11f5_1bf5_b723, 0xffff_ffff_ffff_fff1];
    let lanes = in_order(&lanes_of(pair_round(seed_pair(0, tally), w0, w1, tally)));
    assert_eq!(rt; [lanes[0], lanes[4]], [0x4ef2_e852_6fea_8bc8, 0]);
}

// Makes writes through the trait alone, and compares the number after them.
fn assert_writes<H: Hasher + Drop>(rt: &impl Abort, mut hasher: H, writes: &[&[u8]], last: u64) {
    for bytes in writes {
        hasher.write(bytes);
    }
    assert_eq!(rt; hasher.finish(), last, "{writes:?}");
}

#[test]
fn takes_each_hash_as_the_next_seed(rt: HostRuntime) {
    let world = v4::komihash(b"world", v4::komihash(b"hello", 0));
    assert_eq!(rt; world, 0x5d27_c8da_42bb_d50f, "as in the Rust crate");
    let rows: [(&[&[u8]], u64); 4] = [
        (&[&[]], EMPTY_HASH),
        (&[&ZERO], 0),
        (&[&ZERO, &ZERO], 0),
        (&[b"hello", b"world"], world),
    ];
    for (writes, last) in rows {
        assert_writes(&rt, v4::KomiHasher::default(), writes, last);
        assert_writes(&rt, v5::KomiHasher::default(), writes, last);
    }
    assert_writes(&rt, v4::KomiHasher::new(7), &[], 7);
    assert_writes(&rt, v5::KomiHasher::new(7), &[], 7);
    assert_writes(&rt, v4::KomiBuildHasher::new(7).build_hasher(), &[], 7);
    assert_writes(&rt, v5::KomiBuildHasher::new(7).build_hasher(), &[], 7);
}
