//! The steps of the hash: seeding, lanes, block rounds, joining, pair rounds, closing.
//!
//! Only which words are multiplied with each other depends on the version.

ghost use Rattle.std.specs.Prelude.{◌≡◌, ◌+◌, ◌*◌, ◌/◌, ◌%◌, ◌<◌, ◌≤◌, [], ◌∷◌};
ghost use Rattle.std.specs.Prelude.{All, length, bit_xor};
ghost use Rattle.std.proofs.Common.{refl};
ghost use Rattle.komihash.specs.Counts.{Costs};
ghost use Rattle.komihash.specs.Rounds.{low, high, plus, seed_words, mix, seed_pair, lanes, places};
ghost use Rattle.komihash.specs.Rounds.{Lanes, in_order, block_round_by, block_round, join};
ghost use Rattle.komihash.specs.Rounds.{pair_round, mix_again, closing};
ghost use Rattle.komihash.specs.Internals.{xor_again, pair_of};
ghost use Rattle.komihash.specs.Internals.{whole_words, block_lanes, after_blocks};

use crate::tally::Tally;
use crate::utils::{multiply128, word_at};
use std::marker::Model;

// The hash's eight constants: the first 512 bits of the fractional part of pi.
const C1: u64 = 0x243f_6a88_85a3_08d3;

const C2: u64 = 0x1319_8a2e_0370_7344;

const C3: u64 = 0xa409_3822_299f_31d0;

const C4: u64 = 0x082e_fa98_ec4e_6c89;

const C5: u64 = 0x4528_21e6_38d0_1377;

const C6: u64 = 0xbe54_66cf_34e9_0c6c;

const C7: u64 = 0xc0ac_29b7_c97c_50dd;

const C8: u64 = 0x3f84_d5b5_b547_0917;

/// The pair (a, e), stored as `low`, which is a ^ e, and `e`.
///
/// After a product, `low` is its low half, and `e` the word to which its high half was added. The
/// word a is computed only for a factor and as the hash, so the way from one product to the next is
/// one xor shorter.
#[repr(C)]
#[derive(Clone, Copy)]
pub(crate) struct XoredPair {
    low: u64,
    e: u64,
}

/// The eight lanes as the code stores them: four pairs in a ring, one for each product of a block.
///
/// s5 to s8 are the words `e` of the pairs. s1 to s4 are their words `low`, each xor the word `e` of
/// the pair before it. The fourth pair is the one before the first, so it stands there.
#[repr(C)]
#[derive(Clone, Copy)]
pub(crate) struct Lanes {
    fourth: XoredPair,
    first: XoredPair,
    second: XoredPair,
    third: XoredPair,
}

impl Model for Lanes {
    ghost Value = { Lanes };

    ghost view = { λ l. record {
      s1 = bit_xor l.fourth.e l.first.low;
      s2 = bit_xor l.first.e l.second.low;
      s3 = bit_xor l.second.e l.third.low;
      s4 = bit_xor l.third.e l.fourth.low;
      s5 = l.first.e;
      s6 = l.second.e;
      s7 = l.third.e;
      s8 = l.fourth.e;
    } };

    ghost inverse = { λ s. record {
      fourth = record { low = bit_xor s.s7 s.s4; e = s.s8 };
      first = record { low = bit_xor s.s8 s.s1; e = s.s5 };
      second = record { low = bit_xor s.s5 s.s2; e = s.s6 };
      third = record { low = bit_xor s.s6 s.s3; e = s.s7 };
    } };

    ghost inverse_ok = { λ l _.
        rw (
          xor_again l.third.e l.fourth.low,
          xor_again l.fourth.e l.first.low,
          xor_again l.first.e l.second.low,
          xor_again l.second.e l.third.low,
        ) refl };
}

/// Mixes the product of `x` and `y` into the word `e`, and returns the pair.
#[inline(always)]
#[tactic(auto, unfolding(crate::specs::Rounds::mix))]
pub(crate) const fn mix(x: u64, y: u64, e: u64, tally: &mut Tally) -> XoredPair
    ensures pair { pair_of result ≡ mix x y e }
    ensures low { result.low ≡ low (x * y) }
    ensures raised { result.e ≡ plus e (high (x * y)) }
    ensures costs { Costs tally 1 0 }
{
    let (low, high) = multiply128(x, y, tally);
    XoredPair {
        low,
        e: e.wrapping_add(high),
    }
}

#[inline(always)]
pub(crate) const fn seed_words(seed: u64) -> (u64, u64)
    ensures { result ≡ seed_words seed }
{
    (
        C1 ^ (seed & 0x5555_5555_5555_5555),
        C5 ^ (seed & 0xaaaa_aaaa_aaaa_aaaa),
    )
}

/// Returns the pair that a hash with the seed begins with.
#[inline(always)]
pub(crate) const fn seed_pair(seed: u64, tally: &mut Tally) -> XoredPair
    ensures pair { pair_of result ≡ seed_pair seed }
    ensures costs { Costs tally 1 0 }
{
    let (a, e) = seed_words(seed);
    mix(a, e, e, tally)
}

#[inline(always)]
pub(crate) const fn lanes_of(pair: XoredPair) -> Lanes
    ensures { result ≡ lanes (pair_of pair) }
{
    Lanes {
        fourth: XoredPair {
            low: (C4 ^ C7) ^ pair.low,
            e: C8 ^ pair.e,
        },
        first: XoredPair {
            low: C8 ^ pair.low,
            e: pair.e,
        },
        second: XoredPair {
            low: C2 ^ pair.low,
            e: C6 ^ pair.e,
        },
        third: XoredPair {
            low: (C3 ^ C6) ^ pair.low,
            e: C7 ^ pair.e,
        },
    }
}

/// Returns the lanes in their order, s1 first.
#[inline(always)]
pub(crate) fn in_order(lanes: &Lanes) -> [u64; 8]
    ensures { result ≡ in_order lanes.now }
{
    let fourth = lanes.fourth;
    let first = lanes.first;
    let second = lanes.second;
    let third = lanes.third;
    [
        fourth.e ^ first.low,
        first.e ^ second.low,
        second.e ^ third.low,
        third.e ^ fourth.low,
        first.e,
        second.e,
        third.e,
        fourth.e,
    ]
}

/// Returns the lanes from their words in that order.
#[inline(always)]
#[tactic(auto, using(crate::proofs::SavedTexts::lanes_of_words))]
pub(crate) fn from_order(lanes: &[u64; 8]) -> Lanes
    ensures { in_order result ≡ lanes.now }
{
    Lanes {
        fourth: XoredPair {
            low: lanes[6] ^ lanes[3],
            e: lanes[7],
        },
        first: XoredPair {
            low: lanes[7] ^ lanes[0],
            e: lanes[4],
        },
        second: XoredPair {
            low: lanes[4] ^ lanes[1],
            e: lanes[5],
        },
        third: XoredPair {
            low: lanes[5] ^ lanes[2],
            e: lanes[6],
        },
    }
}

/// Returns which words of a block are multiplied with each other: two indices for each product.
#[inline(always)]
pub(crate) fn places<const V: u8>() -> [usize; 8]
    ensures table { result ≡ places V }
    ensures within { All (λ place. place < 8) result }
{
    if V == 4 {
        [0, 1, 2, 3, 4, 5, 6, 7]
    } else {
        [0, 4, 1, 5, 2, 6, 3, 7]
    }
}

/// Absorbs a block of eight words, multiplied as the table `places` says.
/// In Rattle, one proof is for both versions then.
#[inline(always)]
#[tactic(auto, unfolding(crate::specs::Rounds::block_round_by), using(crate::proofs::Xor::reorder))]
pub(crate) fn block_round(
    lanes: &mut Lanes,
    words: &[u64; 8],
    places: [usize; 8],
    tally: &mut Tally,
)
    requires { All (λ place. place < 8) places }
    ensures lanes { lanes.new ≡ block_round_by places lanes.old words.now }
    ensures costs { Costs tally 4 0 }
{
    let fourth = lanes.fourth;
    let first = lanes.first;
    let second = lanes.second;
    let third = lanes.third;
    // These factors are made before the first product, so that each sum may overwrite its word e.
    // Each takes the low half of a product first, which is ready before the sum that follows.
    // In this order of products a block takes the fewest instructions.
    let x2 = (words[places[2]] ^ second.low) ^ first.e;
    let x3 = (words[places[4]] ^ third.low) ^ second.e;
    let x1 = (words[places[0]] ^ first.low) ^ fourth.e;
    let x4 = (words[places[6]] ^ fourth.low) ^ third.e;
    lanes.second = mix(words[places[3]] ^ second.e, x2, second.e, tally);
    lanes.first = mix(words[places[1]] ^ first.e, x1, first.e, tally);
    lanes.third = mix(words[places[5]] ^ third.e, x3, third.e, tally);
    lanes.fourth = mix(words[places[7]] ^ fourth.e, x4, fourth.e, tally);
}

#[inline(always)]
fn block_words(block: &[u8; 64]) -> [u64; 8]
    ensures { result ≡ whole_words block.now }
{
    [
        word_at(block, 0),
        word_at(block, 8),
        word_at(block, 16),
        word_at(block, 24),
        word_at(block, 32),
        word_at(block, 40),
        word_at(block, 48),
        word_at(block, 56),
    ]
}

/// Absorbs the first block, and returns the bytes after it. Absorbing these then gives the same
/// lanes and the same remainder as absorbing all of `bytes` at once.
#[inline(always)]
#[tactic(auto, using(crate::proofs::Blocks::one_block))]
pub(crate) fn absorb_first_block<'a, const V: u8>(
    lanes: &mut Lanes,
    bytes: &'a [u8],
    tally: &mut Tally,
) -> &'a [u8]
    requires { 64 ≤ length bytes.now }
    ensures length { length result.now + 64 ≡ length bytes.now }
    ensures left { after_blocks result.now ≡ after_blocks bytes.now }
    ensures lanes { block_lanes V lanes.new (whole_words result.now)
        ≡ block_lanes V lanes.old (whole_words bytes.now) }
    ensures costs { Costs tally 4 0 }
{
    let (block, rest) = bytes.split_first_chunk::<64>().unwrap();
    let words = block_words(block);
    block_round(lanes, &words, places::<V>(), tally);
    rest
}

/// Does what `absorb_blocks` does for bytes with one whole block, and so without a loop.
/// In Rattle, it is apart from `absorb_first_block` for its proof alone.
#[inline(always)]
#[tactic(auto, using(crate::proofs::Blocks::no_block))]
pub(crate) fn absorb_only_block<'a, const V: u8>(
    lanes: &mut Lanes,
    bytes: &'a [u8],
    tally: &mut Tally,
) -> &'a [u8]
    requires least { 64 ≤ length bytes.now }
    requires most { length bytes.now < 128 }
    ensures left { result.now ≡ after_blocks bytes.now }
    ensures length { length result.now ≡ length bytes.now % 64 }
    ensures lanes { lanes.new ≡ block_lanes V lanes.old (whole_words bytes.now) }
    ensures costs { Costs tally 4 0 }
{
    absorb_first_block::<V>(lanes, bytes, tally)
}

/// Absorbs each whole block of the bytes, and returns the bytes after them, fewer than 64.
#[inline(always)]
#[tactic(auto, using(crate::proofs::Blocks::no_block))]
pub(crate) fn absorb_blocks<'a, const V: u8>(
    lanes: &mut Lanes,
    bytes: &'a [u8],
    tally: &mut Tally,
) -> &'a [u8]
    ensures left { result.now ≡ after_blocks bytes.now }
    ensures length { length result.now ≡ length bytes.now % 64 }
    ensures lanes { lanes.new ≡ block_lanes V lanes.old (whole_words bytes.now) }
    ensures costs { Costs tally (4 * (length bytes.now / 64)) 0 }
{
    let mut rest = bytes;
    // Two blocks per turn take fewer instructions than one.
    if rest.len() / 64 % 2 == 1 {
        rest = absorb_first_block::<V>(lanes, rest, tally);
    }
    'whole: while rest.len() >= 128 {
        let after = absorb_first_block::<V>(lanes, rest, tally);
        rest = absorb_first_block::<V>(lanes, after, tally);
    }
    rest
}

/// Returns the pair of the lanes: s1 to s4 xored and s5 to s8 xored if a block was absorbed,
/// otherwise s1 and s5.
#[inline(always)]
#[tactic(auto, using(crate::proofs::Xor::join_lanes))]
pub(crate) fn join(lanes: &Lanes, had_block: bool) -> XoredPair
    ensures { pair_of result ≡ join had_block lanes.now }
{
    let fourth = lanes.fourth;
    let first = lanes.first;
    let second = lanes.second;
    let third = lanes.third;
    if had_block {
        XoredPair {
            low: first.low ^ second.low ^ third.low ^ fourth.low,
            e: first.e ^ second.e ^ third.e ^ fourth.e,
        }
    } else {
        XoredPair {
            low: fourth.e ^ first.low ^ first.e,
            e: first.e,
        }
    }
}

#[inline(always)]
#[tactic(auto, using(crate::proofs::Xor::xor_late))]
pub(crate) fn pair_round(pair: XoredPair, w0: u64, w1: u64, tally: &mut Tally) -> XoredPair
    ensures pair { pair_of result ≡ pair_round (pair_of pair) w0 w1 }
    ensures costs { Costs tally 1 0 }
{
    mix((w0 ^ pair.low) ^ pair.e, w1 ^ pair.e, pair.e, tally)
}

// Returns the hash from the pair of the closing's first mix.
#[inline(always)]
fn mix_again(pair: XoredPair, tally: &mut Tally) -> u64
    ensures hash { result ≡ mix_again (pair_of pair) }
    ensures costs { Costs tally 1 0 }
{
    let last = mix(pair.e ^ pair.low, pair.e, pair.e, tally);
    last.e ^ last.low
}

/// Returns the hash from a pair and the two words that are left, or the one that is left and 0.
#[inline(always)]
pub(crate) fn close(pair: XoredPair, first: u64, second: u64, tally: &mut Tally) -> u64
    ensures hash { result ≡ closing (pair_of pair) (first ∷ second ∷ []) }
    ensures alone { second ≡ 0 → result ≡ closing (pair_of pair) (first ∷ []) }
    ensures costs { Costs tally 2 0 }
{
    mix_again(pair_round(pair, first, second, tally), tally)
}
