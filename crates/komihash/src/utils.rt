//! Words of eight bytes, the lowest byte first: read from bytes, written to bytes, multiplied.

ghost use Rattle.std.specs.Int.{to_le_bytes, w64};
ghost use Rattle.std.specs.Prelude.{◌≡◌, ◌+◌, ◌-◌, ◌*◌, ◌/◌, ◌^◌, ◌<◌, ◌≤◌};
ghost use Rattle.std.specs.Prelude.{[], ◌∷◌, ◌++◌, length, take, drop};
ghost use Rattle.komihash.specs.Counts.{Costs};
ghost use Rattle.komihash.specs.Rounds.{low, high};
ghost use Rattle.komihash.specs.Internals.{whole_words};
ghost use Rattle.komihash.specs.Words.{word_of, all_bytes};

use crate::tally::Tally;

#[inline(always)]
pub(crate) fn read_word(bytes: &[u8]) -> u64
    requires { 8 ≤ length bytes.now }
    ensures { result ≡ word_of (take 8 bytes.now) }
{
    u64::from_le_bytes(*bytes.first_chunk().unwrap())
}

#[inline(always)]
pub(crate) fn word_at(bytes: &[u8], at: usize) -> u64
    requires { at + 8 ≤ length bytes.now }
    ensures { result ≡ word_of (take 8 (drop at bytes.now)) }
{
    read_word(&bytes[at..])
}

/// Returns the word of the last eight bytes.
#[inline(always)]
pub(crate) fn last_word(bytes: &[u8]) -> u64
    requires { 8 ≤ length bytes.now }
    ensures { result ≡ word_of (take 8 (drop (length bytes.now - 8) bytes.now)) }
{
    u64::from_le_bytes(*bytes.last_chunk().unwrap())
}

#[inline(always)]
fn half_word_at(bytes: &[u8], at: usize) -> u64
    requires { at + 4 ≤ length bytes.now }
    ensures { result ≡ word_of (take 4 (drop at bytes.now)) }
{
    let piece = &bytes[at..];
    u64::from(u32::from_le_bytes([piece[0], piece[1], piece[2], piece[3]]))
}

/// Returns the word of at most seven bytes and the byte `end` after them.
///
/// Reads four bytes or more in two pieces, which may overlap. `end` follows the second piece, of
/// which a shift removes the bytes that the first has too. Fewer bytes are read at three indices,
/// however many there are, since a choice between two values costs less than a jump.
#[inline(always)]
pub(crate) fn read_partial_word(bytes: &[u8], end: u64) -> u64
    requires at_most_7 { length bytes.now ≤ 7 }
    requires byte { end < 2 ^ 8 }
    ensures { result ≡ word_of (bytes.now ++ end ∷ []) }
{
    let n = bytes.len();
    let has_half_word = n >= 4;
    if has_half_word {
        half_word_at(bytes, 0) | (half_word_at(bytes, n - 4) | end << 32) >> (64 - 8 * n) << 32
    } else if n > 0 {
        let middle = u64::from(bytes[n / 2]) << 8;
        let last = u64::from(bytes[n - 1]) << 16;
        let has_second = n > 1;
        let has_third = n > 2;
        let second = if has_second { middle } else { 0 };
        let third = if has_third { last } else { 0 };
        (u64::from(bytes[0]) + second + third) | end << (8 * n)
    } else {
        end
    }
}

/// Fills `out`, of eight bytes, with the bytes of a word.
///
/// Assigns an array, which is one store.
/// In Rattle, `copy_from_slice` also compares addresses.
#[inline(always)]
pub(crate) fn write_word(word: u64, out: &mut [u8])
    requires { length out.old ≡ 8 }
    ensures { out.new ≡ to_le_bytes w64 word }
{
    *out.first_chunk_mut().unwrap() = word.to_le_bytes();
}

// Fills `out` with bytes, N of both. Like `write_word`, it assigns an array.
#[inline(always)]
fn copy_array<const N: usize>(bytes: &[u8], out: &mut [u8])
    requires bytes { length bytes.now ≡ N }
    requires out { length out.old ≡ N }
    ensures { out.new ≡ bytes.now }
{
    *out.first_chunk_mut::<N>().unwrap() = *bytes.first_chunk().unwrap();
}

/// Fills `out`, of at most seven bytes, with the lowest bytes of a word.
#[inline(always)]
pub(crate) fn write_partial_word(word: u64, out: &mut [u8])
    requires at_most_7 { length out.old ≤ 7 }
    ensures { out.new ≡ take (length out.old) (to_le_bytes w64 word) }
{
    let bytes = word.to_le_bytes();
    let n = out.len();
    if n >= 4 {
        copy_array::<4>(&bytes[..4], &mut out[..4]);
        copy_array::<4>(&bytes[n - 4..n], &mut out[n - 4..]);
    } else if n >= 2 {
        copy_array::<2>(&bytes[..2], &mut out[..2]);
        copy_array::<2>(&bytes[n - 2..n], &mut out[n - 2..]);
    } else if n == 1 {
        out[0] = bytes[0];
    }
}

/// Writes the whole words of `bytes` to the front of `out`.
#[allow(clippy::needless_range_loop)]
#[inline(always)]
#[tactic(auto, using(crate::proofs::WholeWords::read_words))]
pub(crate) fn read_whole_words(bytes: &[u8], out: &mut [u64])
    requires { length bytes.now / 8 ≤ length out.old }
    ensures words { take (length bytes.now / 8) out.new ≡ whole_words bytes.now }
    ensures rest { drop (length bytes.now / 8) out.new ≡ drop (length bytes.now / 8) out.old }
{
    // In Rust, with one slice of each length, the loop tests no index.
    let words = bytes.as_chunks::<8>().0;
    let front = &mut out[..words.len()];
    'whole: for i in 0..words.len() {
        front[i] = u64::from_le_bytes(words[i]);
    }
}

/// Fills `out`, of eight bytes for each word, with the bytes of words.
#[inline(always)]
#[tactic(auto, using(crate::proofs::AllBytes::written))]
pub(crate) fn write_words(words: &[u64], out: &mut [u8])
    requires { length out.old ≡ 8 * length words.now }
    ensures { out.new ≡ all_bytes words.now }
{
    'words: for i in 0..words.len() {
        write_word(words[i], &mut out[8 * i..8 * i + 8]);
    }
}

/// Writes the first `count` bytes of `words` to the front of `out`.
#[inline(always)]
#[tactic(auto, using(crate::proofs::AllBytes::written))]
pub(crate) fn write_first_bytes(words: &[u64], count: usize, out: &mut [u8])
    requires within { count ≤ 8 * length words.now }
    requires room { count ≤ length out.old }
    ensures bytes { take count out.new ≡ take count (all_bytes words.now) }
    ensures rest { drop count out.new ≡ drop count out.old }
{
    let whole = count / 8;
    // In Rust, with one slice of each length, the loop tests no index.
    write_words(&words[..whole], &mut out[..8 * whole]);
    let has_remainder = count % 8 > 0;
    if has_remainder {
        write_partial_word(words[whole], &mut out[8 * whole..count]);
    }
}

/// Returns the low and the high half of the product of two words. No other code of this crate
/// multiplies two words.
#[inline(always)]
pub(crate) const fn multiply128(x: u64, y: u64, tally: &mut Tally) -> (u64, u64)
    ensures low { result.0 ≡ low (x * y) }
    ensures high { result.1 ≡ high (x * y) }
    ensures costs { Costs tally 1 0 }
{
    tally.raise(1, 0);
    let product = x as u128 * y as u128;
    (
        (product & 0xffff_ffff_ffff_ffff) as u64,
        (product >> 64) as u64,
    )
}
