//! The padding of a message: its padding byte, its final word, its padded words, and the message
//! whose padded words are given.

ghost use Rattle.std.specs.Prelude.{◌≡◌, ◌+◌, ◌*◌, ◌/◌, ◌^◌, ◌<◌, ◌≤◌, ◌↔◌, IsTrue};
ghost use Rattle.std.specs.Prelude.{ℕ, List, IfSome, IfNone, length, take, drop, slice_index};
ghost use Rattle.komihash.specs.Padding.{ArePadded, Unpadded, padded_words};
ghost use Rattle.komihash.specs.Padding.{has_two, pads_with_two, padding_after, padding_byte};
ghost use Rattle.komihash.specs.Internals.{IsHighestByte, final_word};
ghost use Rattle.komihash.specs.Words.{AreBytes, all_bytes};

use crate::utils::{last_word, read_partial_word, read_whole_words, write_first_bytes};
use crate::version::{IsVersion, Versions};

/// Returns whether version V has the padding byte 2.
#[inline(always)]
pub(crate) fn has_two<const V: u8>() -> bool
    ensures { result ≡ has_two V }
{
    V == 4
}

/// Returns whether the padding byte after `byte` is 2: if version V has it, and the byte's top bit is
/// set.
#[inline(always)]
pub(crate) fn pads_with_two<const V: u8>(byte: u8) -> bool
    ensures { result ≡ pads_with_two V byte }
{
    has_two::<V>() && byte >= 128
}

/// Returns the padding byte: 2 if `pads_with_two` holds for the last byte, otherwise 1.
#[inline(always)]
pub(crate) fn padding_after(top_bit: bool) -> u64
    ensures { result ≡ padding_after top_bit }
{
    1 + u64::from(top_bit)
}

/// Returns the padding byte of a message that isn't empty.
#[inline(always)]
pub(crate) fn padding_byte<const V: u8>(message: &[u8]) -> u64
    requires { 0 < length message.now }
    ensures byte { result ≡ padding_byte V message.now }
    ensures small { result < 4 }
{
    // Version 5 reads no byte for it.
    let has_two = has_two::<V>();
    if has_two {
        padding_after(pads_with_two::<V>(message[message.len() - 1]))
    } else {
        1
    }
}

/// Returns the final word of eight or more bytes: the bytes after the last whole word, and `end`.
///
/// Reads the last eight bytes, and shifts out those of the last whole word. If no byte comes after
/// that word, the shift is by 64, which `>>` doesn't allow. So it shifts twice. A branch would be
/// faster for whole words, but a processor can't guess it where lengths vary.
#[inline(always)]
#[tactic(auto, using(crate::proofs::PaddedWords::final_word_many))]
pub(crate) fn final_word_of_many(bytes: &[u8], end: u64) -> u64
    requires at_least_8 { 8 ≤ length bytes.now }
    requires end { end < 4 }
    ensures { result ≡ final_word bytes.now end }
{
    let eight = last_word(bytes);
    let shift = 8 * (bytes.len() % 8);
    (eight >> 1) >> (63 - shift) | end << shift
}

/// Writes the padded words of a message in version V, and returns how many they are.
///
/// # Panics
///
/// If `out.len()` is less than `bytes.len() / 8 + 1`.
///
/// ```
/// use komihash::version::pad;
/// let mut words = [0; 1];
/// assert_eq!(pad::<4>(&[0x80], &mut words), 1);
/// assert_eq!(words, [0x0280]);
/// assert_eq!(pad::<5>(&[0x80], &mut words), 1);
/// assert_eq!(words, [0x0180]);
/// ```
#[tactic(auto, using(crate::proofs::PaddedWords::pad_laws))]
#[inline]
pub fn pad<const V: u8>(bytes: &[u8], out: &mut [u64]) -> usize
where
    Versions: IsVersion<V>,
    requires { length bytes.now / 8 + 1 ≤ length out.old }
    // These are the fields of `Padded`, one by one, because the search then proves more.
    ensures count { result ≡ length bytes.now / 8 + 1 }
    ensures padded { take result out.new ≡ padded_words V bytes.now }
    ensures only { (m : List ℕ) → AreBytes m → padded_words V m ≡ padded_words V bytes.now
        → m ≡ bytes.now }
    ensures rest { drop result out.new ≡ drop result out.old }
{
    let whole = bytes.len() / 8;
    let has_whole_word = whole > 0;
    let final_word: u64 = if has_whole_word {
        final_word_of_many(bytes, padding_byte::<V>(bytes))
    } else if bytes.is_empty() {
        0
    } else {
        read_partial_word(bytes, padding_byte::<V>(bytes))
    };
    read_whole_words(bytes, out);
    out[whole] = final_word;
    whole + 1
}

// Returns the index of a word's highest byte that is not 0.
#[inline(always)]
#[tactic(auto, using(crate::proofs::Unpadding::highest))]
fn highest_place(word: u64) -> usize
    requires { 0 < word }
    ensures { IsHighestByte word result }
{
    (word.ilog2() / 8) as usize
}

// Returns the byte at index `at` of words, the lowest byte of each word first.
#[inline(always)]
#[tactic(auto, using(crate::proofs::Unpadding::byte_of_words))]
fn byte_at(words: &[u64], at: usize) -> u8
    requires { at < 8 * length words.now }
    ensures { result ≡ slice_index (all_bytes words.now) at }
{
    words[at / 8].to_le_bytes()[at % 8]
}

// Returns whether `byte` is the padding byte of the first `count` bytes of words.
#[inline(always)]
#[tactic(auto, using(crate::proofs::Unpadding::padding_byte_at))]
fn is_padding_byte<const V: u8>(byte: u64, words: &[u64], count: usize) -> bool
    requires some { 0 < count }
    requires within { count ≤ 8 * length words.now }
    ensures { IsTrue result ↔ (byte ≡ padding_byte V (take count (all_bytes words.now))) }
{
    byte == padding_after(pads_with_two::<V>(byte_at(words, count - 1)))
}

// Returns the length in bytes of the message that has these padded words in version V, or `None`
// if no message has them.
//
// The padding byte can only be the last word's highest byte that is not 0. The byte before it
// decides whether it is.
#[inline(always)]
fn message_length<const V: u8>(words: &[u64]) -> Option<usize>
    requires { 8 * length words.now < 2 ^ 64 }
    ensures length { IfSome result (λ n. n / 8 + 1 ≡ length words.now) }
    ensures message { IfSome result
        (λ n. padded_words V (take n (all_bytes words.now)) ≡ words.now) }
    ensures none { IfNone result (¬ ArePadded V words.now) }
{
    let count = words.len();
    if count == 0 {
        return None;
    }
    let last = words[count - 1];
    let is_zero = last == 0;
    if is_zero {
        let is_one_word = count == 1;
        return if is_one_word { Some(0) } else { None };
    }
    let place = highest_place(last);
    let length = 8 * (count - 1) + place;
    let is_without_bytes = length == 0;
    if is_without_bytes {
        return None;
    }
    if is_padding_byte::<V>(last >> (8 * place), words, length) {
        Some(length)
    } else {
        None
    }
}

/// Writes the message that has these padded words in version V to the front of `out`, and returns
/// its length in bytes. Returns `None`, with `out` unchanged, if no message has these words.
///
/// # Panics
///
/// If `out.len()` is less than `8 * words.len()`.
///
/// ```
/// use komihash::version::unpad;
/// let mut message = [0; 8];
/// assert_eq!(unpad::<4>(&[0x0280], &mut message), Some(1));
/// assert_eq!(message[0], 0x80);
/// assert_eq!(unpad::<5>(&[0x0280], &mut message), None);
/// ```
// For Rust: must_use.
#[tactic(auto, using(crate::proofs::Unpadding::unpad_laws))]
#[inline]
pub fn unpad<const V: u8>(words: &[u64], out: &mut [u8]) -> Option<usize>
where
    Versions: IsVersion<V>,
    requires { 8 * length words.now ≤ length out.old }
    ensures { Unpadded V words.now out result }
{
    let count = message_length::<V>(words)?;
    write_first_bytes(words, count, out);
    Some(count)
}
