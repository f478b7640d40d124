//! The whole words of a message or a stream, the pair rounds on them, and for messages the closing,
//! which takes the word that may be left and the final word.

#![tactic(auto, using(crate::proofs::WholeWords::read_words))]

ghost use Rattle.std.specs.Prelude.{◌≡◌, ℕ, ◌+◌, ◌-◌, ◌*◌, ◌/◌, ◌%◌, ◌<◌, ◌≤◌};
ghost use Rattle.std.specs.Prelude.{List, [], ◌∷◌, ◌++◌, length, drop, slice_index};
ghost use Rattle.komihash.specs.Counts.{Costs};
ghost use Rattle.komihash.specs.Hash.{hash_from_pair};
ghost use Rattle.komihash.specs.Internals.{pair_of, whole_words};

use crate::rounds::{XoredPair, close, pair_round};
use crate::tally::Tally;

/// Returns the last whole word of at least eight bytes.
#[inline(always)]
pub(crate) fn last_whole_word(bytes: &[u8]) -> u64
    requires { 8 ≤ length bytes.now }
    ensures { result ≡ slice_index (whole_words bytes.now) (length bytes.now / 8 - 1) }
{
    let words = bytes.as_chunks::<8>().0;
    u64::from_le_bytes(words[words.len() - 1])
}

/// Whole words, wherever they lie: in a message's bytes, or in the words of a stream.
pub(crate) trait WholeWords {
    ghost words: { Self → List ℕ };

    /// Returns how many words there are.
    fn count(&self) -> usize
        ensures { result ≡ length (words self.now) };

    /// Returns the word at index `at`.
    fn word(&self, at: usize) -> u64
        requires within { at < length (words self.now) }
        // For the search, which doesn't see that a stream has no more.
        requires below_8 { at < 8 }
        ensures { result ≡ slice_index (words self.now) at };
}

/// The whole words of a message's bytes. For the prover, no type parameter stands for `[u8]`, so the
/// impl is for `&[u8]`.
impl WholeWords for &[u8] {
    ghost words = { λ bytes. whole_words bytes.now };

    #[inline(always)]
    fn count(&self) -> usize {
        self.len() / 8
    }

    #[inline(always)]
    fn word(&self, at: usize) -> u64 {
        let words = self.as_chunks::<8>().0;
        u64::from_le_bytes(words[at])
    }
}

// Returns the pair after a round on the two words from index `at`. From it, the words after these
// give the hash that all from `at` on give from the pair before.
// In Rattle, it is apart for its proof alone.
#[inline(always)]
#[tactic(auto, using(crate::proofs::HashPaths::hash_from_pair_two))]
fn round_at<W: WholeWords>(pair: XoredPair, left: &W, at: usize, tally: &mut Tally) -> XoredPair
    requires within { at + 2 ≤ length (W.words left.now) }
    requires place { at < 7 }
    ensures hash { (final_word : ℕ)
        → hash_from_pair (pair_of result) (drop (at + 2) (W.words left.now) ++ final_word ∷ [])
        ≡ hash_from_pair (pair_of pair) (drop at (W.words left.now) ++ final_word ∷ []) }
    ensures costs { Costs tally 1 0 }
{
    pair_round(pair, left.word(at), left.word(at + 1), tally)
}

/// Returns the pair after a round on each two words. From this, the word that may remain gives the
/// hash that all words give from `pair`.
#[inline(always)]
pub(crate) fn round_each<W: WholeWords>(pair: XoredPair, left: &W, tally: &mut Tally) -> XoredPair
    requires { length (W.words left.now) < 8 }
    ensures hash { (final_word : ℕ) → hash_from_pair (pair_of result)
        (drop (length (W.words left.now) / 2 * 2) (W.words left.now) ++ final_word ∷ [])
        ≡ hash_from_pair (pair_of pair) (W.words left.now ++ final_word ∷ []) }
    ensures costs { Costs tally (length (W.words left.now) / 2) 0 }
{
    if left.count() < 2 {
        return pair;
    }
    let pair = round_at(pair, left, 0, tally);
    if left.count() < 4 {
        return pair;
    }
    let pair = round_at(pair, left, 2, tally);
    if left.count() < 6 {
        return pair;
    }
    round_at(pair, left, 4, tally)
}

/// Returns the hash from a pair, the whole words of fewer than 64 bytes, and the final word. The
/// last whole word is any word if there are none.
#[inline(always)]
#[tactic(auto, using(crate::proofs::WholeWords::read_words, std::proofs::lemmas::List::drop_all, std::proofs::lemmas::List::drop_more))]
pub(crate) fn hash_from_pair(
    pair: XoredPair,
    left: &[u8],
    last_whole_word: u64,
    final_word: u64,
    tally: &mut Tally,
) -> u64
    requires below_64 { length left.now < 64 }
    requires word { 8 ≤ length left.now
        → last_whole_word ≡ slice_index (whole_words left.now) (length left.now / 8 - 1) }
    ensures hash { result ≡ hash_from_pair (pair_of pair) (whole_words left.now ++ final_word ∷ []) }
    ensures costs { Costs tally (2 + length left.now / 16) 0 }
{
    let pair = round_each(pair, &left, tally);
    // The closing of one word is that of two, the second of which is 0. So it needs no jump.
    let (first, second) = if left.len() / 8 % 2 == 1 {
        (last_whole_word, final_word)
    } else {
        (final_word, 0)
    };
    close(pair, first, second, tally)
}
