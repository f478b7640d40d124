//! The stream of both versions.

ghost use Rattle.std.specs.Prelude.{◌≡◌, ◌+◌, ◌≤◌, length};
ghost use Rattle.komihash.specs.Counts.{Costs, absorb_products, absorb_kept_bytes};
ghost use Rattle.komihash.specs.Saved.{Stored, Restored};
ghost use Rattle.komihash.specs.Stream.{State, StateOf, IsState, absorb, Started, Absorbed, Answered};

use super::{KomiStream, LONGEST_TEXT, saved};
use crate::padding::{has_two, padding_after, pads_with_two};
use crate::pending::Pending;
use crate::rounds::{Lanes, absorb_blocks, block_round, close, join, lanes_of, places, seed_pair};
use crate::tally::Tally;
use crate::version::{IsVersion, Versions};
use crate::whole_words::round_each;
use std::marker::Model;

/// A stream: it takes a message in pieces, and returns the hash of all bytes so far at any time.
///
/// The hash is that of the joined bytes, however they are cut. There is no limit to their number.
/// Pieces of a multiple of 64 bytes are best: as long as all are, none is copied. Otherwise a write
/// copies into the stream the bytes that continue a partial block, and those that begin a new one:
/// at most 63 of each.
///
/// It is not for messages that an attacker may choose, whatever the seed is.
#[repr(C)]
#[derive(Drop)]
pub struct StreamedKomihash<const V: u8>
where
    Versions: IsVersion<V>,
{
    // This field is first, so that its words have the stream's address, which takes no register.
    pending: Pending,
    lanes: Lanes,
    // Whether a block was absorbed.
    had_block: bool,
    // In version 4, whether the last byte of the last block is at least 128.
    top_bit: bool,
    ghost is_state: { IsState V (record {
      lanes = lanes;
      pending = pending;
      had_block = had_block;
      top_bit = top_bit;
    }) },
}

impl<const V: u8> Model for StreamedKomihash<V>
where
    Versions: IsVersion<V>,
{
    ghost Value = { StateOf V };

    ghost view = { λ s. record {
      state = record {
        lanes = s.lanes;
        pending = s.pending;
        had_block = s.had_block;
        top_bit = s.top_bit;
      };
      is_state = s.is_state;
    } };
}

impl<const V: u8> StreamedKomihash<V>
where
    Versions: IsVersion<V>,
{
    /// Returns the new stream of seed 0.
    ///
    /// ```
    /// use komihash::StreamedKomihash;
    /// use std::sync::Mutex;
    /// static LOG: Mutex<StreamedKomihash> = Mutex::new(StreamedKomihash::new());
    /// LOG.lock().unwrap().write(b"port");
    /// ```
    // For Rust: const, must_use.
    pub fn new() -> Self
        ensures { Started V 0 result.state }
    {
        StreamedKomihash::new_with_seed(0)
    }

    /// Returns the new stream of a seed.
    ///
    /// ```
    /// use komihash::v5::{StreamedKomihash, komihash};
    /// let mut stream = StreamedKomihash::new_with_seed(7);
    /// stream.write(b"p");
    /// assert_eq!(stream.finish(), komihash(b"p", 7));
    /// stream.write(b"ort");
    /// assert_eq!(stream.finish(), komihash(b"port", 7));
    /// ```
    // For Rust: const, must_use, shared.
    pub fn new_with_seed(seed: u64) -> Self
        ensures { Started V seed result.state }
    {
        StreamedKomihash::begin(seed, &mut Tally::new())
    }

    // Returns the new stream of a seed. In Rust, this is `const`, as no method of a trait can be.
    #[inline(always)]
    #[tactic(auto, unfolding(crate::specs::Stream::HasAbsorbed, crate::specs::Stream::absorb))]
    const fn begin(seed: u64, tally: &mut Tally) -> Self
        ensures started { Started V seed result.state }
        ensures costs { Costs tally 1 0 }
    {
        StreamedKomihash {
            pending: Pending::new(),
            lanes: lanes_of(seed_pair(seed, tally)),
            had_block: false,
            top_bit: false,
        }
    }

    // Absorbs bytes that complete a block or more. Copies those that complete the partial block, if
    // there is one, and those after the last block. It stays out of callers, which would get long.
    #[inline(never)]
    #[tactic(auto, using(crate::proofs::Streams::blocks_completed))]
    fn complete_blocks(&mut self, bytes: &[u8], tally: &mut Tally)
        requires { 64 ≤ length self.old.state.pending + length bytes.now }
        ensures state { self.new.state ≡ absorb V self.old.state bytes.now }
        ensures costs { Costs tally
            (absorb_products (length self.old.state.pending) (length bytes.now))
            (absorb_kept_bytes (length self.old.state.pending) (length bytes.now)) }
    {
        let pending_len = self.pending.len();
        let blocks_end = bytes.len() - (pending_len + bytes.len()) % 64;
        // The first test keeps version 5 from computing an index and reading a byte.
        self.top_bit = has_two::<V>() && pads_with_two::<V>(bytes[blocks_end - 1]);
        self.had_block = true;
        let mut lanes: Lanes;
        let mut rest = bytes;
        let none_pending = pending_len == 0;
        if none_pending {
            lanes = self.lanes;
        } else {
            let (front, after) = bytes.split_at(64 - pending_len);
            rest = after;
            let block = self.pending.complete(front, tally);
            // The lanes are read after `complete`, which needs the registers itself.
            lanes = self.lanes;
            block_round(&mut lanes, &block, places::<V>(), tally);
        }
        let left = absorb_blocks::<V>(&mut lanes, rest, tally);
        self.lanes = lanes;
        self.pending.append_to_none(left, tally);
    }

    /// Absorbs any number of bytes.
    ///
    /// `ab` and then `c` give the hash of `a` and then `bc`. So where a message has several
    /// parts, write the length of each before it.
    ///
    /// ```
    /// use komihash::v5::StreamedKomihash;
    /// let mut stream = StreamedKomihash::new();
    /// for part in ["po", "rt"] {
    ///     stream.write(&(part.len() as u64).to_le_bytes());
    ///     stream.write(part.as_bytes());
    /// }
    /// let hash = stream.finish();
    /// ```
    // For Rust: shared.
    pub fn write(&mut self, bytes: &[u8])
        ensures { Absorbed V (λ stream. stream.state) self bytes.now }
    {
        self.absorb(bytes, &mut Tally::new());
    }

    /// Returns the hash of all bytes so far. The stream is unchanged, and may absorb more.
    ///
    /// ```
    /// use komihash::v5::{StreamedKomihash, komihash};
    /// let mut stream = StreamedKomihash::new();
    /// assert_eq!(stream.finish(), komihash(b"", 0));
    /// stream.write(b"port");
    /// assert_eq!([stream.finish(), stream.finish()], [komihash(b"port", 0); 2]);
    /// ```
    // For Rust: must_use, shared.
    pub fn finish(&self) -> u64
        ensures { Answered V self.now.state result }
    {
        self.answer(&mut Tally::new())
    }

    /// Writes the saved text of the stream to the front of `out`, and returns the text's length in
    /// bytes: 68, and one for each pending byte. The rest of `out` is unchanged.
    ///
    /// `out` needs room for [`LONGEST_TEXT`] bytes, whatever is pending. `resume` makes the same
    /// stream from the text, also on another machine. The text is bytes, not UTF-8: one each for
    /// the version, for whether a block was absorbed, for the top bit of the last block's last byte
    /// in version 4 (0 in version 5), and for the number of pending bytes; the eight lanes, the lowest
    /// byte first; and the pending bytes as they are. Keep the text as secret as the seed, which
    /// can be calculated from it until 64 bytes were absorbed, and until 128 by whoever knows the
    /// first 64.
    ///
    /// # Panics
    ///
    /// If `out.len()` is less than `LONGEST_TEXT`.
    ///
    /// ```
    /// use komihash::stream::LONGEST_TEXT;
    /// use komihash::v5::{StreamedKomihash, komihash};
    /// let mut stream = StreamedKomihash::new();
    /// stream.write(b"p");
    /// let mut text = [0; LONGEST_TEXT];
    /// let length = stream.save(&mut text);
    /// let mut resumed = StreamedKomihash::resume(&text[..length]).unwrap();
    /// resumed.write(b"ort");
    /// assert_eq!(resumed.finish(), komihash(b"port", 0));
    /// ```
    // For Rust: must_use.
    #[track_caller]
    #[inline]
    pub fn save(&self, out: &mut [u8]) -> usize
        requires { LONGEST_TEXT ≤ length out.old }
        ensures { Stored V self.now.state out result }
    {
        self.store(out)
    }

    /// Returns the stream that has these bytes as its saved text, or `None` if they don't have the
    /// form of one in this version. There is no checksum: most damaged texts have this form.
    ///
    /// ```
    /// use komihash::v5::StreamedKomihash;
    /// let stream = StreamedKomihash::resume(b"not a saved text");
    /// assert!(stream.is_none());
    /// ```
    // For Rust: must_use.
    #[inline]
    pub fn resume(bytes: &[u8]) -> Option<Self>
        ensures { Restored V (λ stream. stream.state) bytes.now result }
    {
        StreamedKomihash::restore(bytes)
    }
}

impl<const V: u8> Default for StreamedKomihash<V>
where
    Versions: IsVersion<V>,
{
    ghost is_default = { λ s. Started V 0 s.state };

    /// Returns the new stream of seed 0.
    fn default() -> Self {
        StreamedKomihash::new()
    }
}

impl<const V: u8> KomiStream for StreamedKomihash<V>
where
    Versions: IsVersion<V>,
{
    const VERSION: u8 = V;

    ghost VERSION = { V };

    ghost state = { λ s. s.state };

    fn start(seed: u64, tally: &mut Tally) -> Self {
        StreamedKomihash::begin(seed, tally)
    }

    // In Rust, LLVM would not inline this and `answer` by itself in a crate that calls them more
    // than once, and couldn't use that a new stream is empty.
    #[inline(always)]
    #[tactic(auto, unfolding(crate::specs::Stream::HasAbsorbed), using(crate::proofs::Streams::more_absorbed))]
    fn absorb(&mut self, bytes: &[u8], tally: &mut Tally) {
        let is_partial = self.pending.len() + bytes.len() < 64;
        if is_partial {
            self.pending.append(bytes, tally);
        } else {
            self.complete_blocks(bytes, tally);
        }
    }

    #[inline(always)]
    #[tactic(auto, using(crate::proofs::WholeWords::read_words))]
    fn answer(&self, tally: &mut Tally) -> u64 {
        let pair = join(&self.lanes, self.had_block);
        let none_pending = self.pending.len() == 0;
        if none_pending {
            // The padding byte of the last block, or 0 if no block was absorbed.
            let had_block = self.had_block;
            let end = if had_block {
                padding_after(self.top_bit)
            } else {
                0
            };
            return close(pair, end, 0, tally);
        }
        // The rounds come first, because they need the registers that the last two words take.
        let pair = round_each(pair, &self.pending, tally);
        let (first, second) = self.pending.last_two::<V>();
        close(pair, first, second, tally)
    }

    #[tactic(auto, unfolding(crate::specs::Saved::text), using(crate::proofs::SavedTexts::store_laws))]
    #[inline]
    fn store(&self, out: &mut [u8]) -> usize {
        saved::write_head::<V>(self.had_block, self.top_bit, self.pending.len(), out);
        saved::write_lanes(&self.lanes, out);
        saved::write_pending(&self.pending, out)
    }

    #[tactic(auto, unfolding(crate::specs::Saved::IsTextAfter))]
    #[inline]
    fn restore(bytes: &[u8]) -> Option<Self> {
        if !saved::is_text::<V>(bytes) {
            return None;
        }
        let had_block = bytes[1] == 1;
        let top_bit = bytes[2] == 1;
        Some(StreamedKomihash {
            pending: saved::read_pending(bytes),
            lanes: saved::read_lanes(bytes),
            had_block,
            top_bit,
        })
    }

    // `⟦..⟧` names the impl of `IsVersion` for V, which says that V is 4 or 5.
    ghost versions = { ⟦<Versions as IsVersion<V>>⟧.is_version };

    ghost is_state = { λ s. s.is_state };
}
