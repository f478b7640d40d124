//! The promises of the calls of both versions. `StableNames` has the fields of the records.

ghost use Rattle.std.specs.Prelude.{◌≡◌, ◌+◌, ◌*◌, ◌/◌, ◌%◌, ◌≤◌, ◌⊎◌, ◌++◌, ◌∷◌, []};
ghost use Rattle.std.specs.Prelude.{ℕ, List, length, take, drop, Contains};
ghost use Rattle.komihash.specs.Calls.{answers, answers_after, onward, bytes_of_calls};
ghost use Rattle.komihash.specs.Calls.{onward_products, onward_kept_bytes};
ghost use Rattle.komihash.specs.Calls.{run_products, run_kept_bytes};
ghost use Rattle.komihash.specs.Counts.{Costs, absorb_products, answer_products, absorb_kept_bytes};
ghost use Rattle.komihash.specs.Generator.{next, after_steps, fill, after_fill};
ghost use Rattle.komihash.specs.Hash.{komi};
ghost use Rattle.komihash.specs.Hasher.{number_after};
ghost use Rattle.komihash.specs.Padding.{Padded, Unpadded};
ghost use Rattle.komihash.specs.Saved.{Stored, Restored};
ghost use Rattle.komihash.specs.Stream.{IsState, HasAbsorbed, Started, Absorbed, Answered};
ghost use Rattle.komihash.specs.declared.stream.Call.{Call};
ghost use Rattle.komihash.specs.declared.stream.Call.TheVariants.{Answer};

use komihash::stream::{Call, KomiStream, LONGEST_TEXT, run, run_on};
use komihash::tally::Tally;
use komihash::{v4, v5};
use std::hash::{BuildHasher, Hasher};

const _: () = prove!(LONGEST_TEXT == 131);

const _: () = prove!(size_of::<Tally>() == 0);

/// The words of generators that begin with one seed and with two, an output with the words after
/// it, and the words after a fill. `Komirand::words`, which isn't stable, shows them.
#[derive(Clone, Copy)]
pub struct Drawn {
    one: (u64, u64),
    two: (u64, u64),
    output: u64,
    next: (u64, u64),
    filled: (u64, u64),
}

/// The promises of a version, for the methods of its stream, and for what stands beside it.
pub trait Promises: KomiStream {
    /// Returns the new stream of a seed, and the two of seed 0.
    fn new_streams(seed: u64) -> (Self, Self, Self)
        ensures seed { Started Self.VERSION seed (Self.state result.0) }
        ensures new { Started Self.VERSION 0 (Self.state result.1) }
        ensures default { Started Self.VERSION 0 (Self.state result.2) };

    /// Writes bytes to the stream, and returns the hash of all bytes so far.
    fn written(&mut self, bytes: &[u8]) -> u64
        ensures write { Absorbed Self.VERSION Self.state self bytes.now }
        ensures finish { Answered Self.VERSION (Self.state self.new) result };

    /// Writes the saved text of the stream to the front of `out`.
    fn saved(&self, out: &mut [u8]) -> usize
        requires { LONGEST_TEXT ≤ length out.old }
        ensures { Stored Self.VERSION (Self.state self.now) out result };

    /// Returns the stream of a saved text, and accepts nothing else.
    fn resumed(bytes: &[u8]) -> Option<Self>
        ensures { Restored Self.VERSION Self.state bytes.now result };

    /// Returns the hash of a message twice. The second is counted, and copies no byte.
    fn hashed(bytes: &[u8], seed: u64, tally: &mut Tally) -> (u64, u64)
        ensures hash { result.0 ≡ komi Self.VERSION seed bytes.now }
        ensures counted { result.1 ≡ komi Self.VERSION seed bytes.now }
        ensures costs { Costs tally
            (3 + 4 * (length bytes.now / 64) + length bytes.now % 64 / 16) 0 };

    /// Writes the padded words of a message to the front of `out`.
    fn padded(bytes: &[u8], out: &mut [u64]) -> usize
        requires { length bytes.now / 8 + 1 ≤ length out.old }
        ensures { Padded Self.VERSION bytes.now out result };

    /// Writes the message that has these padded words, and accepts no other words.
    fn unpadded(words: &[u64], out: &mut [u8]) -> Option<usize>
        requires { 8 * length words.now ≤ length out.old }
        ensures { Unpadded Self.VERSION words.now out result };

    /// Returns the words of the generators of a seed and of two seeds, and what a step and a fill
    /// do from any words.
    fn drawn(s1: u64, s2: u64, buffer: &mut [u8]) -> Drawn
        ensures one { result.one ≡ after_steps Self.VERSION 4 (s1, s1) }
        ensures two { result.two ≡ after_steps Self.VERSION 4 (s1, s2) }
        ensures output { result.output ≡ (next Self.VERSION (s1, s2)).0 }
        ensures next { result.next ≡ next Self.VERSION (s1, s2) }
        ensures bytes { buffer.new ≡ fill Self.VERSION (s1, s2) (length buffer.old) }
        ensures filled { result.filled ≡ after_fill Self.VERSION (s1, s2) (length buffer.old) };

    /// Returns the number of the hasher of a number after a write, and that of the default hasher
    /// after two.
    fn chained(number: u64, first: &[u8], second: &[u8]) -> (u64, u64)
        ensures hash { result.0 ≡ komi Self.VERSION number first.now }
        ensures chain { result.1
            ≡ number_after Self.VERSION 0 (first.now ∷ second.now ∷ []) };

    /// Returns the numbers of the hashers that a map of a seed, and a default one, begin with.
    fn built(seed: u64) -> (u64, u64)
        ensures seed { result.0 ≡ seed }
        ensures default { result.1 ≡ 0 };
}

// `scripts/twins.py` makes this impl of the next one.
impl Promises for v4::StreamedKomihash {
    fn new_streams(seed: u64) -> (Self, Self, Self) {
        (Self::new_with_seed(seed), Self::new(), Self::default())
    }

    fn written(&mut self, bytes: &[u8]) -> u64 {
        self.write(bytes);
        self.finish()
    }

    fn saved(&self, out: &mut [u8]) -> usize {
        self.save(out)
    }

    fn resumed(bytes: &[u8]) -> Option<Self> {
        Self::resume(bytes)
    }

    fn hashed(bytes: &[u8], seed: u64, tally: &mut Tally) -> (u64, u64) {
        let hash = v4::komihash(bytes, seed);
        (hash, v4::komihash_counted(bytes, seed, tally))
    }

    fn padded(bytes: &[u8], out: &mut [u64]) -> usize {
        v4::pad(bytes, out)
    }

    fn unpadded(words: &[u64], out: &mut [u8]) -> Option<usize> {
        v4::unpad(words, out)
    }

    fn drawn(s1: u64, s2: u64, buffer: &mut [u8]) -> Drawn {
        let mut next = v4::Komirand::new(s1, s2);
        let mut filled = v4::Komirand::new(s1, s2);
        let output = next.next();
        filled.fill_bytes(buffer);
        Drawn {
            one: v4::Komirand::init(s1).words(),
            two: v4::Komirand::init_with_extra_seed(s1, s2).words(),
            output,
            next: next.words(),
            filled: filled.words(),
        }
    }

    fn chained(number: u64, first: &[u8], second: &[u8]) -> (u64, u64) {
        let mut hasher = v4::KomiHasher::new(number);
        let mut default = v4::KomiHasher::default();
        hasher.write(first);
        default.write(first);
        default.write(second);
        (hasher.finish(), default.finish())
    }

    fn built(seed: u64) -> (u64, u64) {
        let hasher: v4::KomiHasher = v4::KomiBuildHasher::new(seed).build_hasher();
        let default: v4::KomiHasher = v4::KomiBuildHasher::default().build_hasher();
        (hasher.finish(), default.finish())
    }
}

impl Promises for v5::StreamedKomihash {
    fn new_streams(seed: u64) -> (Self, Self, Self) {
        (Self::new_with_seed(seed), Self::new(), Self::default())
    }

    fn written(&mut self, bytes: &[u8]) -> u64 {
        self.write(bytes);
        self.finish()
    }

    fn saved(&self, out: &mut [u8]) -> usize {
        self.save(out)
    }

    fn resumed(bytes: &[u8]) -> Option<Self> {
        Self::resume(bytes)
    }

    fn hashed(bytes: &[u8], seed: u64, tally: &mut Tally) -> (u64, u64) {
        let hash = v5::komihash(bytes, seed);
        (hash, v5::komihash_counted(bytes, seed, tally))
    }

    fn padded(bytes: &[u8], out: &mut [u64]) -> usize {
        v5::pad(bytes, out)
    }

    fn unpadded(words: &[u64], out: &mut [u8]) -> Option<usize> {
        v5::unpad(words, out)
    }

    fn drawn(s1: u64, s2: u64, buffer: &mut [u8]) -> Drawn {
        let mut next = v5::Komirand::new(s1, s2);
        let mut filled = v5::Komirand::new(s1, s2);
        let output = next.next();
        filled.fill_bytes(buffer);
        Drawn {
            one: v5::Komirand::init(s1).words(),
            two: v5::Komirand::init_with_extra_seed(s1, s2).words(),
            output,
            next: next.words(),
            filled: filled.words(),
        }
    }

    fn chained(number: u64, first: &[u8], second: &[u8]) -> (u64, u64) {
        let mut hasher = v5::KomiHasher::new(number);
        let mut default = v5::KomiHasher::default();
        hasher.write(first);
        default.write(first);
        default.write(second);
        (hasher.finish(), default.finish())
    }

    fn built(seed: u64) -> (u64, u64) {
        let hasher: v5::KomiHasher = v5::KomiBuildHasher::new(seed).build_hasher();
        let default: v5::KomiHasher = v5::KomiBuildHasher::default().build_hasher();
        (hasher.finish(), default.finish())
    }
}

/// Shows that the names of the root are those of version 5.
pub fn by_the_names_of_the_root(
    bytes: &[u8],
    seed: u64,
    stream: komihash::StreamedKomihash,
    hasher: komihash::KomiHasher,
    generator: komihash::Komirand,
) -> (u64, v5::StreamedKomihash, v5::KomiHasher, v5::Komirand)
    ensures { result.0 ≡ komi 5 seed bytes.now }
{
    (komihash::komihash(bytes, seed), stream, hasher, generator)
}

/// Returns a new stream, a new tally, at the cost of one product, and the version.
pub fn started<S: KomiStream>(seed: u64) -> (S, Tally, u8)
    ensures version { result.2 ≡ S.VERSION }
    ensures versions { (S.VERSION ≡ 4) ⊎ (S.VERSION ≡ 5) }
    ensures state { IsState S.VERSION (S.state result.0) }
    ensures start { Started S.VERSION seed (S.state result.0) }
    ensures products { result.1.products ≡ 1 }
    ensures kept_bytes { result.1.kept_bytes ≡ 0 }
{
    let mut tally = Tally::new();
    (S::start(seed, &mut tally), tally, S::VERSION)
}

/// Absorbs bytes, and answers. Counts the products and the copied bytes of both.
pub fn absorbed<S: KomiStream>(stream: &mut S, bytes: &[u8], tally: &mut Tally) -> u64
    ensures absorb { Absorbed S.VERSION S.state stream bytes.now }
    ensures answer { Answered S.VERSION (S.state stream.new) result }
    ensures costs { Costs tally
        (absorb_products (length (S.state stream.old).pending) (length bytes.now)
        + answer_products (length (S.state stream.new).pending))
        (absorb_kept_bytes (length (S.state stream.old).pending) (length bytes.now)) }
{
    stream.absorb(bytes, tally);
    stream.answer(tally)
}

/// Writes the saved text of a stream to the front of `out`.
pub fn stored<S: KomiStream>(stream: &S, out: &mut [u8]) -> usize
    requires { LONGEST_TEXT ≤ length out.old }
    ensures { Stored S.VERSION (S.state stream.now) out result }
{
    stream.store(out)
}

/// Returns the stream of a saved text, and accepts nothing else.
pub fn restored<S: KomiStream>(bytes: &[u8]) -> Option<S>
    ensures { Restored S.VERSION S.state bytes.now result }
{
    S::restore(bytes)
}

/// Runs calls on a new stream. Each answer is the hash of the bytes so far. If the last call alone
/// is an answer, the products depend on the number of bytes alone, and not on the cuts.
#[tactic(auto, using(crate::proofs::WithoutAnswer::without_answer))]
pub fn run_of_calls<S: KomiStream>(
    seed: u64,
    calls: &[Call<'_>],
    out: &mut [u64],
    tally: &mut Tally,
) -> usize
    requires { length calls.now ≤ length out.old }
    ensures answers { take result out.new ≡ answers S.VERSION seed calls.now }
    ensures count { result ≡ length (answers S.VERSION seed calls.now) }
    ensures rest { drop result out.new ≡ drop result out.old }
    ensures costs { Costs tally (run_products calls.now) (run_kept_bytes calls.now) }
    ensures digest { (pieces : List Call) → ¬ Contains pieces Answer
        → calls.now ≡ pieces ++ Answer ∷ [] → tally.new.products ≡ tally.old.products
        + (3 + 4 * (length (bytes_of_calls pieces) / 64)
        + length (bytes_of_calls pieces) % 64 / 16) }
{
    run::<S>(seed, calls, out, tally)
}

/// Runs calls on a stream that is in any state.
pub fn run_of_further_calls<S: KomiStream>(
    stream: &mut S,
    calls: &[Call<'_>],
    out: &mut [u64],
    tally: &mut Tally,
) -> usize
    requires { length calls.now ≤ length out.old }
    ensures answers { take result out.new ≡ onward S.VERSION (S.state stream.old) calls.now }
    ensures count { result ≡ length (onward S.VERSION (S.state stream.old) calls.now) }
    ensures hashes { (seed : ℕ) (m : List ℕ) → HasAbsorbed S.VERSION seed (S.state stream.old) m
        → take result out.new ≡ answers_after (komi S.VERSION seed) m calls.now }
    ensures rest { drop result out.new ≡ drop result out.old }
    ensures absorbed { Absorbed S.VERSION S.state stream (bytes_of_calls calls.now) }
    ensures costs { Costs tally (onward_products (length (S.state stream.old).pending) calls.now)
        (onward_kept_bytes (length (S.state stream.old).pending) calls.now) }
{
    run_on(stream, calls, out, tally)
}

fn can_cross_threads<T: Send + Sync>() {}

/// Streams, hashers, what makes them, and generators can be sent to other threads, and shared with
/// them.
pub fn all_can_cross_threads() {
    can_cross_threads::<v4::StreamedKomihash>();
    can_cross_threads::<v5::StreamedKomihash>();
    can_cross_threads::<v4::KomiHasher>();
    can_cross_threads::<v5::KomiHasher>();
    can_cross_threads::<v4::KomiBuildHasher>();
    can_cross_threads::<v5::KomiBuildHasher>();
    can_cross_threads::<v4::Komirand>();
    can_cross_threads::<v5::Komirand>();
}

fn can_be_copied<T: Copy>() {}

/// A call can be copied, and so can what makes hashers.
pub fn these_can_be_copied() {
    can_be_copied::<Call<'_>>();
    can_be_copied::<v4::KomiBuildHasher>();
    can_be_copied::<v5::KomiBuildHasher>();
}
