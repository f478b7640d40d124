//! Callers whose proofs the search finds, though no example has their form.

ghost use Rattle.std.specs.Borrow.{Bor};
ghost use Rattle.std.specs.Int.{to_le_bytes, w16, w32, w64};
ghost use Rattle.std.specs.Prelude.{◌≡◌, ◌+◌, ◌≤◌, ◌++◌, ◌∷◌, [], ℕ, List, length, take};
ghost use Rattle.std.specs.Prelude.{Some, None};
ghost use Rattle.komihash.specs.Calls.{AreAbsorbs, answers, run_products};
ghost use Rattle.komihash.specs.Counts.{hash_products};
ghost use Rattle.komihash.specs.Generator.{after_fill, after_steps, fill, outputs};
ghost use Rattle.komihash.specs.Hash.{komi};
ghost use Rattle.komihash.specs.Stream.{HasAbsorbed};
ghost use Rattle.komihash.specs.declared.stream.Call.TheVariants.{Absorb, Answer};

use komihash::stream::{Call, KomiStream, run};
use komihash::tally::Tally;
use komihash::{KomiHasher, Komirand, StreamedKomihash, laws, v4, v5};
use std::hash::Hasher;

/// Numbers of each width, before and after bytes of any length.
pub fn around_bytes(a: u64, b: u32, bytes: &[u8], c: u64, d: u16, e: u8) -> u64
    ensures { result ≡ komi 5 0 (to_le_bytes w64 a ++ to_le_bytes w32 b ++ bytes.now
        ++ to_le_bytes w64 c ++ to_le_bytes w16 d ++ e ∷ []) }
{
    let mut stream = StreamedKomihash::new();
    stream.write(&a.to_le_bytes());
    stream.write(&b.to_le_bytes());
    stream.write(bytes);
    stream.write(&c.to_le_bytes());
    stream.write(&d.to_le_bytes());
    stream.write(&[e]);
    stream.finish()
}

/// Eight writes in a row.
pub fn of_eight(a: u16, b: u16, c: u32, d: u32, e: u64, f: u64, g: u16, h: u16) -> u64
    ensures { result ≡ komi 5 0 (to_le_bytes w16 a ++ to_le_bytes w16 b ++ to_le_bytes w32 c
        ++ to_le_bytes w32 d ++ to_le_bytes w64 e ++ to_le_bytes w64 f ++ to_le_bytes w16 g
        ++ to_le_bytes w16 h) }
{
    let mut stream = StreamedKomihash::new();
    stream.write(&a.to_le_bytes());
    stream.write(&b.to_le_bytes());
    stream.write(&c.to_le_bytes());
    stream.write(&d.to_le_bytes());
    stream.write(&e.to_le_bytes());
    stream.write(&f.to_le_bytes());
    stream.write(&g.to_le_bytes());
    stream.write(&h.to_le_bytes());
    stream.finish()
}

/// Two writes in either version, with their cost.
pub fn of_two_widths<S: KomiStream>(a: u32, b: u64, seed: u64, tally: &mut Tally) -> u64
    ensures hash { result ≡ komi S.VERSION seed (to_le_bytes w32 a ++ to_le_bytes w64 b) }
    ensures cost { tally.new.products ≡ tally.old.products + 3 }
{
    laws::pending_remainder();
    let mut stream = S::start(seed, tally);
    stream.absorb(&a.to_le_bytes(), tally);
    stream.absorb(&b.to_le_bytes(), tally);
    stream.answer(tally)
}

/// A helper of four writes, after any message.
pub fn write_four(stream: &mut StreamedKomihash, a: u64, b: u64, c: u64, d: u64)
    ensures { (seed : ℕ) (m : List ℕ) → HasAbsorbed 5 seed stream.old.state m
        → HasAbsorbed 5 seed stream.new.state (m ++ to_le_bytes w64 a ++ to_le_bytes w64 b
        ++ to_le_bytes w64 c ++ to_le_bytes w64 d) }
{
    stream.write(&a.to_le_bytes());
    stream.write(&b.to_le_bytes());
    stream.write(&c.to_le_bytes());
    stream.write(&d.to_le_bytes());
}

/// A helper that promises its numbers as one list.
pub fn write_key(stream: &mut StreamedKomihash, key: u32, value: u64)
    ensures { (seed : ℕ) (m : List ℕ) → HasAbsorbed 5 seed stream.old.state m
        → HasAbsorbed 5 seed stream.new.state
        (m ++ (to_le_bytes w32 key ++ to_le_bytes w64 value)) }
{
    stream.write(&key.to_le_bytes());
    stream.write(&value.to_le_bytes());
}

/// Two helpers in a row.
pub fn of_six(a: u64, b: u64, c: u64, d: u64, e: u32, f: u64) -> u64
    ensures { result ≡ komi 5 0 (to_le_bytes w64 a ++ to_le_bytes w64 b ++ to_le_bytes w64 c
        ++ to_le_bytes w64 d ++ to_le_bytes w32 e ++ to_le_bytes w64 f) }
{
    let mut stream = StreamedKomihash::new();
    write_four(&mut stream, a, b, c, d);
    write_key(&mut stream, e, f);
    stream.finish()
}

/// Shows that the law of `cost_of_pieces` speaks of lists that are written out.
pub fn cost_of_two_pieces()
    ensures pieces { (x y : Bor (List ℕ)) → AreAbsorbs (Absorb x ∷ Absorb y ∷ []) }
    ensures cost { (x y : Bor (List ℕ)) → run_products (Absorb x ∷ Absorb y ∷ Answer ∷ [])
        ≡ hash_products (length (x.now ++ y.now)) }
{
    laws::cost_of_pieces();
}

/// Eight outputs in a row.
#[tactic(auto, using(komihash::proofs::LawLemmas::laws))]
pub fn of_eight_outputs(generator: &mut Komirand) -> [u64; 8]
    ensures outputs { result ≡ outputs 5 8 generator.old }
    ensures pair { generator.new ≡ after_steps 5 8 generator.old }
{
    let one = generator.next();
    let two = generator.next();
    let three = generator.next();
    let four = generator.next();
    let five = generator.next();
    let six = generator.next();
    let seven = generator.next();
    let eight = generator.next();
    [one, two, three, four, five, six, seven, eight]
}

/// A buffer that three fills write.
#[tactic(auto, using(komihash::proofs::LawLemmas::laws))]
pub fn of_three_fills(generator: &mut Komirand, out: &mut [u8; 100])
    ensures bytes { out.new ≡ fill 5 generator.old 100 }
    ensures pair { generator.new ≡ after_fill 5 generator.old 100 }
{
    let (first, rest) = out.split_at_mut(16);
    let (second, third) = rest.split_at_mut(40);
    generator.fill_bytes(first);
    generator.fill_bytes(second);
    generator.fill_bytes(third);
}

/// Two runs of one list of calls, in the same room.
#[tactic(auto, using(komihash::proofs::LawLemmas::laws))]
pub fn of_two_runs(calls: &[Call], four: &mut [u64], five: &mut [u64], tally: &mut Tally) -> usize
    requires four { length calls.now ≤ length four.old }
    requires five { length calls.now ≤ length five.old }
    ensures four { take result four.new ≡ answers 4 0 calls.now }
    ensures five { take result five.new ≡ answers 5 0 calls.now }
    ensures most { result ≤ length calls.now }
{
    run::<v4::StreamedKomihash>(0, calls, four, tally);
    run::<v5::StreamedKomihash>(0, calls, five, tally)
}

/// The words of no message, and of the empty one.
#[tactic(auto, using(komihash::proofs::LawLemmas::laws))]
pub fn of_literal_words(out: &mut [u8; 16]) -> (Option<usize>, Option<usize>, Option<usize>)
    ensures { result ≡ (Some 0, None, None) }
{
    (
        v5::unpad(&[0], out),
        v5::unpad(&[1], out),
        v5::unpad(&[1, 0], out),
    )
}

/// A helper that any hasher may be passed to.
pub fn number_after_write(hasher: &mut dyn Hasher, bytes: &[u8]) -> u64
    ensures { result ≡ finish (hasher.old.0, write hasher.old bytes.now) }
{
    hasher.write(bytes);
    hasher.finish()
}

/// A helper that reads any hasher.
pub fn number_of(hasher: &dyn Hasher) -> u64
    ensures { result ≡ finish hasher.now }
{
    hasher.finish()
}

/// Hashers of both versions that the helpers take. No fact follows, because the prover forgets what
/// it knows of a value once it is behind a reference to a trait of the standard library.
pub fn of_any_hashers(bytes: &[u8]) -> (u64, u64) {
    let four = v4::KomiHasher::new(7);
    let mut five = KomiHasher::default();
    (number_of(&four), number_after_write(&mut five, bytes))
}
