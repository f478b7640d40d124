//! Laws of the definitions that contracts cite. Each function changes nothing: its contract states
//! a law, which is proved for all messages, seeds and versions. Where the search doesn't find a law
//! by itself, a caller's function calls it.

#![tactic(auto, using(crate::proofs::LawLemmas::laws))]

ghost use Rattle.std.specs.Hash.{le_bytes};
ghost use Rattle.std.specs.Int.{to_le_bytes, w8, w16, w32, w64};
ghost use Rattle.std.specs.List.{flat_map};
ghost use Rattle.std.specs.Prelude.{◌≡◌, ℕ, ◌+◌, ◌-◌, ◌*◌, ◌%◌, ◌^◌, ◌<◌, bit_xor};
ghost use Rattle.std.specs.Prelude.{List, [], ◌∷◌, ◌++◌, length, slice_index};
ghost use Rattle.komihash.specs.Calls.{AreAbsorbs, answers_after, bytes_of_calls, run_products};
ghost use Rattle.komihash.specs.Hasher.{number_after};
ghost use Rattle.komihash.specs.Counts.{hash_products};
ghost use Rattle.komihash.specs.Generator.{next, after_steps, outputs, fill, after_fill};
ghost use Rattle.komihash.specs.Hash.{komi};
ghost use Rattle.komihash.specs.Rounds.{seed_words, constant};
ghost use Rattle.komihash.specs.Saved.{text};
ghost use Rattle.komihash.specs.Stream.{State, IsState, HasAbsorbed, start, absorb, answer};
ghost use Rattle.komihash.specs.Padding.{padded_words};
ghost use Rattle.komihash.specs.Words.{AreBytes};
ghost use Rattle.komihash.specs.declared.stream.Call.{Call};
ghost use Rattle.komihash.specs.declared.stream.Call.TheVariants.{Answer};

// ---- Hashes, seeds and padded words

/// Proves that a seed can be computed from the two words that it is made into (`seed_words`), so no
/// two seeds share both. Those who derive seeds and need them distinct need it.
pub fn seed_back()
    ensures { (seed : ℕ) → seed < 2 ^ 64 → bit_xor (bit_xor (seed_words seed).0 (constant 1))
        (bit_xor (seed_words seed).1 (constant 5)) ≡ seed }
{}

/// Proves that both versions give a message the same hash if it has fewer than 64 bytes and the
/// last is below 128, or if it is empty, of which `slice_index` gives 0. Those who go on from one
/// version to the other and keep hashes of text need it.
pub fn same_below_64()
    ensures { (seed : ℕ) (m : List ℕ) → length m < 64 → slice_index m (length m - 1) < 128 →
        komi 4 seed m ≡ komi 5 seed m }
{}

/// Proves that padding loses nothing: messages with the same padded words in one version are equal.
/// Stores that keep padded words and compare them need it.
pub fn same_words()
    ensures { (v : ℕ) (x y : List ℕ) → AreBytes x → AreBytes y →
        padded_words v x ≡ padded_words v y → x ≡ y }
{}

// ---- Streams and hashers

/// Proves that a message can be cut anywhere: from every state, absorbing it leads to the same
/// state as absorbing its parts in order. Structs that keep a stream and write to it twice need it.
pub fn cut()
    ensures { (v : ℕ) (s : State) (x y : List ℕ) → absorb v s (x ++ y) ≡ absorb v (absorb v s x) y }
{}

/// Proves that a new stream that absorbs a message answers with the hash of that message. Contracts
/// that speak of states, and not of messages, need it.
pub fn joined()
    ensures { (v seed : ℕ) (m : List ℕ) → answer v (absorb v (start seed) m) ≡ komi v seed m }
{}

/// Proves that absorbing no bytes changes no state of a stream, and that a hasher's number after a
/// write of no bytes is the hash of no bytes, with the number before as the seed. Those who leave
/// out writes of no bytes need it.
pub fn empty_write()
    ensures stream { (v : ℕ) (s : State) → absorb v s [] ≡ s }
    ensures chain { (v number : ℕ) (writes : List (List ℕ)) →
        number_after v number ([] ∷ writes) ≡ number_after v (komi v number []) writes }
{}

/// Proves that integers write the bytes of `to_le_bytes` to a hasher, which the standard library
/// states by `le_bytes`. Those who hash integers by a `KomiHasher` need it.
pub fn bytes_of_integers()
    ensures one { (x : ℕ) → le_bytes 1 x ≡ to_le_bytes w8 x }
    ensures two { (x : ℕ) → le_bytes 2 x ≡ to_le_bytes w16 x }
    ensures four { (x : ℕ) → le_bytes 4 x ≡ to_le_bytes w32 x }
    ensures eight { (x : ℕ) → le_bytes 8 x ≡ to_le_bytes w64 x }
{}

/// Proves that a stream that has absorbed n bytes has n modulo 64 of them pending. What its calls
/// cost depends on this number alone, so a loop of writes that states its cost needs it.
pub fn pending_remainder()
    ensures { (v seed : ℕ) (s : State) (m : List ℕ) → HasAbsorbed v seed s m →
        length s.pending ≡ length m % 64 }
{}

// ---- Saved texts

/// Proves that a saved text has one state and one version: no two states share a text, not even
/// states of different versions. Those who compare saved texts in place of streams need it.
pub fn saved_once()
    ensures version { (v w : ℕ) (s t : State) → IsState v s → IsState w t →
        text v s ≡ text w t → v ≡ w }
    ensures state { (v w : ℕ) (s t : State) → IsState v s → IsState w t →
        text v s ≡ text w t → s ≡ t }
{}

// ---- Lists of calls

/// Proves that lists of calls can be joined: the answers of two lists, one after the other, are
/// those of the first and then those of the second, after the bytes of the first; and so are their
/// bytes. A loop that appends calls to a list needs it.
pub fn calls_cut()
    ensures answers { (f : List ℕ → ℕ) (m : List ℕ) (x y : List Call) →
        answers_after f m (x ++ y)
        ≡ answers_after f m x ++ answers_after f (m ++ bytes_of_calls x) y }
    ensures bytes { (x y : List Call) →
        bytes_of_calls (x ++ y) ≡ bytes_of_calls x ++ bytes_of_calls y }
{}

/// Proves that a new stream that absorbs n bytes in any pieces and answers once at the end costs as
/// many products as a hash of them at once: 3, plus 4 for each whole block, plus 1 for each 16
/// bytes after the blocks. Those who state the cost of a digest in pieces need it.
pub fn cost_of_pieces()
    ensures { (pieces : List Call) → AreAbsorbs pieces →
        run_products (pieces ++ Answer ∷ []) ≡ hash_products (length (bytes_of_calls pieces)) }
{}

// ---- Generators

/// Proves that zero steps output nothing and don't change the pair, and that n + 1 steps are n
/// steps and one more. A loop that draws numbers needs it.
pub fn step_by_step()
    ensures no_step { (v : ℕ) (s : ℕ × ℕ) → after_steps v 0 s ≡ s }
    ensures no_output { (v : ℕ) (s : ℕ × ℕ) → outputs v 0 s ≡ [] }
    ensures pair { (v n : ℕ) (s : ℕ × ℕ) →
        after_steps v (n + 1) s ≡ next v (after_steps v n s) }
    ensures outputs { (v n : ℕ) (s : ℕ × ℕ) →
        outputs v (n + 1) s ≡ outputs v n s ++ (next v (after_steps v n s)).0 ∷ [] }
{}

/// Proves that a fill of x bytes and then one of y bytes write what one fill of x + y bytes writes,
/// and leave the same pair, if x is a multiple of 8. Those who fill buffers in parts need it.
pub fn fill_cut()
    ensures bytes { (v : ℕ) (s : ℕ × ℕ) (x y : ℕ) → x % 8 ≡ 0 →
        fill v s (x + y) ≡ fill v s x ++ fill v (after_fill v s x) y }
    ensures pair { (v : ℕ) (s : ℕ × ℕ) (x y : ℕ) → x % 8 ≡ 0 →
        after_fill v s (x + y) ≡ after_fill v (after_fill v s x) y }
{}

/// Proves that a fill of 8 * n bytes is the bytes of n outputs, and leaves the pair after n steps.
/// Those who read the bytes of a fill as numbers need it.
pub fn fill_of_outputs()
    ensures bytes { (v n : ℕ) (s : ℕ × ℕ) →
        fill v s (8 * n) ≡ flat_map (λ output. to_le_bytes w64 output) (outputs v n s) }
    ensures pair { (v n : ℕ) (s : ℕ × ℕ) → after_fill v s (8 * n) ≡ after_steps v n s }
{}

/// Proves that a fill of eight bytes is the bytes of one output, which is below 2^64, and leaves
/// the pair after one step. Those who read the bytes of a fill back as a number need it.
pub fn one_output()
    ensures bytes { (v : ℕ) (s : ℕ × ℕ) → fill v s 8 ≡ to_le_bytes w64 (next v s).0 }
    ensures pair { (v : ℕ) (s : ℕ × ℕ) → after_fill v s 8 ≡ next v s }
    ensures fits { (v : ℕ) (s : ℕ × ℕ) → (next v s).0 < 2 ^ 64 }
{}

/// Proves that from the pair (seed, seed), a fill of 32 + n bytes writes 32 bytes, and then what a
/// fill of n bytes writes from `init(seed)`. Both leave the same pair. Those who replace `new` by
/// `init`, or the reverse, need it.
pub fn one_seed()
    ensures length { (v seed : ℕ) → length (fill v (seed, seed) 32) ≡ 32 }
    ensures bytes { (v seed n : ℕ) → fill v (seed, seed) (32 + n)
        ≡ fill v (seed, seed) 32 ++ fill v (after_steps v 4 (seed, seed)) n }
    ensures pair { (v seed n : ℕ) → after_fill v (seed, seed) (32 + n)
        ≡ after_fill v (after_steps v 4 (seed, seed)) n }
{}
