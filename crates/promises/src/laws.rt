//! The laws of the definitions.

ghost use Rattle.std.specs.Hash.{le_bytes};
ghost use Rattle.std.specs.Int.{to_le_bytes, w8, w16, w32, w64};
ghost use Rattle.std.specs.List.{flat_map};
ghost use Rattle.std.specs.Prelude.{◌≡◌, ◌+◌, ◌-◌, ◌*◌, ◌/◌, ◌%◌, ◌^◌, ◌<◌, ◌≤◌, ◌++◌, ◌∷◌, []};
ghost use Rattle.std.specs.Prelude.{ℕ, List, length, take, drop, map, bit_xor, slice_index};
ghost use Rattle.std.specs.Prelude.{Contains};
ghost use Rattle.komihash.specs.Calls.{answers_after, bytes_of_calls, run_products};
ghost use Rattle.komihash.specs.Counts.{hash_products};
ghost use Rattle.komihash.specs.Generator.{next, after_steps, outputs, fill, after_fill};
ghost use Rattle.komihash.specs.Hash.{komi};
ghost use Rattle.komihash.specs.Hasher.{number_after};
ghost use Rattle.komihash.specs.Padding.{padded_words};
ghost use Rattle.komihash.specs.Rounds.{constant, seed_words};
ghost use Rattle.komihash.specs.Saved.{text, IsTextAfter};
ghost use Rattle.komihash.specs.Stream.{State, IsState, HasAbsorbed, start, absorb, answer};
ghost use Rattle.komihash.specs.Words.{AreBytes};
ghost use Rattle.komihash.specs.declared.stream.Call.{Call};
ghost use Rattle.komihash.specs.declared.stream.Call.TheVariants.{Answer};

use komihash::laws;

/// States the laws of messages: their seeds and padded words, and streams that absorb them.
pub fn of_messages()
    ensures seed_back { (seed : ℕ) → seed < 2 ^ 64 → bit_xor (bit_xor (seed_words seed).0
        (constant 1)) (bit_xor (seed_words seed).1 (constant 5)) ≡ seed }
    ensures same_below_64 { (seed : ℕ) (m : List ℕ) → length m < 64
        → slice_index m (length m - 1) < 128 → komi 4 seed m ≡ komi 5 seed m }
    ensures same_below_64_empty { (seed : ℕ) → komi 4 seed [] ≡ komi 5 seed [] }
    ensures same_words { (v : ℕ) (x y : List ℕ) → AreBytes x → AreBytes y
        → padded_words v x ≡ padded_words v y → x ≡ y }
    ensures cut { (v : ℕ) (s : State) (x y : List ℕ)
        → absorb v s (x ++ y) ≡ absorb v (absorb v s x) y }
    ensures joined { (v seed : ℕ) (m : List ℕ)
        → answer v (absorb v (start seed) m) ≡ komi v seed m }
    ensures empty_write { (v : ℕ) (s : State) → absorb v s [] ≡ s }
    ensures empty_link { (v number : ℕ) (writes : List (List ℕ))
        → number_after v number ([] ∷ writes) ≡ number_after v (komi v number []) writes }
    ensures pending_remainder { (v seed : ℕ) (s : State) (m : List ℕ) → HasAbsorbed v seed s m
        → length s.pending ≡ length m % 64 }
    ensures saved_once { (v w : ℕ) (s t : State) → IsState v s → IsState w t → text v s ≡ text w t
        → (v ≡ w) × (s ≡ t) }
{
    laws::seed_back();
    laws::same_below_64();
    laws::same_words();
    laws::cut();
    laws::joined();
    laws::empty_write();
    laws::pending_remainder();
    laws::saved_once();
}

/// States the law of the bytes of integers.
pub fn of_integers()
    ensures one { (x : ℕ) → le_bytes 1 x ≡ to_le_bytes w8 x }
    ensures two { (x : ℕ) → le_bytes 2 x ≡ to_le_bytes w16 x }
    ensures four { (x : ℕ) → le_bytes 4 x ≡ to_le_bytes w32 x }
    ensures eight { (x : ℕ) → le_bytes 8 x ≡ to_le_bytes w64 x }
{
    laws::bytes_of_integers();
}

/// States the laws of lists of calls: of joined ones, and of the cost of writes with one answer.
#[tactic(auto, using(crate::proofs::WithoutAnswer::without_answer))]
pub fn of_calls()
    ensures answers { (f : List ℕ → ℕ) (m : List ℕ) (x y : List Call) → answers_after f m (x ++ y)
        ≡ answers_after f m x ++ answers_after f (m ++ bytes_of_calls x) y }
    ensures bytes { (x y : List Call)
        → bytes_of_calls (x ++ y) ≡ bytes_of_calls x ++ bytes_of_calls y }
    ensures cost { (pieces : List Call) → ¬ Contains pieces Answer
        → run_products (pieces ++ Answer ∷ []) ≡ hash_products (length (bytes_of_calls pieces)) }
{
    laws::calls_cut();
    laws::cost_of_pieces();
}

/// States the laws of generators.
pub fn of_generators()
    ensures no_step { (v : ℕ) (s : ℕ × ℕ) → after_steps v 0 s ≡ s }
    ensures no_output { (v : ℕ) (s : ℕ × ℕ) → outputs v 0 s ≡ [] }
    ensures step { (v n : ℕ) (s : ℕ × ℕ)
        → outputs v (n + 1) s ≡ outputs v n s ++ (next v (after_steps v n s)).0 ∷ [] }
    ensures step_pair { (v n : ℕ) (s : ℕ × ℕ)
        → after_steps v (n + 1) s ≡ next v (after_steps v n s) }
    ensures fill_of_outputs { (v n : ℕ) (s : ℕ × ℕ) → fill v s (8 * n)
        ≡ flat_map (λ output. to_le_bytes w64 output) (outputs v n s) }
    ensures fill_of_outputs_pair { (v n : ℕ) (s : ℕ × ℕ)
        → after_fill v s (8 * n) ≡ after_steps v n s }
    ensures one_output { (v : ℕ) (s : ℕ × ℕ) → fill v s 8 ≡ to_le_bytes w64 (next v s).0 }
    ensures one_output_pair { (v : ℕ) (s : ℕ × ℕ) → after_fill v s 8 ≡ next v s }
    ensures one_output_fits { (v : ℕ) (s : ℕ × ℕ) → (next v s).0 < 2 ^ 64 }
    ensures fill_cut { (v : ℕ) (s : ℕ × ℕ) (x y : ℕ) → x % 8 ≡ 0
        → fill v s (x + y) ≡ fill v s x ++ fill v (after_fill v s x) y }
    ensures fill_cut_pair { (v : ℕ) (s : ℕ × ℕ) (x y : ℕ) → x % 8 ≡ 0
        → after_fill v s (x + y) ≡ after_fill v (after_fill v s x) y }
    ensures one_seed { (v seed n : ℕ) → fill v (seed, seed) (32 + n)
        ≡ fill v (seed, seed) 32 ++ fill v (after_steps v 4 (seed, seed)) n }
    ensures one_seed_pair { (v seed n : ℕ) → after_fill v (seed, seed) (32 + n)
        ≡ after_fill v (after_steps v 4 (seed, seed)) n }
    ensures start { (v seed : ℕ) → length (fill v (seed, seed) 32) ≡ 32 }
{
    laws::step_by_step();
    laws::fill_of_outputs();
    laws::one_output();
    laws::fill_cut();
    laws::one_seed();
}

/// States what no law states, but what the search finds by the lemmas of the laws.
#[tactic(auto, using(komihash::proofs::LawLemmas::laws))]
pub fn of_the_lemmas()
    ensures word { (v seed : ℕ) (m : List ℕ) → komi v seed m < 2 ^ 64 }
    ensures same_state { (v seed : ℕ) (s t : State) (m : List ℕ) → HasAbsorbed v seed s m
        → HasAbsorbed v seed t m → s ≡ t }
    ensures same_text { (v seed : ℕ) (m x y : List ℕ) → IsTextAfter v seed m x
        → IsTextAfter v seed m y → x ≡ y }
    ensures most { (v seed : ℕ) (m x : List ℕ) → IsTextAfter v seed m x → length x ≤ 131 }
    ensures chain { (v number : ℕ) (x y : List (List ℕ))
        → number_after v number (x ++ y) ≡ number_after v (number_after v number x) y }
    ensures count { (v n : ℕ) (s : ℕ × ℕ) → length (outputs v n s) ≡ n }
    ensures output { (v n k : ℕ) (s : ℕ × ℕ) → k < n
        → slice_index (outputs v n s) k ≡ (next v (after_steps v k s)).0 }
    ensures filled { (v n : ℕ) (s : ℕ × ℕ) → length (fill v s n) ≡ n }
    ensures front { (v m n : ℕ) (s : ℕ × ℕ) → m ≤ n → take m (fill v s n) ≡ fill v s m }
    ensures front_outputs { (v m n : ℕ) (s : ℕ × ℕ) → m ≤ n
        → take m (outputs v n s) ≡ outputs v m s }
    ensures rest { (v m n : ℕ) (s : ℕ × ℕ) → m % 8 ≡ 0 → m ≤ n
        → drop m (fill v s n) ≡ fill v (after_fill v s m) (n - m) }
    ensures words { (v : ℕ) (m : List ℕ) → length (padded_words v m) ≡ length m / 8 + 1 }
    ensures text { (v : ℕ) (s : State) → length (text v s) ≡ 68 + length s.pending }
    ensures cuts { (v : ℕ) (s : State) (a b x y : List ℕ) → a ++ b ≡ x ++ y
        → absorb v (absorb v s a) b ≡ absorb v (absorb v s x) y }
    ensures none_pending { (v seed : ℕ) (s : State) (m : List ℕ) → HasAbsorbed v seed s m
        → length m % 64 ≡ 0 → s.pending ≡ [] }
    ensures same_message { (v seed other : ℕ) (s : State) (m n : List ℕ) → HasAbsorbed v seed s m
        → HasAbsorbed v other s n → komi v seed m ≡ komi v other n }
    ensures same_hash { (v w seed other : ℕ) (m n x : List ℕ) → IsTextAfter v seed m x
        → IsTextAfter w other n x → komi v seed m ≡ komi w other n }
    ensures seeds { (x y : ℕ) → x < 2 ^ 64 → y < 2 ^ 64 → seed_words x ≡ seed_words y → x ≡ y }
{}

/// States what loops need that write several times for each item.
#[tactic(auto, using(komihash::proofs::LawLemmas::of_items))]
pub fn of_items()
    ensures joined { (f : ℕ → List ℕ) (x y : List ℕ)
        → flat_map f (x ++ y) ≡ flat_map f x ++ flat_map f y }
    ensures mapped { (f : ℕ → ℕ) (x y : List ℕ) → map f (x ++ y) ≡ map f x ++ map f y }
    ensures in_parts { (x y z : List ℕ) → (x ++ y) ++ z ≡ x ++ (y ++ z) }
{}
