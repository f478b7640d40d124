//! Shuffles, which a seed repeats.

ghost use Rattle.std.specs.Prelude.{◌≡◌, IsPermutation, length};
ghost use Rattle.komihash.specs.Generator.{after_steps};
ghost use Rattle.examples.specs.Shuffles.{shuffled};

use komihash::Komirand;

/// Shuffles items as Fisher and Yates do: swaps each with itself or one before it, which the next
/// output picks.
#[tactic(auto, using(crate::proofs::Permutations::permutations))]
pub fn shuffle(generator: &mut Komirand, items: &mut [u64])
    ensures permutation { IsPermutation items.old items.new }
    ensures order { items.new ≡ shuffled (length items.old) generator.old items.old }
    ensures pair { generator.new ≡ after_steps 5 (length items.old) generator.old }
{
    for i in 0..items.len() {
        let other = generator.next() % (i as u64 + 1);
        items.swap(i, other as usize);
    }
}
