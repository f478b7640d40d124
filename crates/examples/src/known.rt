//! Known hashes, as contracts.

ghost use Rattle.std.specs.Prelude.{◌≡◌};
ghost use Rattle.komihash.specs.Generator.{outputs};

use komihash::{Komirand, komihash};

/// Returns the hash of the letter a, which the prover computes.
#[tactic(auto, unfolding(komihash::specs::Hash::komi, komihash::specs::Rounds::mix))]
pub fn hash_of_a() -> u64
    ensures { result ≡ 0x5117f5064cfd0faa }
{
    komihash(b"a", 0)
}

/// Returns the next three outputs of a generator.
pub fn three_outputs(generator: &mut Komirand) -> [u64; 3]
    ensures { result ≡ outputs 5 3 generator.old }
{
    [generator.next(), generator.next(), generator.next()]
}
