//! Items that a generator chooses.

ghost use Rattle.std.specs.Prelude.{◌≡◌, ◌<◌, ◌%◌, length, map, slice_index};
ghost use Rattle.std.specs.List.{All, Contains};
ghost use Rattle.komihash.specs.Generator.{after_steps, outputs};

use komihash::Komirand;

/// Writes items that the next outputs choose. An item may be chosen several times.
pub fn choose(generator: &mut Komirand, items: &[u64], out: &mut [u64])
    requires { 0 < length items.now }
    ensures members { All (Contains items.now) out.new }
    ensures which { out.new ≡ map (λ output. slice_index items.now (output % length items.now))
        (outputs 5 (length out.old) generator.old) }
    ensures pair { generator.new ≡ after_steps 5 (length out.old) generator.old }
{
    for chosen in out {
        let index = generator.next() % items.len() as u64;
        *chosen = items[index as usize];
    }
}
