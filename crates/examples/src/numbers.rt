//! Lists of numbers.

ghost use Rattle.std.specs.Int.{to_le_bytes, w64};
ghost use Rattle.std.specs.List.{flat_map};
ghost use Rattle.std.specs.Prelude.{◌≡◌};
ghost use Rattle.komihash.specs.Hash.{komi};

use komihash::StreamedKomihash;

/// Hashes a list of numbers, eight bytes each, the lowest first.
pub fn hash_of_numbers(numbers: &[u64]) -> u64
    ensures { result ≡ komi 5 0 (flat_map (λ number. to_le_bytes w64 number) numbers.now) }
{
    let mut stream = StreamedKomihash::new();
    for number in numbers {
        stream.write(&number.to_le_bytes());
    }
    stream.finish()
}
