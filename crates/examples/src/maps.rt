//! The entries of maps.

ghost use Rattle.std.specs.Int.{to_le_bytes, w64};
ghost use Rattle.std.specs.List.{flat_map};
ghost use Rattle.std.specs.Prelude.{◌≡◌, ◌++◌};
ghost use Rattle.komihash.specs.Hash.{komi};

use komihash::StreamedKomihash;
use std::collections::BTreeMap;

/// Hashes the entries of a map in the order of its keys, eight bytes for each number.
pub fn hash_of_map(map: &BTreeMap<u64, u64>) -> u64
    ensures { result ≡ komi 5 0
        (flat_map (λ entry. to_le_bytes w64 entry.0 ++ to_le_bytes w64 entry.1) map.now.entries) }
{
    let mut stream = StreamedKomihash::new();
    for (key, value) in map {
        stream.write(&key.to_le_bytes());
        stream.write(&value.to_le_bytes());
    }
    stream.finish()
}
