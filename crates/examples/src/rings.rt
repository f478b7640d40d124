//! Consistent hashing: each key belongs to the next server on a ring.

ghost use Rattle.std.specs.Prelude.{◌<◌, ◌≡◌, length};
ghost use Rattle.std.specs.List.Sorted.{IsNonDecreasing};
ghost use Rattle.komihash.specs.Hash.{komi};
ghost use Rattle.examples.specs.Rings.{next_on_ring};

use komihash::komihash;

/// Returns the index of the server that a key belongs to, from the ascending points of the servers.
pub fn server_of(points: &[u64], key: &[u8]) -> usize
    requires some { 0 < length points.now }
    requires order { IsNonDecreasing points.now }
    ensures { result ≡ next_on_ring points.now (komi 5 0 key.now) }
{
    let hash = komihash(key, 0);
    let below = points.partition_point(|point| *point < hash);
    below % points.len()
}
