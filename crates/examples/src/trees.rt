//! Hashes of hashes.

ghost use Rattle.std.specs.Prelude.{◌≡◌};
ghost use Rattle.komihash.specs.Hash.{komi};
ghost use Rattle.examples.specs.Trees.{node};

use komihash::{StreamedKomihash, komihash};

/// Hashes two hashes.
#[tactic(auto, unfolding(crate::specs::Trees::node))]
pub fn hash_of_node(left: u64, right: u64) -> u64
    ensures { result ≡ node left right }
{
    let mut stream = StreamedKomihash::new();
    stream.write(&left.to_le_bytes());
    stream.write(&right.to_le_bytes());
    stream.finish()
}

/// Hashes the tree of four leaves.
pub fn hash_of_tree(a: &[u8], b: &[u8], c: &[u8], d: &[u8]) -> u64
    ensures { result ≡ node (node (komi 5 0 a.now) (komi 5 0 b.now))
        (node (komi 5 0 c.now) (komi 5 0 d.now)) }
{
    let left = hash_of_node(komihash(a, 0), komihash(b, 0));
    let right = hash_of_node(komihash(c, 0), komihash(d, 0));
    hash_of_node(left, right)
}
