//! Shards of keys.

#![tactic(auto, using(komihash::proofs::LawLemmas::laws))]

ghost use Rattle.std.specs.Prelude.{◌≡◌, ◌%◌, ◌<◌};
ghost use Rattle.komihash.specs.Hash.{komi};

use komihash::komihash;

/// Returns the shard that a key belongs to.
pub fn shard_of(key: &[u8], shards: u64) -> u64
    requires { 0 < shards }
    ensures shard { result ≡ komi 5 0 key.now % shards }
    ensures within { result < shards }
{
    komihash(key, 0) % shards
}
