//! What hashing costs, in either version.

ghost use Rattle.std.specs.Prelude.{◌≡◌, ◌+◌, length};
ghost use Rattle.std.specs.List.{flat_map};
ghost use Rattle.komihash.specs.Counts.{hash_products};
ghost use Rattle.komihash.specs.Hash.{komi};

use komihash::stream::KomiStream;
use komihash::tally::Tally;

/// Returns the digest of a list of slices, at the cost of one hash of all their bytes.
pub fn counted_digest<S: KomiStream>(slices: &[&[u8]], seed: u64, tally: &mut Tally) -> u64
    ensures digest { result ≡ komi S.VERSION seed (flat_map (λ slice. slice.now) slices.now) }
    ensures cost { tally.new.products ≡ tally.old.products
        + hash_products (length (flat_map (λ slice. slice.now) slices.now)) }
{
    let mut stream = S::start(seed, tally);
    for slice in slices {
        stream.absorb(slice, tally);
    }
    stream.answer(tally)
}
