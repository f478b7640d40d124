//! Hashes of values of any type that implements `Hash`, and maps that hash their keys.

ghost use Rattle.std.specs.Prelude.{◌≡◌, IfOk, fold};
ghost use Rattle.std.specs.Hash.{le_bytes};
ghost use Rattle.std.specs.Int.{to_le_bytes, w64};
ghost use Rattle.komihash.specs.Hash.{komi};

use komihash::KomiHasher;
use komihash::v5::KomiBuildHasher;
use std::alloc::{AllocFailed, Global};
use std::collections::HashMap;
use std::hash::{Hash, Hasher};

/// Returns the hash of a value by a hasher of version 5, which chains the hashes of its writes.
pub fn hash_of<T: Hash>(value: &T) -> u64
    ensures { result ≡ fold (komi 5) 0 (T.hash_input value.now) }
{
    let mut hasher = KomiHasher::default();
    value.hash(&mut hasher);
    hasher.finish()
}

/// Hashes a number, which is the hash of its eight bytes.
pub fn hash_of_number(number: u64) -> u64
    ensures { result ≡ komi 5 0 (to_le_bytes w64 number) }
{
    hash_of(&number)
}

/// A point. Its derived `Hash` writes each number once.
#[derive(Clone, Copy, PartialEq, Eq, Hash)]
pub struct Point {
    pub x: u32,
    pub y: u64,
}

/// Hashes a point.
pub fn hash_of_point(point: &Point) -> u64
    ensures { result ≡ komi 5 (komi 5 0 (le_bytes 4 point.now.x)) (le_bytes 8 point.now.y) }
{
    hash_of(point)
}

/// Puts a value under a point into a new map, and returns what the map then has under it, or an
/// error if memory runs out.
pub fn put_and_get(
    alloc: Global,
    seed: u64,
    point: Point,
    value: u64,
) -> Result<Option<u64>, AllocFailed<(Point, u64)>>
    ensures { IfOk result (λ found. found ≡ Some value) }
{
    let mut map = HashMap::with_hasher(alloc, KomiBuildHasher::new(seed));
    map.insert(point, value)?;
    Ok(map.get(&point).copied())
}
