//! Bloom filters, which find each key that was inserted, and maybe others.

ghost use Rattle.std.specs.Prelude.{◌≡◌, ◌<◌, ◌↔◌, ◌⊎◌, ℕ, List, IsTrue, length};
ghost use Rattle.examples.specs.Filters.{IsBitOf, IsFound, IsSet};

use komihash::komihash;

/// How many bits a key has, each by a seed of its own.
pub const BITS: u64 = 4;

/// Sets the bits of a key, and no others.
pub fn insert(table: &mut [bool], key: &[u8])
    requires { 0 < length table.old }
    ensures found { IsFound table.new key.now }
    ensures kept { (other : List ℕ) → IsFound table.old other → IsFound table.new other }
    ensures bits { (k : ℕ) → IsSet table.new k
        ↔ IsSet table.old k ⊎ IsBitOf key.now (length table.old) k }
{
    for seed in 0..BITS {
        let bit = komihash(key, seed) % table.len() as u64;
        table[bit as usize] = true;
    }
}

/// Returns whether all bits of a key are set, as they are once it was inserted.
pub fn contains(table: &[bool], key: &[u8]) -> bool
    requires { 0 < length table.now }
    ensures { IsTrue result ↔ IsFound table.now key.now }
{
    for seed in 0..BITS {
        let bit = komihash(key, seed) % table.len() as u64;
        if !table[bit as usize] {
            return false;
        }
    }
    true
}
