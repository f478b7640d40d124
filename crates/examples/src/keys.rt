//! Keys of several numbers, in one buffer.

ghost use Rattle.std.specs.Int.{to_le_bytes, w64};
ghost use Rattle.std.specs.Prelude.{◌≡◌, ◌++◌};
ghost use Rattle.komihash.specs.Hash.{komi};

use komihash::komihash;

/// Returns the bytes of a key.
pub fn key_of(tenant: u64, user: u64) -> [u8; 16]
    ensures { result ≡ to_le_bytes w64 tenant ++ to_le_bytes w64 user }
{
    let mut key = [0; 16];
    key[..8].copy_from_slice(&tenant.to_le_bytes());
    key[8..].copy_from_slice(&user.to_le_bytes());
    key
}

/// Hashes a key that another function has made.
pub fn hash_of_key(tenant: u64, user: u64) -> u64
    ensures { result ≡ komi 5 0 (to_le_bytes w64 tenant ++ to_le_bytes w64 user) }
{
    komihash(&key_of(tenant, user), 0)
}
