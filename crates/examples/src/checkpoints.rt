//! Digests that continue from a checkpoint, which is the state of a stream, saved as bytes.

ghost use Rattle.std.specs.Prelude.{◌≤◌, ◌≡◌, ◌↔◌, ◌++◌, ℕ, List, take};
ghost use Rattle.std.specs.Prelude.{IfSome, IsSomeAnd, IsNone};
ghost use Rattle.std.specs.List.{flat_map};
ghost use Rattle.komihash.specs.Hash.{komi};
ghost use Rattle.komihash.specs.Saved.{IsText, IsTextAfter};

use komihash::StreamedKomihash;
use komihash::stream::LONGEST_TEXT;

/// Continues from a checkpoint, whose first `count` bytes are a saved text, and replaces the text.
/// Returns the length of the new one in bytes, or `None` if there was no saved text.
pub fn go_on(checkpoint: &mut [u8; LONGEST_TEXT], count: usize, next: &[u8]) -> Option<usize>
    requires { count ≤ LONGEST_TEXT }
    ensures most { IfSome result (λ n. n ≤ LONGEST_TEXT) }
    ensures saved { (seed : ℕ) (m : List ℕ) → IsTextAfter 5 seed m (take count checkpoint.old)
        → IsSomeAnd result (λ n. IsTextAfter 5 seed (m ++ next.now) (take n checkpoint.new)) }
    ensures none { IsNone result ↔ ¬ IsText 5 (take count checkpoint.old) }
{
    let mut stream = StreamedKomihash::resume(&checkpoint[..count])?;
    stream.write(next);
    Some(stream.save(checkpoint))
}

/// Returns the digest at a checkpoint, whose first `count` bytes are a saved text, or `None` if
/// they are none.
pub fn digest_at(checkpoint: &[u8; LONGEST_TEXT], count: usize) -> Option<u64>
    requires { count ≤ LONGEST_TEXT }
    ensures hash { (seed : ℕ) (m : List ℕ) → IsTextAfter 5 seed m (take count checkpoint.now)
        → IsSomeAnd result (λ hash. hash ≡ komi 5 seed m) }
    ensures none { IsNone result ↔ ¬ IsText 5 (take count checkpoint.now) }
{
    let stream = StreamedKomihash::resume(&checkpoint[..count])?;
    Some(stream.finish())
}

/// Digests parts, with a checkpoint after each.
pub fn digest_with_checkpoints(
    parts: &[&[u8]],
    seed: u64,
    checkpoint: &mut [u8; LONGEST_TEXT],
) -> Option<u64>
    ensures { IsSomeAnd result (λ hash.
        hash ≡ komi 5 seed (flat_map (λ part. part.now) parts.now)) }
{
    let mut count = StreamedKomihash::new_with_seed(seed).save(checkpoint);
    for part in parts {
        count = go_on(checkpoint, count, part)?;
    }
    digest_at(checkpoint, count)
}
