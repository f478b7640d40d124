//! Lists, strings and records. A helper that writes a value has the contract of `write`.

ghost use Rattle.std.specs.Prelude.{◌≡◌, ◌<◌, ◌^◌, ◌++◌, ℕ, List, length};
ghost use Rattle.std.specs.Int.{to_le_bytes};
ghost use Rattle.std.specs.List.{flat_map};
ghost use Rattle.komihash.specs.Hash.{komi};
ghost use Rattle.komihash.specs.Stream.{HasAbsorbed};
ghost use Rattle.examples.specs.Profiles.{bytes_of_numbers, bytes_of_profile, bytes_of_text};

use komihash::StreamedKomihash;

/// A record whose fields have any length.
#[derive(Clone, Copy)]
pub struct Profile<'a> {
    pub name: &'a str,
    pub scores: &'a [u64],
}

/// Writes a text after its length.
#[tactic(auto, unfolding(crate::specs::Profiles::bytes_of_text))]
pub fn write_text(stream: &mut StreamedKomihash, text: &str)
    ensures { (seed : ℕ) (m : List ℕ) → HasAbsorbed 5 seed stream.old.state m
        → HasAbsorbed 5 seed stream.new.state (m ++ bytes_of_text text.now) }
{
    stream.write(&(text.len() as u64).to_le_bytes());
    stream.write(text.as_bytes());
}

/// Shows that the bytes of a text determine it and what follows.
#[tactic(auto, using(crate::proofs::Prefixes::text_ends))]
pub fn texts_have_ends()
    ensures { (x y s t : List ℕ) → length x < 2 ^ 64 → length y < 2 ^ 64
        → bytes_of_text x ++ s ≡ bytes_of_text y ++ t → (x ≡ y) × (s ≡ t) }
{}

/// Writes numbers after their count.
#[tactic(auto, unfolding(crate::specs::Profiles::bytes_of_numbers))]
pub fn write_numbers(stream: &mut StreamedKomihash, numbers: &[u64])
    ensures { (seed : ℕ) (m : List ℕ) → HasAbsorbed 5 seed stream.old.state m
        → HasAbsorbed 5 seed stream.new.state (m ++ bytes_of_numbers numbers.now) }
{
    stream.write(&(numbers.len() as u64).to_le_bytes());
    for number in numbers {
        stream.write(&number.to_le_bytes());
    }
}

/// Writes a profile.
#[tactic(auto, unfolding(crate::specs::Profiles::bytes_of_profile))]
pub fn write_profile(stream: &mut StreamedKomihash, profile: &Profile<'_>)
    ensures { (seed : ℕ) (m : List ℕ) → HasAbsorbed 5 seed stream.old.state m
        → HasAbsorbed 5 seed stream.new.state (m ++ bytes_of_profile profile.now) }
{
    write_text(stream, profile.name);
    write_numbers(stream, profile.scores);
}

/// Hashes a list of profiles.
pub fn hash_of_profiles(profiles: &[Profile<'_>]) -> u64
    ensures { result ≡ komi 5 0 (flat_map bytes_of_profile profiles.now) }
{
    let mut stream = StreamedKomihash::new();
    for profile in profiles {
        write_profile(&mut stream, profile);
    }
    stream.finish()
}
