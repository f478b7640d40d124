//! Reproducible samples.

ghost use Rattle.std.specs.Prelude.{◌≡◌, ◌≤◌, ◌-◌, ◌++◌, length, take};
ghost use Rattle.std.specs.Int.{to_le_bytes, w64};
ghost use Rattle.std.specs.List.{flat_map};
ghost use Rattle.komihash.specs.Generator.{after_fill, after_steps, fill, outputs};

use komihash::Komirand;

/// Writes the next outputs of a generator.
pub fn draw(generator: &mut Komirand, out: &mut [u64])
    ensures outputs { out.new ≡ outputs 5 (length out.old) generator.old }
    ensures pair { generator.new ≡ after_steps 5 (length out.old) generator.old }
{
    for number in out {
        *number = generator.next();
    }
}

/// Writes the sample of a seed in two parts.
pub fn sample_in_two(seed: u64, out: &mut [u8; 128])
    ensures { out.new ≡ fill 5 (after_steps 5 4 (seed, seed)) 128 }
{
    let (first, second) = out.split_at_mut(64);
    let mut generator = Komirand::init(seed);
    generator.fill_bytes(first);
    generator.fill_bytes(second);
}

/// Fills the part of a buffer between two indices.
fn fill_part(generator: &mut Komirand, out: &mut [u8], at: usize, end: usize)
    requires order { at ≤ end }
    requires end { end ≤ length out.old }
    ensures length { length out.new ≡ length out.old }
    ensures bytes { take end out.new ≡ take at out.old ++ fill 5 generator.old (end - at) }
    ensures pair { generator.new ≡ after_fill 5 generator.old (end - at) }
{
    generator.fill_bytes(&mut out[at..end]);
}

/// Writes the next bytes of a generator, 64 at a time.
pub fn sample_in_blocks(generator: &mut Komirand, out: &mut [u8])
    ensures { out.new ≡ fill 5 generator.old (length out.old) }
{
    let mut at = 0;
    while at + 64 <= out.len() {
        fill_part(generator, out, at, at + 64);
        at += 64;
    }
    fill_part(generator, out, at, out.len());
}

/// Writes the bytes of eight numbers.
pub fn sample_of_numbers(generator: &mut Komirand, out: &mut [u8; 64])
    ensures { out.new ≡ flat_map (λ number. to_le_bytes w64 number) (outputs 5 8 generator.old) }
{
    generator.fill_bytes(out);
}
