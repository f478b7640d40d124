//! A generator for code that takes any generator of the crate `rand_core`.

ghost use Rattle.std.specs.Prelude.{◌/◌, ◌^◌};
ghost use Rattle.komihash.specs.Generator.{next, fill, after_fill};
ghost use Rattle.rand_core.specs.Steps.{stream_of};

use komihash::Komirand;
use rand_core::Rng;

/// A generator of version 5. The high half of an output is its 32-bit number.
#[derive(Drop)]
pub struct KomiRng(pub Komirand);

impl Rng for KomiRng {
    ghost stream = { λ rng. stream_of record {
      next_u32 = λ s. ((next 5 s).0 / 2 ^ 32, next 5 s);
      next_u64 = λ s. ((next 5 s).0, next 5 s);
      fill_bytes = λ n s. (fill 5 s n, after_fill 5 s n);
    } rng.0 };

    #[tactic(auto, unfolding(rand_core::specs::Steps::stream_of, rand_core::specs::Stream::next_u32))]
    fn next_u32(&mut self) -> u32 {
        (self.0.next() >> 32) as u32
    }

    #[tactic(auto, unfolding(rand_core::specs::Steps::stream_of, rand_core::specs::Stream::next_u64))]
    fn next_u64(&mut self) -> u64 {
        self.0.next()
    }

    #[tactic(auto, unfolding(rand_core::specs::Steps::stream_of, rand_core::specs::Stream::fill_bytes))]
    fn fill_bytes(&mut self, dst: &mut [u8]) {
        self.0.fill_bytes(dst)
    }
}
