//! A stream of one's own, for code that takes any `KomiStream`.

ghost use Rattle.std.proofs.Common.{inr, refl};

use komihash::stream::KomiStream;
use komihash::tally::Tally;
use komihash::v5::StreamedKomihash;

/// A stream that leaves all work to one of version 5.
#[derive(Drop)]
pub struct OwnStream(StreamedKomihash);

impl KomiStream for OwnStream {
    const VERSION: u8 = 5;

    ghost VERSION = { 5 };

    ghost state = { λ stream. stream.0.state };

    fn start(seed: u64, tally: &mut Tally) -> Self {
        OwnStream(StreamedKomihash::start(seed, tally))
    }

    fn absorb(&mut self, bytes: &[u8], tally: &mut Tally) {
        self.0.absorb(bytes, tally);
    }

    fn answer(&self, tally: &mut Tally) -> u64 {
        self.0.answer(tally)
    }

    fn store(&self, out: &mut [u8]) -> usize {
        self.0.store(out)
    }

    fn restore(bytes: &[u8]) -> Option<Self> {
        Some(OwnStream(StreamedKomihash::restore(bytes)?))
    }

    ghost versions = { inr refl };

    ghost is_state = { λ stream. stream.0.is_state };
}
