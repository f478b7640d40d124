//! The cost of calls, which only contracts see.

ghost use Rattle.std.specs.Prelude.{◌≡◌, ℕ};

use std::marker::{Model, PhantomData};

/// Counts, without limit, two things that only contracts see: `products`, the products of two
/// words, and `kept_bytes`, the bytes that writes copied into the pending bytes of streams. Each
/// byte counts once, however often its word is stored.
///
/// A tally takes no memory at run time, and no program can read it. A contract says by how much a
/// call raises the tally that it is passed. Another crate can change a tally only by passing it to
/// calls of this crate, or by putting another one in its place, as with any value.
#[derive(Drop)]
pub struct Tally {
    // A struct needs a field that is not ghost.
    marker: PhantomData<()>,
    pub ghost products: { ℕ },
    pub ghost kept_bytes: { ℕ },
}

impl Model for Tally {
    ghost use Rattle.komihash.specs.Sealed.{owned_by_tally};

    ghost also_owns = { λ t. owned_by_tally t.products t.kept_bytes };
}

// Gives proofs in this crate the key of `specs/Sealed.antt`. No proof can make or raise a tally
// without it, and no other crate can name this private struct. No code makes a value of it.
struct TallyKey;

impl Model for TallyKey {
    ghost use Rattle.std.specs.Coded.{prop_coded};
    ghost use Rattle.komihash.specs.Sealed.{Key, Key-prop, key};

    ghost Value = { Key };

    ghost coded = { prop_coded Key-prop };

    ghost view = { λ _. key };
}

impl Tally {
    ghost use Rattle.komihash.specs.Counts.{Costs};

    /// Returns a tally of no products and no kept bytes.
    #[inline(always)]
    pub fn new() -> Tally
        ensures products { result.products ≡ 0 }
        ensures kept_bytes { result.kept_bytes ≡ 0 }
    {
        Tally {
            marker: PhantomData,
        }
    }

    /// Raises the two numbers, as no other code does.
    ///
    /// The body is empty, since there is nothing to do at run time: the handwritten proof changes
    /// the ghost fields.
    #[inline(always)]
    pub(crate) const fn raise(&mut self, _products: usize, _kept_bytes: usize)
        ensures costs { Costs self _products _kept_bytes }
    {}
}

const _: () = prove!(size_of::<Tally>() == 0);
