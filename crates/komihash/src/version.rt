//! Which numbers are versions. Rust has another file for this module.

ghost use Rattle.std.specs.Prelude.{◌≡◌, ◌⊎◌};
ghost use Rattle.std.proofs.Common.{inl, inr, refl};

/// Says that V is the number of a version.
pub(crate) trait IsVersion<const V: u8> {
    ghost is_version: { (V ≡ 4) ⊎ (V ≡ 5) };
}

/// Has an impl of `IsVersion` for each version.
pub(crate) struct Versions;

impl IsVersion<4> for Versions {
    ghost is_version = { inl refl };
}

impl IsVersion<5> for Versions {
    ghost is_version = { inr refl };
}
