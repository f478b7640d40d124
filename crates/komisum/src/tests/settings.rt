//! What arguments ask for, and which arguments are refused.

ghost use Rattle.std.specs.Prelude.{◌≡◌, map, string_bytes, MatchResult};
ghost use Rattle.std.specs.IoError.{error_kind};
ghost use Rattle.std.specs.Option.{ok_or};
ghost use Rattle.std.specs.Vec.Iter.{into_iter_items};
ghost use Rattle.komisum.specs.Settings.{refusal_of, settings_of};

use crate::ending::Refusal;
use crate::settings::{Version, settings, settings_from_args};
use std::env::Args;
use std::io;

#[test]
fn accepted_arguments(rt: HostRuntime) {
    assert!(rt; matches!(settings(&[]), Some((Version::Five, 0))));
    assert!(rt; matches!(settings(&["4", "0"]), Some((Version::Four, 0))));
    let zeros = settings(&["4", "0000000000000001"]);
    assert!(rt; matches!(zeros, Some((Version::Four, 1))));
    let greatest = settings(&["5", "ffffffffffffffff"]);
    assert!(rt; matches!(greatest, Some((Version::Five, 0xffffffffffffffff))));
}

#[test]
fn refused_arguments(rt: HostRuntime) {
    assert!(rt; settings(&["5"]).is_none());
    assert!(rt; settings(&["5", "0", "0"]).is_none());
    for version in ["", "6", "55"] {
        assert!(rt; settings(&[version, "0"]).is_none(), "version {version}");
    }
    for seed in ["", "FF", "g", "-1", "0x1", " 1", "00000000000000000"] {
        assert!(rt; settings(&["5", seed]).is_none(), "seed {seed}");
    }
}

// Does what `settings` does, and states its promise again.
fn settings_as_promised(arguments: &[&str]) -> Option<(Version, u64)>
    ensures { result ≡ settings_of (map (λ argument. argument.now) arguments.now) }
{
    settings(arguments)
}

// Does what `settings_from_args` does, and states its promise again.
fn asked_as_promised(given: io::Result<Args>) -> Result<(Version, u64), Refusal>
    ensures { MatchResult given
        (λ arguments. result
        ≡ ok_or (settings_of (map string_bytes (into_iter_items arguments))) Refusal.Usage)
        (λ error. result ≡ Err (refusal_of (error_kind error))) }
{
    settings_from_args(given)
}
