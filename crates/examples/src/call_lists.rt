//! Lists of calls, which run on one stream.

ghost use Rattle.std.specs.Prelude.{◌≡◌, ◌≤◌, ◌++◌, take, length};
ghost use Rattle.komihash.specs.Calls.{answers};
ghost use Rattle.komihash.specs.Hash.{komi};

use komihash::stream::{Call, run, run_on};
use komihash::tally::Tally;
use komihash::{StreamedKomihash, laws};

/// Returns the hash of a part, and that of both parts.
pub fn hashes_of_two<'a>(first: &'a [u8], second: &'a [u8]) -> (u64, u64)
    ensures one { result.0 ≡ komi 5 0 first.now }
    ensures both { result.1 ≡ komi 5 0 (first.now ++ second.now) }
{
    let calls = [
        Call::Absorb(first),
        Call::Answer,
        Call::Absorb(second),
        Call::Answer,
    ];
    let mut out = [0; 4];
    run::<StreamedKomihash>(0, &calls, &mut out, &mut Tally::new());
    (out[0], out[1])
}

/// Makes two lists of calls on one stream, and writes their answers to `out` and `more`, each of
/// which needs room for one number per call. Returns how many answers each has.
pub fn run_in_two(
    first: &[Call<'_>],
    second: &[Call<'_>],
    out: &mut [u64],
    more: &mut [u64],
) -> (usize, usize)
    requires out { length first.now ≤ length out.old }
    requires more { length second.now ≤ length more.old }
    ensures { take result.0 out.new ++ take result.1 more.new
        ≡ answers 5 0 (first.now ++ second.now) }
{
    // This law helps the proof, and does nothing at run time.
    laws::calls_cut();
    let tally = &mut Tally::new();
    let mut stream = StreamedKomihash::new();
    let count = run_on(&mut stream, first, out, tally);
    let further = run_on(&mut stream, second, more, tally);
    (count, further)
}
