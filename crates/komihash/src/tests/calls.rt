//! Calls in one run (`run`), and what calls cost. `saved.rt` has the test of `run_on`.
//!
//! No program can read a tally, so the counts are clauses of functions here and there. Where they
//! are parameters, it is proved at each call that they are right.

ghost use Rattle.std.specs.Prelude.{◌≡◌, ◌+◌, ◌%◌, ◌≤◌, length};
ghost use Rattle.komihash.specs.Calls.{run_products, run_kept_bytes};
ghost use Rattle.komihash.specs.Counts.{Costs, hash_products, absorb_kept_bytes};

use super::messages::{BLOCK_HASH, EMPTY_HASH, SIX_IN_FIVE, SIX_IN_FOUR, ZERO};
use crate::stream::{Call, KomiStream, run};
use crate::tally::Tally;
use crate::v4::StreamedKomihash as Four;
use crate::v5::StreamedKomihash as Five;
use crate::{v4, v5};
use std::process::Abort;

// Hashes a message by the counted call of a version, for this many products.
fn hash_costs<const V: u8, const PRODUCTS: usize>(bytes: &[u8], tally: &mut Tally)
    requires { hash_products (length bytes.now) ≡ PRODUCTS }
    ensures costs { Costs tally PRODUCTS 0 }
{
    if V == 4 {
        v4::komihash_counted(bytes, 0, tally);
    } else {
        v5::komihash_counted(bytes, 0, tally);
    }
}

fn hashes_cost<const V: u8>() {
    let tally = &mut Tally::new();
    hash_costs::<V, 3>(&[], tally);
    hash_costs::<V, 4>(&[0; 16], tally);
    hash_costs::<V, 7>(&[0; 64], tally);
    hash_costs::<V, 8>(&SIX_IN_FIVE, tally);
    hash_costs::<V, 9>(&[0; 100], tally);
}

// Absorbs N bytes where BEFORE are pending. This keeps KEPT_BYTES bytes.
#[tactic(auto, using(crate::proofs::CallLists::costs))]
fn absorb_costs<S: KomiStream, const BEFORE: usize, const N: usize, const KEPT_BYTES: usize>(
    stream: &mut S,
    bytes: &[u8; N],
    tally: &mut Tally,
)
    requires pending { length (S.state stream.old).pending ≡ BEFORE }
    requires kept_bytes { absorb_kept_bytes BEFORE N ≡ KEPT_BYTES }
    ensures pending { length (S.state stream.new).pending ≡ (BEFORE + N) % 64 }
    ensures kept_bytes { tally.new.kept_bytes ≡ tally.old.kept_bytes + KEPT_BYTES }
{
    stream.absorb(bytes, tally);
}

fn absorbs_cost<S: KomiStream>() {
    let tally = &mut Tally::new();
    let mut stream = S::start(0, tally);
    absorb_costs::<S, 0, 10, 10>(&mut stream, &[0; 10], tally);
    absorb_costs::<S, 10, 54, 54>(&mut stream, &[0; 54], tally);
    absorb_costs::<S, 0, 64, 0>(&mut stream, &[0; 64], tally);
    absorb_costs::<S, 0, 3, 3>(&mut stream, &[0; 3], tally);
}

// Nothing is compared when this runs: the counts are proved.
#[test]
fn calls_cost_what_they_say(_rt: HostRuntime) {
    hashes_cost::<4>();
    hashes_cost::<5>();
    absorbs_cost::<Four>();
    absorbs_cost::<Five>();
}

/// Returns an Absorb of 1, 63, 0 and 31 bytes, with an Answer before and after each.
pub(crate) fn at_cuts() -> [Call<'static>; 9]
    ensures products { run_products result ≡ 16 }
    ensures kept_bytes { run_kept_bytes result ≡ 95 }
{
    let ask = Call::Answer;
    let (one, block) = (&SIX_IN_FIVE[..1], &SIX_IN_FIVE[1..64]);
    let (one, block) = (Call::Absorb(one), Call::Absorb(block));
    let (none, last) = (Call::Absorb(&[]), Call::Absorb(&SIX_IN_FIVE[64..]));
    [ask, one, ask, block, ask, none, ask, last, ask]
}

/// The answers to `at_cuts` in version 5 with seed 0.
pub(crate) const CUT_ANSWERS: [u64; 5] = [
    EMPTY_HASH,
    0xfd45_482d_180d_0441,
    BLOCK_HASH,
    BLOCK_HASH,
    6,
];

/// Returns an Absorb of each byte of `SIX_IN_FIVE`, and one Answer at the end.
pub(crate) fn byte_by_byte() -> [Call<'static>; 96]
    ensures products { run_products result ≡ 8 }
    ensures kept_bytes { run_kept_bytes result ≡ 95 }
{
    let mut calls = [Call::Answer; 96];
    for i in (0..95usize).rev() {
        calls[i] = Call::Absorb(&SIX_IN_FIVE[i..i + 1]);
    }
    calls
}

/// Compares the answers that calls wrote into words 9. The others are still 9.
pub(crate) fn assert_answers(rt: &impl Abort, count: usize, out: &[u64; 200], answers: &[u64]) {
    assert!(rt; answers.len() <= 200);
    let mut wanted = [9; 200];
    wanted[..answers.len()].copy_from_slice(answers);
    assert_eq!(rt; count, answers.len());
    assert_eq!(rt; *out, wanted);
}

// Runs calls on a new stream of seed 0, for these products and kept bytes. Compares the answers.
fn run_costs<S: KomiStream, const PRODUCTS: usize, const KEPT_BYTES: usize>(
    rt: &impl Abort,
    calls: &[Call<'_>],
    answers: &[u64],
    tally: &mut Tally,
)
    requires length { length calls.now ≤ 200 }
    requires products { run_products calls.now ≡ PRODUCTS }
    requires kept_bytes { run_kept_bytes calls.now ≡ KEPT_BYTES }
    ensures costs { Costs tally PRODUCTS KEPT_BYTES }
{
    let mut out = [9; 200];
    let count = run::<S>(0, calls, &mut out, tally);
    assert_answers(rt, count, &out, answers);
}

#[test]
fn runs_calls_in_order(rt: HostRuntime) {
    let (tally, ask) = (&mut Tally::new(), Call::Answer);
    run_costs::<Five, 16, 95>(&rt, &at_cuts(), &CUT_ANSWERS, tally);
    run_costs::<Five, 8, 31>(&rt, &[Call::Absorb(&SIX_IN_FIVE), ask], &[6], tally);
    run_costs::<Five, 8, 95>(&rt, &byte_by_byte(), &[6], tally);
    run_costs::<Five, 1, 0>(&rt, &[], &[], tally);
    let calls = [Call::Absorb(&ZERO), ask, Call::Absorb(&[]), ask];
    run_costs::<Five, 7, 16>(&rt, &calls, &[0, 0], tally);
    let (block, others) = (&SIX_IN_FOUR[..64], &SIX_IN_FOUR[64..]);
    let calls = [ask, Call::Absorb(block), ask, Call::Absorb(others), ask];
    run_costs::<Four, 12, 31>(&rt, &calls, &[EMPTY_HASH, BLOCK_HASH, 6], tally);
    let mut out = [9; 2];
    assert_eq!(rt; run::<Five>(0, &[], &mut out, tally), 0);
    assert_eq!(rt; out, [9; 2]);
}

#[test]
fn answers_after_every_byte(rt: HostRuntime) {
    let absorbs = byte_by_byte();
    let mut calls = [Call::Answer; 190];
    let mut answers = [0; 95];
    for i in 0..95usize {
        calls[2 * i] = absorbs[i];
        answers[i] = v5::komihash(&SIX_IN_FIVE[..i + 1], 0);
    }
    let mut out = [9; 200];
    let count = run::<Five>(0, &calls, &mut out, &mut Tally::new());
    assert_answers(&rt, count, &out, &answers);
    assert_eq!(rt; out[63], BLOCK_HASH);
    assert_eq!(rt; &out[79..94], [0; 15].as_slice());
    assert_eq!(rt; out[94], 6);
}
