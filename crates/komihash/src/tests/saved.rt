//! Saved texts: those of known streams, what is resumed from them, and bytes that are no text. The
//! last test saves and resumes a stream between its calls, each in its own run (`run_on`).

ghost use Rattle.std.specs.Prelude.{◌≡◌, ◌≤◌, length};
ghost use Rattle.komihash.specs.Calls.{run_products, run_kept_bytes};
ghost use Rattle.komihash.specs.Counts.{Costs};

use super::calls::{CUT_ANSWERS, assert_answers, at_cuts, byte_by_byte};
use super::messages::{EMPTY_HASH, LANES, SIX_IN_FIVE};
use crate::stream::streamed::StreamedKomihash;
use crate::stream::{Call, KomiStream, LONGEST_TEXT, run_on};
use crate::tally::Tally;
use crate::v4::StreamedKomihash as Four;
use crate::v5;
use crate::v5::StreamedKomihash as Five;
use crate::version::{IsVersion, Versions};
use std::process::Abort;

// Returns the lanes of version 5 after the block of `SIX_IN_FIVE`. Each of its products has a
// factor 0, so s1 to s4 become s8, s5, s6 and s7, and s5 to s8 stay.
fn lanes_after_block() -> [u8; 64] {
    let mut lanes = LANES;
    lanes[..8].copy_from_slice(&LANES[56..]);
    lanes[8..32].copy_from_slice(&LANES[32..56]);
    lanes
}

// Joins a text's first four bytes, its lanes and pending bytes, and returns its length too. The
// bytes after it are 0xee.
fn joined(rt: &impl Abort, parts: [&[u8]; 3]) -> ([u8; 140], usize)
    ensures { result.1 ≤ 140 }
{
    let mut text = [0xee; 140];
    let mut end = 0;
    for part in parts {
        assert!(rt; end <= 140 && part.len() <= 140 - end);
        text[end..end + part.len()].copy_from_slice(part);
        end += part.len();
    }
    assert!(rt; end <= 140);
    (text, end)
}

// Compares a text that was saved into 140 bytes 0xee. Nothing is written after it.
fn assert_text(rt: &impl Abort, given: &[u8; 140], length: usize, parts: [&[u8]; 3]) {
    let (wanted, end) = joined(rt, parts);
    assert_eq!(rt; length, end);
    assert_eq!(rt; *given, wanted);
}

// Saves a new stream before and after a write, and one after a block whose last byte is 0xff.
fn assert_saves<const V: u8>(rt: &impl Abort)
where
    Versions: IsVersion<V>,
{
    let mut stream = StreamedKomihash::<V>::new();
    let mut text = [0xee; 140];
    let length = stream.save(&mut text);
    assert_text(rt, &text, length, [&[V, 0, 0, 0], &LANES, &[]]);
    stream.write(b"abc");
    let length = stream.save(&mut text);
    let parts: [&[u8]; 3] = [&[V, 0, 0, 3], &LANES, b"abc"];
    assert_text(rt, &text, length, parts);
    let mut stream = StreamedKomihash::<V>::new();
    stream.write(&[0xff; 64]);
    assert_eq!(rt; stream.save(&mut text), 68);
    assert_eq!(rt; &text[..4], [V, 1, u8::from(V == 4), 0].as_slice());
}

#[test]
fn saves_known_streams(rt: HostRuntime) {
    assert_saves::<4>(&rt);
    assert_saves::<5>(&rt);
}

#[test]
fn resumes_in_mid_message(rt: HostRuntime) {
    let mut stream = v5::StreamedKomihash::new();
    stream.write(&SIX_IN_FIVE[..64]);
    let mut text = [0xee; 140];
    let length = stream.save(&mut text);
    let parts: [&[u8]; 3] = [&[5, 1, 0, 0], &lanes_after_block(), &[]];
    assert_text(&rt, &text, length, parts);
    let mut resumed = v5::StreamedKomihash::resume(&text[..length]).expect(&rt, "a stream");
    resumed.write(&SIX_IN_FIVE[64..]);
    assert_eq!(rt; resumed.finish(), 6);
}

// Resumes a stream, compares its answer, and saves it as the same text again.
fn assert_resumes<const V: u8>(rt: &impl Abort, parts: [&[u8]; 3], answer: u64)
where
    Versions: IsVersion<V>,
{
    let (text, end) = joined(rt, parts);
    let stream = StreamedKomihash::<V>::resume(&text[..end]).expect(rt, "a stream");
    assert_eq!(rt; stream.finish(), answer);
    let mut saved = [0xee; 140];
    assert_eq!(rt; stream.save(&mut saved), end);
    assert_eq!(rt; saved, text);
}

// A state need not be one that a message leads to.
#[test]
fn resumes_known_texts(rt: HostRuntime) {
    let mut top = [0; 64];
    top[63] = 0x80;
    assert_resumes::<4>(&rt, [&[4, 0, 0, 0], &LANES, &[]], EMPTY_HASH);
    assert_resumes::<5>(&rt, [&[5, 0, 0, 0], &LANES, &[]], EMPTY_HASH);
    assert_resumes::<4>(&rt, [&[4, 1, 1, 0], &top, &[]], 0xc000_0000_0000_0003);
    assert_resumes::<4>(&rt, [&[4, 1, 0, 0], &top, &[]], 0x8000_0000_0000_0000);
    let full: [&[u8]; 3] = [&[5, 0, 0, 63], &[0; 64], &[0xaa; 63]];
    assert_resumes::<5>(&rt, full, 0x090b_45d3_109b_3fc1);
}

// Texts that no version has, the text of the other version, and the top bit in version 5.
fn assert_refuses<const V: u8>(rt: &impl Abort)
where
    Versions: IsVersion<V>,
{
    let rows: [[&[u8]; 3]; 11] = [
        [&[], &[], &[]],
        [&[V, 0, 0, 0], &LANES[..63], &[]],
        [&[V, 0, 0, 0], &LANES, &[0]],
        [&[9 - V, 0, 0, 0], &LANES, &[]],
        [&[V, 2, 0, 0], &LANES, &[]],
        [&[V, 0, 1, 0], &LANES, &[]],
        [&[V, 1, 2, 0], &[0; 64], &[]],
        [&[5, 1, 1, 0], &[0; 64], &[]],
        [&[V, 0, 0, 64], &LANES, &[0; 64]],
        [&[V, 0, 0, 63], &[0; 64], &[0xaa; 62]],
        [&[V, 0, 0, 63], &[0; 64], &[0xaa; 64]],
    ];
    for parts in rows {
        let (text, end) = joined(rt, parts);
        let resumed = StreamedKomihash::<V>::resume(&text[..end]);
        assert!(rt; resumed.is_none(), "{text:?}");
    }
}

#[test]
fn refuses_other_texts(rt: HostRuntime) {
    assert_refuses::<4>(&rt);
    assert_refuses::<5>(&rt);
}

// Saves a stream and resumes it.
fn store_and_restore<S: KomiStream>(rt: &impl Abort, stream: &mut S)
    ensures { S.state stream.new ≡ S.state stream.old }
{
    let mut text = [0; LONGEST_TEXT];
    let end = stream.store(&mut text);
    *stream = S::restore(&text[..end]).expect(rt, "a stream");
}

// Makes calls on a new stream of seed 0, each in its own run, and saves and resumes the stream
// after each. They cost what one run does. Compares the answers, and returns the stream.
fn run_restored<S: KomiStream, const PRODUCTS: usize, const KEPT_BYTES: usize>(
    rt: &impl Abort,
    calls: &[Call<'_>],
    answers: &[u64],
    tally: &mut Tally,
) -> S
    requires products { run_products calls.now ≡ PRODUCTS }
    requires kept_bytes { run_kept_bytes calls.now ≡ KEPT_BYTES }
    ensures costs { Costs tally PRODUCTS KEPT_BYTES }
{
    let mut out = [9; 200];
    let mut count = 0;
    let mut stream = S::start(0, tally);
    for call in calls {
        assert!(rt; count < 200);
        count += run_on(&mut stream, &[*call], &mut out[count..], tally);
        store_and_restore(rt, &mut stream);
    }
    assert_answers(rt, count, &out, answers);
    stream
}

// Starts a stream, makes no calls on it, and saves it.
fn start_costs(rt: &impl Abort, tally: &mut Tally)
    ensures costs { Costs tally 1 0 }
{
    let (mut stream, mut out) = (Five::start(0, tally), [9; 2]);
    assert_eq!(rt; run_on(&mut stream, &[], &mut out, tally), 0);
    assert_eq!(rt; out, [9; 2]);
    let mut text = [0xee; 140];
    let length = stream.store(&mut text);
    assert_text(rt, &text, length, [&[5, 0, 0, 0], &LANES, &[]]);
}

// Resumes a stream from a text that has no pending bytes.
#[tactic(auto, using(crate::proofs::SavedTexts::store_laws))]
fn restore_none_pending<S: KomiStream>(rt: &impl Abort, text: &[u8; 68]) -> S
    ensures { length (S.state result).pending ≡ 0 }
{
    S::restore(text).expect(rt, "a stream")
}

// Makes an Answer on a resumed stream.
fn restored_answer_costs(rt: &impl Abort, tally: &mut Tally)
    ensures costs { Costs tally 2 0 }
{
    let (mut text, mut out) = ([0; 68], [9; 200]);
    text[..4].copy_from_slice(&[4, 1, 1, 0]);
    text[67] = 0x80;
    let mut stream = restore_none_pending::<Four>(rt, &text);
    let count = run_on(&mut stream, &[Call::Answer], &mut out, tally);
    assert_answers(rt, count, &out, &[0xc000_0000_0000_0003]);
}

#[test]
fn saving_and_resuming_changes_nothing(rt: HostRuntime) {
    let tally = &mut Tally::new();
    let stream = run_restored::<Five, 16, 95>(&rt, &at_cuts(), &CUT_ANSWERS, tally);
    let (mut text, lanes) = ([0xee; 140], lanes_after_block());
    let length = stream.store(&mut text);
    let parts: [&[u8]; 3] = [&[5, 1, 0, 31], &lanes, &SIX_IN_FIVE[64..]];
    assert_text(&rt, &text, length, parts);
    run_restored::<Five, 8, 95>(&rt, &byte_by_byte(), &[6], tally);
    start_costs(&rt, tally);
    restored_answer_costs(&rt, tally);
}
