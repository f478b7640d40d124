//! What the contracts of callers leave open: that a reader in memory, a list and a map give no
//! error, what the toolchain's `Hash` writes, and whether this crate's definitions are those that
//! are meant. The hash is that of the Rust crate `komihash` 0.5.0.

use crate::choices::choose;
use crate::filters::{contains, insert};
use crate::hashed::{Point, hash_of, put_and_get};
use crate::readers::digest_of_reader;
use crate::rings::server_of;
use crate::shuffles::shuffle;
use crate::stores::Journal;
use komihash::Komirand;
use std::alloc::{AllocError, AllocFailed};
use std::io;

const MESSAGE: [u8; 16] = [
    3, 10, 17, 24, 31, 38, 45, 52, 59, 66, 73, 80, 87, 94, 101, 108,
];

const HASH: u64 = 0x05d5_39f6_f9c4_1083;

#[test]
fn a_reader_is_hashed_to_its_end(rt: HostRuntime) -> io::Result<()> {
    for length in 1..=17usize {
        let hash = digest_of_reader(&mut &MESSAGE[..], &mut [0; 17][..length])?;
        assert!(rt; hash == HASH, "another hash, read {length} bytes at a time");
    }
    Ok(())
}

#[test]
fn a_journal_takes_entries(rt: HostRuntime) -> Result<(), AllocError> {
    let mut journal = Journal::new(rt.alloc());
    journal.append(&MESSAGE[..7])?;
    journal.append(&MESSAGE[7..])?;
    assert_eq!(rt; journal.digest(), HASH);
    Ok(())
}

// The items are written one by one. The Rust crate, which takes all bytes of an array or a slice at
// once, gives 5718353593097478880.
#[test]
fn an_array_is_hashed_item_by_item(rt: HostRuntime) {
    let bytes = [1u8, 2, 3];
    assert_eq!(rt; hash_of(&bytes), 10_855_883_765_187_448_465);
    assert_eq!(rt; hash_of(&bytes.as_slice()), 10_855_883_765_187_448_465);
}

#[test]
fn a_map_takes_a_point(rt: HostRuntime) -> Result<(), AllocFailed<(Point, u64)>> {
    let found = put_and_get(rt.alloc(), 7, Point { x: 1, y: 2 }, 3)?;
    assert_eq!(rt; found, Some(3));
    Ok(())
}

// A model of the generator in another language gave these items, and those that are chosen below.
#[test]
fn a_shuffle_follows_its_seed(rt: HostRuntime) {
    let mut items = [0, 1, 2, 3, 4, 5, 6, 7];
    shuffle(&mut Komirand::init(7), &mut items);
    assert_eq!(rt; items, [5, 0, 7, 1, 6, 4, 3, 2]);
}

#[test]
fn outputs_choose_items(rt: HostRuntime) {
    let mut chosen = [0; 6];
    choose(&mut Komirand::init(7), &[10, 20, 30, 40, 50], &mut chosen);
    assert_eq!(rt; chosen, [20, 10, 20, 40, 10, 50]);
}

#[test]
fn a_filter_finds_what_was_inserted(rt: HostRuntime) {
    let mut table = [false; 64];
    assert!(rt; !contains(&table, &MESSAGE), "found in an empty table");
    insert(&mut table, &MESSAGE[1..]);
    insert(&mut table, &MESSAGE);
    insert(&mut table, &[]);
    assert!(rt; contains(&table, &MESSAGE), "not found");
}

#[test]
fn a_key_belongs_to_the_next_server(rt: HostRuntime) {
    assert_eq!(rt; server_of(&[HASH - 1, HASH, HASH + 1], &MESSAGE), 1);
    assert_eq!(rt; server_of(&[1, HASH - 1], &MESSAGE), 0);
}
