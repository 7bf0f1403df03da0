//! Batches read through caches of tables of each size, beside one batch of all cells.

use super::cuts::tabled_version;
use super::sessions::opened;
use std::alloc::Global;
use std::process::Abort;
use tab_key::Cells;
use tab_session::Session;

// Whether the batch has the cells that stand at a place of all on.
fn are_those(batch: &Cells, all: &Cells, place: usize) -> bool {
    for index in 0..batch.len() {
        if place.saturating_add(index) >= all.len() {
            return false;
        }
        let (cell, other) = (batch.get(index), all.get(place + index));
        if cell.row() != other.row() || cell.value() != other.value() {
            return false;
        }
    }
    true
}

// Batches of so many cells are all cells, one behind the other.
fn expect_all(rt: &impl Abort, alloc: Global, session: &mut Session, count: u32, all: &Cells) {
    let mut given = 0usize;
    for _ in 0..all.len() {
        let batch = session.next_batch(alloc, count).expect(rt, "memory");
        assert!(rt; are_those(&batch, all, given));
        given = given.saturating_add(batch.len());
    }
    assert!(rt; given == all.len());
}

fn session_with(rt: &impl Abort, alloc: Global, blocks: usize) -> Session {
    let mut session = opened(rt, alloc, tabled_version(rt, alloc));
    assert!(rt; blocks > 0);
    assert!(rt; blocks <= 64);
    session.set_cache(blocks).expect(rt, "memory");
    session
}

fn check(rt: &impl Abort, alloc: Global, blocks: usize, all: &Cells) {
    for count in [1u32, 7, 30] {
        let mut session = session_with(rt, alloc, blocks);
        expect_all(rt, alloc, &mut session, count, all);
    }
}

#[test]
fn batches_are_the_same_with_each_cache(rt: HostRuntime) {
    let alloc = rt.alloc();
    let mut whole = opened(&rt, alloc, tabled_version(&rt, alloc));
    let all = whole.next_batch(alloc, 1000).expect(&rt, "memory");
    assert!(rt; all.len() > 64);
    check(&rt, alloc, 1, &all);
    check(&rt, alloc, 2, &all);
    check(&rt, alloc, 64, &all);
}
