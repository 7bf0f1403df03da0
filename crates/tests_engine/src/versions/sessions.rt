//! When a session over a version is done.

use super::cuts::{bare_version, random_version};
use std::alloc::Global;
use std::process::Abort;
use tab_key::Items;
use tab_session::Session;
use tab_testing::{Columns, End, Query, Random, Update, auths_of, scanned};
use tab_version::Version;

// How many cells a scan shows that names no column and holds each authorization.
fn count_shown(rt: &impl Abort, alloc: Global, table: &[Update]) -> u32 {
    let query = Query {
        low: End::Open,
        high: End::Open,
        columns: Columns::All,
        versions: 1,
        has_a: true,
        has_b: true,
    };
    let shown = scanned(alloc, table, &query).expect(rt, "memory");
    u32::try_from(shown.len()).expect(rt, "few")
}

/// That scan of the version, opened.
pub fn opened(rt: &impl Abort, alloc: Global, version: Version) -> Session {
    let auths = auths_of(alloc, &[b"A", b"B"]).expect(rt, "memory");
    Session::new(alloc, version, Items::new(alloc), auths, 1)
}

// A batch of so many has so many cells, and leaves the session done or not.
fn expect_batch(
    rt: &impl Abort,
    alloc: Global,
    session: &mut Session,
    count: u32,
    given: u32,
    is_done: bool,
) {
    let batch = session.next_batch(alloc, count).expect(rt, "memory");
    assert!(rt; batch.len() == given as usize);
    assert!(rt; session.is_done() == is_done);
}

// All cells but the first 16 of so many are given at once, exactly to the end, and only a batch behind that is short.
fn expect_batches(rt: &impl Abort, alloc: Global, session: &mut Session, shown: u32) {
    assert!(rt; shown > 32, "{shown} cells are shown");
    assert!(rt; !session.is_done());
    expect_batch(rt, alloc, session, 0, 0, false);
    expect_batch(rt, alloc, session, 16, 16, false);
    expect_batch(rt, alloc, session, shown - 16, shown - 16, false);
    expect_batch(rt, alloc, session, 0, 0, false);
    expect_batch(rt, alloc, session, 1, 0, true);
    expect_batch(rt, alloc, session, 0, 0, true);
}

#[test]
fn is_done_behind_a_short_batch(rt: HostRuntime) {
    let alloc = rt.alloc();
    let mut table = Vec::new(alloc);
    let version = random_version(&rt, alloc, &mut Random::new(31), &mut table);
    let shown = count_shown(&rt, alloc, &table);
    let mut session = opened(&rt, alloc, version);
    expect_batches(&rt, alloc, &mut session, shown);
}

// Where there is no cell, the first batch that asks for one is short.
#[test]
fn is_done_over_nothing_once_asked(rt: HostRuntime) {
    let alloc = rt.alloc();
    let version = bare_version(&rt, alloc);
    let mut session = opened(&rt, alloc, version);
    assert!(rt; !session.is_done());
    expect_batch(&rt, alloc, &mut session, 0, 0, false);
    expect_batch(&rt, alloc, &mut session, 1, 0, true);
}
