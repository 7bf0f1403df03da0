//! Many ranges of a session, read by several threads, beside the same ones read one after another.

use super::cuts::random_version;
use super::sessions::opened;
use std::alloc::Global;
use std::process::Abort;
use std::thread::Threads;
use tab_key::{Bound, Bounds, ByteString, Cells};
use tab_session::Session;
use tab_testing::Random;

const ROWS: [&[u8]; 8] = [b"", b"a", b"d", b"h", b"k", b"p", b"x", b"y"];

// A random end of a range.
fn random_end(rt: &impl Abort, alloc: Global, random: &mut Random) -> Bound {
    let row = ByteString::from_slice(alloc, random.one_of(&ROWS)).expect(rt, "memory");
    match random.below(3) {
        0 => Bound::Unbounded,
        1 => Bound::Inclusive(row),
        _ => Bound::Exclusive(row),
    }
}

// So many random ranges. Some of them are none.
fn random_ranges(rt: &impl Abort, alloc: Global, random: &mut Random, count: u64) -> Vec<Bounds> {
    let mut ranges = Vec::new(alloc);
    for _ in 0..count {
        let low = random_end(rt, alloc, random);
        let high = random_end(rt, alloc, random);
        ranges.push(Bounds { low, high }).expect(rt, "memory");
    }
    ranges
}

// Whether these are the same rows and values.
fn are_same(some: &Cells, others: &Cells) -> bool {
    if some.len() != others.len() || some.byte_len() != others.byte_len() {
        return false;
    }
    for index in 0..some.len() {
        let (cell, other) = (some.get(index), others.get(index));
        if cell.row() != other.row() || cell.value() != other.value() {
            return false;
        }
    }
    true
}

// 64 ranges of all rows, and behind them so many random ones: what is read first has so many cells that threads read the others.
fn ranges_for_threads(
    rt: &impl Abort,
    alloc: Global,
    random: &mut Random,
    count: u64,
) -> Vec<Bounds> {
    let mut ranges = Vec::new(alloc);
    for _ in 0..64 {
        let whole = Bounds {
            low: Bound::Unbounded,
            high: Bound::Unbounded,
        };
        ranges.push(whole).expect(rt, "memory");
    }
    let mut others = random_ranges(rt, alloc, random, count);
    ranges.append(&mut others).expect(rt, "memory");
    ranges
}

// Whether the one range has these cells where nothing else is asked for.
fn are_those_alone(
    rt: &impl Abort,
    alloc: Global,
    session: &mut Session,
    range: &[Bounds],
    cells: &Cells,
) -> bool {
    let alone = session.scan_each(alloc, range).expect(rt, "memory");
    alone.len() == 1 && are_same(&alone.as_slice()[0], cells)
}

// The ranges have the same cells in the same order, whoever reads them, and each has those that it has alone; how many.
fn compare(
    rt: &(impl Abort + Threads + Sync),
    alloc: Global,
    session: &mut Session,
    ranges: Vec<Bounds>,
) -> usize {
    let many = session.scan_many(rt, alloc, &ranges).expect(rt, "memory");
    let each = session.scan_each(alloc, &ranges).expect(rt, "memory");
    assert!(rt; many.len() == ranges.len());
    assert!(rt; each.len() == ranges.len());
    let mut cells = 0usize;
    for (index, some) in many.as_slice().iter().enumerate() {
        assert!(rt; are_same(some, &each.as_slice()[index]));
        assert!(rt; are_those_alone(rt, alloc, session, &ranges[index..index + 1], some));
        cells = cells.saturating_add(some.len());
    }
    cells
}

// Compares so many random ranges.
fn compare_random(
    rt: &(impl Abort + Threads + Sync),
    alloc: Global,
    session: &mut Session,
    random: &mut Random,
    count: u64,
) -> usize {
    let ranges = random_ranges(rt, alloc, random, count);
    compare(rt, alloc, session, ranges)
}

#[test]
fn many_ranges_are_those_read_one_by_one(rt: HostRuntime) {
    let alloc = rt.alloc();
    let mut random = Random::new(31);
    let mut table = Vec::new(alloc);
    let version = random_version(&rt, alloc, &mut random, &mut table);
    let mut session = opened(&rt, alloc, version);
    assert!(rt; compare_random(&rt, alloc, &mut session, &mut random, 0) == 0);
    assert!(rt; compare_random(&rt, alloc, &mut session, &mut random, 1) < 1_000);
    assert!(rt; compare_random(&rt, alloc, &mut session, &mut random, 2) < 2_000);
    assert!(rt; compare_random(&rt, alloc, &mut session, &mut random, 1_000) > 1_000);
    let ranges = ranges_for_threads(&rt, alloc, &mut random, 937);
    assert!(rt; compare(&rt, alloc, &mut session, ranges) > 64 * 32);
}
