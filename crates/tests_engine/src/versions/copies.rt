//! Runs built of what many tablets hold, and the rows of their records and of tables', copied.

use super::cuts::random_version;
use crate::reading::expect_rest;
use std::alloc::Global;
use std::process::Abort;
use tab_testing::{Random, Update, sort};
use tab_version::{Clip, Clips, TableClip, Version};

// The rows of the clip's records are those of the updates.
fn expect_rows(rt: &impl Abort, alloc: Global, clip: &Clip, want: &[Update]) {
    assert!(rt; clip.len() == want.len());
    for index in 0..clip.len() {
        let row = clip.row_of(alloc, index).expect(rt, "memory");
        assert!(rt; row.as_bytes() == want[index].row);
    }
}

// The rows of the table's records are those of the updates.
fn expect_table_rows(rt: &impl Abort, alloc: Global, table: &TableClip, want: &[Update]) {
    assert!(rt; table.len() == want.len());
    for index in 0..table.len() {
        let row = table.row_of(alloc, index).expect(rt, "memory");
        assert!(rt; row.as_bytes() == want[index].row);
    }
}

// A run of all that the version holds.
fn run_of(rt: &impl Abort, alloc: Global, version: &Version) -> Clip {
    let mut raw = version.raw(alloc).expect(rt, "memory");
    Clips::new(alloc)
        .run_of(alloc, &mut raw)
        .expect(rt, "memory")
}

#[test]
fn a_run_is_built_of_many_tablets(rt: HostRuntime) {
    let alloc = rt.alloc();
    let mut random = Random::new(37);
    let mut copied = 0usize;
    for _ in 0..40 {
        let mut table = Vec::new(alloc);
        let version = random_version(&rt, alloc, &mut random, &mut table);
        sort(&mut table);
        let run = run_of(&rt, alloc, &version);
        expect_rows(&rt, alloc, &run, &table);
        let tabled = TableClip::of_run(alloc, &run).expect(&rt, "memory");
        expect_table_rows(&rt, alloc, &tabled, &table);
        expect_rest(&rt, &mut run.cursor(), &table);
        copied = copied.saturating_add(table.len());
    }
    assert!(rt; copied > 5200, "{copied} records were copied");
}
