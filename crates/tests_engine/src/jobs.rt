//! Merges of random sources of each kind, beside the model.

use crate::sources::{Numbered, random_sources};
use std::alloc::Global;
use std::process::Abort;
use tab_cells::Compaction;
use tab_compact::{Job, merge_many};
use tab_iter::Source;
use tab_table::{Cursor, SortedTable};
use tab_testing::{Holding, Random, Update, table_len};

// The cursor has the records of these updates left, and no others.
fn expect_left(rt: &impl Abort, cursor: &mut Cursor<'_>, want: &[Update]) {
    for update in want {
        let top = cursor.top();
        let is_next = top.is_some_and(|record| update.is_record(&record));
        assert!(rt; is_next);
        cursor.advance().expect(rt, "memory");
    }
    assert!(rt; cursor.top().is_none());
}

// The table has the records of these updates, in their order, and their size.
fn expect_table(rt: &impl Abort, alloc: Global, table: &SortedTable, want: &[Update]) {
    assert!(rt; table.len() == want.len());
    assert!(rt; table.size() == table_len(want));
    let mut cursor = Cursor::new(alloc, table).expect(rt, "memory");
    expect_left(rt, &mut cursor, want);
}

// The merge keeps these.
fn expect_merged(rt: &impl Abort, alloc: Global, job: Job, want: &[Update]) {
    match job.merge(alloc) {
        Ok(finished) => expect_table(rt, alloc, finished.table(), want),
        Err(_) => panic!(rt; "memory"),
    }
}

// A compaction of the kind merges what the model does; how many updates it keeps.
fn compare(
    rt: &impl Abort,
    alloc: Global,
    random: &mut Random,
    numbered: &Numbered,
    holding: &Holding,
    kind: Compaction,
) -> usize {
    let floor = random.below(5) as i64;
    let versions = random.below(4) as u32;
    let job = numbered
        .captured(alloc, kind, floor, versions)
        .expect(rt, "memory");
    let want = holding
        .output(alloc, kind, floor, versions)
        .expect(rt, "memory");
    assert!(rt; job.is_some() == want.is_some());
    let Some(job) = job else {
        return 0;
    };
    let want = want.unwrap_or(Vec::new(alloc));
    expect_merged(rt, alloc, job, &want);
    want.len()
}

// So many times some sources, at most so many, and a compaction of each kind; how many updates are kept of each.
fn compare_all(rt: &impl Abort, alloc: Global, kind: Compaction, rounds: u64, most: u64) -> usize {
    let mut random = Random::new(most);
    let mut kept = 0usize;
    for round in 0..rounds {
        let count = most.saturating_sub(round % 12);
        let mut holding = Holding::new(alloc);
        let numbered = random_sources(rt, alloc, &mut random, count, &mut holding);
        let more = compare(rt, alloc, &mut random, &numbered, &holding, kind);
        kept = kept.saturating_add(more);
    }
    kept
}

#[test]
fn random_sources_are_merged(rt: HostRuntime) {
    let alloc = rt.alloc();
    for kind in [Compaction::Minor, Compaction::Partial, Compaction::Full] {
        assert!(rt; compare_all(&rt, alloc, kind, 240, 11) > 200);
        assert!(rt; compare_all(&rt, alloc, kind, 12, 64) > 100);
    }
}

// Eight full compactions of random sources, and what the model keeps of each.
fn full_jobs(rt: &impl Abort, alloc: Global, wanted: &mut Vec<Vec<Update>>) -> Vec<Job> {
    let mut random = Random::new(8);
    let mut jobs = Vec::new(alloc);
    for count in 1..9 {
        let mut holding = Holding::new(alloc);
        let numbered = random_sources(rt, alloc, &mut random, count, &mut holding);
        let want = holding
            .output(alloc, Compaction::Full, 0, 1)
            .expect(rt, "memory");
        let job = numbered
            .captured(alloc, Compaction::Full, 0, 1)
            .expect(rt, "memory");
        jobs.push(job.expect(rt, "sources")).expect(rt, "memory");
        wanted.push(want.expect(rt, "sources")).expect(rt, "memory");
    }
    jobs
}

#[test]
fn many_jobs_are_merged_as_each_is(rt: HostRuntime) {
    let alloc = rt.alloc();
    let mut wanted = Vec::new(alloc);
    let jobs = full_jobs(&rt, alloc, &mut wanted);
    let Ok(finished) = merge_many(&rt, alloc, jobs) else {
        panic!(rt; "memory");
    };
    assert!(rt; finished.len() == 8);
    for (merge, want) in finished.iter().zip(&wanted) {
        expect_table(&rt, alloc, merge.table(), want);
    }
}

#[test]
fn no_jobs_are_merged_to_none(rt: HostRuntime) {
    let alloc = rt.alloc();
    match merge_many(&rt, alloc, Vec::new(alloc)) {
        Ok(finished) => assert!(rt; finished.is_empty()),
        Err(_) => panic!(rt; "memory"),
    }
}
