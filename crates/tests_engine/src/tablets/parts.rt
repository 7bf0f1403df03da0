//! A merge that another tablet began.

use super::{CLOCK, written};
use std::alloc::Global;
use std::process::Abort;
use tab_cells::Compaction;
use tab_tablet::{Finished, Installed, Job, Tablet};
use tab_testing::{Random, mutation_of};

// A tablet with this number to which a random mutation was written, that of every tablet of this seed.
fn tablet_of(rt: &impl Abort, alloc: Global, number: u64, seed: u64) -> Tablet {
    let mut random = Random::new(seed);
    let mut updates = Vec::new(alloc);
    updates
        .push(random.update(b"k", 0, 0, CLOCK))
        .expect(rt, "memory");
    updates
        .push(random.update(b"k", 0, 1, CLOCK))
        .expect(rt, "memory");
    let mutation = mutation_of(alloc, b"k", &updates).expect(rt, "memory");
    written(rt, alloc, number, &mutation)
}

// The merge that begins in the tablet, which has something to merge.
fn begun(
    rt: &impl Abort,
    alloc: Global,
    tablet: &mut Tablet,
    kind: Compaction,
    number: u64,
) -> Job {
    let job = tablet.begin(alloc, kind, 0, 1, number).expect(rt, "memory");
    job.expect(rt, "there is something to merge")
}

fn merged(rt: &impl Abort, alloc: Global, job: Job) -> Finished {
    match job.merge(alloc) {
        Ok(finished) => finished,
        Err(_) => panic!(rt; "memory"),
    }
}

// The merge is made and installed, and this is told.
fn expect_told(rt: &impl Abort, alloc: Global, tablet: &mut Tablet, job: Job, want: Installed) {
    let finished = merged(rt, alloc, job);
    let told = tablet.install(alloc, finished).expect(rt, "memory");
    assert!(rt; told == want)
}

#[test]
fn a_strangers_merge_is_stale(rt: HostRuntime) {
    let alloc = rt.alloc();
    let mut tablet = tablet_of(&rt, alloc, 0, 1);
    let mut other = tablet_of(&rt, alloc, 0, 2);
    let own = begun(&rt, alloc, &mut tablet, Compaction::Minor, 5);
    let strange = begun(&rt, alloc, &mut other, Compaction::Minor, 5);
    expect_told(&rt, alloc, &mut tablet, strange, Installed::Stale(1));
    expect_told(&rt, alloc, &mut tablet, own, Installed::Stale(1))
}

#[test]
fn a_merge_of_another_number_changes_nothing(rt: HostRuntime) {
    let alloc = rt.alloc();
    let mut tablet = tablet_of(&rt, alloc, 0, 1);
    let mut other = tablet_of(&rt, alloc, 1, 1);
    let own = begun(&rt, alloc, &mut tablet, Compaction::Minor, 5);
    let equal = begun(&rt, alloc, &mut other, Compaction::Minor, 5);
    expect_told(&rt, alloc, &mut tablet, equal, Installed::Stale(1));
    expect_told(&rt, alloc, &mut tablet, own, Installed::Done)
}
