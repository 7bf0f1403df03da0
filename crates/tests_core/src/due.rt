//! Lists of the work that is due.

use crate::steps::{add, add_count, steps_of};
use std::alloc::Global;
use std::process::Abort;
use tab_core::{Core, Due, DueKind};
use tab_history::Step;

// Two tablets, 1 and 2, with three sorted tables each, and a table of one, 3.
const MADE: &[u8] =
    b"createtable t\naddsplit t m\ncreatetable v\ninsert t a f q \\e 1 1\ninsert t z f q \\e 1 1\n\
insert v a f q \\e 1 1\nflush t\nflush v\ninsert t a f q \\e 1 1\ninsert t z f q \\e 1 1\n\
insert v a f q \\e 1 1\nflush t\nflush v\ninsert t a f q \\e 1 1\ninsert t z f q \\e 1 1\n\
insert v a f q \\e 1 1\nflush t\nflush v";

fn add_step(alloc: Global, core: &mut Core, step: Step) {
    if let Step::Event(event) = step {
        let _told = core.step(alloc, event);
    }
}

fn ask(rt: &impl Abort, alloc: Global, core: &mut Core, script: &[u8]) {
    for step in steps_of(rt, alloc, script) {
        add_step(alloc, core, step);
    }
}

// So many records wait in tablet 3 that a minor compaction is due there too.
fn core_of(rt: &impl Abort, alloc: Global) -> Core {
    let mut core = Core::new(alloc).expect(rt, "memory");
    ask(rt, alloc, &mut core, MADE);
    for _ in 0..4096u32 {
        ask(rt, alloc, &mut core, b"insert v a f q \\e 1 1");
    }
    core
}

fn letter(kind: DueKind) -> &'static [u8] {
    match kind {
        DueKind::Minor => b"m",
        DueKind::Partial => b"p",
        DueKind::Split => b"s",
    }
}

fn add_due(rt: &impl Abort, alloc: Global, text: &mut Vec<u8>, due: &Due) {
    add(rt, text, letter(due.kind));
    add_count(rt, alloc, text, due.tablet);
    add(rt, text, b" ");
}

// The list of so many at most, as text.
fn expect_list(rt: &impl Abort, alloc: Global, core: &Core, max: usize, want: &[u8]) {
    let mut text = Vec::new(alloc);
    for due in &core.due_list(alloc, max).expect(rt, "memory") {
        add_due(rt, alloc, &mut text, due);
    }
    assert!(rt; text.as_slice() == want)
}

#[test]
fn each_tablet_is_in_a_list_once(rt: HostRuntime) {
    let alloc = rt.alloc();
    let core = core_of(&rt, alloc);
    expect_list(&rt, alloc, &core, 8, b"m3 p1 p2 ");
    expect_list(&rt, alloc, &core, 2, b"m3 p1 ");
    expect_list(&rt, alloc, &core, 0, b"");
}
