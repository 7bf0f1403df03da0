//! Cores that are made of the base of another one.

use crate::steps::{add, add_cells, add_reply, steps_of};
use std::alloc::Global;
use std::process::Abort;
use tab_core::{Answer, Core, Session};
use tab_history::{Reply, Step};

// A table of three tablets, with versions and a horizon, whose records lie in a sorted table, in a run and in neither; one that gives the
// timestamps; and a user with some rights.
const MADE: &[u8] =
    b"createtable t versions=2\ncreatetable u time=server\ninsert t a f q \\e 1 5\ninsert t k f q \\e 1 5\n\
insert t k f q \\e 2 6\ncompact t full\naddsplit t c\naddsplit t m\ninsert t k f q \\e 3 7\nopen t \\0\ninsert t z f q \\e 1 5\n\
delete t z f q \\e 3\nhorizon t 5\ncreateuser bob\nsetauths bob x,y\ngrant bob READ t\nat 8\ninsert u a f q \\e 1";

const ASKED: &[u8] =
    b"open t \\0\nopen u \\0\nsplits t\nstatus t\nrights t\nas bob\nrights t\nopen t x\nopen t z\nopen u \\0";

// What of this is done goes by the horizon, the versions and the rows that there are.
const WRITTEN: &[u8] =
    b"insert t k f q \\e 4 8\ninsert t b f q \\e 1 4\ninsert u b f q \\e 1\nversions t 3\naddsplit t m\n\
begin t \\e full\nas bob\ninsert t k f q \\e 5 9\nas root\naddsplit t e";

// All cells of the session.
fn add_session(rt: &impl Abort, alloc: Global, text: &mut Vec<u8>, session: Session) {
    let mut session = session;
    let cells = session.next_batch(alloc, u32::MAX).expect(rt, "memory");
    add_cells(rt, alloc, text, &cells)
}

// The answer as text, with rows and with the cells of a session.
fn add_answer(rt: &impl Abort, alloc: Global, text: &mut Vec<u8>, answer: Answer) {
    let (reply, session, _job) = answer.into_parts();
    add_reply(rt, alloc, text, &reply);
    if let Reply::Rows(rows) = &reply {
        for row in rows.as_slice() {
            add(rt, text, row.as_bytes());
        }
    }
    if let Some(session) = session {
        add_session(rt, alloc, text, session);
    }
    add(rt, text, b" ");
}

fn add_step(rt: &impl Abort, alloc: Global, core: &mut Core, text: &mut Vec<u8>, step: Step) {
    if let Step::Event(event) = step {
        let answer = core.step(alloc, event);
        add_answer(rt, alloc, text, answer);
    }
}

// What the core tells to the lines of a script.
fn told_by(rt: &impl Abort, alloc: Global, core: &mut Core, script: &[u8]) -> Vec<u8> {
    let mut text = Vec::new(alloc);
    for step in steps_of(rt, alloc, script) {
        add_step(rt, alloc, core, &mut text, step);
    }
    text
}

fn core_of(rt: &impl Abort, alloc: Global) -> Core {
    let mut core = Core::new(alloc).expect(rt, "memory");
    let _told = told_by(rt, alloc, &mut core, MADE);
    core
}

// Both cores tell the same to the lines, and have one clock and one next number then.
fn expect_alike(rt: &impl Abort, alloc: Global, one: &mut Core, other: &mut Core, script: &[u8]) {
    let told = told_by(rt, alloc, one, script);
    let told_too = told_by(rt, alloc, other, script);
    assert!(rt; told.as_slice() == told_too.as_slice());
    assert!(rt; one.clock() == other.clock());
    assert!(rt; one.next() == other.next());
}

#[test]
fn a_core_of_a_base_answers_as_the_other_does(rt: HostRuntime) {
    let alloc = rt.alloc();
    let mut core = core_of(&rt, alloc);
    let base = core.base(alloc).expect(&rt, "memory");
    let mut copy = Core::from_base(base);
    expect_alike(&rt, alloc, &mut core, &mut copy, ASKED);
    expect_alike(&rt, alloc, &mut core, &mut copy, WRITTEN);
    expect_alike(&rt, alloc, &mut core, &mut copy, ASKED);
}

const LATER: &[u8] = b"insert u b f q \\e 1\nopen u \\0\nsplits t\nopen t \\0";

#[test]
fn a_core_of_a_raised_base_has_its_clock(rt: HostRuntime) {
    let alloc = rt.alloc();
    let core = core_of(&rt, alloc);
    let mut base = core.base(alloc).expect(&rt, "memory");
    base.raise(20);
    base.raise(3);
    let mut copy = Core::from_base(base);
    let told = told_by(&rt, alloc, &mut copy, LATER);
    let want = b"ok opened@8=1,@20=1, toldcm opened@5=1,@7=3,@6=2,@5=1, ";
    assert!(rt; told.as_slice() == want.as_slice());
}

#[test]
fn what_a_core_does_later_is_in_no_base(rt: HostRuntime) {
    let alloc = rt.alloc();
    let mut core = core_of(&rt, alloc);
    let base = core.base(alloc).expect(&rt, "memory");
    let _told = told_by(&rt, alloc, &mut core, WRITTEN);
    let mut copy = Core::from_base(base);
    let mut other = core_of(&rt, alloc);
    expect_alike(&rt, alloc, &mut copy, &mut other, ASKED);
}
