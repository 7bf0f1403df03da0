//! Compactions in three parts: in runs, which keep their jobs, and in cores, to which merges are handed.

use crate::steps::{expect_reply, expect_text, expect_told, named, push, run_of, steps_of};
use std::alloc::Global;
use std::process::Abort;
use tab_core::{Core, FinishedJob, TabletJob, told};
use tab_history::{Act, Event, Given, Step, copied};
use tab_key::ByteString;

const IN_ORDER: &[u8] =
    b"createtable t\ninsert t r f q \\e v 1\nmerge 0\nbegin t \\e minor\ninstall t 0\n\
merge 0\nmerge 0\ninstall t 1\ninstall t 0\ninstall t 0\nmerge 0";

#[test]
fn a_slot_takes_its_steps_in_order(rt: HostRuntime) {
    let told = b"ok ok nojob begun nojob ok nojob nojob ok nojob nojob ";
    expect_told(&rt, rt.alloc(), IN_ORDER, told)
}

const MERGED: &[u8] = b"createtable t\ninsert t r f q \\e v 1\nbegin t \\e full\nmerge 0";

// No line says it: an install by hand, and one behind it from the slot.
fn add_installs(rt: &impl Abort, steps: &mut Vec<Step>) {
    for given in [Given::ByHand(0), Given::InSlot(0)] {
        let act = Act::Install(named(rt, b"t"), given);
        let (user, moment) = (named(rt, b"root"), 0);
        push(rt, steps, Step::Event(Event { user, moment, act }));
    }
}

#[test]
fn an_install_by_hand_in_a_run_comes_without_a_merge(rt: HostRuntime) {
    let mut steps = steps_of(&rt, rt.alloc(), MERGED);
    add_installs(&rt, &mut steps);
    let replies = run_of(&rt, rt.alloc(), steps);
    expect_text(&rt, rt.alloc(), &replies, b"ok ok begun ok stale0 ok ")
}

// The job that the core hands out at the step, if it does.
fn job_at(alloc: Global, core: &mut Core, step: Step) -> Option<TabletJob> {
    match step {
        Step::Event(event) => {
            let (_told, _session, job) = core.step(alloc, event).into_parts();
            job
        }
        _ => None,
    }
}

// Asks the core what the script's lines say; the job that it hands out at the last of them, if it does.
fn asked(rt: &impl Abort, alloc: Global, core: &mut Core, script: &[u8]) -> Option<TabletJob> {
    let mut last = None;
    for step in steps_of(rt, alloc, script) {
        last = job_at(alloc, core, step);
    }
    last
}

// A core that was asked what the script's lines say.
fn core_with(rt: &impl Abort, alloc: Global, script: &[u8]) -> Core {
    let mut core = Core::new(alloc).expect(rt, "memory");
    let job = asked(rt, alloc, &mut core, script);
    assert!(rt; job.is_none());
    core
}

// The merge that the line begins, made.
fn merged(rt: &impl Abort, alloc: Global, core: &mut Core, line: &[u8]) -> FinishedJob {
    let job = asked(rt, alloc, core, line);
    match job.expect(rt, "a job").merge(alloc) {
        Ok(finished) => finished,
        Err(_) => panic!(rt; "memory"),
    }
}

// That is what root is told of the merge's install into t.
fn expect_installed(
    rt: &impl Abort,
    alloc: Global,
    core: &mut Core,
    finished: FinishedJob,
    want: &[u8],
) {
    let (root, table) = (named(rt, b"root"), named(rt, b"t"));
    let reply = told(core.install(alloc, &root, 0, &table, finished));
    expect_reply(rt, alloc, reply, want)
}

#[test]
fn a_merge_of_another_core_is_stale(rt: HostRuntime) {
    let alloc = rt.alloc();
    let mut core = core_with(&rt, alloc, b"createtable t\ninsert t r f q \\e v 1");
    let mut other = core_with(&rt, alloc, b"createtable t\ninsert t r f q \\e w 1");
    let mine = merged(&rt, alloc, &mut core, b"begin t \\e full");
    let strange = merged(&rt, alloc, &mut other, b"begin t \\e full");
    assert!(rt; mine.number() == strange.number());
    expect_installed(&rt, alloc, &mut core, strange, b"stale1");
    // it took the entry away
    expect_installed(&rt, alloc, &mut core, mine, b"stale1");
    let again = merged(&rt, alloc, &mut core, b"begin t \\e full");
    expect_installed(&rt, alloc, &mut core, again, b"ok");
}

#[test]
fn a_merge_of_another_table_is_stale_and_ends_none(rt: HostRuntime) {
    let alloc = rt.alloc();
    let script = b"createtable t\ncreatetable u\ninsert t r f q \\e v 1\ninsert u r f q \\e v 1";
    let mut core = core_with(&rt, alloc, script);
    let mine = merged(&rt, alloc, &mut core, b"begin t \\e full");
    let strange = merged(&rt, alloc, &mut core, b"begin u \\e full");
    assert!(rt; mine.number() != strange.number());
    expect_installed(&rt, alloc, &mut core, strange, b"stale0");
    // the one of t is under way still
    expect_installed(&rt, alloc, &mut core, mine, b"ok");
}

// Of what a book copies, no line of a server says it.
#[test]
fn copies_a_split_by_size(rt: HostRuntime) {
    let row = ByteString::new(rt.alloc());
    let act = Act::SplitBySize(named(&rt, b"t"), row, 9);
    let (user, moment) = (named(&rt, b"root"), 0);
    let asked = Event { user, moment, act };
    assert!(rt; copied(&asked).is_ok());
}
