//! Runs of steps.
ghost use Rattle.std.specs.Prelude.{◌≡◌, List, IfOk, length};
ghost use Rattle.tab_history.specs.Bases.{new_core};
ghost use Rattle.tab_history.specs.Histories.{world_of};
ghost use Rattle.tab_history.specs.Legal.{Legal, LacksWhereItMay};
ghost use Rattle.tab_store.specs.Chains.{IsExactRun};
ghost use Rattle.tab_core.specs.Slots.{history_of};
ghost use Rattle.tab_core.specs.declared.job_slots.JobSlot.{JobSlot};
ghost use Rattle.tab_core.specs.Owners.{RunsOn};
ghost use Rattle.tab_core.specs.Stepping.{asked_at};

use crate::job_slots::JobSlots;
use crate::sessions::Sessions;
use crate::state::Core;
use std::alloc::{AllocError, Global};
use tab_history::{Act, Event, Refusal, Reply, Scan, Step};
use tab_key::Name;

/// Answers the steps in order, beginning with a new core, and keeps each user's sessions, and the jobs.
///
/// Each event is one step of that core, exactly: a Flush, a Compact and a split lay its records otherwise, a Status counts them as they
/// lie, a Splits tells the end rows that there are, a Begin begins a job wherever there is anything to merge, and an Install of a slot is
/// given the merge of the job in it. What is no event leaves the core as it was: a Next, a Many, a Close, a Merge, and what is refused for
/// want of memory, by a full list of sessions, or by a slot without a finished merge.
///
/// The k-th session opened for a user, counted from 0, has the slot k, which closing it empties for good. Past 65,536
/// open sessions of one user an Open is refused. The k-th job begun, by whomever, has the slot k of the jobs, which an Install of it empties
/// for good once its merge was made, whatever that Install is told. Where memory lacks for a step, that step is refused and the run goes on;
/// it can lack only for a Next, a Many, a Merge, and for an event that takes some. An error means that there was none for the list of
/// replies, or for the core itself.
pub fn run(alloc: Global, steps: Vec<Step>) -> Result<Vec<Reply>, AllocError>
    ensures length { IfOk result (λ replies. length replies.items ≡ length steps.items) }
    ensures legal { IfOk result (λ replies. Legal (world_of new_core) (history_of steps.items replies.items)) }
    ensures memory { IfOk result (λ replies. LacksWhereItMay (history_of steps.items replies.items)) }
    ensures exact { IfOk result (λ replies. IsExactRun (history_of steps.items replies.items)) }
{
    let mut core = Core::new(alloc)?;
    let mut sessions = Sessions::new(alloc);
    let mut jobs = JobSlots::new(alloc);
    let mut replies = Vec::new(alloc);
    for step in steps {
        replies.reserve(1)?;
        let reply = run_step(alloc, &mut core, &mut sessions, &mut jobs, step);
        replies.push_reserved(reply);
    }
    Ok(replies)
}

// One step.
fn run_step(
    alloc: Global,
    core: &mut Core,
    sessions: &mut Sessions,
    jobs: &mut JobSlots,
    step: Step,
) -> Reply
    ensures { RunsOn core.old sessions.old jobs.old step result core.new sessions.new jobs.new }
{
    match step {
        Step::Event(mut event) => run_event(alloc, core, sessions, jobs, &mut event),
        Step::Next { user, slot, count } => sessions.next(alloc, &user, slot, count),
        Step::Many { user, slot, ranges } => sessions.many(alloc, &user, slot, ranges.as_slice()),
        Step::Close { user, slot } => sessions.close(&user, slot),
        Step::Merge { slot } => jobs.merge(alloc, slot),
    }
}

// An event. An Open past the limit of sessions is refused, and doesn't happen.
fn run_event(
    alloc: Global,
    core: &mut Core,
    sessions: &mut Sessions,
    jobs: &mut JobSlots,
    event: &mut Event,
) -> Reply
    ensures { RunsOn core.old sessions.old jobs.old (Step.Event event.old) result core.new sessions.new jobs.new }
{
    match &mut event.act {
        Act::Open(scan) => run_open(alloc, core, sessions, &event.user, event.moment, scan),
        act => jobs.step(alloc, core, &event.user, event.moment, act),
    }
}

// An Open, whose session is kept in its user's next slot.
fn run_open(
    alloc: Global,
    core: &mut Core,
    sessions: &mut Sessions,
    user: &Name,
    moment: i64,
    scan: &mut Scan,
) -> Reply
    ensures { (jobs : List JobSlot) → RunsOn core.old sessions.old jobs (Step.Event (asked_at user.now moment (Act.Open scan.old))) result core.new sessions.new jobs }
{
    match sessions.kept_for(alloc, user) {
        Some(kept) => kept.numbered.open(alloc, core, user, moment, scan),
        None => Reply::Refused(Refusal::NoMemory),
    }
}
