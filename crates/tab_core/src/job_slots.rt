//! The jobs of a run or a script, each in the slot that is its number. All users share them.
ghost use Rattle.std.specs.Prelude.{◌≡◌, ◌⊎◌, ◌<◌, [], true, IfOk, IfErr, length, slice_set, vec_len, vec_capacity};
ghost use Rattle.tab_history.specs.Answers.{merge_answer};
ghost use Rattle.tab_history.specs.Jobs.{is_waiting};
ghost use Rattle.tab_core.specs.JobSlots.{seen, slot_in, finished_in, freed, after_made, is_begin, kept_job, MergesIn, StepsIn, LacksRoom, FindsNone, UsesUp, KeepsJob};
ghost use Rattle.tab_core.specs.Spending.{left_of};
ghost use Rattle.tab_core.specs.Stepping.{asked_at};

use crate::policing::named_slot;
use crate::reply::{told, with_job};
use crate::slots::put;
use crate::state::Core;
use std::alloc::{AllocError, Global};
use std::marker::Model;
use std::mem;
use tab_history::{Act, Given, Refusal, Reply};
use tab_iter::NoMemory;
use tab_key::Name;
use tab_store::{FinishedJob, TabletJob};

/// What the slot of a job holds.
#[derive(Drop)]
pub enum JobSlot {
    /// Nothing: the merge is used up.
    Free,
    /// A job whose merge is to be made.
    Waiting(TabletJob),
    /// A finished merge.
    Merged(FinishedJob),
}

/// All jobs by their numbers: the k-th one begun, counted from 0, has the slot k. A number is given out once.
pub struct JobSlots {
    // by number
    slots: Vec<JobSlot>,
}

// Written out, so that a crate above needn't prove anew how the parts are dropped.
impl Drop for JobSlots {
    fn drop(self) {
        let JobSlots { slots: _ } = self;
    }
}

impl Model for JobSlots {
    ghost use Rattle.std.specs.Prelude.{List};
    ghost use Rattle.tab_core.specs.declared.job_slots.JobSlot.{JobSlot as Slot};

    ghost Value = { List Slot };

    ghost view = { λ s. s.slots.items };
}

impl JobSlots {
    /// No job.
    pub fn new(alloc: Global) -> JobSlots
        ensures { result ≡ [] }
    {
        JobSlots {
            slots: Vec::new(alloc),
        }
    }

    /// How many jobs were begun. It is the number of the next one.
    pub fn begun(&self) -> u64
        ensures { result ≡ length self.now }
    {
        self.slots.len() as u64
    }

    /// Has the core do what the user asks at this moment. A job that it begins is kept in the next slot, for which room is made before:
    /// without memory for it nothing happens. An Install by a slot is given the finished merge there, which is used up, whatever it is told;
    /// without one it is refused before all else, and nothing happens. A session that is handed out is dropped. An act that is refused is left
    /// as it was; out of any other one the core takes what it keeps, as [`Core::step_lent`] does.
    pub fn step(
        &mut self,
        alloc: Global,
        core: &mut Core,
        user: &Name,
        moment: i64,
        act: &mut Act,
    ) -> Reply
        ensures steps { StepsIn core.old self.old (asked_at user.now moment act.old) result core.new self.new }
        ensures left { act.new ≡ left_of act.old result }
    {
        if begins(act) {
            return self.begin(alloc, core, user, moment, act);
        }
        match named_slot(act) {
            Some((table, slot)) => self.install(alloc, core, user, moment, table, slot),
            None => told(core.step_lent(alloc, user, moment, act)),
        }
    }

    /// Makes the merge of the job in the slot, where one waits for that. Where memory lacks for it the job waits on.
    ///
    /// It takes time linear in what the merge reads, and for each record the logarithm of the number of sources.
    pub fn merge(&mut self, alloc: Global, slot: u64) -> Reply
        ensures { MergesIn self.old slot result self.new }
    {
        let at = slot as usize;
        if at >= self.slots.len() {
            return Reply::Refused(Refusal::NoJob(slot));
        }
        let was = mem::replace(&mut self.slots[at], JobSlot::Free);
        let (reply, left) = was.merge(alloc, slot);
        put(&mut self.slots[at], left);
        reply
    }

    // A Begin. Its job is kept in the next slot.
    fn begin(
        &mut self,
        alloc: Global,
        core: &mut Core,
        user: &Name,
        moment: i64,
        act: &mut Act,
    ) -> Reply
        requires { is_begin act.old ≡ true }
        ensures keeps { LacksRoom core.old self.old (asked_at user.now moment act.old) result core.new self.new
            ⊎ KeepsJob core.old self.old (asked_at user.now moment act.old) result core.new self.new }
        ensures left { act.new ≡ left_of act.old result }
    {
        if self.slots.reserve(1).is_err() {
            return Reply::Refused(Refusal::NoMemory);
        }
        let (reply, job) = with_job(core.step_lent(alloc, user, moment, act));
        keep(&mut self.slots, job);
        reply
    }

    // An Install by a slot.
    fn install(
        &mut self,
        alloc: Global,
        core: &mut Core,
        user: &Name,
        moment: i64,
        table: &Name,
        slot: u64,
    ) -> Reply
        ensures { FindsNone core.old self.old (asked_at user.now moment (Act.Install table.now (Given.InSlot slot))) result core.new self.new
            ⊎ UsesUp core.old self.old (asked_at user.now moment (Act.Install table.now (Given.InSlot slot))) result core.new self.new }
    {
        match self.take(slot) {
            Some(finished) => told(core.install(alloc, user, moment, table, finished)),
            None => Reply::Refused(Refusal::NoJob(slot)),
        }
    }

    // The finished merge in the slot, taken out.
    fn take(&mut self, slot: u64) -> Option<FinishedJob>
        ensures finished { result ≡ finished_in (slot_in self.old slot) }
        ensures left { self.new ≡ slice_set self.old slot (freed (slot_in self.old slot)) }
    {
        let at = slot as usize;
        if at >= self.slots.len() {
            return None;
        }
        let was = mem::replace(&mut self.slots[at], JobSlot::Free);
        let (finished, left) = was.take();
        put(&mut self.slots[at], left);
        finished
    }
}

impl JobSlot {
    // The finished merge, taken out, and what stays.
    fn take(self) -> (Option<FinishedJob>, JobSlot)
        ensures finished { result.0 ≡ finished_in self }
        ensures left { result.1 ≡ freed self }
    {
        match self {
            JobSlot::Merged(finished) => (Some(finished), JobSlot::Free),
            other => (None, other),
        }
    }

    // Makes the merge of the job in the slot of this number: what is told of it, and what stays.
    fn merge(self, alloc: Global, slot: u64) -> (Reply, JobSlot)
        ensures answers { (result.0 ≡ merge_answer (is_waiting (seen self)) slot) ⊎ ((is_waiting (seen self) ≡ true) × (result.0 ≡ Reply.Refused Refusal.NoMemory)) }
        ensures left { result.1 ≡ after_made self result.0 }
    {
        match self {
            JobSlot::Waiting(job) => made(job.merge(alloc)),
            other => (Reply::Refused(Refusal::NoJob(slot)), other),
        }
    }
}

// What is told of a merge, and what stays in the slot.
fn made(done: Result<FinishedJob, (TabletJob, NoMemory)>) -> (Reply, JobSlot)
    ensures ok { IfOk done (λ m. result ≡ (Reply.Done, JobSlot.Merged m)) }
    ensures err { IfErr done (λ e. result ≡ (Reply.Refused Refusal.NoMemory, JobSlot.Waiting e.0)) }
{
    match done {
        Ok(finished) => (Reply::Done, JobSlot::Merged(finished)),
        Err((job, AllocError)) => (Reply::Refused(Refusal::NoMemory), JobSlot::Waiting(job)),
    }
}

// Whether the act begins a job.
fn begins(act: &Act) -> bool
    ensures { result ≡ is_begin act.now }
{
    matches!(act, Act::Begin(_, _, _))
}

// Keeps the job in a new slot, if there is one. There is room for the slot.
fn keep(slots: &mut Vec<JobSlot>, job: Option<TabletJob>)
    requires { vec_len slots.old < vec_capacity slots.old }
    ensures { slots.new.items ≡ kept_job slots.old.items job }
{
    if let Some(job) = job {
        slots.push_reserved(JobSlot::Waiting(job));
    }
}
