//! The core, and its step.
ghost use Rattle.std.specs.Prelude.{◌≡◌, Some, None, IfOk};
ghost use Rattle.std.specs.Int.{int_max};
ghost use Rattle.tab_history.specs.Bases.{new_core};
ghost use Rattle.tab_history.specs.Answers.{told_of, job_of};
ghost use Rattle.tab_history.specs.Histories.{world_of};
ghost use Rattle.tab_history.specs.Refinement.{Refines};
ghost use Rattle.tab_store.specs.Due.{due_in, due_listed, target_of};
ghost use Rattle.tab_store.specs.Stores.{base_of, IsNewStore};
ghost use Rattle.tab_store.specs.Stepping.{StepsExactly};
ghost use Rattle.tab_core.specs.Bounded.{WritesBare};
ghost use Rattle.tab_core.specs.Spending.{left_of};
ghost use Rattle.tab_core.specs.Stepping.{Steps, StepsWith, IsCore, asked_at, installs_at};
ghost use Rattle.tab_core.specs.Totals.{totals_of};

use crate::policing::named_slot;
use crate::reply::{Answer, move_clock};
use crate::store::Store;
use crate::totals::totals;
use std::alloc::{AllocError, Global};
use std::marker::Model;
use tab_history::{Act, Counts, Event, Refusal, Reply, Scan};
use tab_key::{ByteString, Name};
use tab_label::KnownLabels;
use tab_policy::Policy;
use tab_store::{Due, FinishedJob, Tables};

/// Users with their rights, tables with their cells, the clock, and the numbers that the next accepted write, the next tablet and the next
/// job get.
pub struct Core {
    pub(crate) store: Store,
    // short labels that were written
    pub(crate) known: KnownLabels,
}

// Written out, so that a crate above needn't prove anew how the parts are dropped.
impl Drop for Core {
    fn drop(self) {
        let Core { store: _, known: _ } = self;
    }
}

impl Model for Core {
    ghost use Rattle.tab_store.specs.Stores.{CoreContents};
    ghost use Rattle.tab_core.specs.Holding.{held};
    ghost use Rattle.tab_core.specs.Stepping.{IsCore};

    ghost Value = { CoreContents };

    ghost view = { λ c. held c.store };

    ghost invariant = { λ c. IsCore (held c.store) };
}

impl Core {
    /// A core that refines a new one: with the one user `root`, who has every system permission and no authorizations, and no table. The clock is 0.
    pub fn new(alloc: Global) -> Result<Core, AllocError>
        ensures refines { IfOk result (λ core. Refines (world_of (base_of core)) (world_of new_core)) }
        ensures new { IfOk result (λ core. IsNewStore core) }
    {
        Ok(Core {
            store: Store {
                clock: 0,
                next: 0,
                policy: Policy::new(alloc)?,
                tables: Tables::new(alloc),
                tablet: 0,
                job: 0,
            },
            known: KnownLabels::none(),
        })
    }

    /// A core that holds this, as an image of it has it; the next tablet gets this number, and the next job the number 0. It takes no memory.
    pub fn restored(clock: i64, next: u64, policy: Policy, tables: Tables, tablet: u64) -> Core
        requires { IsCore (record { clock = clock; next = next; policy = policy; tables = tables; tablet = tablet; job = 0 }) }
        ensures { result ≡ record { clock = clock; next = next; policy = policy; tables = tables; tablet = tablet; job = 0 } }
    {
        Core {
            store: Store {
                clock,
                next,
                policy,
                tables,
                tablet,
                job: 0,
            },
            known: KnownLabels::none(),
        }
    }

    /// The greatest moment of all events so far.
    pub fn clock(&self) -> i64
        ensures { result ≡ self.now.clock }
    {
        self.store.clock
    }

    /// The number that the next accepted write gets.
    pub fn next(&self) -> u64
        ensures { result ≡ self.now.next }
    {
        self.store.next
    }

    /// Users and rights.
    pub fn policy(&self) -> &Policy
        ensures { result.now ≡ self.now.policy }
    {
        &self.store.policy
    }

    /// The tables.
    pub fn tables(&self) -> &Tables
        ensures { result.now ≡ self.now.tables }
    {
        &self.store.tables
    }

    /// The first compaction or split that is due, none where nothing is: all minor ones before partial ones before splits, tables by name,
    /// tablets by end row. It takes no memory.
    pub fn due(&self) -> Option<Due>
        ensures { result ≡ due_in self.now.tables }
    {
        self.store.tables.due()
    }

    /// The first compactions and splits that are due, in the order in which [`due`](Core::due) looks for one: so many at most, and at most
    /// one for each tablet, the first.
    ///
    /// It takes memory for the list. `AllocError` says that it lacked.
    pub fn due_list(&self, alloc: Global, max: usize) -> Result<Vec<Due>, AllocError>
        ensures { IfOk result (λ list. list.items ≡ due_listed max self.now.tables) }
    {
        self.store.tables.due_list(alloc, max)
    }

    /// The table and the least row of the tablet that is due, none where that is gone.
    pub fn target(&self, alloc: Global, due: &Due) -> Result<Option<(Name, ByteString)>, AllocError>
        ensures { IfOk result (λ target. target ≡ target_of due.now self.now.tables) }
    {
        self.store.tables.target(alloc, due)
    }

    /// What a status tells of each table, summed over all tables; the greatest `u64` for any sum above it. It takes no memory, and time linear
    /// in the tablets and their sources.
    pub fn counts(&self) -> Counts
        ensures { result ≡ totals_of self.now.tables }
    {
        totals(&self.store.tables)
    }

    /// What each core keeps: nothing is done, and it is known afterwards.
    pub fn keeps(&self)
        ensures { IsCore self.now }
    {
        let _clock = self.store.clock;
    }

    /// Applies one event, and answers it.
    ///
    /// The first failing check gives the refusal: the caller is unknown; a table that is named doesn't exist; a permission
    /// is missing; then the event's own checks. A refused event changes no user, cell, right or table, and freezes no tablet; it moves
    /// the clock to its moment unless it was refused for memory, when the core stands as before. Memory lacks only for acts that take
    /// some. A session that is handed out shows the scan's answer as it is now, for good. Where records lie after a flush, a compaction,
    /// a split or the beginning of a merge, which splits are refused, what a status counts, and which job is handed out, is said exactly.
    ///
    /// An Install by hand came without its merge here (`install` takes one), and is stale where no check refuses it. One by a slot is refused
    /// before all checks, since a core has no slots, and nothing happens.
    pub fn step(&mut self, alloc: Global, event: Event) -> Answer
        ensures steps { Steps (base_of self.old) event result (base_of self.new) }
        ensures exact { StepsWith self.old None event result self.new }
    {
        let mut event = event;
        self.step_lent(alloc, &event.user, event.moment, &mut event.act)
    }

    /// Steps as [`Core::step`] does, over an event whose parts are lent, so that none of it is moved.
    ///
    /// An act that is refused, for want of memory too, is left as it was. Out of any other one the core takes what it keeps: the columns and
    /// the authorizations of an Open, the constraints of a SetConstraints, the authorizations of a SetAuths. Empty ones are left there. The
    /// rest of the act is copied or only read, and is left as it was.
    pub fn step_lent(&mut self, alloc: Global, user: &Name, moment: i64, act: &mut Act) -> Answer
        ensures steps { Steps (base_of self.old) (asked_at user.now moment act.old) result (base_of self.new) }
        ensures exact { StepsWith self.old None (asked_at user.now moment act.old) result self.new }
        ensures left { act.new ≡ left_of act.old (told_of result) }
    {
        if let Some((_, slot)) = named_slot(act) {
            return self.no_job(slot);
        }
        keep_markers(act);
        let now = later(self.store.clock, moment);
        let reply = self.store.answer(alloc, now, user, act, &mut self.known);
        move_clock(&mut self.store.clock, now, &reply);
        reply
    }

    /// Steps as [`Core::step`] does, over the Open of a scan that is lent as it is. What the core keeps of it, its columns and its
    /// authorizations, is taken out of it unless the Open is refused; then the scan is left as it was.
    #[inline(always)]
    pub fn open_lent(&mut self, alloc: Global, user: &Name, moment: i64, scan: &mut Scan) -> Answer
        ensures steps { Steps (base_of self.old) (asked_at user.now moment (Act.Open scan.old)) result (base_of self.new) }
        ensures exact { StepsWith self.old None (asked_at user.now moment (Act.Open scan.old)) result self.new }
        ensures left { Act.Open scan.new ≡ left_of (Act.Open scan.old) (told_of result) }
    {
        let now = later(self.store.clock, moment);
        let reply = self.store.answer_open(alloc, now, user, scan);
        move_clock(&mut self.store.clock, now, &reply);
        reply
    }

    /// Applies the user's Install of a finished merge into the table, by hand, and answers it: as `step` does, but with the merge.
    ///
    /// It is done where all that was merged stands in the merge's tablet, and the compaction of its kind that is under way there is this one;
    /// else it is stale, and so it is where the tablet is gone or isn't the named table's. The merge is given up where it isn't done. Where
    /// memory lacks, the core stands as before.
    pub fn install(
        &mut self,
        alloc: Global,
        user: &Name,
        moment: i64,
        table: &Name,
        finished: FinishedJob,
    ) -> Answer
        ensures steps { Steps (base_of self.old) (installs_at user.now moment table.now finished) result (base_of self.new) }
        ensures exact { StepsExactly self.old (Some finished) (installs_at user.now moment table.now finished) (told_of result) (job_of result) self.new }
    {
        let now = later(self.store.clock, moment);
        let answer = self.store.answer_install(alloc, now, user, table, finished);
        move_clock(&mut self.store.clock, now, &answer);
        answer
    }

    // The refusal of an Install by this slot: a core has none. What each core keeps is known afterwards.
    pub(crate) fn no_job(&self, slot: u64) -> Answer
        ensures core { IsCore self.now }
        ensures reply { result ≡ Reply.Refused (Refusal.NoJob slot) }
    {
        self.keeps();
        Reply::Refused(Refusal::NoJob(slot))
    }
}

// No marker of a mutation has a value: nothing is done, and it is known afterwards.
pub(crate) fn keep_markers(act: &Act)
    ensures { WritesBare act.now }
{
    match act {
        Act::Write(_, mutation) => mutation.keeps(),
        _ => {}
    }
}

// The later of two moments.
pub(crate) fn later(a: i64, b: i64) -> i64
    ensures { result ≡ int_max a b }
{
    if b < a { a } else { b }
}
