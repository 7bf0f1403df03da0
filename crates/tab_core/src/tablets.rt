//! Compactions, splits and jobs of a table's tablets, and what is told of them.
ghost use Rattle.std.specs.Prelude.{◌≡◌, ℕ, List, OnErr, OnOk, IfOk, [], Some, None};
ghost use Rattle.tab_store.specs.Stores.{counts_of, base_of};
ghost use Rattle.tab_store.specs.Stepping.{On, Splitting, kind_of, told_split, told_job, told_install, tablet_told, job_told};
ghost use Rattle.tab_store.specs.Tables.{table_at, tablets_of};
ghost use Rattle.tab_core.specs.Holding.{held};
ghost use Rattle.tab_core.specs.Stepping.{Does, IsCore, Acts, Compacts, Installs};
ghost use Rattle.tab_mutation.specs.Shape.{is_too_long};
ghost use Rattle.tab_store.specs.ByRow.{ends_of};
ghost use Rattle.tab_history.specs.Answers.{told_of, job_of, event_answer};

use crate::numbering::next_number;
use crate::policing::refusal_of;
use crate::reply::Answer;
use crate::store::Store;
use std::alloc::{AllocError, Global};
use tab_cells::Compaction;
use tab_history::{Act, Counts, Extent, Given, Refusal, Reply, SplitFault};
use tab_iter::NoMemory;
use tab_key::{ByteString, Items, LimitedPart, MAX_PART_LEN, Name};
use tab_policy::{Action, TableAction};
use tab_store::{FinishedJob, Installed, Split, Tables, TabletJob};

impl Store {
    // How much the tablets of a table hold. It takes no memory.
    pub(crate) fn status(&self, now: i64, user: &Name, table: &Name) -> Answer
        requires { IsCore (held self.now) }
        ensures { Does self.now now user.now (Act.Status table.now) result self.now }
    {
        Reply::Counted(counts_in(&self.tables, table))
    }

    // What this kind names of a table's sources, merged in each of its tablets.
    pub(crate) fn compact(
        &mut self,
        alloc: Global,
        now: i64,
        user: &Name,
        table: &Name,
        kind: Compaction,
    ) -> Answer
        requires { IsCore (held self.old) }
        ensures { Compacts self.old now user.now table.now kind result self.new }
    {
        match self.tables.get_mut(table) {
            Some(table) => compacted(table.compact(alloc, kind, now)),
            None => Reply::Done,
        }
    }
}

// What the table holds, nothing where there is none.
fn counts_in(tables: &Tables, name: &Name) -> Counts
    ensures { result ≡ counts_of (tablets_of (table_at tables.now name.now)) }
{
    match tables.get(name) {
        Some(table) => table.counts(),
        None => Counts {
            tablets: 0,
            sources: 0,
            records: 0,
        },
    }
}

/// The compaction that an extent names.
pub fn kind_of(extent: Extent) -> Compaction
    ensures { result ≡ kind_of extent }
{
    match extent {
        Extent::Partial => Compaction::Partial,
        Extent::Full => Compaction::Full,
    }
}

// What is told of a compaction.
fn compacted(done: Result<(), NoMemory>) -> Answer
    ensures ok { OnOk done (result ≡ Reply.Done) }
    ensures err { OnErr done (result ≡ Reply.Refused Refusal.NoMemory) }
{
    match done {
        Ok(()) => Reply::Done,
        Err(AllocError) => Reply::Refused(Refusal::NoMemory),
    }
}

impl Store {
    // A table's tablet split at this row, of which a copy becomes the end row.
    pub(crate) fn add_split(
        &mut self,
        alloc: Global,
        now: i64,
        user: &Name,
        table: &Name,
        row: &ByteString,
    ) -> Answer
        requires { IsCore (held self.old) }
        ensures { Does self.old now user.now (Act.AddSplit table.now row.now) result self.new }
    {
        if is_too_long(row) {
            return Reply::Refused(Refusal::TooLarge(LimitedPart::Row));
        }
        let Some(table) = self.tables.get_mut(table) else {
            return told_split(Split::Done, &mut self.tablet);
        };
        let end = match row.clone() {
            Ok(end) => end,
            Err(AllocError) => return Reply::Refused(Refusal::NoMemory),
        };
        split_reply(table.split(alloc, end, self.tablet), &mut self.tablet)
    }

    // A table's tablet that holds this row split in the middle of what it holds, where its sorted tables come to the limit, in bytes.
    pub(crate) fn halve(
        &mut self,
        alloc: Global,
        now: i64,
        user: &Name,
        table: &Name,
        row: &ByteString,
        limit: u64,
    ) -> Answer
        requires { IsCore (held self.old) }
        ensures { Does self.old now user.now (Act.SplitBySize table.now row.now limit) result self.new }
    {
        if is_too_long(row) {
            return Reply::Refused(Refusal::TooLarge(LimitedPart::Row));
        }
        let Some(table) = self.tables.get_mut(table) else {
            return Reply::Refused(Refusal::BadSplit(SplitFault::OneRow));
        };
        let made = table.halve(alloc, row.as_bytes(), limit, self.tablet);
        split_reply(made, &mut self.tablet)
    }

    // The rows at which a table is split.
    pub(crate) fn splits(&self, alloc: Global, now: i64, user: &Name, table: &Name) -> Answer
        requires { IsCore (held self.now) }
        ensures { Does self.now now user.now (Act.Splits table.now) result self.now }
    {
        match ends_in(alloc, &self.tables, table) {
            Ok(ends) => Reply::Rows(ends),
            Err(AllocError) => Reply::Refused(Refusal::NoMemory),
        }
    }
}

// Whether the row of a split is over its limit.
fn is_too_long(row: &ByteString) -> bool
    ensures { result ≡ is_too_long row.now }
{
    row.len() > MAX_PART_LEN
}

// The end rows of the table's tablets, none where there is no table.
fn ends_in(alloc: Global, tables: &Tables, name: &Name) -> Result<Items<ByteString>, AllocError>
    ensures { IfOk result (λ ends. ends ≡ ends_of (tablets_of (table_at tables.now name.now))) }
{
    match tables.get(name) {
        Some(table) => table.ends(alloc),
        None => Ok(Items::from_vec(Vec::new(alloc))),
    }
}

// What is told of a split, whether there was memory for it or not. Its two tablets are numbered, if it is done.
fn split_reply(made: Result<Split, AllocError>, tablet: &mut u64) -> Answer
    ensures ok { IfOk made (λ split. told_of result ≡ told_split Reply.Done split) }
    ensures err { OnErr made (result ≡ Reply.Refused Refusal.NoMemory) }
    ensures numbers { (t row : List ℕ) → tablet.new ≡ tablet_told (told_of result) (On t (Splitting row)) tablet.old }
{
    match made {
        Ok(split) => told_split(split, tablet),
        Err(AllocError) => Reply::Refused(Refusal::NoMemory),
    }
}

// What is told of what became of a split. Its two tablets are numbered, if it is done.
fn told_split(split: Split, tablet: &mut u64) -> Answer
    ensures told { told_of result ≡ told_split Reply.Done split }
    ensures numbers { (t row : List ℕ) → tablet.new ≡ tablet_told (told_of result) (On t (Splitting row)) tablet.old }
{
    match split {
        Split::Done => {
            *tablet = next_number(next_number(*tablet));
            Reply::Done
        }
        Split::Present => Reply::Refused(Refusal::BadSplit(SplitFault::Present)),
        Split::Small => Reply::Refused(Refusal::BadSplit(SplitFault::Small)),
        Split::OneRow => Reply::Refused(Refusal::BadSplit(SplitFault::OneRow)),
        Split::Full => Reply::Refused(Refusal::TooLarge(LimitedPart::Numbers)),
    }
}

impl Store {
    // A merge of this kind begun in the table's tablet that holds the row, with the next number of a job, which has a copy of the row.
    pub(crate) fn begin(
        &mut self,
        alloc: Global,
        now: i64,
        user: &Name,
        table: &Name,
        row: &ByteString,
        kind: Compaction,
    ) -> Answer
        requires { IsCore (held self.old) }
        ensures { Does self.old now user.now (Act.Begin table.now row.now kind) result self.new }
    {
        let Some(table) = self.tables.get_mut(table) else {
            return Reply::Nothing;
        };
        let kept = match row.clone() {
            Ok(kept) => kept,
            Err(AllocError) => return Reply::Refused(Refusal::NoMemory),
        };
        begun_reply(table.begin(alloc, kept, kind, now, self.job), &mut self.job)
    }

    // Answers the user's Install of a merge that came, and does what the answer says; the clock is set afterwards.
    pub(crate) fn answer_install(
        &mut self,
        alloc: Global,
        now: i64,
        user: &Name,
        table: &Name,
        finished: FinishedJob,
    ) -> Answer
        requires { IsCore (held self.old) }
        ensures { Acts (event_answer (base_of (held self.old)) [] now user.now (Act.Install table.now (Given.ByHand finished.merge.number))) (held self.old) now (Some finished) user.now (Act.Install table.now (Given.ByHand finished.merge.number)) result (held self.new) }
    {
        let action = Action::OnTable(TableAction::Install, table);
        if let Err(denial) = self.policy.decide(user, &action) {
            return Reply::Refused(refusal_of(*user, denial));
        }
        self.install(alloc, now, user, table, finished)
    }

    // A merge that came, installed in the table's tablet that it was begun in.
    fn install(
        &mut self,
        alloc: Global,
        now: i64,
        user: &Name,
        table: &Name,
        finished: FinishedJob,
    ) -> Answer
        requires { IsCore (held self.old) }
        ensures { Installs self.old now user.now table.now finished result self.new }
    {
        match self.tables.get_mut(table) {
            Some(table) => install_reply(table.install(alloc, finished)),
            None => Reply::Refused(Refusal::Stale(0)),
        }
    }

    // What is told of an Install that came without its merge, if no check refuses it. It takes no memory.
    pub(crate) fn install_none(&self, now: i64, user: &Name, table: &Name, given: Given) -> Answer
        requires { IsCore (held self.now) }
        ensures { Does self.now now user.now (Act.Install table.now given) result self.now }
    {
        Reply::Refused(Refusal::Stale(0))
    }
}

// What is told of a merge that began, with its job, whether there was memory for it or not. The job is numbered, if it is there.
fn begun_reply(begun: Result<Option<TabletJob>, NoMemory>, number: &mut u64) -> Answer
    ensures told { IfOk begun (λ job. told_of result ≡ told_job job) }
    ensures hands { IfOk begun (λ job. job_of result ≡ job) }
    ensures err { OnErr begun (result ≡ Reply.Refused Refusal.NoMemory) }
    ensures numbers { number.new ≡ job_told (told_of result) number.old }
{
    match begun {
        Ok(Some(job)) => {
            *number = next_number(*number);
            Reply::Begun(job)
        }
        Ok(None) => Reply::Nothing,
        Err(AllocError) => Reply::Refused(Refusal::NoMemory),
    }
}

// What is told of a merge that was installed or not, whether there was memory for it or not.
fn install_reply(done: Result<Installed, NoMemory>) -> Answer
    ensures ok { IfOk done (λ installed. told_of result ≡ told_install Reply.Done installed) }
    ensures none { job_of result ≡ None }
    ensures err { OnErr done (result ≡ Reply.Refused Refusal.NoMemory) }
{
    match done {
        Ok(Installed::Done) => Reply::Done,
        Ok(Installed::Stale(count)) => Reply::Refused(Refusal::Stale(count)),
        Err(AllocError) => Reply::Refused(Refusal::NoMemory),
    }
}
