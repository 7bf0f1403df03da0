//! Compactors.
ghost use Rattle.std.specs.Prelude.{◌≡◌, []};
ghost use Rattle.tab_work.specs.Compacting.{asking, compacting, Compacts};

use crate::begun::{BegunMerge, DoneMerge};
use crate::claims::Claims;
use crate::compactor_seat::CompactorSeat;
use crate::ends::row_above;
use crate::{Gate, Shared};
use std::alloc::Global;
use std::sync::Wait;
use std::sync::ledger::Ledger;
use std::thread::Threads;
use tab_book::{Receipt, Seat};
use tab_cells::Compaction;
use tab_core::{Due, DueKind, merge_all};
use tab_key::{ByteString, Name};
use tab_serve::Moments;

// How many works a compactor takes at once.
const MOST_WORKS: usize = 8;

/// A user at a seat of a shared book who compacts and splits its tablets, beside all that the other seats ask. What is merged is merged
/// outside of the book's lock. (Accumulo user manual: minor and major compactions, splitting)
#[derive(Drop)]
pub struct Compactor<'a, L: Ledger, R, M, G> {
    compactor_seat: CompactorSeat<'a, L, R, M>,
    claims: &'a Claims,
    gate: &'a G,
}

#[tactic(auto, using(crate::proofs::Following::nothing))]
impl<'a, L: Ledger, R: Threads + Wait + Sync, M: Moments + Drop, G: Gate> Compactor<
    'a,
    L,
    R,
    M,
    G,
> {
    /// A compactor without receipts. Those of one book share the claims. It takes no memory.
    pub fn new(
        rt: &'a R,
        alloc: Global,
        shared: &'a Shared<L>,
        seat: Seat<L>,
        user: Name,
        moments: M,
        claims: &'a Claims,
        gate: &'a G,
    ) -> Compactor<'a, L, R, M, G>
        ensures { compacting result ≡ record { user = user; seat = seat; receipts = [] } }
    {
        let receipts = Vec::new(alloc);
        Compactor {
            compactor_seat: CompactorSeat {
                rt,
                alloc,
                shared,
                user,
                moments,
                seat,
                receipts,
            },
            claims,
            gate,
        }
    }

    /// The seat, and the receipts of all that it asked, with nothing to be taken.
    pub fn into_parts(self) -> (Seat<L>, Vec<Receipt<L>>)
        ensures seat { result.0 ≡ (compacting self.entry).seat }
        ensures receipts { result.1.items ≡ (compacting self.entry).receipts }
    {
        let Compactor { compactor_seat, .. } = self;
        let CompactorSeat { seat, receipts, .. } = compactor_seat;
        (seat, receipts)
    }

    /// Lets the receipts go.
    pub fn forget_receipts(&mut self)
        ensures { compacting self.new ≡ record (compacting self.old) { receipts = [] } }
    {
        self.compactor_seat.receipts.clear();
    }

    /// Does what is due, until nothing is. It ends before that where other compactors are at work on what is due, where there is nothing to
    /// merge after all, and where acts are refused: then it's due again. A job or a merge is dropped then.
    ///
    /// Of the first eight works that are due it begins those that are merges, asks the gate once, merges them at once in as many threads,
    /// its own among them, and installs one after another. Where memory lacks for all of them at once, each is merged by itself. A split
    /// that is due first is done alone: the tablet is split, and both of its halves are merged each to one table.
    pub fn compact(&mut self)
        ensures { Compacts (compacting self.old) (compacting self.new) }
    {
        for _ in self.compactor_seat.rt.forever() {
            if !self.compact_first() {
                return;
            }
        }
    }

    // Does what is due first. Whether something was done.
    fn compact_first(&mut self) -> bool
        ensures { Compacts (compacting self.old) (compacting self.new) }
    {
        let compactor_seat = &self.compactor_seat;
        match compactor_seat
            .shared
            .due_list(compactor_seat.rt, compactor_seat.alloc, MOST_WORKS)
        {
            Ok(works) => self.compact_listed(works),
            Err(_) => false,
        }
    }

    // Does the first of these works, where that is a split, and else all that are merges. Whether something was done.
    fn compact_listed(&mut self, works: Vec<(Due, Name, ByteString)>) -> bool
        ensures { Compacts (compacting self.old) (compacting self.new) }
    {
        if begins_with_split(&works) {
            self.split_first(works)
        } else {
            let begun = self.begin_all(works);
            self.merge_all(begun)
        }
    }

    // Does the first of these works, a split, where no other compactor is at work on one. Whether it was done.
    fn split_first(&mut self, works: Vec<(Due, Name, ByteString)>) -> bool
        ensures { Compacts (compacting self.old) (compacting self.new) }
    {
        let mut works = works;
        works.truncate(1);
        match works.pop() {
            Some((due, table, row)) => self.split_claimed(due, table, row),
            None => false,
        }
    }

    // Splits the tablet, where no other compactor splits one. Whether all was done.
    fn split_claimed(&mut self, due: Due, table: Name, row: ByteString) -> bool
        ensures { Compacts (compacting self.old) (compacting self.new) }
    {
        if !self.claims.take(self.compactor_seat.rt, due) {
            return false;
        }
        let is_done = self.split(table, row);
        self.claims.give_back(self.compactor_seat.rt, due);
        is_done
    }

    // Begins those of these works that are merges, and that no other compactor is at work on. What was begun is claimed.
    fn begin_all(&mut self, works: Vec<(Due, Name, ByteString)>) -> Vec<BegunMerge>
        ensures { Compacts (compacting self.old) (compacting self.new) }
    {
        let mut begun = Vec::new(self.compactor_seat.alloc);
        for (due, table, row) in works {
            self.begin_claimed(&mut begun, due, table, row);
        }
        begun
    }

    // Begins this work, if it's a merge and no other compactor is at work on it, and adds it to what was begun.
    fn begin_claimed(&mut self, begun: &mut Vec<BegunMerge>, due: Due, table: Name, row: ByteString)
        ensures { Compacts (compacting self.old) (compacting self.new) }
    {
        let Some(kind) = merge_of(due.kind) else {
            return;
        };
        if begun.reserve(1).is_err() || !self.claims.take(self.compactor_seat.rt, due) {
            return;
        }
        match self.compactor_seat.begin(table, row, kind) {
            Some(job) => begun.push_reserved(BegunMerge { due, table, job }),
            None => self.claims.give_back(self.compactor_seat.rt, due),
        }
    }

    // Merges all that was begun at once, and installs it. Whether something was installed.
    fn merge_all(&mut self, begun: Vec<BegunMerge>) -> bool
        ensures { Compacts (compacting self.old) (compacting self.new) }
    {
        if begun.is_empty() {
            return false;
        }
        self.gate.before_merge();
        match merge_all(self.compactor_seat.rt, self.compactor_seat.alloc, begun) {
            Ok(made) => self.install_each(made),
            Err((begun, _)) => self.merge_each(begun),
        }
    }

    // Installs one merge after another. Whether one was installed.
    fn install_each(&mut self, made: Vec<DoneMerge>) -> bool
        ensures { Compacts (compacting self.old) (compacting self.new) }
    {
        let mut is_done = false;
        for merge in made {
            is_done |= self.install(merge);
        }
        is_done
    }

    // Merges and installs one after another. Whether one was installed.
    fn merge_each(&mut self, begun: Vec<BegunMerge>) -> bool
        ensures { Compacts (compacting self.old) (compacting self.new) }
    {
        let mut is_done = false;
        for merge in begun {
            is_done |= self.merge_alone(merge);
        }
        is_done
    }

    // Makes and installs this merge. Whether it was installed.
    fn merge_alone(&mut self, begun: BegunMerge) -> bool
        ensures { Compacts (compacting self.old) (compacting self.new) }
    {
        let BegunMerge { due, table, job } = begun;
        match job.merge(self.compactor_seat.alloc) {
            Ok(finished) => self.install(DoneMerge {
                due,
                table,
                finished,
            }),
            Err(_) => self.give_back(due),
        }
    }

    // Installs the merge, on which nobody is at work any more. Whether it was done.
    fn install(&mut self, made: DoneMerge) -> bool
        ensures { Compacts (compacting self.old) (compacting self.new) }
    {
        let DoneMerge {
            due,
            table,
            finished,
        } = made;
        let is_done = self.compactor_seat.install(table, finished);
        self.claims.give_back(self.compactor_seat.rt, due);
        self.tell_installed(is_done)
    }

    // Nobody is at work on it any more, and it wasn't done.
    fn give_back(&self, due: Due) -> bool {
        self.claims.give_back(self.compactor_seat.rt, due);
        false
    }

    // A compaction of the tablet, the merge outside of the lock. Whether it was installed.
    fn merge(&mut self, table: Name, row: ByteString, kind: Compaction) -> bool
        ensures { Compacts (compacting self.old) (compacting self.new) }
    {
        let Some(job) = self.compactor_seat.begin(table, row, kind) else {
            return false;
        };
        self.gate.before_merge();
        match job.merge(self.compactor_seat.alloc) {
            Ok(finished) => {
                let is_installed = self.compactor_seat.install(table, finished);
                self.tell_installed(is_installed)
            }
            Err(_) => false,
        }
    }

    // Tells the gate of a merge that was installed. Whether it was.
    fn tell_installed(&self, is_done: bool) -> bool {
        if is_done {
            self.gate.after_install();
        }
        is_done
    }

    // Splits the tablet, and merges each half to one table. Whether all was done.
    fn split(&mut self, table: Name, row: ByteString) -> bool
        ensures { Compacts (compacting self.old) (compacting self.new) }
    {
        let Ok(copy) = row.clone() else {
            return false;
        };
        self.compactor_seat.split(table, copy) && self.merge_halves(table, row)
    }

    // Merges the tablet that holds the row, and the one behind it. Whether both were.
    fn merge_halves(&mut self, table: Name, row: ByteString) -> bool
        ensures { Compacts (compacting self.old) (compacting self.new) }
    {
        let end = self.compactor_seat.end_of(table, &row);
        let is_merged = self.merge(table, row, Compaction::Full);
        self.merge_above(table, end) && is_merged
    }

    // Merges the tablet behind the one of this end row. Whether it was.
    fn merge_above(&mut self, table: Name, end: Option<ByteString>) -> bool
        ensures { Compacts (compacting self.old) (compacting self.new) }
    {
        let Some(end) = end else {
            return false;
        };
        match row_above(end) {
            Ok(row) => self.merge(table, row, Compaction::Full),
            Err(_) => false,
        }
    }
}

// Whether the first work is a split.
fn begins_with_split(works: &[(Due, Name, ByteString)]) -> bool {
    match works.first() {
        Some((due, _, _)) => matches!(due.kind, DueKind::Split),
        None => false,
    }
}

// The compaction that is due, if it's one.
fn merge_of(kind: DueKind) -> Option<Compaction> {
    match kind {
        DueKind::Minor => Some(Compaction::Minor),
        DueKind::Partial => Some(Compaction::Partial),
        DueKind::Split => None,
    }
}
