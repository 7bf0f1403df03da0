//! What a compactor does in idle time.

use crate::clock::WallClock;
use crate::counters::Counters;
use crate::crowded::{Crowded, count_sources, crowded_in};
use std::alloc::Global;
use std::sync::Wait;
use std::sync::ledger::Ledger;
use std::time::{Clock, Duration, Instant};
use tab_book::{Installation, Receipt, Seat};
use tab_cells::Compaction;
use tab_core::{FinishedJob, TabletJob};
use tab_history::{Act, Reply};
use tab_key::{ByteString, Name};
use tab_serve::Moments;
use tab_work::{Gate, Shared};

/// A user who compacts tablets of several sources fully, though nothing is due on them, those of most sources first.
#[derive(Drop)]
pub(crate) struct Idler<'a, L: Ledger, R> {
    rt: &'a R,
    alloc: Global,
    shared: &'a Shared<L>,
    user: Name,
    counters: &'a Counters,
    // what was found at the last look and is still to be done, the first one last
    found: Vec<Crowded>,
    // whether it's in order to look: at first, and where anything was done of what was found at the last look
    looks: bool,
    // whether anything was merged that the history may still hold
    holds: bool,
}

impl<'a, L: Ledger, R: Wait + Clock> Idler<'a, L, R> {
    /// It has found nothing yet.
    pub(crate) fn new(
        rt: &'a R,
        alloc: Global,
        shared: &'a Shared<L>,
        user: Name,
        counters: &'a Counters,
    ) -> Idler<'a, L, R> {
        Idler {
            rt,
            alloc,
            shared,
            user,
            counters,
            found: Vec::new(alloc),
            looks: true,
            holds: false,
        }
    }

    /// Compacts the next tablet of several sources, at this seat, the merge outside of the book's lock. How long that took; none where
    /// there is no such tablet, or where none of those that were found last could be compacted.
    ///
    /// To find them no event is asked. What the history holds beside what was merged is handed on once there is none.
    pub(crate) fn compact_next(&mut self, seat: &mut Seat<L>) -> Option<Duration> {
        let begun = Instant::now(self.rt).ok();
        if self.found.is_empty() {
            self.look();
        }
        let Some(tablet) = self.found.pop() else {
            self.end();
            return None;
        };
        if self.compact(seat, tablet) {
            self.looks = true;
            self.holds = true;
        }
        Some(self.since(begun))
    }

    /// Somebody wrote: what was found is found anew.
    pub(crate) fn forget(&mut self) {
        self.found.clear();
        self.looks = true;
    }

    // Finds what is to be done, where it's in order to look.
    fn look(&mut self) {
        if !self.looks {
            return;
        }
        self.looks = false;
        if let Ok((base, _)) = self.shared.base(self.rt, self.alloc) {
            if let Ok(found) = crowded_in(self.alloc, &self.user, base) {
                self.found = found;
            }
        }
    }

    // There is nothing more to do.
    fn end(&mut self) {
        self.looks = true;
        if self.holds {
            self.holds = false;
            self.counters.want_rotation();
        }
    }

    // Compacts this tablet. Whether it was done.
    fn compact(&self, seat: &mut Seat<L>, tablet: Crowded) -> bool {
        let Crowded { table, row, .. } = tablet;
        let Some(job) = self.begin(seat, table, row) else {
            return false;
        };
        if count_sources(&job) < 2 {
            return false;
        }
        match job.merge(self.alloc) {
            Ok(finished) => self.install(seat, table, finished),
            Err(_) => false,
        }
    }

    // Begins a full compaction of the tablet that holds the row.
    fn begin(&self, seat: &mut Seat<L>, table: Name, row: ByteString) -> Option<TabletJob> {
        let mut act = Act::Begin(table, row, Compaction::Full);
        let (user, moment) = (&self.user, self.moment());
        match self
            .shared
            .apply_lent(self.rt, self.alloc, seat, user, moment, &mut act)
        {
            Ok(receipt) => job_in(receipt),
            Err(_) => None,
        }
    }

    // Installs the merge. Whether it was done.
    fn install(&self, seat: &mut Seat<L>, table: Name, finished: FinishedJob) -> bool {
        let asked = Installation {
            user: self.user,
            moment: self.moment(),
            table,
            finished,
        };
        match self.shared.install(self.rt, self.alloc, seat, asked) {
            Ok(receipt) => self.tell_installed(&receipt),
            Err(_) => false,
        }
    }

    // Counts the install, if it was done. Whether it was.
    fn tell_installed(&self, receipt: &Receipt<L>) -> bool {
        let is_done = matches!(receipt.entry().reply(), Reply::Done);
        if is_done {
            self.counters.after_install();
        }
        is_done
    }

    // The machine's moment.
    fn moment(&self) -> i64 {
        WallClock::new(self.rt).next()
    }

    // How long ago that was; no time where the clock doesn't tell.
    fn since(&self, begun: Option<Instant>) -> Duration {
        let Some(begun) = begun else {
            return Duration::from_millis(0);
        };
        match begun.elapsed(self.rt) {
            Ok(took) => took,
            Err(_) => Duration::from_millis(0),
        }
    }
}

// The job that was handed out, if one was.
fn job_in<L: Ledger>(receipt: Receipt<L>) -> Option<TabletJob> {
    let mut receipt = receipt;
    match receipt.take() {
        Some(held) => held.into_job(),
        None => None,
    }
}
