//! A seat that asks by itself.
ghost use Rattle.std.specs.Prelude.{◌≡◌, ◌<◌, true, IfSome, IfNone, vec_len, vec_capacity};
ghost use Rattle.tab_work.specs.Compacting.{asking, compacts, Asks, Keeps, Compacts};

use crate::Shared;
use crate::ends::end_in;
use std::alloc::Global;
use std::sync::Wait;
use std::sync::ledger::Ledger;
use tab_book::{Held, Installation, Receipt, Seat};
use tab_cells::Compaction;
use tab_core::{FinishedJob, SPLIT_SIZE, TabletJob};
use tab_history::{Act, Reply};
use tab_key::{ByteString, Name};
use tab_serve::Moments;

/// A user at a seat of a shared book, who asks for compactions and splits. The receipts are kept, with nothing to be taken.
#[derive(Drop)]
pub(crate) struct CompactorSeat<'a, L: Ledger, R, M> {
    pub(crate) rt: &'a R,
    pub(crate) alloc: Global,
    pub(crate) shared: &'a Shared<L>,
    pub(crate) user: Name,
    pub(crate) moments: M,
    pub(crate) seat: Seat<L>,
    pub(crate) receipts: Vec<Receipt<L>>,
}

impl<'a, L: Ledger, R: Wait, M: Moments> CompactorSeat<'a, L, R, M> {
    /// Begins a merge of this kind in the tablet of the table that holds the row. None where there is nothing to merge, or it's refused.
    pub fn begin(&mut self, table: Name, row: ByteString, kind: Compaction) -> Option<TabletJob>
        ensures { Compacts (asking self.old) (asking self.new) }
    {
        let receipt = self.ask(Act::Begin(table, row, kind))?;
        job_of(self.keep(receipt))
    }

    /// Installs a finished merge in the table. Whether it was done.
    pub fn install(&mut self, table: Name, finished: FinishedJob) -> bool
        ensures { Compacts (asking self.old) (asking self.new) }
    {
        match self.ask_install(table, finished) {
            Some(receipt) => self.keep_done(receipt),
            None => false,
        }
    }

    /// Splits the tablet of the table that holds the row, where its sorted tables have 16,777,216 bytes or more. Whether it was done.
    pub fn split(&mut self, table: Name, row: ByteString) -> bool
        ensures { Compacts (asking self.old) (asking self.new) }
    {
        match self.ask(Act::SplitBySize(table, row, SPLIT_SIZE)) {
            Some(receipt) => self.keep_done(receipt),
            None => false,
        }
    }

    /// The end row of the table's tablet that holds the row. None of the last one, and where it's refused.
    pub fn end_of(&mut self, table: Name, row: &ByteString) -> Option<ByteString>
        ensures { Compacts (asking self.old) (asking self.new) }
    {
        let receipt = self.ask(Act::Splits(table))?;
        let end = end_in(receipt.entry().reply(), row);
        let _ = self.keep(receipt);
        end
    }

    // The user's act at the next moment. Its receipt, and room for it among the others; none where memory lacks.
    fn ask(&mut self, act: Act) -> Option<Receipt<L>>
        requires { compacts act ≡ true }
        ensures asks { IfSome result (λ r. Asks (asking self.old) r (asking self.new)) }
        ensures room { IfSome result (λ _. vec_len self.new.receipts < vec_capacity self.new.receipts) }
        ensures none { IfNone result (asking self.new ≡ asking self.old) }
    {
        match self.receipts.reserve(1) {
            Ok(()) => self.apply(act),
            Err(_) => give_up(act),
        }
    }

    // Asks the act, where there is room for its receipt.
    fn apply(&mut self, act: Act) -> Option<Receipt<L>>
        requires { compacts act ≡ true }
        ensures asks { IfSome result (λ r. Asks (asking self.old) r (asking self.new)) }
        ensures receipts { self.new.receipts ≡ self.old.receipts }
        ensures none { IfNone result (asking self.new ≡ asking self.old) }
    {
        let (user, moment) = (&self.user, self.moments.next());
        let mut act = act;
        let done = self.shared.apply_lent(
            self.rt,
            self.alloc,
            &mut self.seat,
            user,
            moment,
            &mut act,
        );
        done.ok()
    }

    // An Install of the merge at the next moment, as `ask` does an act.
    fn ask_install(&mut self, table: Name, finished: FinishedJob) -> Option<Receipt<L>>
        ensures asks { IfSome result (λ r. Asks (asking self.old) r (asking self.new)) }
        ensures room { IfSome result (λ _. vec_len self.new.receipts < vec_capacity self.new.receipts) }
        ensures none { IfNone result (asking self.new ≡ asking self.old) }
    {
        match self.receipts.reserve(1) {
            Ok(()) => self.apply_install(table, finished),
            Err(_) => give_up(finished),
        }
    }

    // Asks the Install, where there is room for its receipt.
    fn apply_install(&mut self, table: Name, finished: FinishedJob) -> Option<Receipt<L>>
        ensures asks { IfSome result (λ r. Asks (asking self.old) r (asking self.new)) }
        ensures receipts { self.new.receipts ≡ self.old.receipts }
        ensures none { IfNone result (asking self.new ≡ asking self.old) }
    {
        let (user, moment) = (self.user, self.moments.next());
        let asked = Installation {
            user,
            moment,
            table,
            finished,
        };
        let done = self
            .shared
            .install(self.rt, self.alloc, &mut self.seat, asked);
        done.ok()
    }

    // Keeps the receipt, for which there is room, and gives what was handed out.
    fn keep(&mut self, receipt: Receipt<L>) -> Option<Held>
        requires { vec_len self.old.receipts < vec_capacity self.old.receipts }
        ensures { Keeps (asking self.old) receipt (asking self.new) }
    {
        let mut receipt = receipt;
        let held = receipt.take();
        self.receipts.push_reserved(receipt);
        held
    }

    // Keeps the receipt. Whether its event was done.
    fn keep_done(&mut self, receipt: Receipt<L>) -> bool
        requires { vec_len self.old.receipts < vec_capacity self.old.receipts }
        ensures { Keeps (asking self.old) receipt (asking self.new) }
    {
        let is_done = matches!(receipt.entry().reply(), Reply::Done);
        let _ = self.keep(receipt);
        is_done
    }
}

// Nothing, where memory lacks for what was to be done.
fn give_up<T: Drop, U>(_lost: T) -> Option<U>
    ensures { result ≡ None }
{
    None
}

// The job that was handed out, if one was.
fn job_of(held: Option<Held>) -> Option<TabletJob> {
    match held {
        Some(held) => held.into_job(),
        None => None,
    }
}
