//! Receipts.
ghost use Rattle.std.specs.Prelude.{◌≡◌, None};

use crate::entry::Entry;
use crate::held::Held;
use std::marker::{Model, PhantomData};
use std::sync::ledger::Ledger;

/// What a book gives for an event: the number of its entry, the entry, and the session or the job that was handed out. Only a book makes
/// one, and nothing is put back into it.
#[derive(Drop)]
pub struct Receipt<L: Ledger> {
    pub(crate) number: u64,
    pub(crate) entry: Entry,
    pub(crate) held: Option<Held>,
    pub(crate) of: PhantomData<L>,
}

impl<L: Ledger> Model for Receipt<L> {
    ghost use Rattle.tab_book.specs.Receipts.{Slip};

    ghost Value = { Slip };

    ghost view = { λ r. record { number = r.number; entry = r.entry; held = r.held } };
}

impl<L: Ledger> Receipt<L> {
    // The receipt of the entry at this number, with what was handed out.
    pub(crate) fn new(number: u64, entry: Entry, held: Option<Held>) -> Receipt<L>
        ensures { result ≡ record { number = number; entry = entry; held = held } }
    {
        Receipt {
            number,
            entry,
            held,
            of: PhantomData,
        }
    }

    /// The entry's number in the history: how many entries stand before it.
    pub fn number(&self) -> u64
        ensures { result ≡ self.now.number }
    {
        self.number
    }

    /// The entry.
    pub fn entry(&self) -> &Entry
        ensures { result.now ≡ self.now.entry }
    {
        &self.entry
    }

    /// Takes out what was handed out, once.
    pub fn take(&mut self) -> Option<Held>
        ensures held { result ≡ self.old.held }
        ensures rest { self.new ≡ record self.old { held = None } }
    {
        self.held.take()
    }
}
