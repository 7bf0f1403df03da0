//! What a shared book holds, counted.
ghost use Rattle.tab_work.specs.Holdings.{AreHeld};

use crate::Shared;
use std::sync::Wait;
use std::sync::ledger::Ledger;
use tab_book::{Book, book_is_legal};
use tab_history::Counts;

/// What a book holds, counted.
#[derive(Clone, Copy, Debug, PartialEq, Eq)]
pub struct Holdings {
    /// Tables.
    pub tables: u64,
    /// What a status tells of each of them, summed.
    pub counts: Counts,
    /// Entries of the history, since it was handed out last.
    pub entries: u64,
    /// Entries of the history, those that were handed out among them.
    pub events: u64,
}

impl<L: Ledger> Shared<L> {
    /// What the book holds, counted. It is no event, and takes no memory; the book is locked for a time linear in the tablets and their sources.
    ///
    /// It is what the book's own core and history hold at some moment of the call. Here it is said of a core that refines a history, legal from
    /// what the core held at first: that these are the book's isn't.
    pub fn holdings(&self, rt: &impl Wait) -> Holdings
        ensures { AreHeld result }
    {
        let locked = self.locked.lock(rt);
        held_in(&locked.book)
    }
}

// What the book holds, counted.
fn held_in<L: Ledger>(book: &Book<L>) -> Holdings
    ensures { AreHeld result }
{
    book_is_legal(book);
    let core = book.core();
    Holdings {
        tables: core.tables().len() as u64,
        counts: core.counts(),
        entries: book.len(),
        events: book.next(),
    }
}
