//! Entries of a history in a row, shared.
ghost use Rattle.std.specs.Prelude.{◌≡◌, IfOk};
ghost use Rattle.std.specs.Arc.{arc_value};
ghost use Rattle.tab_book.specs.Slices.{stretch_of};

use crate::blocks::Blocks;
use std::alloc::{AllocError, Global};
use std::marker::{Model, PhantomData};
use std::sync::Arc;
use std::sync::ledger::Ledger;
use tab_event_record::{EventRecord, Outcome};

/// What an entry says, in 16 bytes: the event, which it shares with the history, and how it ended.
#[derive(Drop)]
pub struct SharedEntry {
    event: Arc<EventRecord>,
    outcome: Outcome,
}

impl Model for SharedEntry {
    ghost use Rattle.std.specs.Arc.{arc_value};
    ghost use Rattle.tab_book.specs.Slices.{Shown};

    ghost Value = { Shown };

    ghost view = { λ e. record { event = arc_value e.event; outcome = e.outcome } };
}

impl SharedEntry {
    // This event, which ended so.
    pub(crate) fn new(event: Arc<EventRecord>, outcome: Outcome) -> SharedEntry
        ensures { result ≡ record { event = arc_value event; outcome = outcome } }
    {
        SharedEntry { event, outcome }
    }

    /// What was asked.
    pub fn event(&self) -> &EventRecord
        ensures { result.now ≡ self.now.event }
    {
        &*self.event
    }

    /// How it ended.
    pub fn outcome(&self) -> Outcome
        ensures { result ≡ self.now.outcome }
    {
        self.outcome
    }
}

/// Entries of a history in a row, each shared with it. Only a book and its parts give one, so what it says was done there.
#[derive(Drop)]
pub struct Slice<L: Ledger> {
    first: u64,
    entries: Vec<SharedEntry>,
    of: PhantomData<L>,
}

impl<L: Ledger> Model for Slice<L> {
    ghost use Rattle.tab_book.specs.Slices.{Stretch};

    ghost Value = { Stretch };

    ghost view = { λ s. record { first = s.first; entries = s.entries.items } };
}

impl<L: Ledger> Slice<L> {
    /// The number of its first entry; where it has none, the one from which they would be.
    pub fn first(&self) -> u64
        ensures { result ≡ self.now.first }
    {
        self.first
    }

    /// The entries, the oldest first.
    pub fn entries(&self) -> &[SharedEntry]
        ensures { result.now ≡ self.now.entries }
    {
        self.entries.as_slice()
    }
}

/// Of these entries, the first of which has the number that is given, those from another number on, at most so many.
pub(crate) fn slice_of<L: Ledger>(
    alloc: Global,
    first: u64,
    entries: &Blocks,
    from: u64,
    most: u64,
) -> Result<Slice<L>, AllocError>
    ensures { IfOk result (λ s. s ≡ stretch_of first entries.now.entries from most) }
{
    let begin = from.max(first);
    let entries = entries.stretch(alloc, begin - first, most)?;
    Ok(Slice {
        first: begin,
        entries,
        of: PhantomData,
    })
}
