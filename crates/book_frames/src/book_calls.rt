//! The calls of a book, by itself or shared.

use std::alloc::{AllocError, Global};
use std::sync::Wait;
use std::sync::ledger::Ledger;
use tab_book::{Book, Installation, Part, Receipt, Seat};
use tab_history::Event;
use tab_key::Name;
use tab_work::Shared;

/// What has a history of events.
pub trait BookCalls<L: Ledger> {
    /// Does the event.
    fn apply(
        &mut self,
        alloc: Global,
        seat: &mut Seat<L>,
        event: Event,
    ) -> Result<Receipt<L>, (Event, AllocError)>;

    /// Installs the finished merge.
    fn install(
        &mut self,
        alloc: Global,
        seat: &mut Seat<L>,
        asked: Installation,
    ) -> Result<Receipt<L>, (Installation, AllocError)>;

    /// Does the user's rotation at moment 0.
    fn rotate(
        &mut self,
        alloc: Global,
        seat: &mut Seat<L>,
        user: &Name,
    ) -> Result<(Receipt<L>, Option<Part<L>>), AllocError>;
}

impl<L: Ledger> BookCalls<L> for Book<L> {
    fn apply(
        &mut self,
        alloc: Global,
        seat: &mut Seat<L>,
        event: Event,
    ) -> Result<Receipt<L>, (Event, AllocError)> {
        if self.ready(seat) {
            Book::apply(self, alloc, seat, event)
        } else {
            Err((event, AllocError))
        }
    }

    fn install(
        &mut self,
        alloc: Global,
        seat: &mut Seat<L>,
        asked: Installation,
    ) -> Result<Receipt<L>, (Installation, AllocError)> {
        if self.ready(seat) {
            Book::install(self, alloc, seat, asked)
        } else {
            Err((asked, AllocError))
        }
    }

    fn rotate(
        &mut self,
        alloc: Global,
        seat: &mut Seat<L>,
        user: &Name,
    ) -> Result<(Receipt<L>, Option<Part<L>>), AllocError> {
        if self.ready(seat) {
            Book::rotate(self, alloc, seat, user, 0)
        } else {
            Err(AllocError)
        }
    }
}

/// A shared book, and what waits for its lock.
#[derive(Drop)]
pub struct SharedBook<'a, L: Ledger, R> {
    pub rt: &'a R,
    pub shared: &'a Shared<L>,
}

impl<L: Ledger, R: Wait> BookCalls<L> for SharedBook<'_, L, R> {
    fn apply(
        &mut self,
        alloc: Global,
        seat: &mut Seat<L>,
        event: Event,
    ) -> Result<Receipt<L>, (Event, AllocError)> {
        self.shared.apply(self.rt, alloc, seat, event)
    }

    fn install(
        &mut self,
        alloc: Global,
        seat: &mut Seat<L>,
        asked: Installation,
    ) -> Result<Receipt<L>, (Installation, AllocError)> {
        self.shared.install(self.rt, alloc, seat, asked)
    }

    fn rotate(
        &mut self,
        alloc: Global,
        seat: &mut Seat<L>,
        user: &Name,
    ) -> Result<(Receipt<L>, Option<Part<L>>), AllocError> {
        self.shared.rotate(self.rt, alloc, seat, user, 0)
    }
}
