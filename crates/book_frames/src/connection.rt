//! A seat that answers requests, and keeps receipts and parts.

use crate::book_calls::BookCalls;
use crate::compacting::{Stage, compact};
use std::alloc::Global;
use std::sync::ledger::Ledger;
use tab_book::{Held, Part, Receipt, Seat};
use tab_core::{Session, Slots};
use tab_history::{Act, Event, Refusal, Reply};
use tab_key::{LimitedPart as Limit, Name};
use tab_wire::Request;

/// A seat with the sessions that it opened, its receipts, and the parts that it was handed.
#[derive(Drop)]
pub struct Connection<L: Ledger> {
    pub seat: Seat<L>,
    pub receipts: Vec<Receipt<L>>,
    pub parts: Vec<Part<L>>,
    pub slots: Slots,
    pub stage: Stage,
}

impl<L: Ledger> Connection<L> {
    /// Nothing was asked so far.
    pub fn new(alloc: Global, seat: Seat<L>) -> Connection<L> {
        Connection {
            seat,
            receipts: Vec::new(alloc),
            parts: Vec::new(alloc),
            slots: Slots::new(alloc),
            stage: Stage::Idle,
        }
    }

    /// Does what the user asks. The reply, or none where it is the last receipt's.
    pub fn answer<D: BookCalls<L>>(
        &mut self,
        alloc: Global,
        book: &mut D,
        user: Name,
        request: Request,
    ) -> Option<Reply> {
        match request {
            Request::Hello(_) => Some(Reply::Done),
            Request::Act(act) => self.act(alloc, book, user, act),
            Request::Next { slot, count } => Some(self.slots.next(alloc, slot, count)),
            Request::Many { slot, ranges } => {
                Some(self.slots.many(alloc, slot, ranges.as_slice()))
            }
            Request::Close { slot } => Some(self.slots.close(slot)),
        }
    }

    // An event, for whose receipt and part places are found before.
    fn act<D: BookCalls<L>>(
        &mut self,
        alloc: Global,
        book: &mut D,
        user: Name,
        act: Act,
    ) -> Option<Reply> {
        if self.receipts.reserve(1).is_err() || self.parts.reserve(1).is_err() {
            return Some(Reply::Refused(Refusal::NoMemory));
        }
        match act {
            Act::Rotate => self.rotate(alloc, book, &user),
            Act::Compact(table, extent) => compact(self, alloc, book, user, table, extent),
            Act::Open(scan) => self.open(alloc, book, asked(user, Act::Open(scan))),
            act => self.apply(alloc, book, asked(user, act)),
        }
    }

    // A rotation, whose part is kept.
    fn rotate<D: BookCalls<L>>(
        &mut self,
        alloc: Global,
        book: &mut D,
        user: &Name,
    ) -> Option<Reply> {
        let Ok((receipt, part)) = book.rotate(alloc, &mut self.seat, user) else {
            return Some(Reply::Refused(Refusal::NoMemory));
        };
        if let Some(part) = part {
            let _ = self.parts.push(part);
        }
        self.keep(receipt);
        None
    }

    // An Open, for whose session a slot is found before.
    fn open<D: BookCalls<L>>(
        &mut self,
        alloc: Global,
        book: &mut D,
        event: Event,
    ) -> Option<Reply> {
        if self.slots.are_full() {
            return Some(Reply::Refused(Refusal::TooLarge(Limit::Sessions)));
        }
        if self.slots.prepare().is_err() {
            return Some(Reply::Refused(Refusal::NoMemory));
        }
        let receipt = book.apply(alloc, &mut self.seat, event);
        let Ok(mut receipt) = receipt else {
            self.slots.keep(None);
            return Some(Reply::Refused(Refusal::NoMemory));
        };
        self.slots.keep(session_of(receipt.take()));
        self.keep(receipt);
        None
    }

    // Any other event.
    fn apply<D: BookCalls<L>>(
        &mut self,
        alloc: Global,
        book: &mut D,
        event: Event,
    ) -> Option<Reply> {
        match book.apply(alloc, &mut self.seat, event) {
            Ok(receipt) => self.keep(receipt),
            Err(_) => return Some(Reply::Refused(Refusal::NoMemory)),
        }
        None
    }

    /// Keeps the receipt, for which a place was found.
    pub fn keep(&mut self, receipt: Receipt<L>) {
        let _ = self.receipts.push(receipt);
    }
}

/// What the user asks at moment 0.
pub fn asked(user: Name, act: Act) -> Event {
    Event {
        user,
        moment: 0,
        act,
    }
}

// The session that was handed out, if one was.
fn session_of(held: Option<Held>) -> Option<Session> {
    match held {
        Some(held) => held.into_session(),
        None => None,
    }
}
