//! Entries of a history.
ghost use Rattle.std.specs.Prelude.{◌≡◌, ◌↔◌, IsTrue, IfOk};
ghost use Rattle.std.specs.Arc.{arc_value};
ghost use Rattle.tab_book.specs.RecordedReplies.{reply_in};
ghost use Rattle.tab_book.specs.Slices.{shown};

use crate::recorded_reply::RecordedReply;
use crate::slice::SharedEntry;
use std::alloc::AllocError;
use std::marker::Model;
use std::mem::size_of;
use std::sync::Arc;
use tab_event_record::EventRecord;
use tab_history::Reply;

/// Who asked what, and what he was told.
#[derive(Drop)]
pub struct Entry {
    pub(crate) seat: u32,
    pub(crate) event: Arc<EventRecord>,
    pub(crate) reply: Reply,
}

impl Model for Entry {
    ghost use Rattle.std.specs.Arc.{arc_value};
    ghost use Rattle.tab_book.specs.Entries.{Posted};

    ghost Value = { Posted };

    ghost view = { λ e. record { seat = e.seat; event = arc_value e.event; reply = e.reply } };
}

impl Entry {
    // What the seat asked and was told.
    pub(crate) fn new(seat: u32, event: Arc<EventRecord>, reply: Reply) -> Entry
        ensures { result ≡ record { seat = seat; event = arc_value event; reply = reply } }
    {
        Entry { seat, event, reply }
    }

    /// The number of the seat that asked.
    pub fn seat(&self) -> u32
        ensures { result ≡ self.now.seat }
    {
        self.seat
    }

    /// What was asked. The book has the same copy of it.
    pub fn event(&self) -> &EventRecord
        ensures { result.now ≡ self.now.event }
    {
        &*self.event
    }

    /// What was told.
    pub fn reply(&self) -> &Reply
        ensures { result.now ≡ self.now.reply }
    {
        &self.reply
    }
}

// An entry at rest takes at most 112 bytes: its place in the book, the event, and the count of those who share it.
const _: () = prove!(
    size_of::<RecordedEntry>() + size_of::<EventRecord>() + size_of::<usize>() <= 112
);

/// An entry at rest: 32 bytes in the book, and 80 for the event. The event is shared with the entry's receipt.
pub struct RecordedEntry {
    seat: u32,
    event: Arc<EventRecord>,
    reply: RecordedReply,
}

// Written out, so that a crate above needn't prove anew how the parts are dropped.
impl Drop for RecordedEntry {
    fn drop(self) {
        let RecordedEntry {
            seat: _,
            event: _,
            reply: _,
        } = self;
    }
}

impl Model for RecordedEntry {
    ghost use Rattle.std.specs.Arc.{arc_value};
    ghost use Rattle.tab_book.specs.Entries.{Posted};
    ghost use Rattle.tab_book.specs.RecordedReplies.{reply_in};

    ghost Value = { Posted };

    ghost view = { λ e. record { seat = e.seat; event = arc_value e.event; reply = reply_in e.reply } };
}

impl RecordedEntry {
    // What the seat asked and was told.
    pub(crate) fn new(seat: u32, event: Arc<EventRecord>, reply: RecordedReply) -> RecordedEntry
        ensures { result ≡ record { seat = seat; event = arc_value event; reply = reply_in reply } }
    {
        RecordedEntry { seat, event, reply }
    }

    /// The number of the seat that asked.
    pub fn seat(&self) -> u32
        ensures { result ≡ self.now.seat }
    {
        self.seat
    }

    /// What was asked.
    pub fn event(&self) -> &EventRecord
        ensures { result.now ≡ self.now.event }
    {
        &*self.event
    }

    /// What was told, as it is kept.
    pub fn reply(&self) -> &RecordedReply
        ensures { reply_in result.now ≡ self.now.reply }
    {
        &self.reply
    }

    // What it says, shared.
    pub(crate) fn share(&self) -> Result<SharedEntry, AllocError>
        ensures { IfOk result (λ shared. shared ≡ shown self.now) }
    {
        Ok(SharedEntry::new(Arc::try_clone(&self.event)?, self.reply.outcome()))
    }

    // Whether it is this entry.
    pub(crate) fn is(&self, entry: &Entry) -> bool
        ensures { IsTrue result ↔ (self.now ≡ entry.now) }
    {
        entry.seat == self.seat && self.event.same(&entry.event) && self.reply.is(&entry.reply)
    }
}
