//! Replies as a history keeps them.
ghost use Rattle.std.specs.Prelude.{◌≡◌, ◌↔◌, IsTrue};
ghost use Rattle.tab_core.specs.EventReplies.{told_in};
ghost use Rattle.tab_book.specs.RecordedReplies.{reply_in};

use std::mem;
use tab_core::EventReply;
use tab_event_record::{same_refusal, same_rights, same_rows};
use tab_history::{Counts, Refusal, Reply, Rights};
use tab_key::{ByteString, Items};

/// What an event was told, as a history keeps it: 16 bytes, and the reply behind a pointer where it is neither of those that most are.
#[derive(Drop)]
pub enum RecordedReply {
    /// The event was done.
    Done,
    /// A session was opened.
    Opened,
    /// Any other reply.
    Other(Box<EventReply>),
}

impl RecordedReply {
    // The reply, kept, in the place where that takes one. It takes no memory.
    pub(crate) fn of(told: EventReply, place: Box<EventReply>) -> RecordedReply
        ensures { reply_in result ≡ told_in told }
    {
        match told {
            EventReply::Done => RecordedReply::Done,
            EventReply::Opened => RecordedReply::Opened,
            other => put(other, place),
        }
    }

    // Whether it is this reply.
    pub(crate) fn is(&self, reply: &Reply) -> bool
        ensures { IsTrue result ↔ (reply_in self.now ≡ reply.now) }
    {
        match self {
            RecordedReply::Done => matches!(reply, Reply::Done),
            RecordedReply::Opened => matches!(reply, Reply::Opened(_)),
            RecordedReply::Other(told) => is_told(reply, told),
        }
    }
}

// The reply in its place.
fn put(told: EventReply, place: Box<EventReply>) -> RecordedReply
    ensures { reply_in result ≡ told_in told }
{
    let mut place = place;
    let _blank = mem::replace(&mut *place, told);
    RecordedReply::Other(place)
}

// Whether the reply is what was told.
fn is_told(reply: &Reply, told: &EventReply) -> bool
    ensures { IsTrue result ↔ (told_in told.now ≡ reply.now) }
{
    match told {
        EventReply::Done => matches!(reply, Reply::Done),
        EventReply::Refused(refusal) => is_refused(reply, refusal),
        EventReply::Opened => matches!(reply, Reply::Opened(_)),
        EventReply::Rights(rights) => is_rights(reply, rights),
        EventReply::Counted(counts) => is_counted(reply, *counts),
        EventReply::Rows(rows) => is_rows(reply, rows),
        EventReply::Begun => matches!(reply, Reply::Begun(_)),
        EventReply::Nothing => matches!(reply, Reply::Nothing),
    }
}

// Whether the reply is this refusal.
fn is_refused(reply: &Reply, refusal: &Refusal) -> bool
    ensures { IsTrue result ↔ (Reply.Refused refusal.now ≡ reply.now) }
{
    match reply {
        Reply::Refused(other) => same_refusal(refusal, other),
        _ => false,
    }
}

// Whether the reply tells these rights.
fn is_rights(reply: &Reply, rights: &Rights) -> bool
    ensures { IsTrue result ↔ (Reply.Rights rights.now ≡ reply.now) }
{
    match reply {
        Reply::Rights(other) => same_rights(rights, other),
        _ => false,
    }
}

// Whether the reply tells these counts.
fn is_counted(reply: &Reply, counts: Counts) -> bool
    ensures { IsTrue result ↔ (Reply.Counted counts ≡ reply.now) }
{
    match reply {
        Reply::Counted(other) => counts == *other,
        _ => false,
    }
}

// Whether the reply tells these rows.
fn is_rows(reply: &Reply, rows: &Items<ByteString>) -> bool
    ensures { IsTrue result ↔ (Reply.Rows rows.now ≡ reply.now) }
{
    match reply {
        Reply::Rows(other) => same_rows(rows.as_slice(), other.as_slice()),
        _ => false,
    }
}
