//! What an event is told, copied.
ghost use Rattle.std.specs.Prelude.{◌≡◌, IfOk, OnErr, true};
ghost use Rattle.tab_history.specs.Answers.{told_of};
ghost use Rattle.tab_core.specs.EventReplies.{told_in, is_long};

use crate::reply::Answer;
use std::alloc::AllocError;
use tab_history::{Counts, Refusal, Reply, Rights};
use tab_key::{ByteString, Items};

/// What an event is told: a reply without what it hands out, and never the cells of a session.
#[derive(Drop)]
pub enum EventReply {
    /// The event was done.
    Done,
    /// The event was refused.
    Refused(Refusal),
    /// A session was opened.
    Opened,
    /// What the caller may do and holds.
    Rights(Rights),
    /// What a table's tablets hold.
    Counted(Counts),
    /// The end rows of a table's tablets, rising.
    Rows(Items<ByteString>),
    /// A job was begun.
    Begun,
    /// There was nothing to merge.
    Nothing,
}

impl EventReply {
    /// A copy of what is told. Memory lacks only where a copy takes some; a reply with cells isn't copied.
    pub fn of(reply: &Answer) -> Result<EventReply, AllocError>
        ensures ok { IfOk result (λ copy. told_in copy ≡ told_of reply.now) }
        ensures err { OnErr result (is_long (told_of reply.now) ≡ true) }
    {
        match reply {
            Reply::Done => Ok(EventReply::Done),
            Reply::Refused(refusal) => refused(refusal),
            Reply::Opened(_) => Ok(EventReply::Opened),
            Reply::Batch(_) => Err(AllocError),
            Reply::Ranges(_) => Err(AllocError),
            Reply::Rights(rights) => Ok(EventReply::Rights(rights.clone()?)),
            Reply::Counted(counts) => Ok(EventReply::Counted(*counts)),
            Reply::Rows(rows) => Ok(EventReply::Rows(rows.clone()?)),
            Reply::Begun(_) => Ok(EventReply::Begun),
            Reply::Nothing => Ok(EventReply::Nothing),
        }
    }
}

// A copy of a refusal.
fn refused(refusal: &Refusal) -> Result<EventReply, AllocError>
    ensures ok { IfOk result (λ copy. told_in copy ≡ Reply.Refused refusal.now) }
    ensures err { OnErr result (is_long (Reply.Refused refusal.now) ≡ true) }
{
    let copy = match refusal {
        Refusal::UnknownUser(name) => Refusal::UnknownUser(*name),
        Refusal::NoTable(table) => Refusal::NoTable(*table),
        Refusal::PermissionDenied(permission) => Refusal::PermissionDenied(*permission),
        Refusal::BadAuthorizations(term) => Refusal::BadAuthorizations(term.clone()?),
        Refusal::MalformedVisibility(index, offset) => Refusal::MalformedVisibility(
            *index, *offset,
        ),
        Refusal::ConstraintViolation(found) => Refusal::ConstraintViolation(found.clone()?),
        Refusal::TimestampNotAllowed(index) => Refusal::TimestampNotAllowed(*index),
        Refusal::EmptyMutation => Refusal::EmptyMutation,
        Refusal::TooLarge(part) => Refusal::TooLarge(*part),
        Refusal::TableExists(table) => Refusal::TableExists(*table),
        Refusal::UserExists(name) => Refusal::UserExists(*name),
        Refusal::NoUser(name) => Refusal::NoUser(*name),
        Refusal::BadRange => Refusal::BadRange,
        Refusal::Stale(count) => Refusal::Stale(*count),
        Refusal::NoSession(slot) => Refusal::NoSession(*slot),
        Refusal::NoJob(slot) => Refusal::NoJob(*slot),
        Refusal::NoMemory => Refusal::NoMemory,
        Refusal::RootFixed => Refusal::RootFixed,
        Refusal::GrantInvalid => Refusal::GrantInvalid,
        Refusal::BelowHorizon(index) => Refusal::BelowHorizon(*index),
        Refusal::VersionsRaised(present) => Refusal::VersionsRaised(*present),
        Refusal::HorizonLowered(present) => Refusal::HorizonLowered(*present),
        Refusal::ServerTime => Refusal::ServerTime,
        Refusal::BadSplit(fault) => Refusal::BadSplit(*fault),
    };
    Ok(EventReply::Refused(copy))
}
