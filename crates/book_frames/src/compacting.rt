//! Compactions in three parts.

use crate::book_calls::BookCalls;
use crate::connection::{Connection, asked};
use std::alloc::{AllocError, Global};
use std::mem;
use std::sync::ledger::Ledger;
use tab_book::{Held, Installation};
use tab_cells::Compaction;
use tab_core::{FinishedJob, TabletJob};
use tab_history::{Act, Extent, Refusal, Reply};
use tab_key::{ByteString, Name};

/// How far a compaction has come.
#[derive(Drop)]
pub enum Stage {
    /// None is under way.
    Idle,
    /// Its merge can be made.
    Begun(TabletJob),
    /// Its merge can be installed.
    Merged(FinishedJob),
}

/// Begins a compaction in the table's first tablet, unless one is under way, makes its merge, and installs it. What is handed back for want of
/// memory stays. The reply, or none where it is the last receipt's. There is a place for one receipt; for another one it is found here.
pub fn compact<L: Ledger, D: BookCalls<L>>(
    connection: &mut Connection<L>,
    alloc: Global,
    book: &mut D,
    user: Name,
    table: Name,
    extent: Extent,
) -> Option<Reply> {
    if matches!(connection.stage, Stage::Idle) {
        let told = begin(connection, alloc, book, user, table, extent);
        if told.is_some() || matches!(connection.stage, Stage::Idle) {
            return told;
        }
    }
    if merge(connection, alloc).is_err() || connection.receipts.reserve(1).is_err() {
        return Some(Reply::Refused(Refusal::NoMemory));
    }
    install(connection, alloc, book, user, table)
}

// Begins it. Where there is nothing to merge, or it is refused, none is under way.
fn begin<L: Ledger, D: BookCalls<L>>(
    connection: &mut Connection<L>,
    alloc: Global,
    book: &mut D,
    user: Name,
    table: Name,
    extent: Extent,
) -> Option<Reply> {
    let kind = match extent {
        Extent::Partial => Compaction::Partial,
        Extent::Full => Compaction::Full,
    };
    let Ok(row) = ByteString::from_slice(alloc, b"") else {
        return Some(Reply::Refused(Refusal::NoMemory));
    };
    let event = asked(user, Act::Begin(table, row, kind));
    let Ok(mut receipt) = book.apply(alloc, &mut connection.seat, event) else {
        return Some(Reply::Refused(Refusal::NoMemory));
    };
    if let Some(Held::Job(job)) = receipt.take() {
        connection.stage = Stage::Begun(job);
    }
    connection.keep(receipt);
    None
}

// Makes the merge of what was begun. The job stays where memory lacks.
fn merge<L: Ledger>(connection: &mut Connection<L>, alloc: Global) -> Result<(), AllocError> {
    let stage = mem::replace(&mut connection.stage, Stage::Idle);
    let Stage::Begun(job) = stage else {
        connection.stage = stage;
        return Ok(());
    };
    match job.merge(alloc) {
        Ok(finished) => {
            connection.stage = Stage::Merged(finished);
            Ok(())
        }
        Err((job, _)) => {
            connection.stage = Stage::Begun(job);
            Err(AllocError)
        }
    }
}

// Installs what was merged. The merge stays where the history can't grow.
fn install<L: Ledger, D: BookCalls<L>>(
    connection: &mut Connection<L>,
    alloc: Global,
    book: &mut D,
    user: Name,
    table: Name,
) -> Option<Reply> {
    let stage = mem::replace(&mut connection.stage, Stage::Idle);
    let Stage::Merged(finished) = stage else {
        return Some(Reply::Nothing);
    };
    let asked = Installation {
        user,
        moment: 0,
        table,
        finished,
    };
    match book.install(alloc, &mut connection.seat, asked) {
        Ok(receipt) => connection.keep(receipt),
        Err((asked, _)) => {
            connection.stage = Stage::Merged(asked.finished);
            return Some(Reply::Refused(Refusal::NoMemory));
        }
    }
    None
}
