//! Frame after frame.

use crate::book_calls::BookCalls;
use crate::connection::Connection;
use std::alloc::Global;
use std::sync::Wait;
use std::sync::ledger::Ledger;
use tab_history::{Refusal, Reply};
use tab_io::{Input, Output, WriteFault};
use tab_wire::{Asked, Conn, Request, write_bad_frame, write_reply};

/// Answers each frame that is read, to the end of the input or its first fault. Each reply is written before the next frame is read.
pub fn talk<L: Ledger, D: BookCalls<L>, R: Wait, I: Input, W: Output>(
    rt: &R,
    alloc: Global,
    book: &mut D,
    connection: &mut Connection<L>,
    input: &mut I,
    output: &mut W,
) -> Result<(), WriteFault> {
    let mut conn = Conn::new(alloc);
    for _ in rt.forever() {
        let Ok(Some(asked)) = conn.ask(alloc, input) else {
            break;
        };
        let is_broken = matches!(asked, Asked::Broken(_));
        tell(alloc, book, connection, &conn, asked, output)?;
        output.flush()?;
        if is_broken {
            break;
        }
    }
    Ok(())
}

// Tells what comes of what is asked.
fn tell<L: Ledger, D: BookCalls<L>, W: Output>(
    alloc: Global,
    book: &mut D,
    connection: &mut Connection<L>,
    conn: &Conn,
    asked: Asked,
    output: &mut W,
) -> Result<(), WriteFault> {
    match (asked, conn.user()) {
        (Asked::Request(request), Some(user)) => {
            let count = cells_asked(&request);
            let told = connection.answer(alloc, book, *user, request);
            write_told(connection, told, count, output)
        }
        (Asked::Bad(reason) | Asked::Broken(reason), _) => write_bad_frame(output, reason),
        _ => write_reply(output, 0, 0, &Reply::Refused(Refusal::NoMemory)),
    }
}

// Writes the reply, which is the last receipt's where there is none.
fn write_told<L: Ledger, W: Output>(
    connection: &Connection<L>,
    told: Option<Reply>,
    count: u32,
    output: &mut W,
) -> Result<(), WriteFault> {
    let number = connection.slots.numbers_given().saturating_sub(1);
    let number = u32::try_from(number).unwrap_or(u32::MAX);
    match (&told, connection.receipts.last()) {
        (Some(reply), _) => write_reply(output, number, count, reply),
        (None, Some(receipt)) => write_reply(output, number, count, receipt.entry().reply()),
        (None, None) => Ok(()),
    }
}

// How many cells the request asks for, where it asks for a batch.
fn cells_asked(request: &Request) -> u32 {
    match request {
        Request::Next { count, .. } => *count,
        _ => 0,
    }
}
