//! A program for tests: it answers the frames of standard input on standard output, as one connection to a new book, at moment 0.
//!
//! A first argument says what it calls: `book`, as without one, a book's own calls, `shared` those of a shared book, `served`
//! [`serve_shared`]. By the first two a Compact is a Begin in the table's first tablet, a merge, and an Install; what is handed back for want of
//! memory is kept, and the next Compact goes on with it.
//!
//! At the end the receipts must have all numbers from 0 on, in order, and each must settle in one part or in the book that is left (by
//! `served`, where the parts are dropped, the last ones must settle in the book). Else the status is 1.
//!
//! | File | What |
//! |---|---|
//! | `book_calls` | the calls of a book, by itself or shared |
//! | `connection` | a seat that answers requests, and keeps receipts and parts |
//! | `compacting` | compactions in three parts |
//! | `talking` | frame after frame |
//! | `settling` | whether all receipts settle |
#![tactic(auto)]

mod book_calls;
mod compacting;
mod connection;
mod settling;
mod talking;

ghost use Rattle.std.specs.Prelude.{◌≡◌, ◌^◌, ◌≤◌};

use book_calls::{BookCalls, SharedBook};
use connection::Connection;
use settling::{all_settle, last_settle};
use std::alloc::{AllocError, Global};
use std::marker::Brand;
use std::process::ExitCode;
use std::sync::Wait;
use std::sync::ledger::{Blank, Ledger};
use std::thread::Threads;
use tab_book::{Book, Seat, SeatsOut};
use tab_core::Core;
use tab_io::{BlockReader, BlockWriter, Input, Output};
use tab_serve::ListedMoments;
use tab_work::{OpenGate, Shared, serve_shared};
use talking::talk;

// Which calls are made.
#[derive(Drop)]
enum Calls {
    Book,
    Shared,
    Served,
}

fn main(rt: HostRuntime) -> ExitCode {
    match run(&rt, &rt) {
        Ok(true) => ExitCode::SUCCESS,
        Ok(false) => {
            let _ = eprintln!(rt; "fault: a receipt doesn't settle");
            ExitCode::FAILURE
        }
        Err(fault) => {
            let _ = eprintln!(rt; "fault: {fault:#}");
            ExitCode::FAILURE
        }
    }
}

// Serves the connection to its end. Whether all settles then.
fn run<R: Threads + Wait + Sync>(rt: &HostRuntime, waits: &R) -> anyhow::Result<bool> {
    let alloc = rt.alloc();
    let calls = asked_for(rt)?;
    let core = Core::new(alloc)?;
    let mut input = BlockReader::new(alloc, rt.stdin())?;
    let mut output = BlockWriter::new(alloc, rt.stdout())?;
    serve::<Brand, _, _, _>(
        waits,
        alloc,
        core,
        Blank::new(1 << 32),
        calls,
        &mut input,
        &mut output,
    )
}

// Which calls the first argument asks for.
fn asked_for(rt: &HostRuntime) -> anyhow::Result<Calls> {
    let words: Vec<String> = std::env::args(rt)?.collect(rt.alloc())?;
    Ok(match words.get(1).map(|word| word.as_str()) {
        Some("shared") => Calls::Shared,
        Some("served") => Calls::Served,
        _ => Calls::Book,
    })
}

// Serves over a book with this ledger, on which the seat counts.
fn serve<L: Ledger, R: Threads + Wait + Sync, I: Input, W: Output>(
    rt: &R,
    alloc: Global,
    core: Core,
    blank: Blank,
    calls: Calls,
    input: &mut I,
    output: &mut W,
) -> anyhow::Result<bool>
    requires name { blank.name ≡ L.name }
    requires parts { blank.parts ≡ L.parts }
    requires enough { 2 ^ 32 ≤ blank.parts }
{
    let Ok(book) = Book::<L>::new(alloc, core, blank) else {
        return Err(AllocError.into());
    };
    match calls {
        Calls::Book => by_book(rt, alloc, book, input, output),
        Calls::Shared => by_shared(rt, alloc, Shared::new(book), input, output),
        Calls::Served => by_frames(rt, alloc, Shared::new(book), input, output),
    }
}

// By the calls of the book.
fn by_book<L: Ledger, R: Wait, I: Input, W: Output>(
    rt: &R,
    alloc: Global,
    book: Book<L>,
    input: &mut I,
    output: &mut W,
) -> anyhow::Result<bool> {
    let mut book = book;
    let Some(seat) = book.join() else {
        return Ok(false);
    };
    let mut connection = Connection::new(alloc, seat);
    talk(rt, alloc, &mut book, &mut connection, input, output)?;
    let Connection {
        seat,
        receipts,
        parts,
        ..
    } = connection;
    let Err((book, _, SeatsOut(1))) = book.end(Vec::new(alloc)) else {
        return Ok(false);
    };
    match book.end(one(alloc, seat)?) {
        Ok(book) => Ok(all_settle(&book, &parts, &receipts)),
        Err(_) => Ok(false),
    }
}

// By the calls of the shared book.
fn by_shared<L: Ledger, R: Wait, I: Input, W: Output>(
    rt: &R,
    alloc: Global,
    shared: Shared<L>,
    input: &mut I,
    output: &mut W,
) -> anyhow::Result<bool> {
    let Some(seat) = shared.join(rt) else {
        return Ok(false);
    };
    let mut connection = Connection::new(alloc, seat);
    let mut book = SharedBook {
        rt,
        shared: &shared,
    };
    talk(rt, alloc, &mut book, &mut connection, input, output)?;
    let Connection {
        seat,
        receipts,
        parts,
        ..
    } = connection;
    let Err((shared, _, SeatsOut(1))) = shared.end(Vec::new(alloc)) else {
        return Ok(false);
    };
    match shared.end(one(alloc, seat)?) {
        Ok(book) => Ok(all_settle(&book, &parts, &receipts)),
        Err(_) => Ok(false),
    }
}

// By `serve_shared`.
fn by_frames<L: Ledger, R: Threads + Wait + Sync, I: Input, W: Output>(
    rt: &R,
    alloc: Global,
    shared: Shared<L>,
    input: &mut I,
    output: &mut W,
) -> anyhow::Result<bool> {
    let Some(mut seat) = shared.join(rt) else {
        return Ok(false);
    };
    let mut receipts = Vec::new(alloc);
    let mut moments = ListedMoments::new(Vec::new(alloc));
    serve_shared(
        rt,
        alloc,
        input,
        output,
        &mut moments,
        &shared,
        &mut seat,
        &mut receipts,
        &OpenGate,
    )?;
    match shared.end(one(alloc, seat)?) {
        Ok(book) => Ok(last_settle(&book, &receipts)),
        Err(_) => Ok(false),
    }
}

// The seat alone.
fn one<L: Ledger>(alloc: Global, seat: Seat<L>) -> Result<Vec<Seat<L>>, AllocError> {
    let mut seats = Vec::new(alloc);
    seats.reserve(1)?;
    seats.push_reserved(seat);
    Ok(seats)
}
