//! Writers beside compactors: all that was written is read afterwards, and the receipts of all settle.
ghost use Rattle.std.specs.Prelude.{◌≡◌, ◌^◌, ◌≤◌};

use crate::asking::{done, fills, makes_table, named, scans, surely_done};
use crate::books::shared_over;
use crossbeam_channel::{Receiver, Sender};
use std::alloc::Global;
use std::marker::Brand;
use std::process::Abort;
use std::sync::Wait;
use std::sync::ledger::{Blank, Ledger};
use std::thread;
use std::thread::Threads;
use tab_book::{Held, Receipt, Seat, settle};
use tab_core::{Core, Session};
use tab_history::Reply;
use tab_key::Cells;
use tab_serve::ListedMoments;
use tab_work::{Claims, Compactor, Gate, OpenGate, Requests, Shared, wait_for_requests};

// How many writers there are, how many rows each has, and how many cells a row.
const WRITERS: u8 = 4;

const ROWS: u8 = 5;

const CELLS: u32 = 500;

// How many compactors.
const COMPACTORS: u32 = 4;

// One writer: its number, its seat, and where it sends requests.
#[derive(Drop)]
struct Writer<'a, L: Ledger, R> {
    number: u8,
    seat: Seat<L>,
    requests: Requests<'a, R>,
}

// One compactor: its seat, and where its requests come from.
#[derive(Drop)]
struct Awaiting<L: Ledger> {
    seat: Seat<L>,
    requests: Receiver<()>,
}

// A seat that comes back, and its receipts.
#[derive(Drop)]
struct Worked<L: Ledger> {
    seat: Seat<L>,
    receipts: Vec<Receipt<L>>,
}

// Each row is written, and a request sent behind it.
fn write_all<L: Ledger, R: Wait + Abort>(
    rt: &R,
    alloc: Global,
    shared: &Shared<L>,
    writer: Writer<'_, L, R>,
) -> Worked<L> {
    let Writer {
        number,
        seat,
        requests,
    } = writer;
    let mut seat = seat;
    let mut receipts = Vec::new(alloc);
    for row in 0..ROWS {
        let event = fills(rt, alloc, &[number, row], CELLS);
        let wrote = surely_done(rt, alloc, shared, &mut seat, event);
        receipts.push(wrote).expect(rt, "memory");
        requests.after_write();
    }
    Worked { seat, receipts }
}

// What is due is compacted at each request.
fn compact_all<L: Ledger, R: Threads + Wait + Abort + Sync>(
    rt: &R,
    alloc: Global,
    shared: &Shared<L>,
    claims: &Claims,
    awaiting: Awaiting<L>,
) -> Worked<L> {
    let Awaiting { seat, requests } = awaiting;
    let moments = ListedMoments::new(Vec::new(alloc));
    let root = named(rt, b"root");
    let mut compactor = Compactor::new(rt, alloc, shared, seat, root, moments, claims, &OpenGate);
    for _ in rt.forever() {
        if !wait_for_requests(rt, &requests) {
            break;
        }
        compactor.compact();
    }
    let (seat, receipts) = compactor.into_parts();
    Worked { seat, receipts }
}

fn writers<'a, L: Ledger, R: Wait + Abort>(
    rt: &'a R,
    alloc: Global,
    shared: &Shared<L>,
    to: &Sender<()>,
) -> Vec<Writer<'a, L, R>> {
    let mut all = Vec::new(alloc);
    for number in 0..WRITERS {
        let seat = shared.join(rt).expect(rt, "a seat");
        let requests = Requests::new(rt, to.clone().expect(rt, "memory"));
        let writer = Writer {
            number,
            seat,
            requests,
        };
        all.push(writer).expect(rt, "memory");
    }
    all
}

fn compactors<L: Ledger, R: Wait + Abort>(
    rt: &R,
    alloc: Global,
    shared: &Shared<L>,
    from: &Receiver<()>,
) -> Vec<Awaiting<L>> {
    let mut all = Vec::new(alloc);
    for _ in 0..COMPACTORS {
        let seat = shared.join(rt).expect(rt, "a seat");
        let requests = from.clone().expect(rt, "memory");
        all.push(Awaiting { seat, requests }).expect(rt, "memory");
    }
    all
}

// The writers write, and the compactors compact beside them, until all writers are done. What all of them have then.
fn work<L: Ledger + Send + Sync, R: Threads + Wait + Abort + Sync>(
    rt: &R,
    alloc: Global,
    shared: &Shared<L>,
) -> (Vec<Worked<L>>, Vec<Worked<L>>) {
    let (to, from) = crossbeam_channel::unbounded(alloc).expect(rt, "memory");
    let writing = writers(rt, alloc, shared, &to);
    let awaiting = compactors(rt, alloc, shared, &from);
    drop(to);
    let claims = Claims::new(alloc);
    let lent = &claims;
    let (wrote, compacted) = thread::join(
        rt,
        move || thread::map_vec(
            rt,
            writing,
            &|writer: Writer<'_, L, R>| write_all(rt, alloc, shared, writer),
        ),
        move || thread::map_vec(
            rt,
            awaiting,
            &|awaiting: Awaiting<L>| compact_all(rt, alloc, shared, lent, awaiting),
        ),
    );
    (wrote.expect(rt, "memory"), compacted.expect(rt, "memory"))
}

// Seats and receipts go to those before.
fn gather<L: Ledger>(
    rt: &impl Abort,
    seats: &mut Vec<Seat<L>>,
    receipts: &mut Vec<Receipt<L>>,
    all: Vec<Worked<L>>,
) {
    for worked in all {
        let Worked {
            seat,
            receipts: more,
        } = worked;
        seats.push(seat).expect(rt, "memory");
        for receipt in more {
            receipts.push(receipt).expect(rt, "memory");
        }
    }
}

// All cells of the table, which a scan gives.
fn scanned<L: Ledger, R: Wait + Abort>(
    rt: &R,
    alloc: Global,
    shared: &Shared<L>,
    seat: &mut Seat<L>,
) -> Cells {
    let mut receipt = done(rt, alloc, shared, seat, scans(rt, alloc));
    match receipt.take() {
        Some(Held::Session(session)) => all_of(rt, alloc, session),
        _ => panic!(rt; "a session"),
    }
}

// All cells that the session has.
fn all_of(rt: &impl Abort, alloc: Global, session: Session) -> Cells {
    let mut session = session;
    session.next_batch(alloc, u32::MAX).expect(rt, "memory")
}

// Whether these are the cells that the writers wrote, in order.
fn are_all(cells: &Cells) -> bool {
    let row_cells = CELLS as usize;
    let writer_cells = ROWS as usize * row_cells;
    for index in 0..cells.len() {
        let cell = cells.get(index);
        let writer = (index / writer_cells % 256) as u8;
        let row = (index % writer_cells / row_cells) as u8;
        let number = ((index % row_cells) as u32).to_be_bytes();
        if cell.row() != [writer, row].as_slice()
            || cell.qualifier() != number.as_slice()
            || cell.value() != number.as_slice()
        {
            return false;
        }
    }
    cells.len() == WRITERS as usize * writer_cells
}

// Whether all receipts settle in the book that is left, of which these are all seats.
fn settle_all<L: Ledger>(shared: Shared<L>, seats: Vec<Seat<L>>, receipts: &[Receipt<L>]) -> bool {
    match shared.end(seats) {
        Ok(book) => settle(&book, receipts),
        Err(_) => false,
    }
}

fn settles_under_load<L: Ledger + Send + Sync, R: Threads + Wait + Abort + Sync>(
    rt: &R,
    alloc: Global,
    core: Core,
    blank: Blank,
)
    requires name { blank.name ≡ L.name }
    requires parts { blank.parts ≡ L.parts }
    requires enough { 2 ^ 32 ≤ blank.parts }
{
    let shared = shared_over::<L, R>(rt, alloc, core, blank);
    let mut seat = shared.join(rt).expect(rt, "a seat");
    let made = surely_done(rt, alloc, &shared, &mut seat, makes_table(rt));
    let (wrote, compacted) = work(rt, alloc, &shared);
    let cells = scanned(rt, alloc, &shared, &mut seat);
    assert!(rt; are_all(&cells));
    let mut seats = Vec::new(alloc);
    let mut receipts = Vec::new(alloc);
    seats.push(seat).expect(rt, "memory");
    receipts.push(made).expect(rt, "memory");
    gather(rt, &mut seats, &mut receipts, wrote);
    gather(rt, &mut seats, &mut receipts, compacted);
    assert!(rt; receipts.iter().any(has_begun));
    assert!(rt; settle_all(shared, seats, &receipts));
}

// Whether a job was begun.
fn has_begun<L: Ledger>(receipt: &Receipt<L>) -> bool {
    matches!(receipt.entry().reply(), Reply::Begun(_))
}

// Four writers of 2,500 cells each beside four compactors: a scan afterwards gives just these cells, and all receipts settle, those of the
// compactors among them.
#[test]
fn compactors_change_no_answer(rt: HostRuntime) {
    let core = Core::new(rt.alloc()).expect(&rt, "memory");
    settles_under_load::<Brand, _>(&rt, rt.alloc(), core, Blank::new(1 << 32));
}
