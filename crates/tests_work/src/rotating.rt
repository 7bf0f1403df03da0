//! Rotations: the history of a shared book is handed out part by part.
ghost use Rattle.std.specs.Prelude.{◌≡◌, ◌^◌, ◌≤◌};

use crate::asking::{asks, done, fills, makes_table, named, surely_done};
use crate::books::shared_over;
use crate::serving::served_by;
use crate::talks::{ROTATES, ROTATES_TOLD};
use std::alloc::{AllocError, Global};
use std::marker::Brand;
use std::process::Abort;
use std::sync::Wait;
use std::sync::ledger::{Blank, Ledger};
use std::thread::Threads;
use std::{slice, thread};
use tab_book::{Book, Held, Installation, Part, Receipt, Seat, settle};
use tab_cells::Compaction;
use tab_core::{Core, TabletJob};
use tab_history::{Act, Reply};
use tab_io::memory::{PieceReader, PieceWriter};
use tab_key::ByteString;
use tab_work::{OpenGate, Shared};

// How often each thread that rotates does so, and how many rows each one that writes fills.
const ROTATIONS: u32 = 10;

const ROWS: u8 = 200;

// A seat that comes back, its receipts, and the parts that it was handed.
#[derive(Drop)]
struct Worked<L: Ledger> {
    seat: Seat<L>,
    receipts: Vec<Receipt<L>>,
    parts: Vec<Part<L>>,
}

// A core with the table.
fn with_table(rt: &impl Abort, alloc: Global) -> Core {
    let mut core = Core::new(alloc).expect(rt, "memory");
    let made = core.step(alloc, makes_table(rt));
    assert!(rt; matches!(made, Reply::Done));
    core
}

// The user rotates at moment 0.
fn rotates<L: Ledger, R: Wait + Abort>(
    rt: &R,
    alloc: Global,
    shared: &Shared<L>,
    seat: &mut Seat<L>,
    user: &[u8],
) -> (Receipt<L>, Option<Part<L>>) {
    match shared.rotate(rt, alloc, seat, &named(rt, user), 0) {
        Ok(rotated) => rotated,
        Err(AllocError) => panic!(rt; "memory"),
    }
}

// Root rotates, and is handed a part.
fn rotated<L: Ledger, R: Wait + Abort>(
    rt: &R,
    alloc: Global,
    shared: &Shared<L>,
    seat: &mut Seat<L>,
) -> (Receipt<L>, Part<L>) {
    let (receipt, part) = rotates(rt, alloc, shared, seat, b"root");
    (receipt, part.expect(rt, "a part"))
}

// A row is filled with a cell.
fn writes<L: Ledger, R: Wait + Abort>(
    rt: &R,
    alloc: Global,
    shared: &Shared<L>,
    seat: &mut Seat<L>,
) -> Receipt<L> {
    surely_done(rt, alloc, shared, seat, fills(rt, alloc, b"r", 1))
}

// The book that is left behind its one seat.
fn ended<L: Ledger>(rt: &impl Abort, alloc: Global, shared: Shared<L>, seat: Seat<L>) -> Book<L> {
    let mut seats = Vec::new(alloc);
    seats.push(seat).expect(rt, "memory");
    match shared.end(seats) {
        Ok(book) => book,
        Err(_) => panic!(rt; "all seats are back"),
    }
}

// Three writes, numbered from 0 on.
fn three<L: Ledger, R: Wait + Abort>(
    rt: &R,
    alloc: Global,
    shared: &Shared<L>,
    seat: &mut Seat<L>,
) -> Vec<Receipt<L>> {
    let mut receipts = Vec::new(alloc);
    for number in 0..3 {
        let receipt = writes(rt, alloc, shared, seat);
        assert!(rt; receipt.number() == number);
        receipts.push(receipt).expect(rt, "memory");
    }
    receipts
}

// The rotation behind them: all four entries are handed out.
fn four_out<L: Ledger, R: Wait + Abort>(
    rt: &R,
    alloc: Global,
    shared: &Shared<L>,
    seat: &mut Seat<L>,
    receipts: &mut Vec<Receipt<L>>,
) -> Part<L> {
    let (receipt, part) = rotated(rt, alloc, shared, seat);
    assert!(rt; receipt.number() == 3);
    receipts.push(receipt).expect(rt, "memory");
    assert!(rt; part.first() == 0);
    assert!(rt; part.len() == 4);
    part
}

fn settles_by_parts<L: Ledger, R: Wait + Abort>(rt: &R, alloc: Global, core: Core, blank: Blank)
    requires name { blank.name ≡ L.name }
    requires parts { blank.parts ≡ L.parts }
    requires enough { 2 ^ 32 ≤ blank.parts }
{
    let shared = shared_over::<L, R>(rt, alloc, core, blank);
    let mut seat = shared.join(rt).expect(rt, "a seat");
    let mut receipts = three(rt, alloc, &shared, &mut seat);
    assert!(rt; shared.is_long(rt, 3) && !shared.is_long(rt, 4));
    let part = four_out(rt, alloc, &shared, &mut seat, &mut receipts);
    assert!(rt; !shared.is_long(rt, 1));
    assert!(rt; part.settle(&receipts));
    let last = writes(rt, alloc, &shared, &mut seat);
    assert!(rt; last.number() == 4);
    let book = ended(rt, alloc, shared, seat);
    assert!(rt; settle(&book, slice::from_ref(&last)));
    receipts.push(last).expect(rt, "memory");
    assert!(rt; !settle(&book, &receipts));
    assert!(rt; !part.settle(&receipts));
}

// Three writes have the numbers 0, 1 and 2, the rotation 3, and the write behind it 4. The first four settle in the part, the fifth in the
// book that is left, and all five in neither.
#[test]
fn parts_settle_their_receipts(rt: HostRuntime) {
    let core = with_table(&rt, rt.alloc());
    settles_by_parts::<Brand, _>(&rt, rt.alloc(), core, Blank::new(1 << 32));
}

fn hands_out_nothing<L: Ledger, R: Wait + Abort>(rt: &R, alloc: Global, core: Core, blank: Blank)
    requires name { blank.name ≡ L.name }
    requires parts { blank.parts ≡ L.parts }
    requires enough { 2 ^ 32 ≤ blank.parts }
{
    let shared = shared_over::<L, R>(rt, alloc, core, blank);
    let mut seat = shared.join(rt).expect(rt, "a seat");
    let (receipt, part) = rotates(rt, alloc, &shared, &mut seat, b"bob");
    assert!(rt; part.is_none());
    assert!(rt; matches!(receipt.entry().reply(), Reply::Refused(_)));
    let book = ended(rt, alloc, shared, seat);
    assert!(rt; settle(&book, slice::from_ref(&receipt)));
}

// A stranger's rotation is refused: its entry stays, and nothing is handed out.
#[test]
fn a_stranger_rotates_nothing(rt: HostRuntime) {
    let core = Core::new(rt.alloc()).expect(&rt, "memory");
    hands_out_nothing::<Brand, _>(&rt, rt.alloc(), core, Blank::new(1 << 32));
}

// A merge of the table's one tablet is begun.
fn begun<L: Ledger, R: Wait + Abort>(
    rt: &R,
    alloc: Global,
    shared: &Shared<L>,
    seat: &mut Seat<L>,
) -> TabletJob {
    let row = ByteString::from_slice(alloc, b"r").expect(rt, "memory");
    let act = Act::Begin(named(rt, b"t"), row, Compaction::Minor);
    let mut receipt = done(rt, alloc, shared, seat, asks(rt, act));
    match receipt.take() {
        Some(Held::Job(job)) => job,
        _ => panic!(rt; "a job"),
    }
}

// The job's merge is made and installed.
fn installs<L: Ledger, R: Wait + Abort>(
    rt: &R,
    alloc: Global,
    shared: &Shared<L>,
    seat: &mut Seat<L>,
    job: TabletJob,
) -> Receipt<L> {
    let Ok(finished) = job.merge(alloc) else {
        panic!(rt; "memory");
    };
    let asked = Installation {
        user: named(rt, b"root"),
        moment: 0,
        table: named(rt, b"t"),
        finished,
    };
    match shared.install(rt, alloc, seat, asked) {
        Ok(receipt) => receipt,
        Err(_) => panic!(rt; "memory"),
    }
}

fn installs_behind<L: Ledger, R: Wait + Abort>(rt: &R, alloc: Global, core: Core, blank: Blank)
    requires name { blank.name ≡ L.name }
    requires parts { blank.parts ≡ L.parts }
    requires enough { 2 ^ 32 ≤ blank.parts }
{
    let shared = shared_over::<L, R>(rt, alloc, core, blank);
    let mut seat = shared.join(rt).expect(rt, "a seat");
    let _ = writes(rt, alloc, &shared, &mut seat);
    let job = begun(rt, alloc, &shared, &mut seat);
    let (_, part) = rotated(rt, alloc, &shared, &mut seat);
    assert!(rt; part.len() == 3);
    let installed = installs(rt, alloc, &shared, &mut seat, job);
    assert!(rt; installed.number() == 3);
    assert!(rt; matches!(installed.entry().reply(), Reply::Done));
}

// A merge that was begun before a rotation is installed behind it.
#[test]
fn a_job_outlives_a_rotation(rt: HostRuntime) {
    let core = with_table(&rt, rt.alloc());
    installs_behind::<Brand, _>(&rt, rt.alloc(), core, Blank::new(1 << 32));
}

fn rotates_over_frames<L: Ledger, R: Threads + Wait + Abort + Sync>(
    rt: &R,
    alloc: Global,
    core: Core,
    blank: Blank,
)
    requires name { blank.name ≡ L.name }
    requires parts { blank.parts ≡ L.parts }
    requires enough { 2 ^ 32 ≤ blank.parts }
{
    let shared = shared_over::<L, R>(rt, alloc, core, blank);
    let mut seat = shared.join(rt).expect(rt, "a seat");
    let mut receipts = Vec::new(alloc);
    let (ended_so, bytes) = served_by(
        rt,
        alloc,
        &shared,
        &mut seat,
        &mut receipts,
        &OpenGate,
        PieceReader::new(ROTATES, 64),
        PieceWriter::new(alloc, 64),
    );
    assert!(rt; ended_so == Ok(()));
    assert!(rt; bytes.as_slice() == ROTATES_TOLD);
    assert!(rt; receipts.len() == 2);
    let last = writes(rt, alloc, &shared, &mut seat);
    assert!(rt; last.number() == 2);
    let book = ended(rt, alloc, shared, seat);
    assert!(rt;
        !receipts
            .iter()
            .any(|receipt| settle(&book, slice::from_ref(receipt)))
    );
    assert!(rt; settle(&book, slice::from_ref(&last)));
}

// A connection rotates: what it asked so far stands in the book no more, and numbers go on.
#[test]
fn a_connection_rotates(rt: HostRuntime) {
    let core = Core::new(rt.alloc()).expect(&rt, "memory");
    rotates_over_frames::<Brand, _>(&rt, rt.alloc(), core, Blank::new(1 << 32));
}

// Each rotation is done in turn.
fn rotate_all<L: Ledger, R: Wait + Abort>(
    rt: &R,
    alloc: Global,
    shared: &Shared<L>,
    seat: Seat<L>,
) -> Worked<L> {
    let mut seat = seat;
    let mut receipts = Vec::new(alloc);
    let mut parts = Vec::new(alloc);
    for _ in 0..ROTATIONS {
        let (receipt, part) = rotated(rt, alloc, shared, &mut seat);
        receipts.push(receipt).expect(rt, "memory");
        parts.push(part).expect(rt, "memory");
    }
    Worked {
        seat,
        receipts,
        parts,
    }
}

// Each row is written in turn.
fn write_all<L: Ledger, R: Wait + Abort>(
    rt: &R,
    alloc: Global,
    shared: &Shared<L>,
    seat: Seat<L>,
) -> Worked<L> {
    let mut seat = seat;
    let mut receipts = Vec::new(alloc);
    for row in 0..ROWS {
        let event = fills(rt, alloc, &[row], 1);
        let receipt = surely_done(rt, alloc, shared, &mut seat, event);
        receipts.push(receipt).expect(rt, "memory");
    }
    let parts = Vec::new(alloc);
    Worked {
        seat,
        receipts,
        parts,
    }
}

// Four threads that rotate, beside four that write.
fn work<L: Ledger, R: Wait + Abort>(
    rt: &R,
    alloc: Global,
    shared: &Shared<L>,
    seat: Seat<L>,
) -> Worked<L> {
    if seat.number() < 4 {
        rotate_all(rt, alloc, shared, seat)
    } else {
        write_all(rt, alloc, shared, seat)
    }
}

// So many seats.
fn joined<L: Ledger, R: Wait + Abort>(
    rt: &R,
    alloc: Global,
    shared: &Shared<L>,
    count: u32,
) -> Vec<Seat<L>> {
    let mut seats = Vec::new(alloc);
    for _ in 0..count {
        seats
            .push(shared.join(rt).expect(rt, "a seat"))
            .expect(rt, "memory");
    }
    seats
}

// These go behind those.
fn append<T: Drop>(rt: &impl Abort, all: &mut Vec<T>, more: Vec<T>) {
    for item in more {
        all.push(item).expect(rt, "memory");
    }
}

// The seats, and the receipts and the parts of all.
fn gathered<L: Ledger>(
    rt: &impl Abort,
    alloc: Global,
    all: Vec<Worked<L>>,
) -> (Vec<Seat<L>>, Vec<Receipt<L>>, Vec<Part<L>>) {
    let mut seats = Vec::new(alloc);
    let mut receipts = Vec::new(alloc);
    let mut parts = Vec::new(alloc);
    for worked in all {
        seats.push(worked.seat).expect(rt, "memory");
        append(rt, &mut receipts, worked.receipts);
        append(rt, &mut parts, worked.parts);
    }
    (seats, receipts, parts)
}

// Whether the receipts have all numbers from 0 on.
fn none_is_missing<L: Ledger>(receipts: &[Receipt<L>]) -> bool {
    for place in 0..receipts.len() {
        if !receipts
            .iter()
            .any(|receipt| receipt.number() == place as u64)
        {
            return false;
        }
    }
    true
}

// How many of the receipts settle in the part.
fn settled_in<L: Ledger>(part: &Part<L>, receipts: &[Receipt<L>]) -> u64 {
    let mut count = 0u64;
    for receipt in receipts {
        if part.settle(slice::from_ref(receipt)) {
            count = count.saturating_add(1);
        }
    }
    count
}

// How many of the receipts settle in the parts, each of whose entries has one.
fn settled_out<L: Ledger>(rt: &impl Abort, parts: &[Part<L>], receipts: &[Receipt<L>]) -> u64 {
    let mut count = 0u64;
    for part in parts {
        let settled = settled_in(part, receipts);
        assert!(rt; settled == part.len());
        count = count.saturating_add(settled);
    }
    count
}

// How many of the receipts settle in the book.
fn settled_here<L: Ledger>(book: &Book<L>, receipts: &[Receipt<L>]) -> u64 {
    let mut count = 0u64;
    for receipt in receipts {
        if settle(book, slice::from_ref(receipt)) {
            count = count.saturating_add(1);
        }
    }
    count
}

fn rotates_beside_writers<L: Ledger + Send + Sync, R: Threads + Wait + Abort + Sync>(
    rt: &R,
    alloc: Global,
    core: Core,
    blank: Blank,
)
    requires name { blank.name ≡ L.name }
    requires parts { blank.parts ≡ L.parts }
    requires enough { 2 ^ 32 ≤ blank.parts }
{
    let shared = shared_over::<L, R>(rt, alloc, core, blank);
    let seats = joined(rt, alloc, &shared, 8);
    let lent = &shared;
    let all = thread::map_vec(rt, seats, &|seat: Seat<L>| work(rt, alloc, lent, seat));
    let (back, receipts, parts) = gathered(rt, alloc, all.expect(rt, "memory"));
    assert!(rt; receipts.len() == 840);
    assert!(rt; none_is_missing(&receipts));
    assert!(rt; parts.len() == 40);
    let book = shared.end(back).ok().expect(rt, "all seats are back");
    let out = settled_out(rt, &parts, &receipts);
    assert!(rt; out.saturating_add(settled_here(&book, &receipts)) == 840);
}

// Four threads rotate ten times each beside four writers of 200 rows each: no number is missing, and each receipt settles in one part or in
// the book that is left.
#[test]
fn rotations_lose_nothing(rt: HostRuntime) {
    let core = with_table(&rt, rt.alloc());
    rotates_beside_writers::<Brand, _>(&rt, rt.alloc(), core, Blank::new(1 << 32));
}
