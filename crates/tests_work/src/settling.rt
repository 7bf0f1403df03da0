//! Threads that use one book by seats of their own, and its end.
ghost use Rattle.std.specs.Prelude.{◌≡◌, ◌^◌, ◌≤◌};

use crate::books::shared_over;
use crate::serving::served_by;
use crate::talks::asked;
use std::alloc::Global;
use std::marker::Brand;
use std::process::Abort;
use std::sync::Wait;
use std::sync::ledger::{Blank, Ledger};
use std::thread;
use std::thread::Threads;
use tab_book::{Receipt, Seat, settle};
use tab_core::Core;
use tab_history::{Act, Event};
use tab_io::memory::{PieceReader, PieceWriter};
use tab_key::Name;
use tab_work::{OpenGate, Shared};

// How many events a thread asks for.
const EVENTS: usize = 1250;

// A seat that comes back, and its receipts.
#[derive(Drop)]
struct Worked<L: Ledger> {
    seat: Seat<L>,
    receipts: Vec<Receipt<L>>,
}

fn name(rt: &impl Abort, text: &[u8]) -> Name {
    Name::new(text).expect(rt, "a name")
}

// What root asks at this moment: to make the table u, which is there already all but once.
pub fn event(rt: &impl Abort, moment: i64) -> Event {
    Event {
        user: name(rt, b"root"),
        moment,
        act: Act::CreateUser(name(rt, b"u")),
    }
}

// Each event is done in turn.
fn ask_all<L: Ledger, R: Wait + Abort>(
    rt: &R,
    alloc: Global,
    shared: &Shared<L>,
    seat: Seat<L>,
) -> Worked<L> {
    let mut seat = seat;
    let mut receipts = Vec::new(alloc);
    for i in 0..EVENTS {
        let Ok(receipt) = shared.apply(rt, alloc, &mut seat, event(rt, i as i64)) else {
            break;
        };
        receipts.push(receipt).expect(rt, "memory");
    }
    Worked { seat, receipts }
}

// A connection is served to its end.
fn serve_one<L: Ledger, R: Threads + Wait + Abort + Sync>(
    rt: &R,
    alloc: Global,
    shared: &Shared<L>,
    seat: Seat<L>,
) -> Worked<L> {
    let mut seat = seat;
    let mut receipts = Vec::new(alloc);
    let reader = PieceReader::new(asked(0), 7);
    let writer = PieceWriter::new(alloc, 7);
    let _ = served_by(
        rt,
        alloc,
        shared,
        &mut seat,
        &mut receipts,
        &OpenGate,
        reader,
        writer,
    );
    Worked { seat, receipts }
}

// Four threads that ask for events, beside two that serve connections.
fn work<L: Ledger, R: Threads + Wait + Abort + Sync>(
    rt: &R,
    alloc: Global,
    shared: &Shared<L>,
    seat: Seat<L>,
) -> Worked<L> {
    if seat.number() < 4 {
        ask_all(rt, alloc, shared, seat)
    } else {
        serve_one(rt, alloc, shared, seat)
    }
}

// So many seats of a new book, which are numbered in the order in which they are given.
fn joined<L: Ledger, R: Wait + Abort>(
    rt: &R,
    alloc: Global,
    shared: &Shared<L>,
    count: u32,
) -> Vec<Seat<L>> {
    let mut seats = Vec::new(alloc);
    for number in 0..count {
        let seat = shared.join(rt).expect(rt, "a seat");
        assert!(rt; seat.number() == number);
        seats.push(seat).expect(rt, "memory");
    }
    seats
}

// All receipts of all seats settle in the book that is left.
fn settles_after_all<L: Ledger + Send + Sync, R: Threads + Wait + Abort + Sync>(
    rt: &R,
    alloc: Global,
    core: Core,
    blank: Blank,
)
    requires name { blank.name ≡ L.name }
    requires parts { blank.parts ≡ L.parts }
    requires enough { 2 ^ 32 ≤ blank.parts }
{
    let shared = shared_over::<L, R>(rt, alloc, core, blank);
    let seats = joined(rt, alloc, &shared, 6);
    let lent = &shared;
    let all = thread::map_vec(rt, seats, &|seat: Seat<L>| work(rt, alloc, lent, seat));
    let (back, receipts) = parted(rt, alloc, all.expect(rt, "memory"));
    assert!(rt; receipts.len() == 5006);
    let book = shared.end(back).ok().expect(rt, "all seats are back");
    assert!(rt; settle(&book, &receipts));
}

// The seats, and the receipts of all.
fn parted<L: Ledger>(
    rt: &impl Abort,
    alloc: Global,
    all: Vec<Worked<L>>,
) -> (Vec<Seat<L>>, Vec<Receipt<L>>) {
    let mut seats = Vec::new(alloc);
    let mut receipts = Vec::new(alloc);
    for worked in all {
        let Worked {
            seat,
            receipts: more,
        } = worked;
        seats.push(seat).expect(rt, "memory");
        for receipt in more {
            receipts.push(receipt).expect(rt, "memory");
        }
    }
    (seats, receipts)
}

// Receipts of four threads with 1,250 events each, and of two connections with three each, settle.
#[test]
fn settle_says_yes(rt: HostRuntime) {
    let core = Core::new(rt.alloc()).expect(&rt, "memory");
    settles_after_all::<Brand, _>(&rt, rt.alloc(), core, Blank::new(1 << 32));
}

// All of a thousand seats are missing, one, and then none.
fn misses_one<L: Ledger, R: Wait + Abort>(rt: &R, alloc: Global, core: Core, blank: Blank)
    requires name { blank.name ≡ L.name }
    requires parts { blank.parts ≡ L.parts }
    requires enough { 2 ^ 32 ≤ blank.parts }
{
    let shared = shared_over::<L, R>(rt, alloc, core, blank);
    let seats = joined(rt, alloc, &shared, 999);
    let last = shared.join(rt).expect(rt, "a seat");
    let (shared, _none, all) = shared.end(Vec::new(alloc)).err().expect(rt, "all are out");
    assert!(rt; all.0 == 1000);
    let (shared, mut seats, out) = shared.end(seats).err().expect(rt, "a seat is out");
    assert!(rt; out.0 == 1);
    seats.push(last).expect(rt, "memory");
    assert!(rt; shared.end(seats).is_ok());
}

#[test]
fn seats_out(rt: HostRuntime) {
    let core = Core::new(rt.alloc()).expect(&rt, "memory");
    misses_one::<Brand, _>(&rt, rt.alloc(), core, Blank::new(1 << 32));
}
