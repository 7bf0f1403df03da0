//! Rotations, as one seat sees them; slices; and that `settle` says no of a receipt that was changed, which only this crate can do.
ghost use Rattle.std.specs.Prelude.{◌≡◌, ◌^◌, ◌≤◌};

use crate::{Book, Outcome, Part, Receipt, Seat, Slice, settle};
use std::alloc::{AllocError, Global};
use std::marker::Brand;
use std::process::Abort;
use std::sync::ledger::{Blank, Ledger};
use std::{mem, slice};
use tab_core::Core;
use tab_history::{Act, Event, Reply};
use tab_key::Name;

// A book over a new core, and its one seat.
fn opened<L: Ledger, R: Abort>(rt: &R, alloc: Global, blank: Blank) -> (Book<L>, Seat<L>)
    requires name { blank.name ≡ L.name }
    requires parts { blank.parts ≡ L.parts }
    requires enough { 2 ^ 32 ≤ blank.parts }
{
    let core = Core::new(alloc).expect(rt, "memory");
    let Ok(mut book) = Book::<L>::new(alloc, core, blank) else {
        panic!(rt; "memory");
    };
    let seat = book.join().expect(rt, "a seat");
    (book, seat)
}

// Root asks whether an image may be saved.
fn saves<L: Ledger, R: Abort>(
    rt: &R,
    alloc: Global,
    book: &mut Book<L>,
    seat: &mut Seat<L>,
) -> Receipt<L> {
    let user = Name::new(b"root").expect(rt, "a name");
    let event = Event {
        user,
        moment: 0,
        act: Act::Save,
    };
    assert!(rt; book.ready(seat));
    match book.apply(alloc, seat, event) {
        Ok(receipt) => receipt,
        Err(_) => panic!(rt; "memory"),
    }
}

// The user rotates.
fn rotates<L: Ledger, R: Abort>(
    rt: &R,
    alloc: Global,
    book: &mut Book<L>,
    seat: &mut Seat<L>,
    user: &[u8],
) -> (Receipt<L>, Option<Part<L>>) {
    let user = Name::new(user).expect(rt, "a name");
    assert!(rt; book.ready(seat));
    match book.rotate(alloc, seat, &user, 0) {
        Ok(done) => done,
        Err(AllocError) => panic!(rt; "memory"),
    }
}

// Three entries, numbered from 0 on.
fn three<L: Ledger, R: Abort>(
    rt: &R,
    alloc: Global,
    book: &mut Book<L>,
    seat: &mut Seat<L>,
) -> Vec<Receipt<L>> {
    let mut receipts = Vec::new(alloc);
    for number in 0..3 {
        let receipt = saves(rt, alloc, book, seat);
        assert!(rt; receipt.number() == number);
        receipts.push(receipt).expect(rt, "memory");
    }
    receipts
}

// Root rotates after three entries: all four are handed out.
fn four_out<L: Ledger, R: Abort>(
    rt: &R,
    alloc: Global,
    book: &mut Book<L>,
    seat: &mut Seat<L>,
    receipts: &mut Vec<Receipt<L>>,
) -> Part<L> {
    let (receipt, part) = rotates(rt, alloc, book, seat, b"root");
    assert!(rt; receipt.number() == 3);
    receipts.push(receipt).expect(rt, "memory");
    let part = part.expect(rt, "a part");
    assert!(rt; part.first() == 0);
    assert!(rt; part.len() == 4);
    part
}

#[test]
fn parts_settle_their_receipts(rt: HostRuntime) {
    settles_by_parts::<Brand, _>(&rt, rt.alloc(), Blank::new(1 << 32))
}

fn settles_by_parts<L: Ledger, R: Abort>(rt: &R, alloc: Global, blank: Blank)
    requires name { blank.name ≡ L.name }
    requires parts { blank.parts ≡ L.parts }
    requires enough { 2 ^ 32 ≤ blank.parts }
{
    let (mut book, mut seat) = opened::<L, R>(rt, alloc, blank);
    let mut receipts = three(rt, alloc, &mut book, &mut seat);
    let part = four_out(rt, alloc, &mut book, &mut seat, &mut receipts);
    assert!(rt; part.settle(&receipts));
    let last = saves(rt, alloc, &mut book, &mut seat);
    assert!(rt; last.number() == 4);
    assert!(rt; settle(&book, slice::from_ref(&last)));
    receipts.push(last).expect(rt, "memory");
    assert!(rt; !part.settle(&receipts));
    assert!(rt; !settle(&book, &receipts));
}

#[test]
fn a_stranger_rotates_nothing(rt: HostRuntime) {
    hands_out_nothing::<Brand, _>(&rt, rt.alloc(), Blank::new(1 << 32))
}

fn hands_out_nothing<L: Ledger, R: Abort>(rt: &R, alloc: Global, blank: Blank)
    requires name { blank.name ≡ L.name }
    requires parts { blank.parts ≡ L.parts }
    requires enough { 2 ^ 32 ≤ blank.parts }
{
    let (mut book, mut seat) = opened::<L, R>(rt, alloc, blank);
    let (receipt, part) = rotates(rt, alloc, &mut book, &mut seat, b"bob");
    assert!(rt; part.is_none());
    assert!(rt; receipt.number() == 0);
    assert!(rt; settle(&book, slice::from_ref(&receipt)));
    let next = saves(rt, alloc, &mut book, &mut seat);
    assert!(rt; next.number() == 1);
}

#[test]
fn another_reply_does_not_settle(rt: HostRuntime) {
    refuses_another_reply::<Brand, _>(&rt, rt.alloc(), Blank::new(1 << 32))
}

fn refuses_another_reply<L: Ledger, R: Abort>(rt: &R, alloc: Global, blank: Blank)
    requires name { blank.name ≡ L.name }
    requires parts { blank.parts ≡ L.parts }
    requires enough { 2 ^ 32 ≤ blank.parts }
{
    let (mut book, mut seat) = opened::<L, R>(rt, alloc, blank);
    let mut receipt = saves(rt, alloc, &mut book, &mut seat);
    assert!(rt; settle(&book, slice::from_ref(&receipt)));
    receipt.number = 1;
    assert!(rt; !settle(&book, slice::from_ref(&receipt)));
    receipt.number = 0;
    let _done = mem::replace(&mut receipt.entry.reply, Reply::Opened(()));
    assert!(rt; !settle(&book, slice::from_ref(&receipt)));
}

#[test]
fn slices_are_the_entries_from_a_number_on(rt: HostRuntime) {
    shares_entries::<Brand, _>(&rt, rt.alloc(), Blank::new(1 << 32))
}

fn shares_entries<L: Ledger, R: Abort>(rt: &R, alloc: Global, blank: Blank)
    requires name { blank.name ≡ L.name }
    requires parts { blank.parts ≡ L.parts }
    requires enough { 2 ^ 32 ≤ blank.parts }
{
    let (mut book, mut seat) = opened::<L, R>(rt, alloc, blank);
    let mut receipts = three(rt, alloc, &mut book, &mut seat);
    let part = four_out(rt, alloc, &mut book, &mut seat, &mut receipts);
    for _ in 0..2_000 {
        let _ = saves(rt, alloc, &mut book, &mut seat);
    }
    assert!(rt; shared(rt, part.slice(alloc, 1, 2)) == (1, 2));
    assert!(rt; shared(rt, part.slice(alloc, 3, 9)) == (3, 1));
    assert!(rt; shared(rt, book.slice(alloc, 0, 1_500)) == (4, 1_500));
    assert!(rt; shared(rt, book.slice(alloc, 1_000, 5_000)) == (1_000, 1_004));
    assert!(rt; shared(rt, book.slice(alloc, 9_000, 1)) == (9_000, 0));
}

// The number of a slice's first entry, and how many it has. Each is a save of root's, which was answered, or his rotation.
fn shared<L: Ledger, R: Abort>(rt: &R, slice: Result<Slice<L>, AllocError>) -> (u64, usize) {
    let slice = slice.expect(rt, "memory");
    for entry in slice.entries() {
        assert!(rt; entry.outcome() == Outcome::Answered);
        assert!(rt; entry.event().user() == b"root".as_slice());
    }
    (slice.first(), slice.entries().len())
}
