//! Owned records and their order, and copies of byte strings and lists.
use std::alloc::Global;
use std::cmp::Ordering;
use std::process::Abort;
use tab_key::{ByteString, Items, Key, Kind, Record};

// The record of this label, timestamp and number.
fn record(
    rt: &impl Abort,
    alloc: Global,
    kind: Kind,
    label: &[u8],
    timestamp: i64,
    seq: u64,
) -> Record {
    let key = Key {
        row: b"r",
        family: b"f",
        qualifier: b"q",
        label,
        timestamp,
    };
    let made = Record::new(alloc, key, kind, b"v", seq, 0);
    made.expect(rt, "memory").expect(rt, "a record")
}

// The marker of A at 5 stands so beside the put, and hides it or not.
fn expect_beside(rt: &impl Abort, alloc: Global, put: Record, want: Ordering, hides: bool) {
    let marker = record(rt, alloc, Kind::Delete, b"A", 5, 0);
    assert!(rt; marker.cmp(&put) == want);
    assert!(rt; marker.as_ref().hides(&put.as_ref()) == hides);
    assert!(rt; !put.as_ref().hides(&marker.as_ref()));
}

#[test]
fn a_marker_hides_its_column(rt: HostRuntime) {
    let alloc = rt.alloc();
    let kept = record(&rt, alloc, Kind::Put, b"A", 6, 0);
    expect_beside(&rt, alloc, kept, Ordering::Greater, false);
    let hidden = record(&rt, alloc, Kind::Put, b"A", 5, 9);
    expect_beside(&rt, alloc, hidden, Ordering::Less, true);
    let other = record(&rt, alloc, Kind::Put, b"B", 5, 9);
    expect_beside(&rt, alloc, other, Ordering::Less, false)
}

// A copy of the record stands in its column, and a copy of a lent one too.
fn expect_copies(rt: &impl Abort, alloc: Global, one: &Record) {
    let copy = one.clone().expect(rt, "memory");
    assert!(rt; one.same_column(&copy));
    let lent = Record::of(alloc, &copy.as_ref()).expect(rt, "memory");
    assert!(rt; lent.as_ref().value() == b"v".as_slice())
}

#[test]
fn copies_records(rt: HostRuntime) {
    let one = record(&rt, rt.alloc(), Kind::Put, b"A", 6, 0);
    expect_copies(&rt, rt.alloc(), &one)
}

// The byte string, its copy, and what it is made of.
fn expect_bytes(rt: &impl Abort, alloc: Global, text: ByteString) {
    let copy = text.clone().expect(rt, "memory");
    assert!(rt; text == copy);
    assert!(rt; copy > ByteString::new(alloc));
    assert!(rt; ByteString::from_vec(copy.into_vec()) == text)
}

#[test]
fn copies_bytes(rt: HostRuntime) {
    let text = ByteString::from_slice(rt.alloc(), b"a\0b").expect(&rt, "memory");
    expect_bytes(&rt, rt.alloc(), text)
}

// A copy of a list of numbers.
fn copied(rt: &impl Abort, list: Items<u8>) -> Items<u8> {
    list.clone().expect(rt, "memory")
}

#[test]
fn copies_items(rt: HostRuntime) {
    let mut list = Items::new(rt.alloc()).into_vec();
    list.push(7).expect(&rt, "memory");
    let copy = copied(&rt, Items::from_vec(list));
    assert!(rt; copy.as_slice() == [7].as_slice());
}
