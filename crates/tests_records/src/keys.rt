//! The order of names, ranges, the numbers of rows, and what is printed for a reader of a test.
use std::alloc::Global;
use std::cmp::Ordering;
use std::fmt::{Debug, Display};
use std::process::Abort;
use tab_key::{BadRange, Bound, ByteString, Name, Range, row_prefix};

fn named(rt: &impl Abort, bytes: &[u8]) -> Name {
    Name::new(bytes).expect(rt, "a name")
}

#[test]
fn orders_names(rt: HostRuntime) {
    let first = named(&rt, b"T");
    let second = named(&rt, b"t");
    assert!(rt; first < second);
    assert!(rt; first.cmp(&second) == Ordering::Less);
}

fn bytes(rt: &impl Abort, alloc: Global, text: &[u8]) -> ByteString {
    ByteString::from_slice(alloc, text).expect(rt, "memory")
}

// Which of the rows a, ab, b lie between these, if they are the ends of a range.
fn between(low: Bound, high: Bound) -> Option<[bool; 3]> {
    match Range::new(low, high) {
        Ok(range) => Some([
            range.contains(b"a"),
            range.contains(b"ab"),
            range.contains(b"b"),
        ]),
        Err(BadRange) => None,
    }
}

#[test]
fn ranges_hold_rows(rt: HostRuntime) {
    let low = Bound::Exclusive(bytes(&rt, rt.alloc(), b"a"));
    let inner = between(low, Bound::Inclusive(bytes(&rt, rt.alloc(), b"ab")));
    assert!(rt; inner == Some([false, true, false]));
    let low = Bound::Inclusive(bytes(&rt, rt.alloc(), b"a"));
    assert!(rt; between(low, Bound::Exclusive(bytes(&rt, rt.alloc(), b"a"))).is_none());
}

// Rows of no byte, on both sides of eight and of sixteen, and their numbers.
const NUMBERED: [(&[u8], u128); 8] = [
    (b"", 0),
    (b"\xff", 0xff00_0000_0000_0000_0000_0000_0000_0000),
    (b"abcdefg", 0x6162_6364_6566_6700_0000_0000_0000_0000),
    (b"abcdefgh", 0x6162_6364_6566_6768_0000_0000_0000_0000),
    (b"abcdefghi", 0x6162_6364_6566_6768_6900_0000_0000_0000),
    (
        b"abcdefghijklmno",
        0x6162_6364_6566_6768_696a_6b6c_6d6e_6f00,
    ),
    (
        b"abcdefghijklmnop",
        0x6162_6364_6566_6768_696a_6b6c_6d6e_6f70,
    ),
    (
        b"abcdefghijklmnopq",
        0x6162_6364_6566_6768_696a_6b6c_6d6e_6f70,
    ),
];

#[test]
fn rows_have_numbers(rt: HostRuntime) {
    for (row, number) in &NUMBERED {
        assert!(rt; row_prefix(row) == *number);
    }
}

// The value is printed so for a reader of a test.
fn expect_printed<T: Debug>(rt: &impl Abort, alloc: Global, value: &T, want: &str) {
    let text = format!(in alloc; "{value:?}").expect(rt, "memory");
    assert!(rt; text.as_str() == want)
}

// The fault is told so.
fn expect_told<T: Display>(rt: &impl Abort, alloc: Global, fault: &T, want: &str) {
    let text = format!(in alloc; "{fault}").expect(rt, "memory");
    assert!(rt; text.as_str() == want)
}

#[test]
fn prints_for_a_reader(rt: HostRuntime) {
    let alloc = rt.alloc();
    let bound = Bound::Inclusive(bytes(&rt, alloc, b"a\""));
    expect_printed(&rt, alloc, &bound, "Inclusive(\"a\\\"\")");
    expect_printed(&rt, alloc, &bytes(&rt, alloc, b"\xff"), "[255]");
    expect_printed(&rt, alloc, &named(&rt, b"t"), "\"t\"");
    expect_told(&rt, alloc, &BadRange, "the bounds leave no range")
}
