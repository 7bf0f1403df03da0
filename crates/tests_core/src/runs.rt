//! Runs of steps, and the sessions that they keep.

use crate::steps::{expect_text, expect_told, run_of, steps_of};
use std::alloc::Global;
use std::process::Abort;
use tab_history::Reply;

const CLOSED: &[u8] =
    b"createtable t versions=3\ninsert t r f q \\e 1 1\ninsert t r f q \\e 2 2\nopen t \\0\n\
insert t r f q \\e 3 3\nopen t \\0\nclose 0\nnext 0 1\nclose 0\nopen t A\nopen t \\0\nas eve\nopen t \\0\n\
as root\nnext 0 1\nnext 2 1\nas eve\nnext 2 1\nclose 0";

const CLOSED_TOLD: &[u8] = b"ok ok ok opened ok opened ok unopened unopened unheld opened unknown \
unopened @3=3, unopened unopened ";

#[test]
fn a_closed_session_is_gone_for_good(rt: HostRuntime) {
    expect_told(&rt, rt.alloc(), CLOSED, CLOSED_TOLD)
}

fn add(rt: &impl Abort, lines: &mut Vec<u8>, text: &[u8]) {
    lines.extend_from_slice(text).expect(rt, "memory");
}

// A put of this timestamp and value, and a session behind it.
fn add_session(rt: &impl Abort, alloc: Global, lines: &mut Vec<u8>, at: u32) {
    let text = format!(in alloc; "insert t r f q \\e v {at}\nopen t \\0\n").expect(rt, "memory");
    add(rt, lines, text.as_bytes())
}

// A batch of two of the session.
fn add_next(rt: &impl Abort, alloc: Global, lines: &mut Vec<u8>, at: u32) {
    let text = format!(in alloc; "next {at} 2\n").expect(rt, "memory");
    add(rt, lines, text.as_bytes())
}

// So many sessions, each behind one more put of the same column, and all read at the end.
fn many_sessions(rt: &impl Abort, alloc: Global, count: u32) -> Vec<u8> {
    let mut lines = Vec::new(alloc);
    add(rt, &mut lines, b"createtable t\n");
    for at in 0..count {
        add_session(rt, alloc, &mut lines, at);
    }
    for at in 0..count {
        add_next(rt, alloc, &mut lines, at);
    }
    lines
}

// What the session of this number gives: the put before it.
fn expect_put(rt: &impl Abort, alloc: Global, at: usize, reply: &Reply) {
    let want = format!(in alloc; "@{at}=v, ").expect(rt, "memory");
    expect_text(rt, alloc, std::slice::from_ref(reply), want.as_bytes())
}

#[test]
fn a_run_keeps_many_sessions(rt: HostRuntime) {
    let alloc = rt.alloc();
    let lines = many_sessions(&rt, alloc, 150);
    let replies = run_of(&rt, alloc, steps_of(&rt, alloc, &lines));
    for (at, reply) in replies.iter().skip(301).enumerate() {
        expect_put(&rt, alloc, at, reply);
    }
}

const IN_RANGES: &[u8] =
    b"createtable t versions=3\ninsert t r f q \\e 1 1\ninsert t r f q \\e 2 2\nopen t \\0\n\
insert t r f q \\e 3 3\nopen t \\0\nnext 1 2\nmany 1 [r \\0 [s \\0 [\\e \\0\nmany 0 [r \\0\nmany 0\nnext 1 2";

const IN_RANGES_TOLD: &[u8] = b"ok ok ok opened ok opened @3=3,@2=2, \
@3=3,@2=2,@1=1,||@3=3,@2=2,@1=1,| @2=2,@1=1,|  @1=1, ";

#[test]
fn a_run_answers_in_ranges(rt: HostRuntime) {
    expect_told(&rt, rt.alloc(), IN_RANGES, IN_RANGES_TOLD)
}

// As many sessions as may be open; one more is refused, and where one was closed there is room for one, under a number of its own.
fn sessions_at_limit(rt: &impl Abort, alloc: Global) -> Vec<u8> {
    let mut lines = Vec::new(alloc);
    add(rt, &mut lines, b"createtable t\n");
    for _ in 0..65_537u32 {
        add(rt, &mut lines, b"open t \\0\n");
    }
    add(
        rt,
        &mut lines,
        b"close 0\nopen t \\0\nnext 0 1\nnext 65536 1\nnext 65537 1",
    );
    lines
}

#[test]
fn a_run_keeps_as_many_sessions_as_may_be_open(rt: HostRuntime) {
    let alloc = rt.alloc();
    let lines = sessions_at_limit(&rt, alloc);
    let replies = run_of(&rt, alloc, steps_of(&rt, alloc, &lines));
    let last = replies.get(65_536..).expect(&rt, "a reply to each step");
    expect_text(
        &rt,
        alloc,
        last,
        b"opened toolarge ok opened unopened  unopened ",
    )
}
