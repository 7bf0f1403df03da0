//! Pairs of runs that look alike to bob, who holds A and never B, and what he is told in them.

use crate::steps::{expect_text, named, steps_of, text_of};
use std::alloc::Global;
use std::process::Abort;
use tab_core::{Compared, compare_runs};
use tab_history::Step;
use tab_testing::Random;

// The table t of two versions; bob with A, eve and root with A and B.
const ALL: &[u8] = b"createtable t versions=2\nsetauths root A,B\n\
createuser bob\nsetauths bob A\ngrant bob READ t\ngrant bob WRITE t\n\
createuser eve\nsetauths eve A,B\ngrant eve READ t\ngrant eve WRITE t\n";

// What bob sees of what others write.
const SEEN: &[u8] = b"insert t r f q A x 5\nas eve\ninsert t r f q \\e v\n";

// What others write under B, before bob's first scan.
const UNSEEN: &[u8] =
    b"as root\ninsert t r f q B y 6\nas eve\ninsert t r f q B z 7\ninsert t r f q A&B w\n";

// Two batches of one of bob's scans, and one of another.
const FIRST_BATCH: &[u8] = b"as bob\nat 1\nopen t A\nnext 0 1\n";

const UNSEEN_MEANWHILE: &[u8] = b"as eve\nat 0\ndelete t r f q B 7\n";

const OTHER_BATCHES: &[u8] =
    b"as bob\nat 1\nnext 0 9\nmany 0 [\\e \\0 [s \\0\nopen t A,B\nopen t A\nnext 1 9\nnext 2 9";

// Two runs.
#[derive(Drop)]
struct Pair {
    first: Vec<Step>,
    second: Vec<Step>,
}

fn add(rt: &impl Abort, lines: &mut Vec<u8>, text: &[u8]) {
    lines.extend_from_slice(text).expect(rt, "memory");
}

// The steps of these texts, one behind the other.
fn steps_in(rt: &impl Abort, alloc: Global, texts: &[&[u8]]) -> Vec<Step> {
    let mut lines = Vec::new(alloc);
    for text in texts {
        add(rt, &mut lines, text);
    }
    steps_of(rt, alloc, &lines)
}

// Scans of bob's, with something unseen beside them or not.
fn scanned(rt: &impl Abort, alloc: Global) -> Pair {
    let alone = [ALL, SEEN, FIRST_BATCH, OTHER_BATCHES];
    let beside = [
        ALL,
        SEEN,
        UNSEEN,
        FIRST_BATCH,
        UNSEEN_MEANWHILE,
        OTHER_BATCHES,
    ];
    let first = steps_in(rt, alloc, &alone);
    let second = steps_in(rt, alloc, &beside);
    Pair { first, second }
}

// What the user is told in both runs.
fn told_in(rt: &impl Abort, alloc: Global, pair: &Pair, user: &[u8]) -> Compared {
    let told = compare_runs(alloc, &pair.first, &pair.second, &named(rt, user));
    told.expect(rt, "memory")
}

// The user is told that in the first run, and this in the second.
fn expect_told(
    rt: &impl Abort,
    alloc: Global,
    pair: &Pair,
    user: &[u8],
    first: &[u8],
    second: &[u8],
) {
    let told = told_in(rt, alloc, pair, user);
    expect_text(rt, alloc, &told.first, first);
    expect_text(rt, alloc, &told.second, second)
}

const TOLD: &[u8] = b"opened @0=v, A@5=x, @0=v,A@5=x,|| unheld opened @0=v,A@5=x, unopened ";

#[test]
fn tells_bob_the_same(rt: HostRuntime) {
    let alloc = rt.alloc();
    let pair = scanned(&rt, alloc);
    expect_told(&rt, alloc, &pair, b"bob", TOLD, TOLD);
    expect_told(&rt, alloc, &pair, b"eve", b"ok ", b"ok ok ok ok ");
    expect_told(&rt, alloc, &pair, b"dan", b"", b"")
}

// What is drawn for a line.
#[derive(Clone, Copy)]
struct Drawn {
    value: u8,
    // a number, or nothing
    timestamp: &'static [u8],
    slot: [u8; 1],
    count: [u8; 1],
    // A, or none, as authorizations and as a label
    auths: &'static [u8],
    label: &'static [u8],
}

// One that is given, or none.
fn random_timestamp(random: &mut Random) -> &'static [u8] {
    match random.below(5) {
        0 => b"",
        1 => b"1",
        2 => b"2",
        3 => b"3",
        _ => b"4",
    }
}

fn random_words(random: &mut Random) -> Drawn {
    let value = b'a' + random.below(20) as u8;
    let timestamp = random_timestamp(random);
    let slot = [b'0' + random.below(4) as u8];
    let count = [b'1' + random.below(3) as u8];
    let is_plain = random.below(2) == 0;
    Drawn {
        value,
        timestamp,
        slot,
        count,
        auths: if is_plain { b"\\0" } else { b"A" },
        label: if is_plain { b"\\e" } else { b"A" },
    }
}

fn add_insert(rt: &impl Abort, lines: &mut Vec<u8>, drawn: &Drawn) {
    add(rt, lines, b"insert t r f q ");
    add(rt, lines, drawn.label);
    add(rt, lines, b" ");
    add(rt, lines, &[drawn.value]);
    add(rt, lines, b" ");
    add(rt, lines, drawn.timestamp)
}

fn add_delete(rt: &impl Abort, lines: &mut Vec<u8>, drawn: &Drawn) {
    add(rt, lines, b"delete t r f q ");
    add(rt, lines, drawn.label);
    add(rt, lines, b" ");
    add(rt, lines, drawn.timestamp)
}

fn add_next(rt: &impl Abort, lines: &mut Vec<u8>, drawn: &Drawn) {
    add(rt, lines, b"next ");
    add(rt, lines, &drawn.slot);
    add(rt, lines, b" ");
    add(rt, lines, &drawn.count)
}

fn add_words(rt: &impl Abort, lines: &mut Vec<u8>, words: &[&[u8]]) {
    for word in words {
        add(rt, lines, word);
    }
}

// Who asks what the line of this number asks: bob, or root, who writes what bob sees and sets what the table shows and takes.
fn asker(kind: u64) -> &'static [u8] {
    if kind > 8 && kind != 12 {
        b"as root\n"
    } else {
        b"as bob\n"
    }
}

fn add_line(rt: &impl Abort, lines: &mut Vec<u8>, kind: u64, drawn: &Drawn) {
    match kind {
        0..=1 => add_words(rt, lines, &[b"open t ", drawn.auths, b""]),
        2 => add(rt, lines, b"open t A,B"),
        3..=5 => add_next(rt, lines, drawn),
        6 => add_words(rt, lines, &[b"close ", &drawn.slot, b""]),
        7 => add(rt, lines, b"rights t"),
        9 => add_delete(rt, lines, drawn),
        12 => add_words(
            rt,
            lines,
            &[b"many ", &drawn.slot, b" [a \\0 [r \\0 [s \\0"],
        ),
        13 => add_words(rt, lines, &[b"versions t ", &drawn.count, b""]),
        14 => add_words(rt, lines, &[b"horizon t ", &drawn.slot, b""]),
        _ => add_insert(rt, lines, drawn),
    }
}

// At the moment, a line of bob, or one of root that he sees.
fn random_line(rt: &impl Abort, alloc: Global, random: &mut Random, moment: u8) -> Vec<u8> {
    let drawn = random_words(random);
    let kind = random.below(15);
    let mut line = Vec::new(alloc);
    add(rt, &mut line, asker(kind));
    add(rt, &mut line, b"at ");
    add(
        rt,
        &mut line,
        &[b'0' + moment / 10 % 10, b'0' + moment % 10],
    );
    add(rt, &mut line, b"\n");
    add_line(rt, &mut line, kind, &drawn);
    add(rt, &mut line, b"\n");
    line
}

// What eve does under B, of which bob sees nothing.
fn add_hidden(rt: &impl Abort, lines: &mut Vec<u8>, kind: u64, drawn: &Drawn) {
    match kind {
        0 => add(rt, lines, b"open t A,B"),
        1 => add_words(rt, lines, &[b"next ", &drawn.slot, b" 5"]),
        2 => add(rt, lines, b"createuser dan"),
        3 => add_delete(rt, lines, drawn),
        4 => add(rt, lines, b"horizon t 4"),
        _ => add_insert(rt, lines, drawn),
    }
}

// A line of eve of which bob sees nothing.
fn add_unseen(rt: &impl Abort, lines: &mut Vec<u8>, random: &mut Random) {
    let plain = random_words(random);
    let label: &[u8] = if plain.label == b"A".as_slice() {
        b"A&B"
    } else {
        b"B"
    };
    let value = plain.value.to_ascii_uppercase();
    let drawn = Drawn {
        value,
        label,
        ..plain
    };
    let kind = random.below(9);
    add(rt, lines, b"as eve\nat 0\n");
    add_hidden(rt, lines, kind, &drawn);
    add(rt, lines, b"\n")
}

// Root scans all.
const LAST_SCAN: &[u8] = b"as root\nat 30\nopen t A,B\nnext 0 100";

// Some steps, and the same with steps of eve among them. At the end root scans all.
fn random_pair(rt: &impl Abort, alloc: Global, random: &mut Random) -> Pair {
    let mut first = Vec::new(alloc);
    let mut second = Vec::new(alloc);
    for moment in 1..30u8 {
        let line = random_line(rt, alloc, random, moment);
        add(rt, &mut first, &line);
        add(rt, &mut second, &line);
        if random.below(2) == 0 {
            add_unseen(rt, &mut second, random);
        }
    }
    let first = steps_in(rt, alloc, &[ALL, first.as_slice(), LAST_SCAN]);
    let second = steps_in(rt, alloc, &[ALL, second.as_slice(), LAST_SCAN]);
    Pair { first, second }
}

// Whether the user is told the same in both runs, and how much text that is in the first.
fn is_alike(rt: &impl Abort, alloc: Global, pair: &Pair, user: &[u8]) -> (bool, usize) {
    let told = told_in(rt, alloc, pair, user);
    let text = text_of(rt, alloc, &told.first);
    let other = text_of(rt, alloc, &told.second);
    (text == other, text.len())
}

// Bob is told the same in the pair, of this much text; whether root isn't.
fn compare(rt: &impl Abort, alloc: Global, random: &mut Random) -> (usize, bool) {
    let pair = random_pair(rt, alloc, random);
    let (is_same, told) = is_alike(rt, alloc, &pair, b"bob");
    assert!(rt; is_same);
    let (is_same, _) = is_alike(rt, alloc, &pair, b"root");
    (told, !is_same)
}

#[test]
fn tells_bob_the_same_in_random_pairs(rt: HostRuntime) {
    let mut random = Random::new(11);
    let mut len = 0usize;
    let mut differing = 0u32;
    for _ in 0..300 {
        let (told, differs) = compare(&rt, rt.alloc(), &mut random);
        len = len.saturating_add(told);
        differing = differing.saturating_add(u32::from(differs));
    }
    assert!(rt; len > 30_000, "{len} bytes were told");
    assert!(rt; differing > 200, "{differing} pairs differ for root");
}
