//! Steps, from the lines of a script, and replies as text.

use std::alloc::Global;
use std::process::Abort;
use tab_core::run;
use tab_history::{Act, Event, Refusal, Reply, Step};
use tab_key::{Cells, Name};
use tab_label::AuthSet;
use tab_lines::{Line, read_line};

// Who asks, and when.
#[derive(Clone, Copy)]
struct Asker {
    user: Name,
    moment: i64,
}

impl Asker {
    fn event(&self, act: Act) -> Option<Step> {
        let (user, moment) = (self.user, self.moment);
        Some(Step::Event(Event { user, moment, act }))
    }

    // The step of a line that asks for one.
    fn step(&self, line: Line) -> Option<Step> {
        let user = self.user;
        match line {
            Line::Act(act) => self.event(act),
            Line::Open(scan) => self.event(Act::Open(scan)),
            Line::Next(slot, count) => Some(Step::Next { user, slot, count }),
            Line::Many(slot, ranges) => Some(Step::Many { user, slot, ranges }),
            Line::Close(slot) => Some(Step::Close { user, slot }),
            Line::Merge(slot) => Some(Step::Merge { slot }),
            _ => None,
        }
    }

    // Who asks behind the line, and when.
    fn behind(&self, line: &Line) -> Asker {
        match line {
            Line::As(user) => Asker {
                user: *user,
                ..*self
            },
            Line::At(moment) => Asker {
                moment: *moment,
                ..*self
            },
            _ => *self,
        }
    }
}

fn line_of(rt: &impl Abort, alloc: Global, text: &[u8]) -> Line {
    match read_line(alloc, text) {
        Ok(line) => line,
        Err(_) => panic!(rt; "no line"),
    }
}

// Puts the line's step behind the others, if it asks for one, and tells who asks behind it.
fn add_step(
    rt: &impl Abort,
    alloc: Global,
    steps: &mut Vec<Step>,
    asker: Asker,
    text: &[u8],
) -> Asker {
    let line = line_of(rt, alloc, text);
    let behind = asker.behind(&line);
    if let Some(step) = asker.step(line) {
        push(rt, steps, step);
    }
    behind
}

/// The steps of a script's lines, which root asks at the moment 0 until a line says otherwise.
pub fn steps_of(rt: &impl Abort, alloc: Global, script: &[u8]) -> Vec<Step> {
    let mut steps = Vec::new(alloc);
    let (user, moment) = (named(rt, b"root"), 0);
    let mut asker = Asker { user, moment };
    for text in script.split(|byte| *byte == b'\n') {
        asker = add_step(rt, alloc, &mut steps, asker, text);
    }
    steps
}

/// What a run of the steps is told.
pub fn run_of(rt: &impl Abort, alloc: Global, steps: Vec<Step>) -> Vec<Reply> {
    run(alloc, steps).expect(rt, "memory")
}

/// The replies have this text, with a blank after each.
pub fn expect_text(rt: &impl Abort, alloc: Global, replies: &[Reply], want: &[u8]) {
    let text = text_of(rt, alloc, replies);
    assert!(rt; text.as_slice() == want)
}

/// A run of the script's steps is told this.
pub fn expect_told(rt: &impl Abort, alloc: Global, script: &[u8], want: &[u8]) {
    let replies = run_of(rt, alloc, steps_of(rt, alloc, script));
    expect_text(rt, alloc, &replies, want)
}

/// The reply has this text.
pub fn expect_reply(rt: &impl Abort, alloc: Global, reply: Reply, want: &[u8]) {
    let mut text = Vec::new(alloc);
    add_reply(rt, alloc, &mut text, &reply);
    assert!(rt; text.as_slice() == want)
}

/// The name that these bytes are.
pub fn named(rt: &impl Abort, bytes: &[u8]) -> Name {
    Name::new(bytes).expect(rt, "a name")
}

/// Puts the step behind the others.
pub fn push(rt: &impl Abort, steps: &mut Vec<Step>, step: Step) {
    steps.push(step).expect(rt, "memory");
}

fn add_number(rt: &impl Abort, alloc: Global, text: &mut Vec<u8>, number: i64) {
    let digits = format!(in alloc; "{number}").expect(rt, "memory");
    add(rt, text, digits.as_bytes())
}

/// The count in digits.
pub fn add_count(rt: &impl Abort, alloc: Global, text: &mut Vec<u8>, count: u64) {
    let digits = format!(in alloc; "{count}").expect(rt, "memory");
    add(rt, text, digits.as_bytes())
}

/// The cells, as `label@timestamp=value` with a comma after each.
pub fn add_cells(rt: &impl Abort, alloc: Global, text: &mut Vec<u8>, cells: &Cells) {
    for index in 0..cells.len() {
        let cell = cells.get(index);
        add(rt, text, cell.label());
        add(rt, text, b"@");
        add_number(rt, alloc, text, cell.timestamp());
        add(rt, text, b"=");
        add(rt, text, cell.value());
        add(rt, text, b",");
    }
}

fn word_of(refusal: &Refusal) -> &'static [u8] {
    match refusal {
        Refusal::BadAuthorizations(_) => b"unheld",
        Refusal::NoSession(_) => b"unopened",
        Refusal::NoJob(_) => b"nojob",
        Refusal::Stale(0) => b"stale0",
        Refusal::Stale(1) => b"stale1",
        Refusal::TooLarge(_) => b"toolarge",
        Refusal::UnknownUser(_) => b"unknown",
        Refusal::BelowHorizon(_) => b"below",
        Refusal::VersionsRaised(_) => b"raised",
        Refusal::HorizonLowered(_) => b"lowered",
        Refusal::ServerTime => b"servertime",
        _ => b"refused",
    }
}

/// Puts the word behind the text.
pub fn add(rt: &impl Abort, text: &mut Vec<u8>, word: &[u8]) {
    text.extend_from_slice(word).expect(rt, "memory");
}

fn add_ranges(rt: &impl Abort, alloc: Global, text: &mut Vec<u8>, ranges: &[Cells]) {
    for cells in ranges {
        add_cells(rt, alloc, text, cells);
        add(rt, text, b"|");
    }
}

fn add_terms(rt: &impl Abort, text: &mut Vec<u8>, auths: &AuthSet) {
    for term in auths.terms() {
        add(rt, text, term);
    }
}

/// Puts the reply behind the text.
pub fn add_reply(rt: &impl Abort, alloc: Global, text: &mut Vec<u8>, reply: &Reply) {
    match reply {
        Reply::Done => add(rt, text, b"ok"),
        Reply::Refused(refusal) => add(rt, text, word_of(refusal)),
        Reply::Opened(_) => add(rt, text, b"opened"),
        Reply::Batch(cells) => add_cells(rt, alloc, text, cells),
        Reply::Ranges(ranges) => add_ranges(rt, alloc, text, ranges.as_slice()),
        Reply::Rights(rights) => add_terms(rt, text, &rights.authorizations),
        Reply::Counted(counts) => add_count(rt, alloc, text, counts.records),
        Reply::Rows(_) => add(rt, text, b"told"),
        Reply::Begun(_) => add(rt, text, b"begun"),
        Reply::Nothing => add(rt, text, b"nothing"),
    }
}

/// The replies, with a blank after each.
pub fn text_of(rt: &impl Abort, alloc: Global, replies: &[Reply]) -> Vec<u8> {
    let mut text = Vec::new(alloc);
    for reply in replies {
        add_reply(rt, alloc, &mut text, reply);
        add(rt, &mut text, b" ");
    }
    text
}
