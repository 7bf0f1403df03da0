//! `tabd shell`.

use crate::asking::Asking;
use std::alloc::Global;
use tab_history::{Act, Refusal, Reply, Scan};
use tab_io::{Input, Output, ReadFault, WriteFault};
use tab_key::{Bounds, Cells, Items, Name};
use tab_shell::{
    Line, ParseError, Pending, put_cells, put_next, put_opened, take_line, write_reply,
};
use tab_text::{Word, put_line};
use tab_wire::{Answer, Reason, Request};

/// How many cells a whole scan asks for at once.
const BATCH_LENGTH: u32 = 1000;

/// Why a shell ended before its lines did.
#[derive(Clone, Copy, Debug, PartialEq, Eq, thiserror::Error)]
pub enum ShellFault {
    /// The lines can't be read. Every line that ended before has been answered.
    #[error("the input can't be read")]
    Read,
    /// The output can't be written. The lines that were taken have been sent.
    #[error("the output can't be written")]
    Write,
    /// A request can't be sent. What was told before is written.
    #[error("the server can't be asked")]
    Send,
    /// A reply can't be received. What was told before is written; the request may have taken effect.
    #[error("the server's reply can't be read")]
    Receive,
    /// The server has ended the connection. What was told before is written; the request may have taken effect.
    #[error("the server has ended the connection")]
    Ended,
    /// What was received is no reply to what was asked.
    #[error("the server's reply isn't understood")]
    Bad,
    /// There was no memory for a reply.
    #[error("there is no memory")]
    NoMemory,
}

impl From<WriteFault> for ShellFault {
    ghost use Rattle.std.specs.Prelude.{◌≡◌};
    ghost use Rattle.tab_prog.specs.declared.shelling.ShellFault.TheVariants.{Write};

    ghost from_gives = { λ _ e. e ≡ Write };

    fn from(_e: WriteFault) -> ShellFault {
        ShellFault::Write
    }
}

impl From<ReadFault> for ShellFault {
    ghost use Rattle.std.specs.Prelude.{◌≡◌};
    ghost use Rattle.tab_prog.specs.declared.shelling.ShellFault.TheVariants.{Read};

    ghost from_gives = { λ _ e. e ≡ Read };

    fn from(_e: ReadFault) -> ShellFault {
        ShellFault::Read
    }
}

/// Sends what the lines ask to a server, as one user, and prints what it tells, until the lines end.
///
/// The lines are those of a script, and so are the texts of their replies, but for the lines that a script alone has: `as`, `at`, `begin`,
/// `merge`, `install`, `splitsize`, `save` and `load` are answered `line fault`, as what is no line. Sessions have the numbers that the server gives them; a `scan` opens one
/// too, reads it in batches of 1,000 and closes it. A line whose request no frame holds is answered `refused 16 BadFrame toolong`, and not
/// sent.
///
/// Each line is answered before the next one is sent. What is told is flushed whenever no more input is here. A fault says which side failed.
pub fn shell_run<L: Input, O: Output, R: Input, W: Output>(
    alloc: Global,
    lines: &mut L,
    out: &mut O,
    reader: &mut R,
    writer: &mut W,
    user: Name,
) -> Result<(), ShellFault> {
    let mut asking = Asking::new(alloc, user, reader, writer);
    match answer_all(alloc, lines, out, &mut asking) {
        Ok(()) => Ok(out.flush()?),
        Err(ShellFault::Write) => Err(ShellFault::Write),
        Err(fault) => {
            let _ = out.flush();
            Err(fault)
        }
    }
}

// Answers all lines.
fn answer_all<L: Input, O: Output, R: Input, W: Output>(
    alloc: Global,
    lines: &mut L,
    out: &mut O,
    asking: &mut Asking<'_, R, W>,
) -> Result<(), ShellFault> {
    let mut pending = Pending::new(alloc);
    for _ in 0..u64::MAX {
        if let Some(said) = take_line(alloc, lines, &mut pending) {
            answer(said, out, asking)?;
        } else {
            out.flush()?;
            if !has_more(lines)? {
                break;
            }
        }
    }
    if pending.has_begun() {
        answer(pending.said(alloc, b""), out, asking)?;
    }
    Ok(())
}

// Reads where nothing is here. Whether there is more then.
fn has_more<L: Input>(lines: &mut L) -> Result<bool, ReadFault> {
    if !lines.front().is_empty() {
        return Ok(true);
    }
    lines.fill()
}

// Answers one line.
fn answer<O: Output, R: Input, W: Output>(
    said: Result<Line, ParseError>,
    out: &mut O,
    asking: &mut Asking<'_, R, W>,
) -> Result<(), ShellFault> {
    match said {
        Ok(line) => answer_line(line, out, asking),
        Err(ParseError::Malformed) => put_fault(out),
        Err(ParseError::NoMemory) => Ok(write_reply(out, &Reply::Refused(Refusal::NoMemory))?),
    }
}

fn answer_line<O: Output, R: Input, W: Output>(
    line: Line,
    out: &mut O,
    asking: &mut Asking<'_, R, W>,
) -> Result<(), ShellFault> {
    match line {
        Line::Blank => Ok(()),
        Line::As(_) | Line::At(_) | Line::Merge(_) | Line::File(_) => put_fault(out),
        Line::Act(act) => answer_act(act, out, asking),
        Line::Scan(scan) => answer_scan(scan, out, asking),
        Line::Open(scan) => tell(out, asking.ask(&Request::Act(Act::Open(scan)))),
        Line::Next(slot, count) => answer_next(slot, count, out, asking),
        Line::Many(slot, ranges) => answer_many(slot, ranges, out, asking),
        Line::Close(slot) => tell(out, asking.ask(&Request::Close { slot })),
    }
}

// What is no line of a shell.
fn put_fault<O: Output>(out: &mut O) -> Result<(), ShellFault> {
    Ok(out.put(b"line fault\n")?)
}

// Prints what was told of an act. No frame asks a split by size, or a part of a compaction.
fn answer_act<O: Output, R: Input, W: Output>(
    act: Act,
    out: &mut O,
    asking: &mut Asking<'_, R, W>,
) -> Result<(), ShellFault> {
    match act {
        Act::SplitBySize(..) | Act::Begin(..) | Act::Install(..) => put_fault(out),
        Act::Splits(table) => answer_splits(table, out, asking),
        act => tell(out, asking.ask(&Request::Act(act))),
    }
}

// The end rows of a table. A list of none is told as one of no cells.
fn answer_splits<O: Output, R: Input, W: Output>(
    table: Name,
    out: &mut O,
    asking: &mut Asking<'_, R, W>,
) -> Result<(), ShellFault> {
    match asking.ask(&Request::Act(Act::Splits(table))) {
        Ok(Answer::Reply(Reply::Batch(cells))) => Ok(put_next(out, 1, &Reply::Batch(cells))?),
        answer => tell(out, answer),
    }
}

// The cells of a session that come next.
fn answer_next<O: Output, R: Input, W: Output>(
    slot: u32,
    count: u32,
    out: &mut O,
    asking: &mut Asking<'_, R, W>,
) -> Result<(), ShellFault> {
    match asking.ask(&Request::Next { slot, count }) {
        Ok(Answer::Reply(Reply::Batch(cells))) => put_taken(out, count, cells),
        answer => tell(out, answer),
    }
}

// Prints what a session gave, of which so many cells were asked.
fn put_taken<O: Output>(out: &mut O, count: u32, cells: Cells) -> Result<(), ShellFault> {
    Ok(put_next(out, count, &Reply::Batch(cells))?)
}

// A session in ranges.
fn answer_many<O: Output, R: Input, W: Output>(
    slot: u32,
    ranges: Items<Bounds>,
    out: &mut O,
    asking: &mut Asking<'_, R, W>,
) -> Result<(), ShellFault> {
    tell(out, asking.ask(&Request::Many { slot, ranges }))
}

// A session is opened, read to its end and closed.
fn answer_scan<O: Output, R: Input, W: Output>(
    scan: Scan,
    out: &mut O,
    asking: &mut Asking<'_, R, W>,
) -> Result<(), ShellFault> {
    match asking.ask(&Request::Act(Act::Open(scan))) {
        Ok(Answer::Reply(Reply::Opened(slot))) => read_all(slot, out, asking),
        answer => tell(out, answer),
    }
}

// Prints all cells of a session and an end, and closes it. A refusal stands in place of the cells that are left and the end.
fn read_all<O: Output, R: Input, W: Output>(
    slot: u32,
    out: &mut O,
    asking: &mut Asking<'_, R, W>,
) -> Result<(), ShellFault> {
    for _ in 0..u64::MAX {
        if !read_batch(slot, out, asking)? {
            break;
        }
    }
    match asking.ask(&Request::Close { slot }) {
        Ok(_) => Ok(()),
        Err(fault) => Err(fault),
    }
}

// Prints the next cells. Whether there may be more.
fn read_batch<O: Output, R: Input, W: Output>(
    slot: u32,
    out: &mut O,
    asking: &mut Asking<'_, R, W>,
) -> Result<bool, ShellFault> {
    let count = BATCH_LENGTH;
    match asking.ask(&Request::Next { slot, count }) {
        Ok(Answer::Reply(Reply::Batch(cells))) => put_batch(out, cells),
        answer => tell_last(out, answer),
    }
}

// Prints a batch, and an end where it is a short one. Whether there may be more.
fn put_batch<O: Output>(out: &mut O, cells: Cells) -> Result<bool, ShellFault> {
    put_cells(out, &cells)?;
    if cells.len() == BATCH_LENGTH as usize {
        return Ok(true);
    }
    out.put(b"end\n")?;
    Ok(false)
}

// Prints what was told in the place of a batch. There is no more.
fn tell_last<O: Output>(
    out: &mut O,
    answer: Result<Answer, ShellFault>,
) -> Result<bool, ShellFault> {
    tell(out, answer)?;
    Ok(false)
}

// Prints what was told.
fn tell<O: Output>(out: &mut O, answer: Result<Answer, ShellFault>) -> Result<(), ShellFault> {
    match answer {
        Ok(Answer::Reply(reply)) => {
            let (told, session, _) = reply.into_parts();
            Ok(put_opened(out, session.unwrap_or(0) as u64, &told)?)
        }
        Ok(Answer::BadFrame(reason)) => Ok(put_bad_frame(out, reason)?),
        Err(fault) => Err(fault),
    }
}

// Prints why a frame asked nothing.
fn put_bad_frame<O: Output>(out: &mut O, reason: Reason) -> Result<(), WriteFault> {
    let why = word_of(reason);
    put_line(
        out,
        &[
            Word::Text(b"refused"),
            Word::Number(16),
            Word::Text(b"BadFrame"),
            Word::Text(why),
        ],
    )
}

// The reason in a word.
fn word_of(reason: Reason) -> &'static [u8] {
    match reason {
        Reason::Empty => b"empty",
        Reason::TooLong => b"toolong",
        Reason::Cut => b"cut",
        Reason::Opcode => b"opcode",
        Reason::Field => b"field",
        Reason::Order => b"order",
    }
}
