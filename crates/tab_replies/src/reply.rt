//! The texts of replies.
#![tactic(auto, using(tab_io::proofs::Putting::putting))]

ghost use Rattle.std.specs.Prelude.{◌≡◌, ◌++◌, ◌==◌, length};
ghost use Rattle.std.specs.List.{flat_map};
ghost use Rattle.tab_io.specs.Writing.{Puts};
ghost use Rattle.tab_text.specs.Lines.{cell_text};
ghost use Rattle.tab_replies.specs.Texts.{reply_text, session_text, opened_text, job_text, begun_text, mark_text, next_text, range_text, counts_text, row_text, rows_text};

use crate::refusal::put_refusal;
use crate::rights::put_rights;
use tab_history::{Counts, Reply};
use tab_io::{Output, WriteFault};
use tab_key::{ByteString, CellRef, Cells};
use tab_text::{PutCell, PutItem, Word, put_cell, put_each, put_each_cell, put_line};

/// Writes the text of the reply. It takes no memory.
///
/// `ok`; `refused`, the refusal's number, its name and its words; a batch's cells, each on a line of its own; the same of
/// each of several ranges, and behind each `range`; one's own rights, a line for each kind of permission and for each
/// authorization, and `end`; counts, each behind its name; end rows, each on a line of its own, and `end`; or `nothing`, where there was
/// nothing to merge. An opened session and a job that was begun have no text of their own, and a batch none that says whether more comes:
/// the lines that ask for them have. After an error a beginning of the text may have been written.
pub fn write_reply<W: Output>(output: &mut W, reply: &Reply) -> Result<(), WriteFault>
    ensures { Puts W.Output output.old output.new (reply_text reply.now) result }
{
    match reply {
        Reply::Done => output.put(b"ok\n"),
        Reply::Refused(refusal) => put_refusal(output, refusal),
        Reply::Opened(_) => output.put(b""),
        Reply::Batch(cells) => put_cells(output, cells),
        Reply::Ranges(ranges) => put_each(output, ranges.as_slice(), &RangeLines),
        Reply::Rights(rights) => put_rights(output, rights),
        Reply::Counted(counts) => put_counts(output, *counts),
        Reply::Rows(rows) => put_rows(output, rows.as_slice()),
        Reply::Begun(_) => output.put(b""),
        Reply::Nothing => output.put(b"nothing\n"),
    }
}

/// Writes the reply to a line that opens a session, which gets this number: `session` and the number; else as `write_reply`.
pub fn put_opened<W: Output>(output: &mut W, number: u64, reply: &Reply) -> Result<(), WriteFault>
    ensures { Puts W.Output output.old output.new (opened_text number reply.now) result }
{
    match reply {
        Reply::Opened(_) => put_session_number(output, number),
        _ => write_reply(output, reply),
    }
}

fn put_session_number<W: Output>(output: &mut W, number: u64) -> Result<(), WriteFault>
    ensures { Puts W.Output output.old output.new (session_text number) result }
{
    put_line(output, &[Word::Text(b"session"), Word::Number(number)])
}

/// Writes the reply to a line that may begin a job, which gets this number: `job` and the number; else as `write_reply`.
pub fn put_begun<W: Output>(output: &mut W, number: u64, reply: &Reply) -> Result<(), WriteFault>
    ensures { Puts W.Output output.old output.new (begun_text number reply.now) result }
{
    match reply {
        Reply::Begun(_) => put_job_number(output, number),
        _ => write_reply(output, reply),
    }
}

fn put_job_number<W: Output>(output: &mut W, number: u64) -> Result<(), WriteFault>
    ensures { Puts W.Output output.old output.new (job_text number) result }
{
    put_line(output, &[Word::Text(b"job"), Word::Number(number)])
}

/// Writes the reply to a line that asks for so many cells: the cells, and `more` where there are as many, or `end`; else as
/// `write_reply`.
pub fn put_next<W: Output>(output: &mut W, count: u32, reply: &Reply) -> Result<(), WriteFault>
    ensures { Puts W.Output output.old output.new (next_text count reply.now) result }
{
    match reply {
        Reply::Batch(cells) => put_batch(output, count, cells),
        _ => write_reply(output, reply),
    }
}

// Cells, and whether more may come.
fn put_batch<W: Output>(output: &mut W, count: u32, cells: &Cells) -> Result<(), WriteFault>
    ensures { Puts W.Output output.old output.new (flat_map cell_text cells.now ++ mark_text (length cells.now == count)) result }
{
    put_cells(output, cells)?;
    put_mark(output, cells.len() == count as usize)
}

fn put_mark<W: Output>(output: &mut W, more: bool) -> Result<(), WriteFault>
    ensures { Puts W.Output output.old output.new (mark_text more) result }
{
    if more {
        output.put(b"more\n")
    } else {
        output.put(b"end\n")
    }
}

// What a table's tablets hold, on one line.
fn put_counts<W: Output>(output: &mut W, counts: Counts) -> Result<(), WriteFault>
    ensures { Puts W.Output output.old output.new (counts_text counts) result }
{
    put_line(
        output,
        &[
            Word::Text(b"tablets"),
            Word::Number(counts.tablets),
            Word::Text(b"sources"),
            Word::Number(counts.sources),
            Word::Text(b"records"),
            Word::Number(counts.records),
        ],
    )
}

// The end rows, each on a line of its own, and an end.
fn put_rows<W: Output>(output: &mut W, rows: &[ByteString]) -> Result<(), WriteFault>
    ensures { Puts W.Output output.old output.new (rows_text rows.now) result }
{
    put_each(output, rows, &RowLine)?;
    output.put(b"end\n")
}

struct RowLine;

impl PutItem<ByteString> for RowLine {
    ghost use Rattle.tab_replies.specs.Texts.{row_text};

    ghost text = { λ _ row. row_text row };

    fn put_item<W: Output>(&self, output: &mut W, row: &ByteString) -> Result<(), WriteFault> {
        put_row(output, row.as_bytes())
    }
}

fn put_row<W: Output>(output: &mut W, row: &[u8]) -> Result<(), WriteFault>
    ensures { Puts W.Output output.old output.new (row_text row.now) result }
{
    put_line(output, &[Word::Bytes(row)])
}

struct RangeLines;

impl PutItem<Cells> for RangeLines {
    ghost use Rattle.tab_replies.specs.Texts.{range_text};

    ghost text = { λ _ cells. range_text cells };

    fn put_item<W: Output>(&self, output: &mut W, cells: &Cells) -> Result<(), WriteFault> {
        put_range(output, cells)
    }
}

// The cells in a range, and a line behind them.
fn put_range<W: Output>(output: &mut W, cells: &Cells) -> Result<(), WriteFault>
    ensures { Puts W.Output output.old output.new (range_text cells.now) result }
{
    put_cells(output, cells)?;
    output.put(b"range\n")
}

/// Each cell on a line of its own.
pub fn put_cells<W: Output>(output: &mut W, cells: &Cells) -> Result<(), WriteFault>
    ensures { Puts W.Output output.old output.new (flat_map cell_text cells.now) result }
{
    put_each_cell(output, cells, &CellLine)
}

struct CellLine;

impl PutCell for CellLine {
    ghost use Rattle.tab_text.specs.Lines.{cell_text};

    ghost text = { λ _ cell. cell_text cell };

    fn put_cell<W: Output>(&self, output: &mut W, cell: &CellRef<'_>) -> Result<(), WriteFault> {
        put_cell(output, cell)
    }
}
