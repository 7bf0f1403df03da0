//! The frames of replies.
#![tactic(auto, using(tab_io::proofs::Putting::putting))]

ghost use Rattle.std.specs.Prelude.{◌≡◌, ◌==◌, [], ◌∷◌, ◌++◌, false, cond, length};
ghost use Rattle.std.specs.List.{flat_map};
ghost use Rattle.tab_io.specs.Writing.{Puts};
ghost use Rattle.tab_wire.specs.Replies as sent;
ghost use Rattle.tab_wire.specs.Replies.{u32, frame, cell_frame, end_frame, range_frames, row_frame, sent_bytes, sent_of};

use crate::cell_frame::put_cell;
use crate::refusal::put_refusal;
use crate::value::{Value, put_frame};
use tab_codec::{system_bits, table_bits};
use tab_history::{Counts, Reply, Rights};
use tab_io::{Output, WriteFault};
use tab_key::{ByteString, CellRef, Cells};
use tab_text::{PutCell, PutItem, put_each, put_each_cell};

/// Writes the frames of the reply. It takes no memory.
///
/// `number` is the one that an opened session gets, and `count` how many cells were asked of a batch: its end says whether it has
/// as many. After an error a beginning of the frames may have been written.
pub fn write_reply<W: Output>(
    output: &mut W,
    number: u32,
    count: u32,
    reply: &Reply,
) -> Result<(), WriteFault>
    ensures { Puts W.Output output.old output.new (sent_bytes (sent_of number count reply.now)) result }
{
    match reply {
        Reply::Done | Reply::Begun(_) | Reply::Nothing => put_ok(output),
        Reply::Refused(refusal) => put_refusal(output, refusal),
        Reply::Opened(_) => put_opened(output, number),
        Reply::Batch(cells) => put_batch(output, cells, count),
        Reply::Ranges(ranges) => put_ranges(output, ranges.as_slice()),
        Reply::Rights(rights) => put_rights(output, rights),
        Reply::Counted(counts) => put_counts(output, *counts),
        Reply::Rows(rows) => put_rows(output, rows.as_slice()),
    }
}

fn put_ok<W: Output>(output: &mut W) -> Result<(), WriteFault>
    ensures { Puts W.Output output.old output.new (frame (128 ∷ [])) result }
{
    put_frame(output, &[Value::Byte(0x80)])
}

fn put_opened<W: Output>(output: &mut W, number: u32) -> Result<(), WriteFault>
    ensures { Puts W.Output output.old output.new (frame (132 ∷ u32 number)) result }
{
    put_frame(output, &[Value::Byte(0x84), Value::Number(number)])
}

// The cells, and whether there are as many as were asked for.
fn put_batch<W: Output>(output: &mut W, cells: &Cells, count: u32) -> Result<(), WriteFault>
    ensures { Puts W.Output output.old output.new (flat_map cell_frame cells.now ++ end_frame (length cells.now == count)) result }
{
    put_cells(output, cells)?;
    put_end(output, cells.len() == count as usize)
}

fn put_cells<W: Output>(output: &mut W, cells: &Cells) -> Result<(), WriteFault>
    ensures { Puts W.Output output.old output.new (flat_map cell_frame cells.now) result }
{
    put_each_cell(output, cells, &CellFrame)
}

// One cell.
struct CellFrame;

impl PutCell for CellFrame {
    ghost use Rattle.tab_wire.specs.Replies.{cell_frame};

    ghost text = { λ _ cell. cell_frame cell };

    fn put_cell<W: Output>(&self, output: &mut W, cell: &CellRef<'_>) -> Result<(), WriteFault> {
        put_cell(output, cell)
    }
}

// The byte that says whether there may be more.
fn end_code(more: bool) -> u8
    ensures { result ≡ cond more 0 1 }
{
    if more { 0 } else { 1 }
}

fn put_end<W: Output>(output: &mut W, more: bool) -> Result<(), WriteFault>
    ensures { Puts W.Output output.old output.new (end_frame more) result }
{
    let code = end_code(more);
    put_frame(output, &[Value::Byte(0x83), Value::Byte(code)])
}

// The cells of each range, each range with its end, and the end of all.
fn put_ranges<W: Output>(output: &mut W, ranges: &[Cells]) -> Result<(), WriteFault>
    ensures { Puts W.Output output.old output.new (flat_map range_frames ranges.now ++ end_frame false) result }
{
    put_each(output, ranges, &RangeFrames)?;
    put_end(output, false)
}

// The cells of a range, and its end.
struct RangeFrames;

impl PutItem<Cells> for RangeFrames {
    ghost use Rattle.tab_wire.specs.Replies.{range_frames};

    ghost text = { λ _ cells. range_frames cells };

    fn put_item<W: Output>(&self, output: &mut W, cells: &Cells) -> Result<(), WriteFault> {
        put_range(output, cells)
    }
}

fn put_range<W: Output>(output: &mut W, cells: &Cells) -> Result<(), WriteFault>
    ensures { Puts W.Output output.old output.new (range_frames cells.now) result }
{
    put_cells(output, cells)?;
    put_frame(output, &[Value::Byte(0x86)])
}

fn put_rights<W: Output>(output: &mut W, rights: &Rights) -> Result<(), WriteFault>
    ensures { Puts W.Output output.old output.new (sent_bytes (sent.OwnRights rights.now)) result }
{
    let system = system_bits(&rights.system);
    let table = table_bits(&rights.table);
    put_frame(
        output,
        &[
            Value::Byte(0x88),
            Value::Byte(system),
            Value::Byte(table),
            Value::Terms(rights.authorizations.terms()),
        ],
    )
}

fn put_counts<W: Output>(output: &mut W, counts: Counts) -> Result<(), WriteFault>
    ensures { Puts W.Output output.old output.new (sent_bytes (sent.Status counts)) result }
{
    put_frame(
        output,
        &[
            Value::Byte(0x87),
            Value::Long(counts.tablets),
            Value::Long(counts.sources),
            Value::Long(counts.records),
        ],
    )
}

// The end rows, and an end.
fn put_rows<W: Output>(output: &mut W, rows: &[ByteString]) -> Result<(), WriteFault>
    ensures { Puts W.Output output.old output.new (flat_map row_frame rows.now ++ end_frame false) result }
{
    put_each(output, rows, &RowFrame)?;
    put_end(output, false)
}

// One end row.
struct RowFrame;

impl PutItem<ByteString> for RowFrame {
    ghost use Rattle.tab_wire.specs.Replies.{row_frame};

    ghost text = { λ _ row. row_frame row };

    fn put_item<W: Output>(&self, output: &mut W, row: &ByteString) -> Result<(), WriteFault> {
        put_row(output, row.as_bytes())
    }
}

fn put_row<W: Output>(output: &mut W, row: &[u8]) -> Result<(), WriteFault>
    ensures { Puts W.Output output.old output.new (row_frame row.now) result }
{
    put_frame(output, &[Value::Byte(0x85), Value::Field(row)])
}
