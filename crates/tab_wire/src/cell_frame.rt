//! The frame of a cell, which is nearly all of what a scan is told.
#![tactic(auto, using(tab_io::proofs::Putting::putting))]

ghost use Rattle.std.specs.Prelude.{◌≡◌, ◌%◌, ◌^◌, ◌++◌, ◌∷◌, [], length};
ghost use Rattle.tab_io.specs.Writing.{Puts};
ghost use Rattle.tab_wire.specs.Replies.{u32, i64, field, cell_frame, cell_fields};

use std::marker::Model;
use tab_codec::low;
use tab_io::{Output, WriteFault};
use tab_key::{CellRef, Piece};

// The bytes of a cell's frame besides its five byte strings, without the length of the frame: the opcode, five lengths and the timestamp.
const FIXED_LEN: u32 = 29;

// What a cell shows, lent: where its parts lie is read once for all of them, and what lies behind each may be read too.
#[derive(Drop)]
struct CellParts<'a> {
    row: Piece<'a>,
    family: Piece<'a>,
    qualifier: Piece<'a>,
    label: Piece<'a>,
    timestamp: i64,
    value: Piece<'a>,
}

impl<'a> Model for CellParts<'a> {
    ghost use Rattle.tab_key.specs.Records.{Cell as Fields};

    ghost Value = { Fields };

    ghost view = { λ p. record { key = record { row = p.row; family = p.family; qualifier = p.qualifier; label = p.label; timestamp = p.timestamp }; value = p.value } };
}

impl<'a> CellParts<'a> {
    fn of(cell: &CellRef<'a>) -> CellParts<'a>
        ensures { result ≡ cell.now }
    {
        CellParts {
            row: cell.row_piece(),
            family: cell.family_piece(),
            qualifier: cell.qualifier_piece(),
            label: cell.label_piece(),
            timestamp: cell.timestamp(),
            value: cell.value_piece(),
        }
    }

    fn row(&self) -> &Piece<'a>
        ensures { result.now ≡ self.now.key.row }
    {
        &self.row
    }

    fn family(&self) -> &Piece<'a>
        ensures { result.now ≡ self.now.key.family }
    {
        &self.family
    }

    fn qualifier(&self) -> &Piece<'a>
        ensures { result.now ≡ self.now.key.qualifier }
    {
        &self.qualifier
    }

    fn label(&self) -> &Piece<'a>
        ensures { result.now ≡ self.now.key.label }
    {
        &self.label
    }

    fn timestamp(&self) -> i64
        ensures { result ≡ self.now.key.timestamp }
    {
        self.timestamp
    }

    fn value(&self) -> &Piece<'a>
        ensures { result.now ≡ self.now.value }
    {
        &self.value
    }
}

/// Puts the frame of a cell: its length, the opcode, and its fields. It takes no memory.
///
/// It puts six pieces, one behind the other, each with what stands before it, and loops over none: a scan spends much of its time here.
pub fn put_cell<W: Output>(output: &mut W, cell: &CellRef<'_>) -> Result<(), WriteFault>
    ensures { Puts W.Output output.old output.new (cell_frame cell.now) result }
{
    put_parts(output, &CellParts::of(cell))
}

fn put_parts<W: Output>(output: &mut W, cell: &CellParts<'_>) -> Result<(), WriteFault>
    ensures { Puts W.Output output.old output.new (cell_frame cell.now) result }
{
    put_head(output, length_of(cell))?;
    put_fields(output, cell)
}

// How many bytes the opcode and the fields have, as four bytes hold it.
#[tactic(auto, using(crate::proofs::CellLengths::cell_length))]
fn length_of(cell: &CellParts<'_>) -> u32
    ensures { result ≡ length (130 ∷ cell_fields cell.now) % 2 ^ 32 }
{
    low(cell.row().len())
        .wrapping_add(low(cell.family().len()))
        .wrapping_add(low(cell.qualifier().len()))
        .wrapping_add(low(cell.label().len()))
        .wrapping_add(low(cell.value().len()))
        .wrapping_add(FIXED_LEN)
}

fn put_head<W: Output>(output: &mut W, length: u32) -> Result<(), WriteFault>
    ensures { Puts W.Output output.old output.new (u32 length ++ 130 ∷ []) result }
{
    output.put(&head_of(length))
}

// The four bytes of the length, and the opcode. The length goes in whole: single bytes that are read as one number a moment later
// hold the processor up.
#[tactic(auto, unfolding(tab_codec::specs::Spelling::u32))]
fn head_of(length: u32) -> [u8; 5]
    ensures { result ≡ u32 length ++ 130 ∷ [] }
{
    let mut head = [0, 0, 0, 0, 0x82];
    head[..4].copy_from_slice(&length.to_be_bytes());
    head
}

fn put_fields<W: Output>(output: &mut W, cell: &CellParts<'_>) -> Result<(), WriteFault>
    ensures { Puts W.Output output.old output.new (cell_fields cell.now) result }
{
    put_piece(output, cell.row())?;
    put_behind_row(output, cell)
}

fn put_behind_row<W: Output>(output: &mut W, cell: &CellParts<'_>) -> Result<(), WriteFault>
    ensures { Puts W.Output output.old output.new (field cell.now.key.family ++ (field cell.now.key.qualifier ++ (field cell.now.key.label ++ (i64 cell.now.key.timestamp ++ field cell.now.value)))) result }
{
    put_piece(output, cell.family())?;
    put_behind_family(output, cell)
}

fn put_behind_family<W: Output>(output: &mut W, cell: &CellParts<'_>) -> Result<(), WriteFault>
    ensures { Puts W.Output output.old output.new (field cell.now.key.qualifier ++ (field cell.now.key.label ++ (i64 cell.now.key.timestamp ++ field cell.now.value))) result }
{
    put_piece(output, cell.qualifier())?;
    put_behind_qualifier(output, cell)
}

fn put_behind_qualifier<W: Output>(output: &mut W, cell: &CellParts<'_>) -> Result<(), WriteFault>
    ensures { Puts W.Output output.old output.new (field cell.now.key.label ++ (i64 cell.now.key.timestamp ++ field cell.now.value)) result }
{
    put_piece(output, cell.label())?;
    put_behind_label(output, cell)
}

// Puts the timestamp and the value's length, and behind them the value.
fn put_behind_label<W: Output>(output: &mut W, cell: &CellParts<'_>) -> Result<(), WriteFault>
    ensures { Puts W.Output output.old output.new (i64 cell.now.key.timestamp ++ field cell.now.value) result }
{
    let value = cell.value();
    let lead = before_value(cell.timestamp(), low(value.len()));
    output.put_front(&lead, value.onward(), value.len())
}

// The eight bytes of the timestamp, and the four of the value's length.
#[tactic(auto, unfolding(tab_codec::specs::Spelling::u32, tab_codec::specs::Spelling::i64))]
fn before_value(timestamp: i64, length: u32) -> [u8; 12]
    ensures { result ≡ i64 timestamp ++ u32 length }
{
    let mut bytes = [0; 12];
    bytes[..8].copy_from_slice(&timestamp.to_be_bytes());
    bytes[8..].copy_from_slice(&length.to_be_bytes());
    bytes
}

// Puts a piece as a field: its length, and its bytes.
fn put_piece<W: Output>(output: &mut W, piece: &Piece<'_>) -> Result<(), WriteFault>
    ensures { Puts W.Output output.old output.new (field piece.now) result }
{
    output.put_front(&four_bytes(low(piece.len())), piece.onward(), piece.len())
}

// A number as four bytes, the highest first.
#[tactic(auto, unfolding(tab_codec::specs::Spelling::u32))]
fn four_bytes(number: u32) -> [u8; 4]
    ensures { result ≡ u32 number }
{
    number.to_be_bytes()
}
