//! The line of a cell.
ghost use Rattle.tab_io.specs.Writing.{Puts};
ghost use Rattle.tab_text.specs.Lines.{cell_text};

use crate::{Word, put_line};
use tab_io::{Output, WriteFault};
use tab_key::CellRef;

/// Puts the line `ROW FAM QUAL LABEL TS VALUE` of a cell.
#[tactic(auto, unfolding(crate::specs::Lines::cell_text))]
pub fn put_cell<W: Output>(output: &mut W, cell: &CellRef<'_>) -> Result<(), WriteFault>
    ensures { Puts W.Output output.old output.new (cell_text cell.now) result }
{
    put_line(
        output,
        &[
            Word::Bytes(cell.row()),
            Word::Bytes(cell.family()),
            Word::Bytes(cell.qualifier()),
            Word::Bytes(cell.label()),
            Word::Signed(cell.timestamp()),
            Word::Bytes(cell.value()),
        ],
    )
}
