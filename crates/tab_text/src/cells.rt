//! Many cells, put one after another.
ghost use Rattle.std.specs.Prelude.{ℕ, List};
ghost use Rattle.std.specs.List.{flat_map};
ghost use Rattle.tab_io.specs.Writing.{Puts};
ghost use Rattle.tab_key.specs.Records.{Cell};

use tab_io::{Output, WriteFault};
use tab_key::{CellRef, Cells};

/// How a cell is put.
pub trait PutCell {
    // The text of a cell.
    ghost text: { Self → Cell → List ℕ };

    /// Puts the text of the cell. It fails where the output does, and has put a beginning of the text then.
    fn put_cell<W: Output>(&self, output: &mut W, cell: &CellRef<'_>) -> Result<(), WriteFault>
        ensures { Puts W.Output output.old output.new (text self.now cell.now) result };
}

/// Puts the texts of the cells, one after another, straight from where they lie. It fails where the output does, and has put a
/// beginning of them then.
pub fn put_each_cell<P: PutCell, W: Output>(
    output: &mut W,
    cells: &Cells,
    how: &P,
) -> Result<(), WriteFault>
    ensures { Puts W.Output output.old output.new (flat_map (P.text how.now) cells.now) result }
{
    for index in 0..cells.len() {
        match how.put_cell(output, &cells.get(index)) {
            Ok(()) => {}
            Err(fault) => return Err(fault),
        }
    }
    Ok(())
}
