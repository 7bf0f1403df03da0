//! Why a line is a line fault.
ghost use Rattle.page.specs.Answering.{Explained};

use crate::filling::fill;
use std::alloc::Global;
use tab_help::{Asks, Explanation, explain};
use tab_io::memory::PieceWriter;
use tab_io::{BLOCK_LENGTH, BlockWriter, Output};

/// Writes to `out` why the line with this number is a line fault. Gives the length of that text: 0 for what is a line, or the largest number
/// where there was no memory.
pub fn why(alloc: Global, number: u64, line: &[u8], out: &mut [u8]) -> u64
    ensures { Explained number line.now out.old out.new result }
{
    let Ok(mut notes) = BlockWriter::new(alloc, PieceWriter::new(alloc, BLOCK_LENGTH)) else {
        return u64::MAX;
    };
    match explain(alloc, Asks::Script, number, line, &mut notes) {
        Ok(Explanation::Reason) => {
            let Ok(()) = notes.flush() else {
                return u64::MAX;
            };
            fill(notes.get_ref().bytes(), out)
        }
        Ok(Explanation::Nothing) => 0,
        _ => u64::MAX,
    }
}
