//! A script over memory.
ghost use Rattle.page.specs.Answering.{Answers};

use crate::filling::fill;
use crate::no_files::NoFiles;
use std::alloc::Global;
use tab_io::memory::{PieceReader, PieceWriter};
use tab_io::{BLOCK_LENGTH, BlockReader, BlockWriter, Input, Output};
use tab_prog::{Files, script};

/// Answers the lines over a new core, and writes a beginning of the answers to `out`. Gives the length of all answers, or the largest number
/// where there was no memory for them.
pub fn run<'a>(alloc: Global, lines: &'a [u8], out: &mut [u8]) -> u64
    ensures { Answers ⟦<NoFiles as Files>⟧ ⟦<BlockReader<PieceReader<'a>> as Input>⟧ ⟦<BlockWriter<PieceWriter> as Output>⟧ lines.now out.old out.new result }
{
    let Ok(mut input) = BlockReader::new(alloc, PieceReader::new(lines, BLOCK_LENGTH)) else {
        return u64::MAX;
    };
    let Ok(mut output) = BlockWriter::new(alloc, PieceWriter::new(alloc, BLOCK_LENGTH)) else {
        return u64::MAX;
    };
    let Ok(()) = script(alloc, &mut NoFiles, &mut input, &mut output) else {
        return u64::MAX;
    };
    fill(output.get_ref().bytes(), out)
}
