//! A scan's cells, batch by batch.
ghost use Rattle.tab_shell.specs.Batches.{PutsReading, PutsBatch, PutsEnd, PutsTaken, left_of};
ghost use Rattle.tab_replies.specs.Texts.{refusal_text};

use std::alloc::{AllocError, Global};
use tab_core::Session;
use tab_history::Refusal;
use tab_io::{Output, WriteFault};
use tab_key::Cells;
use tab_replies::{put_cells, put_refusal};

/// How many cells a full batch has.
const BATCH_LENGTH: u32 = 1000;

/// Writes all cells that are left of a session in batches of 1,000, and an end. Where memory lacks for a batch, the refusal that says so
/// stands in place of the cells that are left and the end.
#[tactic(auto, using(crate::proofs::Batching::read_none))]
pub fn put_session<W: Output>(
    alloc: Global,
    session: &mut Session,
    output: &mut W,
) -> Result<(), WriteFault>
    ensures { PutsReading W.Output output.old output.new (left_of session.old.state) result }
{
    loop {
        match put_batch(alloc, session, output) {
            Ok(true) => {}
            Ok(false) => return Ok(()),
            Err(fault) => return Err(fault),
        }
    }
}

// Writes the next batch. Whether it was full, and more may come; else an end was written too, or what lacked.
fn put_batch<W: Output>(
    alloc: Global,
    session: &mut Session,
    output: &mut W,
) -> Result<bool, WriteFault>
    ensures { PutsBatch W.Output output.old output.new session.old.state session.new.state result }
{
    match session.next_batch(alloc, BATCH_LENGTH) {
        Ok(cells) => put_taken(cells, output),
        Err(AllocError) => put_lack(output),
    }
}

// Writes that memory lacks, behind which nothing more comes.
fn put_lack<W: Output>(output: &mut W) -> Result<bool, WriteFault>
    ensures { PutsEnd W.Output output.old output.new (refusal_text Refusal.NoMemory) result }
{
    put_refusal(output, &Refusal::NoMemory)?;
    Ok(false)
}

// Writes the cells of a batch, and an end behind one that isn't full. Whether it was full.
fn put_taken<W: Output>(cells: Cells, output: &mut W) -> Result<bool, WriteFault>
    ensures { PutsTaken W.Output output.old output.new cells result }
{
    match put_cells(output, &cells) {
        Ok(()) => {}
        Err(fault) => return Err(fault),
    }
    if cells.len() == BATCH_LENGTH as usize {
        return Ok(true);
    }
    match output.put(b"end\n") {
        Ok(()) => Ok(false),
        Err(fault) => Err(fault),
    }
}
