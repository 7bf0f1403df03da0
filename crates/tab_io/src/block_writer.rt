//! Any writer of std, written in blocks.
ghost use Rattle.std.specs.Prelude.{◌≡◌, ℕ, ◌+◌, ◌^◌, ◌<◌, ◌≤◌, [], ◌++◌, length, take, drop, IfOk, OnOk};
ghost use Rattle.tab_io.specs.Streams.{Accepts, Drains, FailsByFault};

use crate::counted::Counted;
use crate::{BLOCK_LENGTH, Output, WriteFault};
use std::alloc::{AllocError, Global};
use std::io::Write;

// How many bytes are copied at once of a piece that has no more, where as many lie behind its beginning: a copy of a fixed
// length needs neither a call nor a branch by length.
const STEP: usize = 32;

/// An [`Output`] over any writer of std, with a block of [`BLOCK_LENGTH`] bytes.
///
/// Bytes are gathered until the block is full, and then written. Bytes that no block holds are written straight from
/// where they lie. A write that was interrupted is made again; one that takes none of some bytes is a fault. To drop the
/// writer writes nothing: flush it first.
#[derive(Drop)]
pub struct BlockWriter<W> {
    // As long from the start as it ever is: to gather bytes is one copy into it, and one number that changes.
    block: Vec<u8>,
    // Where the gathered bytes begin in the block: a write that stopped has written those before.
    start: usize,
    // Where they end.
    end: usize,
    sink: Counted<W>,
    ghost order: { start ≤ end },
    ghost within: { end ≤ length block.items },
}

impl<W: Write> BlockWriter<W> {
    /// Takes the memory of the block, and writes nothing yet. Without memory the writer is dropped.
    pub fn new(alloc: Global, inner: W) -> Result<BlockWriter<W>, AllocError>
    where
        W: Drop,
        ensures bytes { IfOk result (λ writer. ⟦<BlockWriter<W> as Output>⟧.contents writer ≡ W.contents inner) }
        ensures held { IfOk result (λ writer. ⟦<BlockWriter<W> as Output>⟧.held writer ≡ []) }
        ensures faults { IfOk result (λ writer. ⟦<BlockWriter<W> as Output>⟧.faults writer ≡ 0) }
        ensures budget { IfOk result (λ writer. ⟦<BlockWriter<W> as Output>⟧.budget writer + 1 ≡ 2 ^ 64) }
    {
        let block = Vec::from_elem(alloc, 0, BLOCK_LENGTH)?;
        Ok(BlockWriter {
            block,
            start: 0,
            end: 0,
            sink: Counted::new(inner),
        })
    }

    /// The writer, and what stands in it; what is gathered isn't.
    pub fn get_ref(&self) -> &W
        ensures { W.contents result.now ≡ ⟦<BlockWriter<W> as Output>⟧.contents self.now }
    {
        &self.sink.inner
    }

    #[inline]
    fn gather(&mut self, bytes: &[u8])
        requires { self.old.end + length bytes.now ≤ length self.old.block.items }
        ensures block { take self.new.end self.new.block.items ≡ take self.old.end self.old.block.items ++ bytes.now }
        ensures start { self.new.start ≡ self.old.start }
        ensures sink { self.new.sink ≡ self.old.sink }
    {
        let end = self.end + bytes.len();
        self.block[self.end..end].copy_from_slice(bytes);
        self.end = end;
    }

    // Copies `lead` and one step, of which the first `count` bytes are gathered. What is copied behind these lies where the next bytes
    // go. The end is read and written once: it lies in memory, as the block does.
    #[inline]
    fn gather_step(&mut self, lead: &[u8], bytes: &[u8], count: usize)
        requires lead { length lead.now ≤ 32 }
        requires count { count ≤ 32 }
        requires bytes { 32 ≤ length bytes.now }
        requires room { self.old.end + 64 ≤ length self.old.block.items }
        ensures block { take self.new.end self.new.block.items ≡ take self.old.end self.old.block.items ++ (lead.now ++ take count bytes.now) }
        ensures start { self.new.start ≡ self.old.start }
        ensures sink { self.new.sink ≡ self.old.sink }
    {
        let end = self.end + lead.len();
        write_at(&mut self.block, self.end, lead);
        write_step(&mut self.block, end, bytes);
        self.end = end + count;
    }

    // What a write that stopped leaves unwritten stays in the block.
    fn write_block(&mut self) -> Result<(), WriteFault>
        ensures bytes { Drains (W.contents self.old.sink.inner) (drop self.old.start (take self.old.end self.old.block.items)) (W.contents self.new.sink.inner) (drop self.new.start (take self.new.end self.new.block.items)) result }
        ensures faults { FailsByFault result self.old.sink.faults self.new.sink.faults self.new.sink.budget }
        ensures length { length self.new.block.items ≡ length self.old.block.items }
        ensures empty { OnOk result ((self.new.start ≡ 0) × (self.new.end ≡ 0)) }
    {
        match self.sink.write_all(&self.block[self.start..self.end]) {
            Ok(()) => {
                self.start = 0;
                self.end = 0;
                Ok(())
            }
            Err(stopped) => {
                self.start += stopped.written;
                Err(WriteFault)
            }
        }
    }

    // Nothing is gathered, so these bytes are next.
    fn write_straight(&mut self, bytes: &[u8]) -> Result<(), WriteFault>
        requires { self.old.end ≡ 0 }
        ensures bytes { Accepts (W.contents self.old.sink.inner) [] (W.contents self.new.sink.inner) (drop self.new.start (take self.new.end self.new.block.items)) bytes.now result }
        ensures faults { FailsByFault result self.old.sink.faults self.new.sink.faults self.new.sink.budget }
    {
        match self.sink.write_all(bytes) {
            Ok(()) => Ok(()),
            Err(_) => Err(WriteFault),
        }
    }

    // A piece that isn't gathered in one step. It is a call of its own: so what gathers one is small, and stands in line wherever
    // pieces are put.
    #[inline(never)]
    fn put_apart(&mut self, lead: &[u8], bytes: &[u8]) -> Result<(), WriteFault>
        ensures bytes { Accepts (W.contents self.old.sink.inner) (drop self.old.start (take self.old.end self.old.block.items)) (W.contents self.new.sink.inner) (drop self.new.start (take self.new.end self.new.block.items)) (lead.now ++ bytes.now) result }
        ensures faults { FailsByFault result self.old.sink.faults self.new.sink.faults self.new.sink.budget }
    {
        self.put(lead)?;
        self.put(bytes)
    }

    // The block has no room for these bytes.
    #[cold]
    #[inline(never)]
    #[tactic(auto, using(crate::proofs::Blocks::none_put))]
    fn put_after_block(&mut self, bytes: &[u8]) -> Result<(), WriteFault>
        ensures bytes { Accepts (W.contents self.old.sink.inner) (drop self.old.start (take self.old.end self.old.block.items)) (W.contents self.new.sink.inner) (drop self.new.start (take self.new.end self.new.block.items)) bytes.now result }
        ensures faults { FailsByFault result self.old.sink.faults self.new.sink.faults self.new.sink.budget }
    {
        self.write_block()?;
        if bytes.len() < self.block.len() {
            self.gather(bytes);
            return Ok(());
        }
        self.write_straight(bytes)
    }
}

// Puts the bytes over those from a place on.
#[inline]
fn write_at(block: &mut Vec<u8>, place: usize, bytes: &[u8])
    requires { place + length bytes.now ≤ length block.old.items }
    ensures block { take (place + length bytes.now) block.new.items ≡ take place block.old.items ++ bytes.now }
    ensures length { length block.new.items ≡ length block.old.items }
{
    block[place..place + bytes.len()].copy_from_slice(bytes);
}

// Puts the first step of the bytes over those from a place on.
#[inline]
fn write_step(block: &mut Vec<u8>, place: usize, bytes: &[u8])
    requires bytes { 32 ≤ length bytes.now }
    requires room { place + 32 ≤ length block.old.items }
    ensures block { (count : ℕ) → count ≤ 32 → take (place + count) block.new.items ≡ take place block.old.items ++ take count bytes.now }
    ensures length { length block.new.items ≡ length block.old.items }
{
    block[place..place + STEP].copy_from_slice(&first_step(bytes));
}

// The first bytes by themselves: that they lie apart from the block needn't be asked when they are copied on.
#[inline]
fn first_step(bytes: &[u8]) -> [u8; STEP]
    requires { 32 ≤ length bytes.now }
    ensures { result ≡ take 32 bytes.now }
{
    let mut step = [0; STEP];
    step.copy_from_slice(&bytes[..STEP]);
    step
}

impl<W: Write> Output for BlockWriter<W> {
    ghost use Rattle.std.specs.Prelude.{take, drop};

    ghost contents = { λ writer. W.contents writer.sink.inner };

    ghost held = { λ writer. drop writer.start (take writer.end writer.block.items) };

    ghost faults = { λ writer. writer.sink.faults };

    ghost budget = { λ writer. writer.sink.budget };

    #[inline]
    fn put(&mut self, bytes: &[u8]) -> Result<(), WriteFault> {
        if bytes.len() <= self.block.len() - self.end {
            self.gather(bytes);
            return Ok(());
        }
        self.put_after_block(bytes)
    }

    #[inline]
    fn put_front(&mut self, lead: &[u8], bytes: &[u8], count: usize) -> Result<(), WriteFault> {
        let is_short = lead.len() <= STEP && count <= STEP && STEP <= bytes.len();
        if is_short && 2 * STEP <= self.block.len() - self.end {
            self.gather_step(lead, bytes, count);
            return Ok(());
        }
        self.put_apart(lead, &bytes[..count])
    }

    fn flush(&mut self) -> Result<(), WriteFault> {
        self.write_block()?;
        self.sink.flush()
    }
}
