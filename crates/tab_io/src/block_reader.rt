//! Any reader of std, read in blocks.
ghost use Rattle.std.specs.Prelude.{◌≡◌, ◌+◌, ◌^◌, ◌<◌, ◌≤◌, [], IfOk, vec_len, slice_range};
ghost use Rattle.std.specs.Io.KnownBytes.{prepend_known};

use crate::counted::Counted;
use crate::{BLOCK_LENGTH, Input, ReadFault};
use std::alloc::{AllocError, Global};
use std::io::Read;

/// An [`Input`] over any reader of std, with a block of [`BLOCK_LENGTH`] bytes.
///
/// The front is what is left of the block; a fill is one read of as much as the block holds, so a reader that has less
/// to give at a time, as a terminal or a socket, is never waited for longer than its next bytes. A read that was
/// interrupted is made again.
#[derive(Drop)]
pub struct BlockReader<R> {
    block: Vec<u8>,
    start: usize,
    end: usize,
    source: Counted<R>,
    ghost roomy: { 0 < vec_len block },
    ghost ordered: { start ≤ end },
    ghost within: { end ≤ vec_len block },
}

impl<R: Read> BlockReader<R> {
    /// Takes the memory of the block, and reads nothing yet. Without memory the reader is dropped.
    pub fn new(alloc: Global, inner: R) -> Result<BlockReader<R>, AllocError>
    where
        R: Drop,
        ensures bytes { IfOk result (λ reader. ⟦<BlockReader<R> as Input>⟧.remaining reader ≡ R.remaining inner) }
        ensures front { IfOk result (λ reader. ⟦<BlockReader<R> as Input>⟧.front reader ≡ []) }
        ensures faults { IfOk result (λ reader. ⟦<BlockReader<R> as Input>⟧.faults reader ≡ 0) }
        ensures budget { IfOk result (λ reader. ⟦<BlockReader<R> as Input>⟧.budget reader + 1 ≡ 2 ^ 64) }
    {
        let mut block = Vec::with_capacity(alloc, BLOCK_LENGTH)?;
        block.resize(BLOCK_LENGTH, 0)?;
        Ok(BlockReader {
            block,
            start: 0,
            end: 0,
            source: Counted::new(inner),
        })
    }
}

impl<R: Read> Input for BlockReader<R> {
    ghost remaining = { λ reader. prepend_known (slice_range reader.block.items reader.start reader.end) (R.remaining reader.source.inner) };

    ghost front = { λ reader. slice_range reader.block.items reader.start reader.end };

    ghost faults = { λ reader. reader.source.faults };

    ghost budget = { λ reader. reader.source.budget };

    fn front(&self) -> &[u8] {
        let (start, end) = (self.start, self.end);
        let block = self.block.as_slice();
        &block[start..end]
    }

    fn consume(&mut self, count: usize) {
        self.start += count;
    }

    fn fill(&mut self) -> Result<bool, ReadFault> {
        self.start = 0;
        self.end = 0;
        let count = self.source.read(self.block.as_mut_slice())?;
        self.end = count;
        Ok(count > 0)
    }
}
