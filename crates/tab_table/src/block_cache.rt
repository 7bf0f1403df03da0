//! What cursors over a table had decoded when they were left.
ghost use Rattle.std.specs.Prelude.{IfSome};
ghost use Rattle.tab_table.specs.Windows.{IsWindow};

use crate::decoded::Decoded;
use crate::entry::BLOCK_LEN;
use crate::kept::Kept;
use crate::packed::Packed;
use crate::window::Window;
use lru::LruCache;
use std::alloc::{AllocError, Global};
use std::num::NonZeroUsize;

/// What cursors over a table had decoded when they were left, by blocks: of so many blocks at most, of each what the last cursor there had
/// read. It takes no memory before the first is put in.
///
/// What is taken out is compared with the table first: so it may be lent to a cursor over any table. One of no blocks keeps the memory
/// alone into which the last cursor decoded.
pub struct BlockCache {
    most: usize,
    // none before the first is put in
    blocks: Option<Box<LruCache<usize, Kept>>>,
    // what the next cursor may decode into
    room: Option<Decoded>,
}

// Written out, so that a crate above needn't prove anew how the parts are dropped.
impl Drop for BlockCache {
    #[inline(always)]
    fn drop(self) {
        let BlockCache {
            most: _,
            blocks: _,
            room: _,
        } = self;
    }
}

impl BlockCache {
    /// An empty one, of so many blocks at most; of 0 blocks it keeps none.
    pub fn of(most: usize) -> BlockCache {
        BlockCache {
            most,
            blocks: None,
            room: None,
        }
    }

    /// Whether nothing was put in yet.
    pub fn is_empty(&self) -> bool {
        self.blocks.is_none()
    }

    /// Takes out the memory into which a cursor may decode: none yet, where no cursor left any.
    pub(crate) fn take_room(&mut self, alloc: Global) -> Decoded {
        match self.room.take() {
            Some(room) => room,
            None => Decoded::new(alloc),
        }
    }

    /// Keeps what a cursor over the table had decoded, where it is of some blocks; else its memory.
    pub(crate) fn leave(&mut self, alloc: Global, packed: &Packed, window: Window)
        requires { IsWindow window packed.now.bytes packed.now.count }
    {
        if self.most == 0 {
            self.room = Some(window.records);
        } else if let Some(kept) = Kept::of(packed, window) {
            self.keep(alloc, kept);
        }
    }

    /// Takes out what is kept of the block of the record with this index, where it is the table's and that record is in it or near behind.
    pub(crate) fn take(&mut self, packed: &Packed, index: usize) -> Option<Window>
        ensures { IfSome result (λ w. IsWindow w packed.now.bytes packed.now.count) }
    {
        let blocks = self.blocks.as_mut()?;
        let kept = blocks.pop(&(index / BLOCK_LEN))?;
        kept.into_window(packed, index)
    }

    // Puts records in, in the place of those that were put in least lately. Where memory lacks they are dropped.
    fn keep(&mut self, alloc: Global, kept: Kept) {
        self.make(alloc);
        if let Some(blocks) = &mut self.blocks {
            let _ = blocks.push(kept.block(), kept);
        }
    }

    // Makes room for blocks, where there is none yet.
    fn make(&mut self, alloc: Global) {
        if self.blocks.is_some() {
            return;
        }
        if let Some(most) = NonZeroUsize::new(self.most) {
            self.blocks = made(alloc, most).ok();
        }
    }
}

// A cache of so many blocks.
fn made(alloc: Global, most: NonZeroUsize) -> Result<Box<LruCache<usize, Kept>>, AllocError> {
    Ok(Box::new(alloc, LruCache::sparse(alloc, most)?)?)
}
