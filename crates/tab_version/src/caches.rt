//! Caches of the tables that a version reads.

use crate::{ClipCursor, OneOf};
use std::alloc::Global;
use std::collections::BTreeMap;
use std::mem;
use tab_table::BlockCache;

// So many tables have a cache at most; one more empties all.
const MOST: usize = 64;

/// What scans of a version leave behind for the next one: of each table that they left, what was decoded last.
///
/// No contract speaks of them: what is taken up is compared first. They take no memory before a table is left.
pub struct Caches {
    alloc: Global,
    // of how many blocks each is at most
    blocks: usize,
    // by the index of the tablet, and that of the table among its clips
    each: BTreeMap<(usize, usize), BlockCache>,
    // those of no blocks, which serve any table
    rooms: Vec<BlockCache>,
}

// Written out, so that a crate above needn't prove anew how the parts are dropped.
impl Drop for Caches {
    #[inline(always)]
    fn drop(self) {
        let Caches {
            alloc: _,
            blocks: _,
            each: _,
            rooms: _,
        } = self;
    }
}

impl Caches {
    /// None yet, each to be of so many blocks at most; where these are 0, they hold memory alone.
    pub fn of(alloc: Global, blocks: usize) -> Caches {
        Caches {
            alloc,
            blocks,
            each: BTreeMap::new(alloc),
            rooms: Vec::new(alloc),
        }
    }

    /// Drops them all; later ones are to be of so many blocks at most.
    pub fn resize(&mut self, blocks: usize) {
        let none = Caches::of(self.alloc, blocks);
        let _ = mem::replace(self, none);
    }

    /// Takes them all: none is left, and later ones are as large.
    pub fn take_all(&mut self) -> Caches {
        let none = Caches::of(self.alloc, self.blocks);
        mem::replace(self, none)
    }

    /// Takes out the cache of a table; an empty one, where it has none yet.
    pub(crate) fn take(&mut self, tablet: usize, table: usize) -> BlockCache {
        let kept = if self.blocks == 0 {
            self.rooms.pop()
        } else {
            self.each.remove(&(tablet, table))
        };
        match kept {
            Some(cache) => cache,
            None => BlockCache::of(self.blocks),
        }
    }

    /// Keeps what a cursor over a table's clip had decoded last. Where memory lacks it is dropped.
    pub(crate) fn keep(&mut self, tablet: usize, table: usize, cursor: ClipCursor<'_>) {
        if let OneOf::Second(cursor) = cursor {
            let cache = cursor.into_cache(self.alloc);
            self.put(tablet, table, cache);
        }
    }

    // Puts in a table's cache, unless it is empty.
    fn put(&mut self, tablet: usize, table: usize, cache: BlockCache) {
        if self.blocks == 0 {
            self.put_room(cache);
            return;
        }
        if cache.is_empty() {
            return;
        }
        if self.each.len() >= MOST {
            self.each.clear();
        }
        let _ = self.each.insert((tablet, table), cache);
    }

    // Puts in one of no blocks.
    fn put_room(&mut self, cache: BlockCache) {
        if self.rooms.len() < MOST {
            let _ = self.rooms.push(cache);
        }
    }
}
