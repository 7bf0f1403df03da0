//! Entries in blocks.
ghost use Rattle.std.specs.Prelude.{◌≡◌, ◌+◌, ◌^◌, ◌<◌, ◌≤◌, ◌⊎◌, ◌∷◌, [], ◌++◌, length, map, take, drop, slice_get, Some, None, IfSome, IfNone, IfOk, OnOk, OnErr};
ghost use Rattle.tab_book.specs.Blocks.{block_at};
ghost use Rattle.tab_book.specs.Slices.{shown};

use crate::entry::RecordedEntry;
use crate::slice::SharedEntry;
use std::alloc::{AllocError, Global};
use std::marker::Model;
use std::mem;

// How many entries a block has.
const BLOCK: usize = 1024;

/// Entries, the oldest first. They lie in blocks, so that one more moves at most those of one block, and none once a block is full.
pub struct Blocks {
    // blocks of as many entries as one has
    full: Vec<Vec<RecordedEntry>>,
    // the entries behind them
    last: Vec<RecordedEntry>,
    // how many there are
    count: u64,
}

// Written out, so that a crate above needn't prove anew how the parts are dropped.
impl Drop for Blocks {
    fn drop(self) {
        let Blocks {
            full: _,
            last: _,
            count: _,
        } = self;
    }
}

impl Model for Blocks {
    ghost use Rattle.tab_book.specs.Blocks.{BlockEntries, in_order, room_in, IsInBlocks};

    ghost Value = { BlockEntries };

    ghost view = { λ b. record { entries = in_order b.full.items b.last.items; room = room_in b.last } };

    ghost invariant = { λ b. IsInBlocks b.full.items b.last.items b.count };
}

impl Blocks {
    /// No entries.
    pub fn new(alloc: Global) -> Blocks
        ensures { result.entries ≡ [] }
    {
        Blocks {
            full: Vec::new(alloc),
            last: Vec::new(alloc),
            count: 0,
        }
    }

    /// How many there are.
    pub fn len(&self) -> u64
        ensures { result ≡ length self.now.entries }
    {
        self.count
    }

    /// Finds memory for one more, where so many were before these. All together there are at most 2^64 - 1.
    pub fn reserve(&mut self, alloc: Global, before: u64) -> Result<(), AllocError>
        ensures room { OnOk result (0 < self.new.room) }
        ensures number { OnOk result (before + length self.old.entries + 1 < 2 ^ 64) }
        ensures err { OnErr result ((self.old.room ≡ 0) ⊎ (2 ^ 64 ≤ before + length self.old.entries + 1)) }
        ensures entries { self.new.entries ≡ self.old.entries }
    {
        if self.count >= u64::MAX - before {
            return Err(AllocError);
        }
        if self.last.len() < BLOCK {
            return self.last.reserve(1);
        }
        let block = Vec::with_capacity(alloc, BLOCK)?;
        self.full.reserve(1)?;
        let full = mem::replace(&mut self.last, block);
        self.full.push_reserved(full);
        Ok(())
    }

    /// Puts one behind the others.
    pub fn push_reserved(&mut self, entry: RecordedEntry)
        requires room { 0 < self.old.room }
        requires number { length self.old.entries + 1 < 2 ^ 64 }
        ensures { self.new.entries ≡ self.old.entries ++ entry ∷ [] }
    {
        self.last.push_reserved(entry);
        self.count += 1;
    }

    /// The entry with this number, from 0 on.
    pub fn get(&self, number: u64) -> Option<&RecordedEntry>
        ensures some { IfSome result (λ entry. slice_get self.now.entries number ≡ Some entry.now) }
        ensures none { IfNone result (slice_get self.now.entries number ≡ None) }
    {
        if number >= self.count {
            return None;
        }
        let at = number as usize;
        nth(block_of(&self.full, &self.last, at / BLOCK), at % BLOCK)
    }

    /// The entries from this number on, from 0 on, at most so many, each shared.
    pub fn stretch(
        &self,
        alloc: Global,
        from: u64,
        most: u64,
    ) -> Result<Vec<SharedEntry>, AllocError>
        ensures { IfOk result (λ shared. shared.items ≡ map shown (take most (drop from self.now.entries))) }
    {
        let end = from.saturating_add(most).min(self.count).max(from);
        let mut shared = Vec::with_capacity(alloc, (end - from) as usize)?;
        for number in from..end {
            match self.share_into(number, &mut shared) {
                Ok(()) => {}
                Err(_) => return Err(AllocError),
            }
        }
        Ok(shared)
    }

    // Puts the entry with this number behind those that are shared, if there is one.
    fn share_into(&self, number: u64, shared: &mut Vec<SharedEntry>) -> Result<(), AllocError>
        ensures { OnOk result (shared.new.items ≡ shared.old.items ++ map shown (take 1 (drop number self.now.entries))) }
    {
        if let Some(entry) = self.get(number) {
            shared.push(entry.share()?)?;
        }
        Ok(())
    }
}

// The entries of the full block with this number, and the last ones where there is none.
fn block_of<'a>(
    full: &'a [Vec<RecordedEntry>],
    last: &'a [RecordedEntry],
    at: usize,
) -> &'a [RecordedEntry]
    ensures { result.now ≡ block_at full.now last.now at }
{
    match full.get(at) {
        Some(block) => block,
        None => last,
    }
}

// The entry at this place.
fn nth(block: &[RecordedEntry], at: usize) -> Option<&RecordedEntry>
    ensures some { IfSome result (λ entry. slice_get block.now at ≡ Some entry.now) }
    ensures none { IfNone result (slice_get block.now at ≡ None) }
{
    block.get(at)
}
