//! The records of a table that are decoded, and which ones they are.
ghost use Rattle.std.specs.Prelude.{◌≡◌, ◌+◌, ◌*◌, ◌%◌, ◌<◌, ◌≤◌, ◌↔◌, true, false, IsTrue, List, [], IfOk, OnOk, ℕ, length, max, min};
ghost use Rattle.std.specs.List.{slice_index_or, prefix_len};
ghost use Rattle.tab_iter.specs.Lists.{IsRising};
ghost use Rattle.tab_key.specs.Records.{Record as Fields};
ghost use Rattle.tab_mem.specs.Starts.{is_before};
ghost use Rattle.tab_table.specs.Blocks.{block_records};
ghost use Rattle.tab_table.specs.Windows.{IsWindow, Has};

use crate::block_cache::BlockCache;
use crate::decoded::Decoded;
use crate::entry::BLOCK_LEN;
use crate::packed::Packed;
use crate::restarts::RESTART_LEN;
use std::alloc::AllocError;
use std::mem;
use tab_key::RecordRef;
use tab_mem::Target;

// A window forgets its records once they are more bytes, or a block.
const MOST: usize = 65_536;

// So many records behind the one that is asked for are decoded with it: few for a short range, and more once a scan goes on.
const AHEAD: usize = 4;

const FAR_AHEAD: usize = 16;

// A scan goes on once so many records are decoded.
const MANY: usize = 32;

/// Records of a table, decoded from a restart on as far as they are read.
#[derive(Drop)]
pub(crate) struct Window {
    pub(crate) records: Decoded,
    // the index of the first of them
    pub(crate) first: usize,
    // whether they are the table's from that index on, and more can be decoded behind them
    pub(crate) known: bool,
}

impl Window {
    /// Over nothing, with the memory of these records. It takes none.
    pub(crate) fn over(records: Decoded) -> Window
        ensures { result.known ≡ false }
    {
        Window {
            records,
            first: 0,
            known: false,
        }
    }

    /// Decodes so far that the record with this index is there. After an error, which only want of memory gives, nothing is known of the
    /// window.
    #[inline(always)]
    pub(crate) fn reach(&mut self, packed: &Packed, index: usize) -> Result<(), AllocError>
        requires inside { index < packed.now.count }
        requires window { IsWindow self.old packed.now.bytes packed.now.count }
        ensures window { IsWindow self.new packed.now.bytes packed.now.count }
        ensures has { OnOk result (Has self.new index) }
    {
        if self.has(index) {
            return Ok(());
        }
        self.decode_to(packed, index)
    }

    // `reach` of a record that isn't there: from where the window ends if it is near, and else from the restart before it.
    #[inline(never)]
    fn decode_to(&mut self, packed: &Packed, index: usize) -> Result<(), AllocError>
        requires inside { index < packed.now.count }
        requires window { IsWindow self.old packed.now.bytes packed.now.count }
        ensures window { IsWindow self.new packed.now.bytes packed.now.count }
        ensures has { OnOk result (Has self.new index) }
    {
        if self.is_near(index) {
            return self.read_on(packed, index);
        }
        self.begin(packed, index / RESTART_LEN)?;
        self.read_on(packed, index)
    }

    // Decodes so far that the record with this index is there, which isn't before the first.
    #[inline(never)]
    fn read_on(&mut self, packed: &Packed, index: usize) -> Result<(), AllocError>
        requires inside { index < packed.now.count }
        requires known { self.old.known ≡ true }
        requires behind { self.old.first + length self.old.records.places.items ≤ index }
        requires window { IsWindow self.old packed.now.bytes packed.now.count }
        ensures window { IsWindow self.new packed.now.bytes packed.now.count }
        ensures has { OnOk result (Has self.new index) }
    {
        self.forget_many(packed);
        self.some_more(packed, index)?;
        while !self.has(index) {
            self.forget_many(packed);
            self.one_more(packed)?;
        }
        Ok(())
    }

    /// Takes the records of the cache in the place of these, where those serve for this index and these don't.
    pub(crate) fn recall(&mut self, cache: &mut BlockCache, packed: &Packed, index: usize)
        requires { IsWindow self.old packed.now.bytes packed.now.count }
        ensures { IsWindow self.new packed.now.bytes packed.now.count }
    {
        if self.serves(index) {
            return;
        }
        if let Some(window) = cache.take(packed, index) {
            let _ = mem::replace(self, window);
        }
    }

    /// Whether the record with this index is there, or near behind: then it is had without a restart.
    pub(crate) fn serves(&self, index: usize) -> bool {
        self.has(index) || self.is_near(index)
    }

    /// Whether it has records, the first of them one at which decoding may begin.
    pub(crate) fn begins_at_restart(&self) -> bool
        ensures known { IsTrue result → self.now.known ≡ true }
        ensures some { IsTrue result → 0 < length self.now.records.places.items }
        ensures restart { IsTrue result → self.now.first % RESTART_LEN ≡ 0 }
    {
        self.known && self.records.len() != 0 && self.first % RESTART_LEN == 0
    }

    // Whether it ends before the index, at most some records. Only speed hangs on how far that may be.
    #[inline]
    fn is_near(&self, index: usize) -> bool
        ensures { IsTrue result → (self.now.known ≡ true) × (self.now.first + length self.now.records.places.items ≤ index) }
    {
        if !self.known || index < self.first {
            return false;
        }
        let far = index - self.first;
        self.records.len() <= far && far - self.records.len() < RESTART_LEN
    }

    /// Whether the record with this index is there.
    #[inline]
    pub(crate) fn has(&self, index: usize) -> bool
        ensures { IsTrue result ↔ Has self.now index }
    {
        self.known && self.first <= index && index - self.first < self.records.len()
    }

    // Begins anew at a restart.
    fn begin(&mut self, packed: &Packed, restart: usize) -> Result<(), AllocError>
        requires { RESTART_LEN * restart < packed.now.count }
        ensures window { IsWindow self.new packed.now.bytes packed.now.count }
        ensures known { OnOk result (self.new.known ≡ true) }
        ensures first { self.new.first ≡ RESTART_LEN * restart }
        ensures none { self.new.records.places.items ≡ [] }
    {
        let start = packed.restart_at(restart);
        self.known = false;
        self.first = RESTART_LEN * restart;
        self.records
            .begin(start, &packed.restarts.shares, packed.bytes.as_slice())?;
        self.known = true;
        Ok(())
    }

    // Forgets its records where they are many: it goes on behind them.
    fn forget_many(&mut self, packed: &Packed)
        requires known { self.old.known ≡ true }
        requires window { IsWindow self.old packed.now.bytes packed.now.count }
        ensures window { IsWindow self.new packed.now.bytes packed.now.count }
        ensures known { self.new.known ≡ true }
        ensures first { self.new.first ≤ self.old.first + length self.old.records.places.items }
        ensures behind { self.new.first + length self.new.records.places.items ≡ self.old.first + length self.old.records.places.items }
    {
        let count = self.records.len();
        if self.records.size() <= MOST && count < BLOCK_LEN {
            return;
        }
        self.first += count;
        self.records.forget();
    }

    // Decodes more records, as far as there is room for them: up to some behind the one with this index.
    fn some_more(&mut self, packed: &Packed, index: usize) -> Result<(), AllocError>
        requires known { self.old.known ≡ true }
        requires low { self.old.first ≤ index }
        requires window { IsWindow self.old packed.now.bytes packed.now.count }
        ensures window { IsWindow self.new packed.now.bytes packed.now.count }
        ensures known { self.new.known ≡ true }
        ensures low { self.new.first ≤ index }
    {
        let blocks = packed.bytes.as_slice();
        let ahead = if self.records.len() < MANY {
            AHEAD
        } else {
            FAR_AHEAD
        };
        let end = packed.count.min(index.saturating_add(ahead));
        let next = self.first + self.records.len();
        for _place in next..end {
            if !self.records.has_room(blocks) {
                return Ok(());
            }
            self.records.write_next(blocks)?;
        }
        Ok(())
    }

    // Decodes one record more.
    fn one_more(&mut self, packed: &Packed) -> Result<(), AllocError>
        requires known { self.old.known ≡ true }
        requires window { IsWindow self.old packed.now.bytes packed.now.count }
        requires inside { self.old.first + length self.old.records.places.items < packed.now.count }
        ensures window { IsWindow self.new packed.now.bytes packed.now.count }
        ensures known { OnOk result (self.new.known ≡ true) }
        ensures first { self.new.first ≡ self.old.first }
        ensures longer { OnOk result (length self.new.records.places.items ≡ length self.old.records.places.items + 1) }
    {
        self.known = false;
        self.records.one_more(packed.bytes.as_slice())?;
        self.known = true;
        Ok(())
    }

    /// The record with this index.
    #[inline]
    pub(crate) fn get(&self, index: usize) -> RecordRef<'_>
        requires { Has self.now index }
        ensures { (blocks : List ℕ) (count : ℕ) (u : Fields) → IsWindow self.now blocks count → result ≡ slice_index_or (block_records blocks count) index u }
    {
        self.records.get(index - self.first)
    }

    /// Whether the record with this index stands before the start.
    pub(crate) fn precedes(&self, index: usize, target: &Target<'_>) -> bool
        requires { Has self.now index }
        ensures { (blocks : List ℕ) (count : ℕ) (u : Fields) → IsWindow self.now blocks count → result ≡ is_before target.now.start (slice_index_or (block_records blocks count) index u) }
    {
        target.is_after(&self.get(index))
    }

    /// The index of the first record of a part that doesn't stand before the start, or the part's end: all before it are decoded.
    ///
    /// After an error, which only want of memory gives, nothing is known of the window.
    pub(crate) fn find(
        &mut self,
        packed: &Packed,
        low: usize,
        high: usize,
        target: &Target<'_>,
    ) -> Result<usize, AllocError>
        requires ends { low ≤ high }
        requires inside { high ≤ packed.now.count }
        requires rising { IsRising (block_records packed.now.bytes packed.now.count) }
        requires window { IsWindow self.old packed.now.bytes packed.now.count }
        ensures window { IsWindow self.new packed.now.bytes packed.now.count }
        ensures found { IfOk result (λ n. n ≡ max low (min (prefix_len (is_before target.now.start) (block_records packed.now.bytes packed.now.count)) high)) }
    {
        for index in low..high {
            self.reach(packed, index)?;
            if !self.precedes(index, target) {
                return Ok(index);
            }
        }
        Ok(high)
    }
}
