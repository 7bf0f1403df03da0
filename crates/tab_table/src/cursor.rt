//! A part of a table that is gone over.
ghost use Rattle.std.specs.Prelude.{◌≡◌, ◌≤◌, ◌<◌, List, [], Bool, true, false, ◌-◌, drop, length, max, min, IsTrue, IfOk, OnOk, OnErr};
ghost use Rattle.std.specs.List.{prefix_len};
ghost use Rattle.tab_mem.specs.Lists.{part};
ghost use Rattle.tab_mem.specs.Starts.{is_before};
ghost use Rattle.tab_table.specs.Blocks.{block_records};
ghost use Rattle.tab_table.specs.Windows.{IsWindow, IsWindow-prop, Has, Holds-prop, IsPassed};

use crate::SortedTable;
use crate::block_cache::BlockCache;
use crate::window::Window;
use std::alloc::{AllocError, Global};
use std::ops::Range;
use std::sync::Arc;
use tab_iter::{NoMemory, Source};
use tab_key::{Key, RecordRef};
use tab_mem::{Start, Target};

/// Whoever has a table: who borrows it, or who shares it.
pub trait HasSortedTable {
    ghost use Rattle.tab_table.specs.declared.sorted_table.SortedTable.{SortedTable as Fields};

    ghost table: { Self → Fields };

    /// The table.
    fn table(&self) -> &SortedTable
        ensures { result.now ≡ table self.now };
}

impl<'a> HasSortedTable for &'a SortedTable {
    ghost table = { λ t. t.now };

    fn table(&self) -> &SortedTable {
        *self
    }
}

impl HasSortedTable for Arc<SortedTable> {
    ghost table = { λ t. t.value };

    fn table(&self) -> &SortedTable {
        &**self
    }
}

/// The records of a table from one index up to another, and a place among them: a source of `tab_iter`. A contract sees all of
/// these records, and those that are left.
///
/// It holds the records that it decoded, of one block at most and as far as they were read.
pub struct TableCursor<T: HasSortedTable> {
    table: T,
    from: usize,
    at: usize,
    end: usize,
    window: Window,
    cache: BlockCache,
    // there is no top until a seek succeeds: it stands at the end
    unpositioned: bool,
    ghost ordered: { from ≤ at },
    ghost upto: { at ≤ end },
    ghost inside: { end ≤ length (block_records (T.table table).packed.bytes (T.table table).packed.count) },
    ghost decoded: { IsWindow window (T.table table).packed.bytes (T.table table).packed.count } by { IsWindow-prop window (T.table table).packed.bytes (T.table table).packed.count },
    ghost here: { at < end → Has window at } by { Holds-prop window at end },
    ghost lost: { unpositioned ≡ true → at ≡ end },
}

// Written out, so that a crate above needn't prove anew how the parts are dropped.
impl<T: HasSortedTable + Drop> Drop for TableCursor<T> {
    #[inline(always)]
    fn drop(self) {
        let TableCursor {
            table: _,
            from: _,
            at: _,
            end: _,
            window: _,
            cache: _,
            unpositioned: _,
        } = self;
    }
}

/// A cursor that borrows its table.
pub type Cursor<'a> = TableCursor<&'a SortedTable>;

/// A cursor that shares its table, and so outlives whoever made it.
pub type OwnedCursor = TableCursor<Arc<SortedTable>>;

impl<T: HasSortedTable + Drop> TableCursor<T> {
    ghost use Rattle.tab_table.specs.SortedTables.{records};

    /// A cursor over the whole table, at its first record.
    ///
    /// NoMemory says that memory for that record lacked.
    pub fn new(alloc: Global, table: T) -> Result<TableCursor<T>, NoMemory>
        ensures whole { IfOk result (λ c. ⟦<TableCursor<T> as Source>⟧.whole c ≡ records (T.table table)) }
        ensures rest { IfOk result (λ c. ⟦<TableCursor<T> as Source>⟧.rest c ≡ records (T.table table)) }
    {
        let end = table.table().len();
        let cursor = TableCursor::over(alloc, table, 0, end)?;
        Ok(cursor)
    }

    /// A cursor over the records from one index up to another, that one excluded, at the first of them.
    ///
    /// NoMemory says that memory for that record lacked.
    pub fn over(
        alloc: Global,
        table: T,
        from: usize,
        end: usize,
    ) -> Result<TableCursor<T>, NoMemory>
        requires ends { from ≤ end }
        requires inside { end ≤ length (records (T.table table)) }
        ensures whole { IfOk result (λ c. ⟦<TableCursor<T> as Source>⟧.whole c ≡ part from end (records (T.table table))) }
        ensures rest { IfOk result (λ c. ⟦<TableCursor<T> as Source>⟧.rest c ≡ part from end (records (T.table table))) }
    {
        let mut cursor = TableCursor::unpositioned(alloc, table, from, end, BlockCache::of(0));
        cursor.go_to(from)?;
        Ok(cursor)
    }

    /// A cursor over these records, unpositioned: nothing is read before a seek. A seek looks in the cache for what it would decode. It
    /// takes no memory.
    pub fn unpositioned(
        alloc: Global,
        table: T,
        from: usize,
        end: usize,
        cache: BlockCache,
    ) -> TableCursor<T>
        requires ends { from ≤ end }
        requires inside { end ≤ length (records (T.table table)) }
        ensures whole { ⟦<TableCursor<T> as Source>⟧.whole result ≡ part from end (records (T.table table)) }
        ensures unpositioned { ⟦<TableCursor<T> as Source>⟧.is_unpositioned result ≡ true }
        ensures from { result.from ≡ from }
        ensures end { result.end ≡ end }
        ensures table { T.table result.table ≡ T.table table }
    {
        let mut cache = cache;
        let window = Window::over(cache.take_room(alloc));
        TableCursor {
            table,
            from,
            at: end,
            end,
            window,
            cache,
            unpositioned: true,
        }
    }

    /// Its cache, with what it had decoded last, or the memory for it.
    pub fn into_cache(self, alloc: Global) -> BlockCache {
        let TableCursor {
            table,
            from: _,
            at: _,
            end: _,
            window,
            cache,
            unpositioned: _,
        } = self;
        let mut cache = cache;
        cache.leave(alloc, &table.table().packed, window);
        cache
    }
}

impl<T: HasSortedTable> TableCursor<T> {
    ghost use Rattle.tab_table.specs.SortedTables.{records};

    // Whether the start lies behind the place.
    fn is_behind(&self, target: &Target<'_>) -> bool
        ensures { IsTrue result → IsPassed self.now.at self.now.end target.now.start (records (T.table self.now.table)) }
    {
        self.at < self.end && self.window.precedes(self.at, target)
    }

    // A part of the records in which a search for the start finds what it would find in all: near the place where the start lies behind
    // it.
    fn part_of(&self, target: &Target<'_>) -> Range<usize>
        ensures low { self.now.from ≤ result.start }
        ensures order { result.start ≤ result.end }
        ensures high { result.end ≤ self.now.end }
        ensures count { max self.now.from (min (prefix_len (is_before target.now.start) (records (T.table self.now.table))) self.now.end) ≡ max result.start (min (prefix_len (is_before target.now.start) (records (T.table self.now.table))) result.end) }
    {
        if self.is_behind(target) {
            self.table.table().behind(self.at, self.end, target)
        } else {
            self.table.table().around(self.from, self.end, target)
        }
    }

    // Goes to the first record of a part that isn't before the start, or to the part's end. After an error there is no top.
    fn find(&mut self, low: usize, high: usize, target: &Target<'_>) -> Result<(), NoMemory>
        requires low { self.old.from ≤ low }
        requires order { low ≤ high }
        requires high { high ≤ self.old.end }
        ensures from { self.new.from ≡ self.old.from }
        ensures end { self.new.end ≡ self.old.end }
        ensures table { self.new.table ≡ self.old.table }
        ensures at { OnOk result (self.new.at ≡ max low (min (prefix_len (is_before target.now.start) (records (T.table self.old.table))) high)) }
        ensures positioned { OnOk result (self.new.unpositioned ≡ false) }
        ensures err { OnErr result (self.new.unpositioned ≡ true) }
    {
        self.at = self.end;
        self.unpositioned = true;
        let packed = &self.table.table().packed;
        self.window.recall(&mut self.cache, packed, low);
        let index = self.window.find(packed, low, high, target)?;
        self.go_to(index)?;
        Ok(())
    }

    // Goes to the record with this index, or to the end. After an error there is no top.
    #[inline]
    fn go_to(&mut self, index: usize) -> Result<(), NoMemory>
        requires low { self.old.from ≤ index }
        requires high { index ≤ self.old.end }
        ensures from { self.new.from ≡ self.old.from }
        ensures end { self.new.end ≡ self.old.end }
        ensures table { self.new.table ≡ self.old.table }
        ensures at { OnOk result (self.new.at ≡ index) }
        ensures positioned { OnOk result (self.new.unpositioned ≡ false) }
        ensures err { OnErr result (self.new.unpositioned ≡ true) }
    {
        if index < self.end {
            self.read(index)?;
        }
        self.at = index;
        self.unpositioned = false;
        Ok(())
    }

    // Sees that the record with this index is decoded. After an error there is no top.
    #[inline]
    fn read(&mut self, index: usize) -> Result<(), NoMemory>
        requires { index < self.old.end }
        ensures from { self.new.from ≡ self.old.from }
        ensures end { self.new.end ≡ self.old.end }
        ensures table { self.new.table ≡ self.old.table }
        ensures has { OnOk result (Has self.new.window index) }
        ensures err { OnErr result (self.new.unpositioned ≡ true) }
    {
        if self.window.has(index) {
            return Ok(());
        }
        self.read_on(index)
    }

    // `read` where the record has to be decoded first.
    #[inline(never)]
    fn read_on(&mut self, index: usize) -> Result<(), NoMemory>
        requires { index < self.old.end }
        ensures from { self.new.from ≡ self.old.from }
        ensures end { self.new.end ≡ self.old.end }
        ensures table { self.new.table ≡ self.old.table }
        ensures has { OnOk result (Has self.new.window index) }
        ensures err { OnErr result (self.new.unpositioned ≡ true) }
    {
        self.at = self.end;
        self.unpositioned = true;
        self.window.reach(&self.table.table().packed, index)
    }
}

/// A seek that goes on by at most 16 records decodes these. Another one takes time logarithmic in the part, and decodes some 40 records at
/// most. Memory is taken for the records of a block as far as they are read.
impl<T: HasSortedTable> Source for TableCursor<T> {
    ghost use Rattle.tab_iter.specs.SourceLaws.{ends_drop};
    ghost use Rattle.tab_mem.proofs.Parts.{part_rises, part_timestamps};
    ghost use Rattle.tab_table.specs.CursorLaws.{nothing_left};
    ghost use Rattle.tab_table.specs.SortedTables.{records};

    ghost whole = { λ c. part c.from c.end (records (T.table c.table)) };

    ghost rest = { λ c. drop (c.at - c.from) (part c.from c.end (records (T.table c.table))) };

    ghost is_unpositioned = { λ c. c.unpositioned };

    ghost whole_rises = { λ c. part_rises c.from c.end (records (T.table c.table)) (T.table c.table).rising };

    ghost has_i64_timestamps = { λ c. part_timestamps c.from c.end (records (T.table c.table)) (T.table c.table).timestamps };

    ghost rest_is_suffix = { λ c. ends_drop (c.at - c.from) (part c.from c.end (records (T.table c.table))) };

    ghost unpositioned_is_empty = { λ c e. nothing_left c.from c.at c.end (records (T.table c.table)) c.ordered (c.lost e) };

    fn top(&self) -> Option<RecordRef<'_>> {
        if self.at < self.end {
            Some(self.window.get(self.at))
        } else {
            None
        }
    }

    fn advance(&mut self) -> Result<(), NoMemory> {
        if self.at < self.end {
            let next = self.at + 1;
            self.go_to(next)?;
            return Ok(());
        }
        if self.unpositioned {
            return Err(AllocError);
        }
        Ok(())
    }

    #[tactic(auto, unfolding(tab_mem::specs::Starts::from_start))]
    fn seek(&mut self, key: Key<'_>) -> Result<(), NoMemory> {
        let target = Target::of(Start::AtKey(key));
        let part = self.part_of(&target);
        self.find(part.start, part.end, &target)?;
        Ok(())
    }
}
