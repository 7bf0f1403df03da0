//! Parts of shared runs and tables.
ghost use Rattle.std.specs.Prelude.{◌≡◌, ◌<◌, ◌==◌, IfOk, OnOk, IsTrue, length, filter, slice_index_or};
ghost use Rattle.tab_key.specs.Ranges.{is_in_range};
ghost use Rattle.tab_key.specs.Records.{Record as Fields};
ghost use Rattle.tab_key.specs.KeyOf.{key_of};
ghost use Rattle.tab_iter.specs.Lists.{IsRising, HasI64Timestamps};
ghost use Rattle.tab_mem.specs.Lists.{HasShortParts};
ghost use Rattle.tab_version.specs.InTurn.{reaches};
ghost use Rattle.tab_version.specs.Sources.{same_record, same_contents};

use crate::FrozenRecords;
use std::alloc::{AllocError, Global};
use std::marker::Model;
use std::sync::Arc;
use tab_iter::{NoMemory, Source};
use tab_key::{Bounds, ByteString, Key};
use tab_mem::{Run, RunCursor};
use tab_table::{BlockCache, Cursor, SortedTable};

/// The records of a shared run or table whose rows lie in bounds. A contract sees the list of these records.
///
/// It holds a share of the whole and two indexes, and no copy of a record.
#[derive(Drop)]
pub struct ClipOf<W: FrozenRecords> {
    whole: Arc<W>,
    from: usize,
    end: usize,
}

/// A part of a frozen run.
pub type Clip = ClipOf<Run>;

impl<W: FrozenRecords> Model for ClipOf<W> {
    ghost use Rattle.std.specs.Prelude.{List};
    ghost use Rattle.tab_key.specs.Records.{Record as Fields};
    ghost use Rattle.tab_mem.specs.Lists.{part};
    ghost use Rattle.tab_version.specs.Clips.{IsPart};

    ghost Value = { List Fields };

    ghost view = { λ c. part c.from c.end (W.listed c.whole.value) };

    ghost invariant = { λ c. IsPart c.from c.end (W.listed c.whole.value) };
}

impl<W: FrozenRecords + Drop> ClipOf<W> {
    /// All records.
    pub fn whole(whole: Arc<W>) -> ClipOf<W>
        ensures { result ≡ W.listed whole.value }
    {
        let end = whole.len();
        ClipOf {
            whole,
            from: 0,
            end,
        }
    }

    /// The records of this clip whose rows are in bounds. It shares what this clip shares and copies no record; it takes time
    /// logarithmic in the clip.
    ///
    /// `AllocError` says that it couldn't be shared once more.
    pub fn in_rows(&self, bounds: &Bounds) -> Result<ClipOf<W>, AllocError>
        ensures { IfOk result (λ c. c ≡ filter (λ u. is_in_range bounds.now u.key.row) self.now) }
    {
        let whole = self.whole.clone()?;
        let rows = self.whole.rows_in(self.from, self.end, bounds);
        Ok(ClipOf {
            whole,
            from: rows.start,
            end: rows.end,
        })
    }

    /// How many records of this clip have their rows in bounds. It takes no memory, and time logarithmic in the clip.
    pub fn count_in(&self, bounds: &Bounds) -> usize
        ensures { result ≡ length (filter (λ u. is_in_range bounds.now u.key.row) self.now) }
    {
        let counted = self.whole.rows_in(self.from, self.end, bounds);
        counted.end - counted.start
    }

    /// A copy of the row of the record at an index, counted from 0 in the order of records.
    ///
    /// `AllocError` says that memory for it lacked.
    pub fn row_of(&self, alloc: Global, index: usize) -> Result<ByteString, AllocError>
        requires { index < length self.now }
        ensures { (u : Fields) → IfOk result (λ row. row ≡ (slice_index_or self.now index u).key.row) }
    {
        let _end = self.end;
        let whole_index = self.from + index;
        let row = self.whole.row_of(alloc, whole_index)?;
        Ok(row)
    }

    // Whether the records at an index are the same.
    fn same_at(&self, other: &ClipOf<W>, index: usize) -> bool
        requires here { index < length self.now }
        requires there { index < length other.now }
        ensures { (u : Fields) → result ≡ same_record (slice_index_or self.now index u) (slice_index_or other.now index u) }
    {
        let _end = self.end;
        let _other_end = other.end;
        let here = self.from + index;
        let there = other.from + index;
        self.whole.same_at(here, &other.whole, there)
    }

    // Whether each record is the same as the other's at its index, of as many.
    fn same_records(&self, other: &ClipOf<W>) -> bool
        ensures { result ≡ same_contents self.now other.now }
    {
        let count = self.len();
        if other.len() != count {
            return false;
        }
        for index in 0..count {
            if !self.same_at(other, index) {
                return false;
            }
        }
        true
    }

    // Whether it is a large part of its list, and the other one the same part of a list that lies alike: then they have the same records.
    fn is_cut_like(&self, other: &ClipOf<W>) -> bool
        ensures { IsTrue result → self.now ≡ other.now }
    {
        if self.from != other.from || self.end != other.end {
            return false;
        }
        if self.len() < self.whole.len() / 4 {
            return false;
        }
        self.whole.lies_like(&other.whole)
    }

    /// Whether the other clip has the same records, in order. Where both are the same large part of lists that lie alike, as they are where
    /// one is a share of the other, one comparison of bytes finds it; else each record is compared.
    ///
    /// It takes no memory, and time linear in the records that are the same; where there are not as many, none is read.
    #[tactic(auto, using(crate::proofs::Alike::contents_alike))]
    pub fn same_contents(&self, other: &ClipOf<W>) -> bool
        ensures { result ≡ same_contents self.now other.now }
    {
        if self.is_cut_like(other) {
            return true;
        }
        self.same_records(other)
    }

    // Whether a record stands at the key or behind it. Of the records only the last one is read.
    pub(crate) fn reaches(&self, key: Key<'_>) -> bool
        ensures { result ≡ reaches (key_of key.entry) self.now }
    {
        if self.is_empty() {
            return false;
        }
        !self.whole.is_before(self.end - 1, key)
    }

    // How much room to ask for, in bytes, where the records are copied.
    pub(crate) fn room(&self) -> usize {
        self.whole.room(self.from, self.end)
    }

    /// A clip that shares these records.
    ///
    /// `AllocError` says that they couldn't be.
    pub fn share(&self) -> Result<ClipOf<W>, AllocError>
        ensures { IfOk result (λ c. c ≡ self.now) }
    {
        Ok(ClipOf {
            whole: self.whole.clone()?,
            from: self.from,
            end: self.end,
        })
    }

    /// How many records there are, markers and hidden ones among them.
    pub fn len(&self) -> usize
        ensures len { result ≡ length self.now }
        ensures rising { IsRising self.now }
        ensures timestamps { HasI64Timestamps self.now }
        ensures short { HasShortParts self.now }
    {
        self.end - self.from
    }

    /// Whether there is no record.
    pub fn is_empty(&self) -> bool
        ensures { result ≡ (length self.now == 0) }
    {
        self.from == self.end
    }
}

impl ClipOf<Run> {
    /// The records as a source, at its first record.
    pub fn cursor<'a>(&'a self) -> RunCursor<'a>
        ensures whole { ⟦<RunCursor<'a> as Source>⟧.whole result ≡ self.now }
        ensures at_start { ⟦<RunCursor<'a> as Source>⟧.rest result ≡ ⟦<RunCursor<'a> as Source>⟧.whole result }
        ensures short { HasShortParts self.now }
    {
        RunCursor::over(&self.whole, self.from, self.end)
    }
}

impl ClipOf<SortedTable> {
    /// The records as a source, at its first record. NoMemory says that memory for that record lacked.
    pub(crate) fn table_cursor<'a>(&'a self, alloc: Global) -> Result<Cursor<'a>, NoMemory>
        ensures whole { IfOk result (λ c. ⟦<Cursor<'a> as Source>⟧.whole c ≡ self.now) }
        ensures at_start { IfOk result (λ c. ⟦<Cursor<'a> as Source>⟧.rest c ≡ ⟦<Cursor<'a> as Source>⟧.whole c) }
        ensures short { OnOk result (HasShortParts self.now) }
    {
        let table: &'a SortedTable = &self.whole;
        let cursor = Cursor::over(alloc, table, self.from, self.end)?;
        Ok(cursor)
    }

    /// The records as a source, unpositioned: no record is read before a seek. It takes no memory.
    pub(crate) fn unread_cursor<'a>(&'a self, alloc: Global, cache: BlockCache) -> Cursor<'a>
        ensures { ⟦<Cursor<'a> as Source>⟧.whole result ≡ self.now }
    {
        let table: &'a SortedTable = &self.whole;
        Cursor::unpositioned(alloc, table, self.from, self.end, cache)
    }
}
