//! Parts of shared tables, with the tables' sizes.
ghost use Rattle.std.specs.Prelude.{◌≡◌, ◌<◌, ◌==◌, IfOk, OnOk, length, filter, slice_index_or};
ghost use Rattle.tab_key.specs.Ranges.{is_in_range};
ghost use Rattle.tab_key.specs.Records.{Record as Fields};
ghost use Rattle.tab_key.specs.KeyOf.{key_of};
ghost use Rattle.tab_iter.specs.Lists.{IsRising, HasI64Timestamps};
ghost use Rattle.tab_mem.specs.Lists.{HasShortParts};
ghost use Rattle.tab_table.specs.SortedTables.{records};
ghost use Rattle.tab_version.specs.InTurn.{reaches};
ghost use Rattle.tab_version.specs.Sources.{built, same_table};

use crate::{Clip, ClipOf};
use std::alloc::{AllocError, Global};
use std::marker::Model;
use std::sync::Arc;
use tab_iter::{NoMemory, Source};
use tab_key::{Bounds, ByteString, Key};
use tab_table::{BlockCache, Cursor, SortedTable};

/// The records of a shared table whose rows lie in bounds, and the size of the whole table, in bytes.
#[derive(Drop)]
pub struct TableClip {
    part: ClipOf<SortedTable>,
    size: u64,
}

impl Model for TableClip {
    ghost use Rattle.tab_version.specs.Sources.{Sorted};

    ghost Value = { Sorted };

    ghost view = { λ c. record { records = c.part; size = c.size } };
}

impl TableClip {
    /// All records of the table.
    pub fn whole(table: Arc<SortedTable>) -> TableClip
        ensures { result ≡ built (records table.value) }
    {
        let size = table.size();
        TableClip {
            part: ClipOf::whole(table),
            size,
        }
    }

    /// A new table of the records of a run's clip, each copied once. The clip stays as it is.
    ///
    /// It takes the memory that the table keeps. NoMemory says that it lacked.
    pub fn of_run(alloc: Global, run: &Clip) -> Result<TableClip, NoMemory>
        ensures { IfOk result (λ c. c ≡ built run.now) }
    {
        let mut records = run.cursor();
        let room = room_in_blocks(run.room(), run.len());
        let table = SortedTable::build(alloc, &mut records, run.len(), room)?;
        let shared = Arc::new(alloc, table)?;
        Ok(TableClip::whole(shared))
    }

    /// The records of this clip whose rows are in bounds; the size stays the whole table's. It shares the table and copies no record;
    /// it takes time logarithmic in the clip.
    ///
    /// `AllocError` says that the table couldn't be shared once more.
    pub fn in_rows(&self, bounds: &Bounds) -> Result<TableClip, AllocError>
        ensures { IfOk result (λ c. c ≡ record (self.now) { records = filter (λ u. is_in_range bounds.now u.key.row) self.now.records }) }
    {
        Ok(TableClip {
            part: self.part.in_rows(bounds)?,
            size: self.size,
        })
    }

    /// How many records of this clip have their rows in bounds. It takes no memory, and time logarithmic in the clip.
    pub fn count_in(&self, bounds: &Bounds) -> usize
        ensures { result ≡ length (filter (λ u. is_in_range bounds.now u.key.row) self.now.records) }
    {
        self.part.count_in(bounds)
    }

    /// A copy of the row of the record at an index, counted from 0 in the order of records.
    ///
    /// `AllocError` says that memory for it lacked.
    pub fn row_of(&self, alloc: Global, index: usize) -> Result<ByteString, AllocError>
        requires { index < length self.now.records }
        ensures { (u : Fields) → IfOk result (λ row. row ≡ (slice_index_or self.now.records index u).key.row) }
    {
        self.part.row_of(alloc, index)
    }

    /// Whether the other clip has the same records, in order; the sizes of the whole tables aren't compared. It takes no memory, and time
    /// linear in the records that are the same; where there are not as many, none is read.
    pub fn same_contents(&self, other: &TableClip) -> bool
        ensures { result ≡ same_table self.now other.now }
    {
        self.part.same_contents(&other.part)
    }

    // Whether a record stands at the key or behind it.
    pub(crate) fn reaches(&self, key: Key<'_>) -> bool
        ensures { result ≡ reaches (key_of key.entry) self.now.records }
    {
        self.part.reaches(key)
    }

    // How much room to ask for, in bytes, where the records are copied.
    pub(crate) fn room(&self) -> usize {
        self.part.room()
    }

    /// A clip that shares this one's table.
    ///
    /// `AllocError` says that the table couldn't be.
    pub fn share(&self) -> Result<TableClip, AllocError>
        ensures { IfOk result (λ c. c ≡ self.now) }
    {
        Ok(TableClip {
            part: self.part.share()?,
            size: self.size,
        })
    }

    /// The records as a source, at its first record. NoMemory says that memory for that record lacked.
    pub fn cursor<'a>(&'a self, alloc: Global) -> Result<Cursor<'a>, NoMemory>
        ensures whole { IfOk result (λ c. ⟦<Cursor<'a> as Source>⟧.whole c ≡ self.now.records) }
        ensures at_start { IfOk result (λ c. ⟦<Cursor<'a> as Source>⟧.rest c ≡ ⟦<Cursor<'a> as Source>⟧.whole c) }
        ensures short { OnOk result (HasShortParts self.now.records) }
    {
        self.part.table_cursor(alloc)
    }

    // The records as a source, unpositioned: no record is read before a seek. It takes no memory.
    pub(crate) fn unread_cursor<'a>(&'a self, alloc: Global, cache: BlockCache) -> Cursor<'a>
        ensures { ⟦<Cursor<'a> as Source>⟧.whole result ≡ self.now.records }
    {
        self.part.unread_cursor(alloc, cache)
    }

    /// The size of the whole table, in bytes, as `SortedTable::size` of `tab_table` counts them.
    pub fn size(&self) -> u64
        ensures { result ≡ self.now.size }
    {
        self.size
    }

    /// How many records there are, markers and hidden ones among them.
    pub fn len(&self) -> usize
        ensures len { result ≡ length self.now.records }
        ensures rising { IsRising self.now.records }
        ensures timestamps { HasI64Timestamps self.now.records }
        ensures short { HasShortParts self.now.records }
    {
        self.part.len()
    }

    /// Whether there is no record.
    pub fn is_empty(&self) -> bool
        ensures { result ≡ (length self.now.records == 0) }
    {
        self.part.is_empty()
    }
}

/// How much room to ask for, in bytes, where so many records of a run, of so many bytes, are put in blocks: each may take 16 more there.
/// Only how often memory is taken hangs on it.
pub(crate) fn room_in_blocks(bytes: usize, count: usize) -> usize {
    bytes.saturating_add(count.saturating_mul(16))
}
