//! What clips are cut of.
ghost use Rattle.std.specs.Prelude.{◌≡◌, ◌<◌, ◌≤◌, IsTrue, IfOk, List, length, filter, slice_index_or};
ghost use Rattle.std.specs.Ordering.{is_lt};
ghost use Rattle.tab_key.specs.KeyOf.{key_of};
ghost use Rattle.tab_key.specs.Order.{key_cmp};
ghost use Rattle.tab_key.specs.Ranges.{is_in_range};
ghost use Rattle.tab_iter.specs.Lists.{IsRising, HasI64Timestamps};
ghost use Rattle.tab_mem.specs.Lists.{part, HasShortParts};
ghost use Rattle.tab_version.specs.Sources.{same_record};

use std::alloc::{AllocError, Global};
use std::ops::Range;
use tab_key::{Bounds, ByteString, Key};
use tab_mem::Run;
use tab_table::SortedTable;

/// A frozen run or a sorted table: records that no longer change, in their order.
pub trait FrozenRecords {
    ghost use Rattle.tab_key.specs.Records.{Record};

    ghost listed: { Self → List Record };

    /// How many records there are, markers and hidden ones among them.
    fn len(&self) -> usize
        ensures len { result ≡ length (listed self.now) }
        ensures rising { IsRising (listed self.now) }
        ensures timestamps { HasI64Timestamps (listed self.now) }
        ensures short { HasShortParts (listed self.now) };

    /// Whether the record at an index stands before the key.
    fn is_before(&self, index: usize, key: Key<'_>) -> bool
        requires { index < length (listed self.now) }
        ensures { (u : Record) → result ≡ is_lt (key_cmp (slice_index_or (listed self.now) index u).key (key_of key.entry)) };

    /// A copy of the row of the record at an index, counted from 0 in the order of records. `AllocError` says that memory for it lacked.
    fn row_of(&self, alloc: Global, index: usize) -> Result<ByteString, AllocError>
        requires { index < length (listed self.now) }
        ensures { (u : Record) → IfOk result (λ row. row ≡ (slice_index_or (listed self.now) index u).key.row) };

    /// Whether the record at an index is the same as the one at an index of another such list.
    fn same_at(&self, index: usize, other: &Self, place: usize) -> bool
        requires here { index < length (listed self.now) }
        requires there { place < length (listed other.now) }
        ensures { (u : Record) → result ≡ same_record (slice_index_or (listed self.now) index u) (slice_index_or (listed other.now) place u) };

    /// Whether another such list's records lie as its own do, byte for byte; then they are the same records. Where they don't, they may be
    /// the same ones all the same.
    fn lies_like(&self, other: &Self) -> bool
        ensures { IsTrue result → listed self.now ≡ listed other.now };

    /// The indexes of the records of a part whose rows are in bounds: these records stand together. The part goes from one index
    /// up to another, that one excluded.
    fn rows_in(&self, from: usize, end: usize, bounds: &Bounds) -> Range<usize>
        requires ends { from ≤ end }
        requires inside { end ≤ length (listed self.now) }
        ensures low { from ≤ result.start }
        ensures order { result.start ≤ result.end }
        ensures high { result.end ≤ end }
        ensures rows { part result.start result.end (listed self.now) ≡ filter (λ u. is_in_range bounds.now u.key.row) (part from end (listed self.now)) };

    /// How much room to ask for, in bytes, where the records from one index up to another are copied. Only how often memory is taken
    /// hangs on it.
    fn room(&self, from: usize, end: usize) -> usize;
}

impl FrozenRecords for Run {
    ghost listed = { λ r. r };

    fn len(&self) -> usize {
        Run::len(self)
    }

    fn is_before(&self, index: usize, key: Key<'_>) -> bool {
        self.get(index).key().cmp(key).is_lt()
    }

    fn row_of(&self, alloc: Global, index: usize) -> Result<ByteString, AllocError> {
        let copy = ByteString::from_slice(alloc, self.get(index).row())?;
        Ok(copy)
    }

    fn same_at(&self, index: usize, other: &Run, place: usize) -> bool {
        let here = self.get(index);
        let there = other.get(place);
        here.same_record(&there)
    }

    fn lies_like(&self, other: &Run) -> bool {
        Run::lies_like(self, other)
    }

    fn rows_in(&self, from: usize, end: usize, bounds: &Bounds) -> Range<usize> {
        Run::rows_in(self, from, end, bounds)
    }

    fn room(&self, from: usize, end: usize) -> usize {
        Run::room(self, from, end)
    }
}

impl FrozenRecords for SortedTable {
    ghost use Rattle.tab_table.specs.SortedTables.{records};

    ghost listed = { λ t. records t };

    fn len(&self) -> usize {
        SortedTable::len(self)
    }

    fn is_before(&self, index: usize, key: Key<'_>) -> bool {
        SortedTable::is_before(self, index, key)
    }

    fn row_of(&self, alloc: Global, index: usize) -> Result<ByteString, AllocError> {
        SortedTable::row_of(self, alloc, index)
    }

    fn same_at(&self, index: usize, other: &SortedTable, place: usize) -> bool {
        SortedTable::same_at(self, index, other, place)
    }

    fn lies_like(&self, other: &SortedTable) -> bool {
        SortedTable::lies_like(self, other)
    }

    fn rows_in(&self, from: usize, end: usize, bounds: &Bounds) -> Range<usize> {
        SortedTable::rows_in(self, from, end, bounds)
    }

    fn room(&self, from: usize, end: usize) -> usize {
        SortedTable::room(self, from, end)
    }
}
