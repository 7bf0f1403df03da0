//! Frozen runs.
ghost use Rattle.std.specs.Prelude.{◌≡◌, ◌<◌, ◌≤◌, ◌*◌, ◌^◌, ◌++◌, ◌==◌, IsTrue, OnOk, length, filter};
ghost use Rattle.std.specs.List.{slice_index_or};
ghost use Rattle.tab_key.specs.Ranges.{is_in_range};
ghost use Rattle.tab_iter.specs.Lists.{IsRising, HasI64Timestamps};
ghost use Rattle.tab_mem.specs.Lists.{part, HasShortParts};

use crate::records::Records;
use crate::searching::rows_in;
use crate::sorting::item::Item;
use std::alloc::AllocError;
use std::marker::Model;
use std::ops::Range;
use tab_key::{Bounds, RecordRef};

/// Records that no longer change, in their order. A contract sees their list.
///
/// Their parts lie in one body, one record after another.
pub struct Run {
    pub(crate) records: Records,
}

// Written out, so that a crate above needn't prove anew how the parts are dropped.
impl Drop for Run {
    #[inline(always)]
    fn drop(self) {
        let Run { records: _ } = self;
    }
}

impl Model for Run {
    ghost use Rattle.std.specs.Prelude.{List};
    ghost use Rattle.tab_key.specs.Records.{Record as Fields};
    ghost use Rattle.tab_mem.specs.Lists.{IsRun};

    ghost Value = { List Fields };

    ghost view = { λ r. r.records };

    ghost invariant = { λ r. IsRun r.records };
}

impl Run {
    /// A run of these records, which lie in it as they lay: none is copied. It takes no memory.
    pub fn of(records: Records) -> Run
        requires { IsRising records }
        ensures { result ≡ records }
    {
        let _count = records.len();
        Run { records }
    }

    /// The records, as they lie in it.
    pub(crate) fn into_records(self) -> Records
        ensures { result ≡ self }
    {
        let Run { records } = self;
        records
    }

    /// How many records there are, markers and hidden ones among them.
    pub fn len(&self) -> usize
        ensures len { result ≡ length self.now }
        ensures few { 41 * result < 2 ^ 63 }
        ensures rising { IsRising self.now }
        ensures timestamps { HasI64Timestamps self.now }
        ensures short { HasShortParts self.now }
    {
        self.records.len()
    }

    /// Whether there is no record.
    pub fn is_empty(&self) -> bool
        ensures { result ≡ (length self.now == 0) }
    {
        self.records.is_empty()
    }

    /// Puts the records, lent, behind others, in their order. After an error, which only want of memory gives, some may stand there.
    pub(crate) fn lend_to<'a>(&'a self, items: &mut Vec<Item<'a>>) -> Result<(), AllocError>
        ensures { OnOk result (items.new.items ≡ items.old.items ++ self.now) }
    {
        self.records.lend_to(items)
    }

    /// The record at an index, counted from 0 in the order of records.
    pub fn get(&self, index: usize) -> RecordRef<'_>
        requires { index < length self.now }
        ensures { result ≡ slice_index_or self.now index result }
    {
        self.records.get(index)
    }

    /// Whether the other's records lie as its own do, byte for byte; then they are the same records. Where they don't, they may be the
    /// same ones all the same. It takes time linear in the bytes that are equal.
    pub fn lies_like(&self, other: &Run) -> bool
        ensures { IsTrue result → self.now ≡ other.now }
    {
        self.records.lie_like(&other.records)
    }

    /// How much room to ask for, in bytes, where the records from one index up to another are copied. Only how often memory is taken
    /// hangs on it.
    pub fn room(&self, from: usize, end: usize) -> usize {
        self.records.room(from, end)
    }

    /// The indexes of the records of a part whose rows are in bounds: these records stand together. The part goes from one index
    /// up to another, that one excluded.
    ///
    /// The low end takes time logarithmic in the part; so does the high end, or time logarithmic in the number of records between them
    /// where these are few.
    pub fn rows_in(&self, from: usize, end: usize, bounds: &Bounds) -> Range<usize>
        requires ends { from ≤ end }
        requires inside { end ≤ length self.now }
        ensures low { from ≤ result.start }
        ensures order { result.start ≤ result.end }
        ensures high { result.end ≤ end }
        ensures rows { part result.start result.end self.now ≡ filter (λ u. is_in_range bounds.now u.key.row) (part from end self.now) }
    {
        rows_in(&self.records, from, end, bounds)
    }
}
