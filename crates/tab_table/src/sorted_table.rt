//! Sorted tables.
ghost use Rattle.std.specs.Prelude.{◌≡◌, ◌+◌, ◌<◌, ◌≤◌, ◌==◌, IsTrue, IfOk, length, filter, max, min};
ghost use Rattle.std.specs.List.{slice_index_or, prefix_len};
ghost use Rattle.std.specs.Ordering.{is_lt};
ghost use Rattle.std.proofs.lemmas.Map.Keys.{IsStrictlySortedBy-prop};
ghost use Rattle.tab_key.specs.KeyOf.{key_of};
ghost use Rattle.tab_key.specs.Order.{key_cmp, record_cmp};
ghost use Rattle.tab_key.specs.Ranges.{is_in_range};
ghost use Rattle.tab_key.specs.Records.{Record as Fields};
ghost use Rattle.tab_key.specs.Same.{same_record};
ghost use Rattle.tab_iter.specs.Lists.{IsRising, HasI64Timestamps};
ghost use Rattle.tab_iter.specs.Propositions.{HasI64Timestamps-prop};
ghost use Rattle.tab_mem.specs.RowIndex.{IsRowIndex, IsRowIndex-prop};
ghost use Rattle.tab_mem.specs.Lists.{part, HasShortParts};
ghost use Rattle.tab_mem.specs.Starts.{is_before};
ghost use Rattle.tab_table.specs.Blocks.{block_records};
ghost use Rattle.tab_table.specs.LastRows.{row_at_end};
ghost use Rattle.tab_table.specs.Sizes.{encoded_size};

use crate::packed::Packed;
use std::alloc::{AllocError, Global};
use std::cmp::Ordering;
use std::ops::Range;
use tab_key::{Bounds, ByteString, Key};
use tab_mem::{Ordered, RowIndex, Start, Target, rows_in};

// A search decodes so many records one by one; more it halves first.
const FEW: usize = 24;

// A seek looks at so many records behind its place before it asks the index.
const NEAR: usize = 16;

/// Records that no longer change, in their order. A contract sees their list by `records`.
///
/// They lie in one piece of bytes, in blocks of 64 records, in which a record shares its first bytes with the one before it; beside it a
/// table takes some two bytes a record for where decoding may begin and for a sparse index of their rows. (Accumulo user manual: a file
/// that a compaction writes)
pub struct SortedTable {
    pub(crate) packed: Packed,
    pub(crate) row_index: RowIndex,
    // the last record's, by which a tablet is passed that lies before a key
    pub(crate) last_row: ByteString,
    ghost rising: { IsRising (block_records packed.bytes packed.count) } by { IsStrictlySortedBy-prop record_cmp (block_records packed.bytes packed.count) },
    ghost timestamps: { HasI64Timestamps (block_records packed.bytes packed.count) } by { HasI64Timestamps-prop (block_records packed.bytes packed.count) },
    ghost sized: { length packed.bytes ≡ encoded_size (block_records packed.bytes packed.count) },
    ghost indexed: { IsRowIndex row_index.numbers.items (block_records packed.bytes packed.count) } by { IsRowIndex-prop row_index.numbers.items (block_records packed.bytes packed.count) },
    ghost last: { last_row ≡ row_at_end (block_records packed.bytes packed.count) },
}

// Written out, so that a crate above needn't prove anew how the parts are dropped.
impl Drop for SortedTable {
    #[inline(always)]
    fn drop(self) {
        let SortedTable {
            packed: _,
            row_index: _,
            last_row: _,
        } = self;
    }
}

impl SortedTable {
    ghost use Rattle.tab_table.specs.SortedTables.{records};

    /// How many bytes the records take in blocks of 64: each 57, its value, and of its row, family, qualifier and label what lies behind
    /// the first bytes shared with the record before it. A block's first record shares none.
    pub fn size(&self) -> u64
        ensures { result ≡ encoded_size (records self.now) }
    {
        self.packed.bytes.len() as u64
    }

    /// How many records there are, markers and hidden ones among them.
    pub fn len(&self) -> usize
        ensures len { result ≡ length (records self.now) }
        ensures rising { IsRising (records self.now) }
        ensures timestamps { HasI64Timestamps (records self.now) }
        ensures short { HasShortParts (records self.now) }
    {
        self.packed.count
    }

    /// Whether there is no record.
    pub fn is_empty(&self) -> bool
        ensures { result ≡ (length (records self.now) == 0) }
    {
        self.len() == 0
    }

    /// Whether the record at an index stands before the key. It takes no memory, and reads no record where the row of the last one or the
    /// index of rows tells.
    pub fn is_before(&self, index: usize, key: Key<'_>) -> bool
        requires { index < length (records self.now) }
        ensures { (u : Fields) → result ≡ is_lt (key_cmp (slice_index_or (records self.now) index u).key (key_of key.entry)) }
    {
        let count = self.len();
        if index + 1 == count {
            self.is_last_before(index, key)
        } else {
            self.is_inner_before(index, key)
        }
    }

    // `is_before` of the last record.
    fn is_last_before(&self, last: usize, key: Key<'_>) -> bool
        requires { last + 1 ≡ length (records self.now) }
        ensures { (u : Fields) → result ≡ is_lt (key_cmp (slice_index_or (records self.now) last u).key (key_of key.entry)) }
    {
        match self.last_row.as_bytes().cmp(key.row) {
            Ordering::Less => true,
            Ordering::Equal => self.packed.cmp_key(last, key).is_lt(),
            Ordering::Greater => false,
        }
    }

    // `is_before` by the index of rows: where it tells, a search for the key from this record on stops here, or doesn't.
    fn is_inner_before(&self, index: usize, key: Key<'_>) -> bool
        requires { index < length (records self.now) }
        ensures { (u : Fields) → result ≡ is_lt (key_cmp (slice_index_or (records self.now) index u).key (key_of key.entry)) }
    {
        let target = Target::of(Start::AtKey(key));
        let near = self.len().min(index.saturating_add(NEAR));
        let part = self.narrowed(index, near, &target);
        if part.end <= index {
            return false;
        }
        if index < part.start {
            return true;
        }
        self.packed.cmp_key(index, key).is_lt()
    }

    /// Whether the record at an index is the same as the one at an index of another table: key, kind, value, number and place. It takes no
    /// memory, and time linear in the bytes of its parts.
    pub fn same_at(&self, index: usize, other: &SortedTable, place: usize) -> bool
        requires here { index < length (records self.now) }
        requires there { place < length (records other.now) }
        ensures { (u v : Fields) → result ≡ same_record (slice_index_or (records self.now) index u) (slice_index_or (records other.now) place v) }
    {
        self.packed.same_at(index, &other.packed, place)
    }

    /// Whether the other's records lie as its own do, byte for byte; then they are the same records. Where they don't, they may be the
    /// same ones all the same. It takes time linear in the bytes that are equal.
    pub fn lies_like(&self, other: &SortedTable) -> bool
        ensures { IsTrue result → records self.now ≡ records other.now }
    {
        if self.packed.count != other.packed.count {
            return false;
        }
        self.packed.bytes.as_slice() == other.packed.bytes.as_slice()
    }

    /// A copy of the row of the record at an index, counted from 0 in the order of records.
    ///
    /// `AllocError` says that memory for it lacked.
    pub fn row_of(&self, alloc: Global, index: usize) -> Result<ByteString, AllocError>
        requires { index < length (records self.now) }
        ensures { (u : Fields) → IfOk result (λ row. row ≡ (slice_index_or (records self.now) index u).key.row) }
    {
        self.packed.row_of(alloc, index)
    }

    /// How much room to ask for, in bytes, where the records from one index up to another are copied: what they take in the body. Only
    /// how often memory is taken hangs on it.
    pub fn room(&self, from: usize, end: usize) -> usize {
        self.packed.room(from, end)
    }

    /// The indexes of the records of a part whose rows are in bounds: these records stand together. The part goes from one index
    /// up to another, that one excluded.
    ///
    /// The low end takes time logarithmic in the part; so does the high end, or time logarithmic in the number of records between them
    /// where these are few.
    pub fn rows_in(&self, from: usize, end: usize, bounds: &Bounds) -> Range<usize>
        requires ends { from ≤ end }
        requires inside { end ≤ length (records self.now) }
        ensures low { from ≤ result.start }
        ensures order { result.start ≤ result.end }
        ensures high { result.end ≤ end }
        ensures rows { part result.start result.end (records self.now) ≡ filter (λ u. is_in_range bounds.now u.key.row) (part from end (records self.now)) }
    {
        rows_in(self, from, end, bounds)
    }

    /// A small part of the records in which a search for the start finds what it would find in this one. It takes no memory.
    pub(crate) fn around(&self, from: usize, end: usize, target: &Target<'_>) -> Range<usize>
        requires ends { from ≤ end }
        requires inside { end ≤ length (records self.now) }
        ensures low { from ≤ result.start }
        ensures order { result.start ≤ result.end }
        ensures high { result.end ≤ end }
        ensures count { max from (min (prefix_len (is_before target.now.start) (records self.now)) end) ≡ max result.start (min (prefix_len (is_before target.now.start) (records self.now)) result.end) }
    {
        if end - from <= FEW {
            return from..end;
        }
        let part = self.narrowed(from, end, target);
        self.halved(part.start, part.end, target)
    }

    /// A small part as [`SortedTable::around`] gives it, behind a record that stands before the start, up to this end.
    pub(crate) fn behind(&self, at: usize, end: usize, target: &Target<'_>) -> Range<usize>
        requires inside { end ≤ length (records self.now) }
        requires place { at < end }
        requires passed { at < prefix_len (is_before target.now.start) (records self.now) }
        ensures low { at < result.start }
        ensures order { result.start ≤ result.end }
        ensures high { result.end ≤ end }
        ensures count { max (at + 1) (min (prefix_len (is_before target.now.start) (records self.now)) end) ≡ max result.start (min (prefix_len (is_before target.now.start) (records self.now)) result.end) }
    {
        let next = at + 1;
        let near = end.min(next.saturating_add(NEAR));
        if end <= near {
            return next..end;
        }
        if self.is_far(at, target) {
            return self.around(next, end, target);
        }
        let part = self.narrowed(next, near, target);
        if part.end < near {
            return part;
        }
        if next < part.start {
            return self.around(next, end, target);
        }
        if self.packed.precedes(near, target.start()) {
            return self.around(next, end, target);
        }
        next..near
    }

    // `behind` by halves.
    fn halved(&self, mut low: usize, mut high: usize, target: &Target<'_>) -> Range<usize>
        requires ends { low ≤ high }
        requires inside { high ≤ length (records self.now) }
        ensures low { low ≤ result.start }
        ensures order { result.start ≤ result.end }
        ensures high { result.end ≤ high }
        ensures count { max low (min (prefix_len (is_before target.now.start) (records self.now)) high) ≡ max result.start (min (prefix_len (is_before target.now.start) (records self.now)) result.end) }
    {
        while high - low > FEW {
            let mid = low + (high - low) / 2;
            if self.packed.precedes(mid, target.start()) {
                low = mid + 1;
            } else {
                high = mid;
            }
        }
        low..high
    }
}

impl Ordered for SortedTable {
    ghost use Rattle.tab_table.specs.SortedTables.{records};

    ghost listed = { λ t. records t };

    fn precedes(&self, index: usize, target: &Target<'_>) -> bool {
        self.packed.precedes(index, target.start())
    }

    fn narrowed(&self, low: usize, high: usize, target: &Target<'_>) -> Range<usize> {
        self.row_index.narrow(low, high, target)
    }

    fn is_far(&self, index: usize, target: &Target<'_>) -> bool {
        self.row_index.is_far(index, target)
    }
}
