//! A sparse index of records by their rows.
ghost use Rattle.std.specs.Prelude.{◌≡◌, ℕ, ◌+◌, ◌*◌, ◌<◌, ◌≤◌, ◌++◌, ◌∷◌, [], List, length, take, max, min, vec_len, vec_capacity, IfOk, OnOk};
ghost use Rattle.std.specs.List.{prefix_len};
ghost use Rattle.std.specs.List.Sorted.{IsNonDecreasing};
ghost use Rattle.tab_key.specs.Records.{Record};
ghost use Rattle.tab_iter.specs.Lists.{IsRising};
ghost use Rattle.tab_mem.specs.RowIndex.{IsRowIndex};
ghost use Rattle.tab_mem.specs.Numbers.{count_below};
ghost use Rattle.tab_mem.specs.Starts.{is_before};

use crate::Target;
use crate::rising::{count_below, count_up_to};
use std::alloc::{AllocError, Global};
use std::ops::Range;
use tab_key::{RecordRef, row_prefix};

/// Of so many records that follow on each other the first one is in the index.
const STRIDE: usize = 16;

/// What lies so many places behind in the index is far.
const FAR: usize = 8;

/// The row prefixes of the first of some records and of each 16th one after it, side by side: a sparse index, which takes a byte for
/// each record. A search reads it first, and then only records that stand between two of those that are in it.
#[derive(Drop)]
pub struct RowIndex {
    numbers: Vec<u128>,
}

impl RowIndex {
    /// Of no records. It takes no memory.
    pub fn new(alloc: Global) -> RowIndex
        ensures { result.numbers.items ≡ [] }
    {
        RowIndex {
            numbers: Vec::new(alloc),
        }
    }

    /// Of no records, with memory for those of this many.
    pub fn with_capacity(alloc: Global, records: usize) -> Result<RowIndex, AllocError>
        ensures { IfOk result (λ f. f.numbers.items ≡ []) }
    {
        Ok(RowIndex {
            numbers: Vec::with_capacity(alloc, records.div_ceil(STRIDE))?,
        })
    }

    /// Leaves no record, and gives the memory back, as `Records` does.
    pub(crate) fn clear(&mut self)
        ensures { self.new.numbers.items ≡ [] }
    {
        self.numbers.clear();
        self.numbers.shrink_to(1);
    }

    /// Takes memory for one more record.
    pub fn make_room(&mut self) -> Result<(), AllocError>
        ensures same { self.new.numbers.items ≡ self.old.numbers.items }
        ensures room { OnOk result (vec_len self.new.numbers < vec_capacity self.new.numbers) }
    {
        self.numbers.reserve(1)
    }

    /// Takes note of the record with this index, which comes behind all others. There is room for it. Only each 16th one is read.
    pub fn put(&mut self, index: usize, lent: &RecordRef<'_>)
        requires room { vec_len self.old.numbers < vec_capacity self.old.numbers }
        ensures { (rs : List Record) → length rs ≡ index → IsRowIndex self.old.numbers.items rs → IsRowIndex self.new.numbers.items (rs ++ lent.now ∷ []) }
    {
        if index % STRIDE == 0 {
            self.numbers.push_reserved(row_prefix(lent.row()));
        }
    }

    /// Leaves what is of the first so many records. Memory isn't given back.
    pub fn truncate(&mut self, count: usize)
        ensures { (rs : List Record) → IsRowIndex self.old.numbers.items rs → IsRowIndex self.new.numbers.items (take count rs) }
    {
        self.numbers.truncate(count.div_ceil(STRIDE));
    }

    /// Gives back the memory that isn't used.
    pub fn shrink_to_fit(&mut self)
        ensures { self.new.numbers.items ≡ self.old.numbers.items }
    {
        self.numbers.shrink_to_fit();
    }

    /// A smaller part of the records in which a search for the start finds what it would find in this one. It lies between two
    /// neighbours in the index, unless more of those have the prefix of the start's row.
    ///
    /// It takes time logarithmic in the part, and reads no record.
    pub fn narrow(&self, low: usize, high: usize, target: &Target<'_>) -> Range<usize>
        requires rising { IsNonDecreasing self.now.numbers.items }
        requires order { low ≤ high }
        requires inside { high ≤ STRIDE * length self.now.numbers.items }
        ensures low { low ≤ result.start }
        ensures order { result.start ≤ result.end }
        ensures high { result.end ≤ high }
        ensures count { (rs : List Record) → IsRowIndex self.now.numbers.items rs → IsRising rs → high ≤ length rs → max low (min (prefix_len (is_before target.now.start) rs) high) ≡ max result.start (min (prefix_len (is_before target.now.start) rs) result.end) }
    {
        narrow_in(&self.numbers, low, high, target)
    }

    /// Whether the row of a record that stands some 128 places behind this index is below the start's, as far as the prefixes tell. Only
    /// speed hangs on it.
    pub fn is_far(&self, index: usize, target: &Target<'_>) -> bool {
        match self.numbers.get(index / STRIDE + FAR) {
            Some(number) => *number < target.prefix(),
            None => false,
        }
    }
}

// What `narrow` says, of the numbers of an index.
fn narrow_in(numbers: &[u128], low: usize, high: usize, target: &Target<'_>) -> Range<usize>
    requires rising { IsNonDecreasing numbers.now }
    requires order { low ≤ high }
    requires inside { high ≤ STRIDE * length numbers.now }
    ensures low { low ≤ result.start }
    ensures order { result.start ≤ result.end }
    ensures high { result.end ≤ high }
    ensures count { (rs : List Record) → IsRowIndex numbers.now rs → IsRising rs → high ≤ length rs → max low (min (prefix_len (is_before target.now.start) rs) high) ≡ max result.start (min (prefix_len (is_before target.now.start) rs) result.end) }
{
    let first = low / STRIDE;
    let past = (high / STRIDE + 1).min(numbers.len());
    between(alike_in(numbers, first, past, target.prefix()), low, high)
}

// The records of a part from behind the last one that is in the index before these places, up to the first one in it from their end on.
fn between(places: Range<usize>, low: usize, high: usize) -> Range<usize>
    requires { low ≤ high }
    ensures low { low ≤ result.start }
    ensures order { result.start ≤ result.end }
    ensures high { result.end ≤ high }
    ensures count { (n : ℕ) → STRIDE * places.start < max low n + STRIDE → min n high ≤ STRIDE * places.end → max low (min n high) ≡ max result.start (min n result.end) }
{
    let from = places
        .start
        .saturating_mul(STRIDE)
        .saturating_sub(STRIDE - 1);
    let end = places.end.saturating_mul(STRIDE);
    let start = from.max(low).min(high);
    start..end.max(start).min(high)
}

// Where the numbers between two places stand that are this one, or would stand.
fn alike_in(numbers: &[u128], first: usize, past: usize, number: u128) -> Range<usize>
    requires rising { IsNonDecreasing numbers.now }
    requires order { first ≤ past }
    requires inside { past ≤ length numbers.now }
    ensures low { result.start ≡ max first (min (count_below number numbers.now) past) }
    ensures high { result.end ≡ max first (min (count_below (number + 1) numbers.now) past) }
{
    let part = &numbers[first..past];
    let below = count_below(part, number);
    let up_to = count_up_to(part, below, number);
    first + below..first + up_to
}
