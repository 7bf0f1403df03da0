//! Records as they were written, one after another.
ghost use Rattle.std.specs.Prelude.{◌≡◌, ◌<◌, ◌*◌, ◌^◌, ◌++◌, ◌==◌, [], IfOk, OnOk, OnErr, length};
ghost use Rattle.std.specs.List.{AllByRecursion};
ghost use Rattle.tab_cells.specs.Written.{mutation_records};
ghost use Rattle.tab_iter.specs.Bags.{flat};
ghost use Rattle.tab_iter.specs.Lists.{HasI64Timestamps};
ghost use Rattle.tab_mem.specs.Groups.{IsOfOneRow};
ghost use Rattle.tab_mem.specs.Parting.{before, from_bound};

use crate::partitions::appending::{append_all, append_items};
use crate::partitions::lending::{items_in, lend_in};
use crate::partitions::parting::{items_before, keep_from};
use crate::partitions::sampling::sampled;
use crate::sorting::group::Group;
use crate::sorting::grouping::{are_wide, groups_before, groups_in};
use crate::sorting::item::Item;
use std::alloc::{AllocError, Global};
use std::marker::Model;
use tab_mutation::Shaped;

/// Fewer records than that are sorted in one part.
const MANY: usize = 4_096;

/// In fewer bytes than that, a mebibyte, they are sorted in one part too.
const LARGE: usize = 1_048_576;

/// Records, one after another in one body. Where they begin isn't kept: whoever reads them goes from one to the next.
#[derive(Drop)]
pub(crate) struct Unsorted {
    body: Vec<u8>,
    count: usize,
}

impl Model for Unsorted {
    ghost use Rattle.std.specs.Prelude.{List};
    ghost use Rattle.tab_key.specs.Records.{Record as Fields};

    ghost Value = { List Fields };

    ghost use Rattle.tab_key.specs.Encoding.{records_at, places_from};
    ghost use Rattle.tab_mem.specs.Lists.{IsFilled};

    ghost view = { λ w. records_at w.body.items (places_from w.body.items 0 w.count) };

    ghost invariant = { λ w. IsFilled w.body.items w.count };
}

impl Unsorted {
    /// No records. It takes no memory.
    pub(crate) fn new(alloc: Global) -> Unsorted
        ensures { result ≡ [] }
    {
        Unsorted {
            body: Vec::new(alloc),
            count: 0,
        }
    }

    /// No records, with memory for so many bytes of them.
    pub(crate) fn with_capacity(alloc: Global, bytes: usize) -> Result<Unsorted, AllocError>
        ensures { IfOk result (λ u. u ≡ []) }
    {
        Ok(Unsorted {
            body: Vec::with_capacity(alloc, bytes)?,
            count: 0,
        })
    }

    /// How many records there are.
    pub(crate) fn len(&self) -> usize
        ensures len { result ≡ length self.now }
        ensures few { 41 * result < 2 ^ 63 }
    {
        self.count
    }

    /// Whether there is no record.
    pub(crate) fn is_empty(&self) -> bool
        ensures { result ≡ (length self.now == 0) }
    {
        self.count == 0
    }

    /// How many bytes all records take in the body.
    pub(crate) fn byte_len(&self) -> usize {
        self.body.len()
    }

    /// The records, lent, as they lie. Memory is asked for once.
    pub(crate) fn items(&self, alloc: Global) -> Result<Vec<Item<'_>>, AllocError>
        ensures { IfOk result (λ v. v.items ≡ self.now) }
    {
        items_in(alloc, &self.body, self.count)
    }

    /// Puts the records, lent, behind others, in their order. After an error, which only want of memory gives, some may stand there.
    pub(crate) fn lend_to<'a>(&'a self, items: &mut Vec<Item<'a>>) -> Result<(), AllocError>
        ensures { OnOk result (items.new.items ≡ items.old.items ++ self.now) }
    {
        lend_in(items, &self.body, self.count)
    }

    /// Whether they are so many, in so many bytes, that to sort them in parts saves memory worth the time.
    pub(crate) fn is_large(&self) -> bool {
        self.count >= MANY && self.body.len() >= LARGE
    }

    /// Copies of some of the records, in their order: at most 513. Which ones no contract says; they are at even distances as the records
    /// lie.
    pub(crate) fn bounds(&self, alloc: Global) -> Result<Unsorted, AllocError> {
        let mut samples = sampled(alloc, &self.body, self.count)?;
        samples.sort_unstable_by(|a, b| a.cmp(b));
        let mut bounds = Unsorted::new(alloc);
        bounds.push_all(&samples)?;
        Ok(bounds)
    }

    /// The records in groups, lent, as they lie.
    pub(crate) fn groups(&self, alloc: Global) -> Result<Vec<Group<'_>>, AllocError>
        ensures records { IfOk result (λ v. flat v.items ≡ self.now) }
        ensures rows { IfOk result (λ v. AllByRecursion IsOfOneRow v.items) }
    {
        groups_in(alloc, &self.body, self.count)
    }

    /// Of the records, in groups as they lie, those whose rows stand before the bound's.
    pub(crate) fn groups_before(
        &self,
        alloc: Global,
        bound: &Item<'_>,
    ) -> Result<Vec<Group<'_>>, AllocError>
        ensures records { IfOk result (λ v. flat v.items ≡ before bound.now self.now) }
        ensures rows { IfOk result (λ v. AllByRecursion IsOfOneRow v.items) }
    {
        groups_before(alloc, &self.body, self.count, bound)
    }

    /// Whether neighbours mostly have one row, as far as the first ones tell. No contract says anything of it: only speed hangs on it.
    pub(crate) fn are_wide(&self) -> bool {
        are_wide(&self.body, self.count)
    }

    /// Of the records, lent as they lie, those whose rows stand before the bound's. Memory is asked for once where they are no more than
    /// this many.
    pub(crate) fn items_before(
        &self,
        alloc: Global,
        bound: &Item<'_>,
        room: usize,
    ) -> Result<Vec<Item<'_>>, AllocError>
        ensures { IfOk result (λ v. v.items ≡ before bound.now self.now) }
    {
        items_before(alloc, &self.body, self.count, bound, room)
    }

    /// Leaves the records whose rows don't stand before the bound's. The memory of the others is given back; none is taken.
    pub(crate) fn keep_from(&mut self, bound: &Item<'_>)
        ensures { self.new ≡ from_bound bound.now self.old }
    {
        let kept = keep_from(&mut self.body, self.count, bound);
        self.body.truncate(kept.bytes);
        self.body.shrink_to_fit();
        self.count = kept.count;
    }

    /// Leaves no record, and gives the memory back.
    ///
    /// The body shrinks first: the C library gives back at once what a large block shrinks by, and would keep blocks of a size that it saw
    /// freed whole.
    pub(crate) fn clear(&mut self)
        ensures { self.new ≡ [] }
    {
        self.body.clear();
        self.body.shrink_to(1);
        self.count = 0;
    }

    /// Puts the records of an accepted mutation at the end. `AllocError` leaves the records as they were.
    pub(crate) fn write(
        &mut self,
        mutation: &Shaped<'_>,
        seq: u64,
        clock: i64,
    ) -> Result<(), AllocError>
        ensures ok { OnOk result (self.new ≡ self.old ++ mutation_records seq clock mutation.now) }
        ensures timestamps { OnOk result (HasI64Timestamps (mutation_records seq clock mutation.now)) }
        ensures err { OnErr result (self.new ≡ self.old) }
    {
        let bytes = self.body.len();
        match append_all(&mut self.body, self.count, mutation, seq, clock) {
            Ok(count) => {
                self.count = count;
                Ok(())
            }
            Err(fault) => {
                self.body.truncate(bytes);
                Err(fault)
            }
        }
    }

    /// Puts copies of the records of several items at the end. `AllocError` leaves the records as they were.
    pub(crate) fn push_all(&mut self, items: &[Item<'_>]) -> Result<(), AllocError>
        ensures ok { OnOk result (self.new ≡ self.old ++ items.now) }
        ensures err { OnErr result (self.new ≡ self.old) }
    {
        let length = self.body.len();
        match append_items(&mut self.body, self.count, items) {
            Ok(count) => {
                self.count = count;
                Ok(())
            }
            Err(fault) => {
                self.body.truncate(length);
                Err(fault)
            }
        }
    }
}
