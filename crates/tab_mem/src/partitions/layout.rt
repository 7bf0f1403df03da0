//! Where records lie as they were written: in one partition, or in several by their rows.
ghost use Rattle.std.specs.Prelude.{◌≡◌, ◌<◌, ◌*◌, ◌^◌, ◌++◌, ◌∷◌, [], OnOk, OnErr, length};
ghost use Rattle.std.specs.List.Sorted.{IsPermutation};
ghost use Rattle.tab_key.specs.Sorted.{IsDistinct, sorted};
ghost use Rattle.tab_cells.specs.Written.{mutation_records};
ghost use Rattle.tab_iter.specs.Bags.{flat};
ghost use Rattle.tab_iter.specs.Lists.{HasI64Timestamps};
ghost use Rattle.tab_mem.specs.Layouts.{written_in, AreParted};
ghost use Rattle.tab_mem.specs.Partitions.{ArePartitions};

use crate::partitions::draining::{Totals, drain};
use crate::partitions::emptying::drain_all;
use crate::partitions::unsorted::Unsorted;
use crate::partitions::{Partitions, spread};
use crate::records::Records;
use crate::rising::count_below;
use crate::sorting::item::Item;
use std::alloc::{AllocError, Global};
use tab_key::row_prefix;
use tab_mutation::Shaped;

/// Where records lie: in one partition, and once they are many in several by their rows. The several lie apart, so that it takes 40 bytes
/// where records are few.
#[derive(Drop)]
pub(crate) enum Layout {
    /// In one partition.
    One(Unsorted),
    /// In several.
    Several(Box<Partitions>),
}

impl Layout {
    /// How many records there are.
    pub(crate) fn len(&self) -> usize
        requires { AreParted self.now }
        ensures len { result ≡ length (written_in self.now) }
        ensures few { 41 * result < 2 ^ 67 }
    {
        match self {
            Layout::One(records) => records.len(),
            Layout::Several(partitions) => count_all(&partitions.lowest, &partitions.higher),
        }
    }

    /// How many bytes all records take in their partitions.
    pub(crate) fn byte_len(&self) -> usize {
        match self {
            Layout::One(records) => records.byte_len(),
            Layout::Several(partitions) => bytes_of_all(&partitions.lowest, &partitions.higher),
        }
    }

    /// Puts the records, lent, behind others. After an error, which only want of memory gives, some may stand there.
    pub(crate) fn lend_to<'a>(&'a self, items: &mut Vec<Item<'a>>) -> Result<(), AllocError>
        ensures { OnOk result (items.new.items ≡ items.old.items ++ written_in self.now) }
    {
        match self {
            Layout::One(records) => records.lend_to(items),
            Layout::Several(partitions) => lend_all(items, &partitions.lowest, &partitions.higher),
        }
    }

    /// Adds the records of an accepted mutation, and says whether those of one body have become many by it. `AllocError` leaves the
    /// records as they were.
    pub(crate) fn write(
        &mut self,
        mutation: &Shaped<'_>,
        seq: u64,
        clock: i64,
    ) -> Result<bool, AllocError>
        requires parted { AreParted self.old }
        ensures ok { OnOk result (IsPermutation (written_in self.old ++ mutation_records seq clock mutation.now) (written_in self.new)) }
        ensures timestamps { OnOk result (HasI64Timestamps (mutation_records seq clock mutation.now)) }
        ensures err { OnErr result (written_in self.new ≡ written_in self.old) }
        ensures parted { AreParted self.new }
    {
        match self {
            Layout::One(records) => write_one(records, mutation, seq, clock),
            Layout::Several(partitions) => write_several(partitions, mutation, seq, clock),
        }
    }

    /// Spreads the records over several partitions, if they lie in one. Where memory lacks for that nothing changes.
    pub(crate) fn spread(&mut self, alloc: Global)
        requires { AreParted self.old }
        ensures moved { IsPermutation (written_in self.old) (written_in self.new) }
        ensures parted { AreParted self.new }
    {
        let Layout::One(records) = self else {
            return;
        };
        if let Ok(partitions) = spread(alloc, records) {
            records.clear();
            *self = Layout::Several(partitions);
        }
    }

    /// Puts the records behind the others, sorted, and leaves none. What they took is given back with each partition.
    ///
    /// `AllocError` may leave the first ones put: none is lost, and none stands twice.
    pub(crate) fn drain(
        &mut self,
        alloc: Global,
        records: &mut Records,
        totals: Totals,
    ) -> Result<(), AllocError>
        requires distinct { IsDistinct (written_in self.old) }
        requires parted { AreParted self.old }
        ensures ok { OnOk result (records.new ≡ records.old ++ sorted (written_in self.old)) }
        ensures empty { OnOk result (written_in self.new ≡ []) }
        ensures kept { records.new ++ sorted (written_in self.new) ≡ records.old ++ sorted (written_in self.old) }
        ensures parted { AreParted self.new }
    {
        match self {
            Layout::One(written) => drain(alloc, records, written, totals),
            Layout::Several(partitions) => drain_all(alloc, records, partitions, totals),
        }
    }
}

// How many records there are in all.
fn count_all(lowest: &Unsorted, higher: &[Unsorted]) -> usize
    requires { length higher.now < 16 }
    ensures count { result ≡ length (flat (lowest.now ∷ higher.now)) }
    ensures few { 41 * result < 2 ^ 67 }
{
    let mut count = lowest.len();
    for records in higher {
        count += records.len();
    }
    count
}

// How many bytes all records take.
fn bytes_of_all(lowest: &Unsorted, higher: &[Unsorted]) -> usize {
    let mut bytes = lowest.byte_len();
    for records in higher {
        bytes = bytes.saturating_add(records.byte_len());
    }
    bytes
}

// Puts all records, lent, behind others. After an error, which only want of memory gives, some may stand there.
fn lend_all<'a>(
    items: &mut Vec<Item<'a>>,
    lowest: &'a Unsorted,
    higher: &'a [Unsorted],
) -> Result<(), AllocError>
    ensures { OnOk result (items.new.items ≡ items.old.items ++ flat (lowest.now ∷ higher.now)) }
{
    lowest.lend_to(items)?;
    for records in higher {
        records.lend_to(items)?;
    }
    Ok(())
}

// Puts the records of an accepted mutation behind the others, and says whether they have become many by it. `AllocError` leaves the
// records as they were.
fn write_one(
    records: &mut Unsorted,
    mutation: &Shaped<'_>,
    seq: u64,
    clock: i64,
) -> Result<bool, AllocError>
    ensures ok { OnOk result (records.new ≡ records.old ++ mutation_records seq clock mutation.now) }
    ensures timestamps { OnOk result (HasI64Timestamps (mutation_records seq clock mutation.now)) }
    ensures err { OnErr result (records.new ≡ records.old) }
{
    let were_many = records.is_large();
    records.write(mutation, seq, clock)?;
    Ok(records.is_large() && !were_many)
}

// Puts the records of an accepted mutation in the place of its row, and says that they don't lie in one body. `AllocError` leaves the
// records as they were.
fn write_several(
    partitions: &mut Partitions,
    mutation: &Shaped<'_>,
    seq: u64,
    clock: i64,
) -> Result<bool, AllocError>
    requires parted { ArePartitions partitions.old.lows.items partitions.old.lowest partitions.old.higher.items }
    ensures ok { OnOk result (IsPermutation (flat (partitions.old.lowest ∷ partitions.old.higher.items) ++ mutation_records seq clock mutation.now) (flat (partitions.new.lowest ∷ partitions.new.higher.items))) }
    ensures timestamps { OnOk result (HasI64Timestamps (mutation_records seq clock mutation.now)) }
    ensures err { OnErr result (flat (partitions.new.lowest ∷ partitions.new.higher.items) ≡ flat (partitions.old.lowest ∷ partitions.old.higher.items)) }
    ensures parted { ArePartitions partitions.new.lows.items partitions.new.lowest partitions.new.higher.items }
{
    write_to(partitions, mutation, seq, clock)?;
    Ok(false)
}

// Puts the records of an accepted mutation in the place of its row. `AllocError` leaves the records as they were.
fn write_to(
    partitions: &mut Partitions,
    mutation: &Shaped<'_>,
    seq: u64,
    clock: i64,
) -> Result<(), AllocError>
    requires parted { ArePartitions partitions.old.lows.items partitions.old.lowest partitions.old.higher.items }
    ensures ok { OnOk result (IsPermutation (flat (partitions.old.lowest ∷ partitions.old.higher.items) ++ mutation_records seq clock mutation.now) (flat (partitions.new.lowest ∷ partitions.new.higher.items))) }
    ensures timestamps { OnOk result (HasI64Timestamps (mutation_records seq clock mutation.now)) }
    ensures err { OnErr result (flat (partitions.new.lowest ∷ partitions.new.higher.items) ≡ flat (partitions.old.lowest ∷ partitions.old.higher.items)) }
    ensures parted { ArePartitions partitions.new.lows.items partitions.new.lowest partitions.new.higher.items }
{
    let place = count_below(&partitions.lows, row_prefix(mutation.row()));
    if place == 0 {
        return partitions.lowest.write(mutation, seq, clock);
    }
    partitions.higher[place - 1].write(mutation, seq, clock)
}
