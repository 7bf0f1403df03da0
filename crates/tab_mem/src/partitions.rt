//! Records that lie in one body, spread over several by their rows.
ghost use Rattle.std.specs.Prelude.{◌≡◌, ◌<◌, ◌+◌, ◌++◌, ◌∷◌, [], IfOk, OnOk, length};
ghost use Rattle.std.specs.List.{AllByRecursion, slice_range};
ghost use Rattle.std.specs.List.Sorted.{IsNonDecreasing, IsPermutation};
ghost use Rattle.tab_iter.specs.Bags.{flat};
ghost use Rattle.tab_mem.specs.Partitions.{ArePartitions};

pub(crate) mod appending;
pub(crate) mod draining;
pub(crate) mod emptying;
pub(crate) mod layout;
pub(crate) mod lending;
pub(crate) mod moving;
pub(crate) mod parting;
pub(crate) mod sampling;
pub(crate) mod unsorted;

use crate::partitions::unsorted::Unsorted;
use crate::rising::count_below;
use crate::sorting::give_back;
use crate::sorting::item::Item;
use std::alloc::{AllocError, Global};

/// Over so many partitions records are spread.
const MOST: usize = 16;

/// A partition has room for so many bytes from the first: the C library takes a block of that size, and all that it grows to, from the system
/// and not from the heap, where what smaller blocks leave behind would be kept.
const ROOM: usize = 163_840;

/// Records in several partitions by their rows: a row's place is how many of these numbers are below that of its first 16 bytes.
#[derive(Drop)]
pub(crate) struct Partitions {
    pub(crate) lows: Vec<u128>,
    // the records of the place 0
    pub(crate) lowest: Unsorted,
    // those of the others
    pub(crate) higher: Vec<Unsorted>,
}

/// Copies of the records, spread over 16 partitions of about one size. It takes memory for the copies, and until it returns for 32 bytes
/// a record.
pub(crate) fn spread(alloc: Global, written: &Unsorted) -> Result<Box<Partitions>, AllocError>
    ensures moved { IfOk result (λ s. IsPermutation written.now (flat (s.value.lowest ∷ s.value.higher.items))) }
    ensures parted { IfOk result (λ s. ArePartitions s.value.lows.items s.value.lowest s.value.higher.items) }
{
    let mut partitions = begun(alloc, written)?;
    let mut items = written.items(alloc)?;
    put_all(&mut partitions, &items)?;
    give_back(&mut items);
    Ok(Box::new(alloc, partitions)?)
}

// Partitions without records. Their numbers are those of some records at even distances in the order of rows.
fn begun(alloc: Global, written: &Unsorted) -> Result<Partitions, AllocError>
    ensures none { IfOk result (λ s. flat (s.lowest ∷ s.higher.items) ≡ []) }
    ensures parted { IfOk result (λ s. ArePartitions s.lows.items s.lowest s.higher.items) }
{
    let bounds = written.bounds(alloc)?;
    let lent = bounds.items(alloc)?;
    let lows = numbers_of(alloc, &lent)?;
    let lowest = Unsorted::with_capacity(alloc, ROOM)?;
    let higher = empty_partitions(alloc, lows.len())?;
    Ok(Partitions {
        lows,
        lowest,
        higher,
    })
}

// The numbers of some of these records at even distances, 15 at most, rising.
fn numbers_of(alloc: Global, bounds: &[Item<'_>]) -> Result<Vec<u128>, AllocError>
    ensures few { IfOk result (λ v. length v.items < 16) }
    ensures rising { IfOk result (λ v. IsNonDecreasing v.items) }
{
    let mut lows = picked(alloc, bounds)?;
    lows.sort_unstable();
    Ok(lows)
}

// The numbers of these records, in the order of the records.
fn picked(alloc: Global, bounds: &[Item<'_>]) -> Result<Vec<u128>, AllocError>
    ensures { IfOk result (λ v. length v.items < 16) }
{
    let mut lows = Vec::with_capacity(alloc, MOST)?;
    let mut at = 1;
    while at < MOST {
        if let Some(bound) = bounds.get(bounds.len() / MOST * at) {
            lows.push(bound.prefix())?;
        }
        at += 1;
    }
    Ok(lows)
}

// So many partitions without records.
fn empty_partitions(alloc: Global, count: usize) -> Result<Vec<Unsorted>, AllocError>
    ensures many { IfOk result (λ v. length v.items ≡ count) }
    ensures none { IfOk result (λ v. AllByRecursion (λ us. us ≡ []) v.items) }
{
    let mut partitions = Vec::with_capacity(alloc, count)?;
    let mut left = count;
    while left > 0 {
        partitions.push(Unsorted::with_capacity(alloc, ROOM)?)?;
        left -= 1;
    }
    Ok(partitions)
}

// Puts copies of the records in their places, one after another. After an error some of them may be there.
fn put_all(partitions: &mut Partitions, items: &[Item<'_>]) -> Result<(), AllocError>
    requires { ArePartitions partitions.old.lows.items partitions.old.lowest partitions.old.higher.items }
    ensures moved { OnOk result (IsPermutation (flat (partitions.old.lowest ∷ partitions.old.higher.items) ++ items.now) (flat (partitions.new.lowest ∷ partitions.new.higher.items))) }
    ensures parted { ArePartitions partitions.new.lows.items partitions.new.lowest partitions.new.higher.items }
{
    let mut index = 0;
    while index < items.len() {
        put_one(partitions, items, index)?;
        index += 1;
    }
    Ok(())
}

// Puts a copy of the record at an index in its place.
fn put_one(partitions: &mut Partitions, items: &[Item<'_>], index: usize) -> Result<(), AllocError>
    requires inside { index < length items.now }
    requires parted { ArePartitions partitions.old.lows.items partitions.old.lowest partitions.old.higher.items }
    ensures moved { OnOk result (IsPermutation (flat (partitions.old.lowest ∷ partitions.old.higher.items) ++ slice_range items.now index (index + 1)) (flat (partitions.new.lowest ∷ partitions.new.higher.items))) }
    ensures parted { ArePartitions partitions.new.lows.items partitions.new.lowest partitions.new.higher.items }
{
    let place = count_below(&partitions.lows, items[index].prefix());
    let one = &items[index..index + 1];
    if place == 0 {
        return partitions.lowest.push_all(one);
    }
    partitions.higher[place - 1].push_all(one)
}
