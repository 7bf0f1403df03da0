//! Records of one body that are sorted, at once or in parts, while the body shrinks.
//!
//! A body that holds many of all records goes by parts. A part is what has a row before a bound's, so no row is in two parts. Its records
//! are sorted and copied behind those of the earlier parts, which stand before them, and then the others move together where they lay: so
//! all records lie in memory about once, and the copies of one part besides.
ghost use Rattle.std.specs.Prelude.{◌≡◌, ◌<◌, ◌++◌, [], OnOk, OnErr};
ghost use Rattle.tab_key.specs.Records.{Record as Fields};
ghost use Rattle.tab_key.specs.Sorted.{IsDistinct, IsIn, sorted};
ghost use Rattle.tab_mem.specs.Parting.{before};

use crate::partitions::unsorted::Unsorted;
use crate::records::Records;
use crate::sorting::classes::put_groups;
use crate::sorting::item::Item;
use crate::sorting::{give_back, sort_items};
use std::alloc::{AllocError, Global};

/// How many records are drained in all, and what they take in their partitions, in bytes. Only speed and memory hang on it.
#[derive(Clone, Copy)]
pub(crate) struct Totals {
    pub(crate) records: usize,
    pub(crate) bytes: usize,
}

/// In how many parts a body is sorted whose records are many, and more than that part of all.
const PARTS: usize = 4;

/// Puts the records behind the others, sorted, and leaves none.
///
/// Beside what the copies take, it takes memory for 32 bytes for each group of neighbours of one row in one part, which is the body or a
/// quarter of it, and for 48 bytes for each record of its largest row; what the copied records took is given back with each part.
/// `AllocError` may leave the first ones put: none is lost, and none stands twice.
pub(crate) fn drain(
    alloc: Global,
    records: &mut Records,
    written: &mut Unsorted,
    totals: Totals,
) -> Result<(), AllocError>
    requires { IsDistinct written.old }
    ensures ok { OnOk result (records.new ≡ records.old ++ sorted written.old) }
    ensures empty { OnOk result (written.new ≡ []) }
    ensures kept { records.new ++ sorted written.new ≡ records.old ++ sorted written.old }
    ensures distinct { IsDistinct written.new }
    ensures within { (u : Fields) → IsIn written.new u → IsIn written.old u }
{
    take_parts(alloc, records, written, totals)?;
    take_rest(alloc, records, written)
}

// Puts all parts but the last one behind the others, where there are several.
fn take_parts(
    alloc: Global,
    records: &mut Records,
    written: &mut Unsorted,
    totals: Totals,
) -> Result<(), AllocError>
    requires { IsDistinct written.old }
    ensures distinct { IsDistinct written.new }
    ensures kept { records.new ++ sorted written.new ≡ records.old ++ sorted written.old }
    ensures within { (u : Fields) → IsIn written.new u → IsIn written.old u }
{
    if !written.is_large() {
        return Ok(());
    }
    if written.byte_len() <= totals.bytes / PARTS {
        return Ok(());
    }
    let bounds = written.bounds(alloc)?;
    let lent = bounds.items(alloc)?;
    take_below(alloc, records, written, &lent, totals)
}

// Puts what has a row before each quarter of these bounds behind the others.
fn take_below(
    alloc: Global,
    records: &mut Records,
    written: &mut Unsorted,
    bounds: &[Item<'_>],
    totals: Totals,
) -> Result<(), AllocError>
    requires { IsDistinct written.old }
    ensures distinct { IsDistinct written.new }
    ensures kept { records.new ++ sorted written.new ≡ records.old ++ sorted written.old }
    ensures within { (u : Fields) → IsIn written.new u → IsIn written.old u }
{
    let step = bounds.len() / PARTS + 1;
    let mut at = 0;
    let mut left = bounds.len();
    while left > step {
        at += step;
        left -= step;
        take_part(alloc, records, written, &bounds[at], totals)?;
    }
    Ok(())
}

// Puts the records whose rows stand before the bound's behind the others, sorted, and leaves the rest. `AllocError` leaves all as it was.
fn take_part(
    alloc: Global,
    records: &mut Records,
    written: &mut Unsorted,
    bound: &Item<'_>,
    totals: Totals,
) -> Result<(), AllocError>
    requires { IsDistinct written.old }
    ensures distinct { IsDistinct written.new }
    ensures kept { records.new ++ sorted written.new ≡ records.old ++ sorted written.old }
    ensures within { (u : Fields) → IsIn written.new u → IsIn written.old u }
{
    put_part(alloc, records, written, bound, totals)?;
    written.keep_from(bound);
    Ok(())
}

// Puts copies of those whose rows stand before the bound's behind the others, sorted. `AllocError` leaves all as it was.
fn put_part(
    alloc: Global,
    records: &mut Records,
    written: &Unsorted,
    bound: &Item<'_>,
    totals: Totals,
) -> Result<(), AllocError>
    requires { IsDistinct written.now }
    ensures ok { OnOk result (records.new ≡ records.old ++ sorted (before bound.now written.now)) }
    ensures err { OnErr result (records.new ≡ records.old) }
{
    if written.are_wide() {
        return put_groups_before(alloc, records, written, bound);
    }
    put_items_before(alloc, records, written, bound, totals)
}

// `put_part` of records that are sorted row by row.
fn put_groups_before(
    alloc: Global,
    records: &mut Records,
    written: &Unsorted,
    bound: &Item<'_>,
) -> Result<(), AllocError>
    requires { IsDistinct written.now }
    ensures ok { OnOk result (records.new ≡ records.old ++ sorted (before bound.now written.now)) }
    ensures err { OnErr result (records.new ≡ records.old) }
{
    let mut groups = written.groups_before(alloc, bound)?;
    put_groups(alloc, records, &mut groups)
}

// `put_part` of records that are sorted one by one.
fn put_items_before(
    alloc: Global,
    records: &mut Records,
    written: &Unsorted,
    bound: &Item<'_>,
    totals: Totals,
) -> Result<(), AllocError>
    requires { IsDistinct written.now }
    ensures ok { OnOk result (records.new ≡ records.old ++ sorted (before bound.now written.now)) }
    ensures err { OnErr result (records.new ≡ records.old) }
{
    let mut items = written.items_before(alloc, bound, totals.records / PARTS)?;
    put_items(records, &mut items)
}

// Puts all records behind the others, sorted, and leaves none. `AllocError` leaves all as it was.
fn take_rest(alloc: Global, records: &mut Records, written: &mut Unsorted) -> Result<(), AllocError>
    requires { IsDistinct written.old }
    ensures ok { OnOk result (records.new ≡ records.old ++ sorted written.old) }
    ensures empty { OnOk result (written.new ≡ []) }
    ensures err { OnErr result (records.new ≡ records.old) }
    ensures left { OnErr result (written.new ≡ written.old) }
{
    put_rest(alloc, records, written)?;
    written.clear();
    Ok(())
}

// Puts copies of all records behind the others, sorted. `AllocError` leaves all as it was.
fn put_rest(alloc: Global, records: &mut Records, written: &Unsorted) -> Result<(), AllocError>
    requires { IsDistinct written.now }
    ensures ok { OnOk result (records.new ≡ records.old ++ sorted written.now) }
    ensures err { OnErr result (records.new ≡ records.old) }
{
    if written.are_wide() {
        return put_all_groups(alloc, records, written);
    }
    put_all_items(alloc, records, written)
}

// `put_rest` of records that are sorted row by row.
fn put_all_groups(
    alloc: Global,
    records: &mut Records,
    written: &Unsorted,
) -> Result<(), AllocError>
    requires { IsDistinct written.now }
    ensures ok { OnOk result (records.new ≡ records.old ++ sorted written.now) }
    ensures err { OnErr result (records.new ≡ records.old) }
{
    let mut groups = written.groups(alloc)?;
    put_groups(alloc, records, &mut groups)
}

// `put_rest` of records that are sorted one by one.
fn put_all_items(alloc: Global, records: &mut Records, written: &Unsorted) -> Result<(), AllocError>
    requires { IsDistinct written.now }
    ensures ok { OnOk result (records.new ≡ records.old ++ sorted written.now) }
    ensures err { OnErr result (records.new ≡ records.old) }
{
    let mut items = written.items(alloc)?;
    put_items(records, &mut items)
}

// Puts copies of lent records behind the others, sorted, and gives back what these took. `AllocError` leaves the others as they were.
fn put_items(records: &mut Records, items: &mut Vec<Item<'_>>) -> Result<(), AllocError>
    requires { IsDistinct items.old.items }
    ensures ok { OnOk result (records.new ≡ records.old ++ sorted items.old.items) }
    ensures err { OnErr result (records.new ≡ records.old) }
{
    sort_items(items);
    records.push_all(items)?;
    give_back(items);
    Ok(())
}
