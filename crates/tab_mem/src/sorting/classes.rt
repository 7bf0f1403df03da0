//! Groups of records, sorted and put behind others, class by class.
//!
//! Groups are sorted by their rows alone. Those of one row, which stand together then, are a class: only its records are compared with one
//! another, by what stands behind the row.
ghost use Rattle.std.specs.Prelude.{◌≡◌, ◌<◌, ◌≤◌, ◌++◌, length, take, OnOk, OnErr};
ghost use Rattle.std.specs.List.{AllByRecursion, slice_range};
ghost use Rattle.std.specs.List.Sorted.{IsPermutation, IsSortedBy};
ghost use Rattle.std.specs.Ordering.{is_eq};
ghost use Rattle.tab_key.specs.Bytes.{bytes_cmp};
ghost use Rattle.tab_key.specs.Sorted.{IsDistinct, sorted};
ghost use Rattle.tab_iter.specs.Bags.{flat};
ghost use Rattle.tab_mem.specs.Groups.{IsOfOneRow, HasOneRow, IsClass, row_at, row_before};

use crate::records::Records;
use crate::sorting::column_item::ColumnItem;
use crate::sorting::group::Group;
use crate::sorting::one_row::put_row;
use std::alloc::{AllocError, Global};

/// Sorts the groups by their rows, and puts copies of their records behind the others, in the order of records. Beside what the copies
/// take, it takes 48 bytes for each record of the largest class. `AllocError` leaves the others as they were.
pub(crate) fn put_groups(
    alloc: Global,
    records: &mut Records,
    groups: &mut Vec<Group<'_>>,
) -> Result<(), AllocError>
    requires rows { AllByRecursion IsOfOneRow groups.old.items }
    requires distinct { IsDistinct (flat groups.old.items) }
    ensures ok { OnOk result (records.new ≡ records.old ++ sorted (flat groups.old.items)) }
    ensures err { OnErr result (records.new ≡ records.old) }
{
    sort_groups(groups);
    let count = records.len();
    match put_sorted(alloc, records, groups.as_slice()) {
        Ok(()) => Ok(()),
        Err(fault) => {
            records.truncate(count);
            Err(fault)
        }
    }
}

// Puts groups in the order of their rows. It takes no memory.
fn sort_groups(groups: &mut Vec<Group<'_>>)
    ensures permutation { IsPermutation groups.old.items groups.new.items }
    ensures rising { IsSortedBy row_before groups.new.items }
{
    groups.sort_unstable_by(|a, b| a.cmp_row(b));
}

// Puts copies of the records of groups, which stand in the order of their rows, behind the others. An error may leave the first ones
// there.
fn put_sorted<'a>(
    alloc: Global,
    records: &mut Records,
    groups: &[Group<'a>],
) -> Result<(), AllocError>
    requires rows { AllByRecursion IsOfOneRow groups.now }
    requires distinct { IsDistinct (flat groups.now) }
    requires rising { IsSortedBy row_before groups.now }
    ensures ok { OnOk result (records.new ≡ records.old ++ sorted (flat groups.now)) }
    ensures front { take (length records.old) records.new ≡ records.old }
{
    let mut items: Vec<ColumnItem<'a>> = Vec::new(alloc);
    put_classes(records, &mut items, groups)
}

// `put_sorted` class by class. What is sorted is lent to `items`, whatever they were before.
fn put_classes<'a>(
    records: &mut Records,
    items: &mut Vec<ColumnItem<'a>>,
    groups: &[Group<'a>],
) -> Result<(), AllocError>
    requires rows { AllByRecursion IsOfOneRow groups.now }
    requires distinct { IsDistinct (flat groups.now) }
    requires rising { IsSortedBy row_before groups.now }
    ensures ok { OnOk result (records.new ≡ records.old ++ sorted (flat groups.now)) }
    ensures front { take (length records.old) records.new ≡ records.old }
{
    let mut at = 0;
    while at < groups.len() {
        let end = class_end(groups, at);
        match put_class(records, items, groups, at, end) {
            Ok(()) => at = end,
            Err(fault) => return Err(fault),
        }
    }
    Ok(())
}

// Where the groups end that have the row of the one at an index.
fn class_end(groups: &[Group<'_>], at: usize) -> usize
    requires { at < length groups.now }
    ensures { IsClass groups.now at result }
{
    let mut end = at + 1;
    while end < groups.len() {
        if !are_alike(groups, at, end) {
            return end;
        }
        end += 1;
    }
    end
}

// Whether the groups at two indexes have one row.
fn are_alike(groups: &[Group<'_>], one: usize, other: usize) -> bool
    requires one { one < length groups.now }
    requires other { other < length groups.now }
    ensures { result ≡ is_eq (bytes_cmp (row_at groups.now one) (row_at groups.now other)) }
{
    groups[one].cmp_row(&groups[other]).is_eq()
}

// Puts copies of the records of the groups from one index up to another, that one excluded, behind the others. `AllocError` leaves these
// as they were.
fn put_class<'a>(
    records: &mut Records,
    items: &mut Vec<ColumnItem<'a>>,
    groups: &[Group<'a>],
    at: usize,
    end: usize,
) -> Result<(), AllocError>
    requires order { at < end }
    requires inside { end ≤ length groups.now }
    requires class { IsClass groups.now at end }
    requires rows { AllByRecursion IsOfOneRow groups.now }
    requires distinct { IsDistinct (flat groups.now) }
    ensures ok { OnOk result (records.new ≡ records.old ++ sorted (flat (slice_range groups.now at end))) }
    ensures err { OnErr result (records.new ≡ records.old) }
{
    let first = &groups[at];
    let count = end - at;
    if count == 1 {
        return put_group(records, items, first);
    }
    put_all(records, items, &groups[at..end], first.prefix())
}

// Puts copies of a group's records behind the others. Where there is but one, nothing is sorted and no memory is taken but for the copy.
fn put_group<'a>(
    records: &mut Records,
    items: &mut Vec<ColumnItem<'a>>,
    group: &Group<'a>,
) -> Result<(), AllocError>
    requires row { IsOfOneRow group.now }
    requires distinct { IsDistinct group.now }
    ensures ok { OnOk result (records.new ≡ records.old ++ sorted group.now) }
    ensures err { OnErr result (records.new ≡ records.old) }
{
    if group.is_single() {
        return records.push_item(&group.only());
    }
    items.clear();
    group.lend_to(items)?;
    put_row(records, items, group.prefix())
}

// Puts copies of the records of groups of one row behind the others.
fn put_all<'a>(
    records: &mut Records,
    items: &mut Vec<ColumnItem<'a>>,
    groups: &[Group<'a>],
    prefix: u128,
) -> Result<(), AllocError>
    requires row { HasOneRow prefix (flat groups.now) }
    requires distinct { IsDistinct (flat groups.now) }
    ensures ok { OnOk result (records.new ≡ records.old ++ sorted (flat groups.now)) }
    ensures err { OnErr result (records.new ≡ records.old) }
{
    items.clear();
    lend_all(items, groups)?;
    put_row(records, items, prefix)
}

// Puts the records of the groups, lent, behind others.
fn lend_all<'a>(items: &mut Vec<ColumnItem<'a>>, groups: &[Group<'a>]) -> Result<(), AllocError>
    ensures { OnOk result (items.new.items ≡ items.old.items ++ flat groups.now) }
{
    for group in groups {
        group.lend_to(items)?;
    }
    Ok(())
}
