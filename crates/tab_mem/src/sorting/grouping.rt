//! The groups of the records that lie one after another in a body.
ghost use Rattle.std.specs.Prelude.{◌≡◌, ◌<◌, ◌≤◌, ◌++◌, IfOk, OnOk, IsTrue, length};
ghost use Rattle.std.specs.List.{AllByRecursion, slice_range};
ghost use Rattle.tab_key.specs.Encoding.{record_at, places_from, IsAt, AreAt};
ghost use Rattle.tab_key.specs.RowPrefix.{IsRowPrefix};
ghost use Rattle.tab_iter.specs.Bags.{flat};
ghost use Rattle.tab_mem.specs.Groups.{IsOfOneRow, IsRowSpan};
ghost use Rattle.tab_mem.specs.Lists.{IsFilled};
ghost use Rattle.tab_mem.specs.Parting.{records_in, before};

use crate::sorting::group::Group;
use crate::sorting::item::Item;
use crate::sorting::leading::{MOST_BYTES, prefix_in, prefix_of};
use std::alloc::{AllocError, Global};
use tab_key::{RecordRef, end_of};

/// So many records from the beginning of the body on, in groups: neighbours of one row are in one. The row of each record is read once.
pub(crate) fn groups_in(
    alloc: Global,
    body: &[u8],
    count: usize,
) -> Result<Vec<Group<'_>>, AllocError>
    requires { AreAt body.now (places_from body.now 0 count) }
    ensures records { IfOk result (λ v. flat v.items ≡ records_in body.now count) }
    ensures rows { IfOk result (λ v. AllByRecursion IsOfOneRow v.items) }
{
    let mut groups = Vec::new(alloc);
    let mut place = 0;
    let mut left = count;
    while left > 0 {
        let span = span_of_row(body, place, left);
        groups.push(group_at(body, place, span))?;
        place = span.end;
        left -= span.count;
    }
    Ok(groups)
}

/// Of so many records from the beginning of the body on those whose rows stand before the bound's, in groups.
pub(crate) fn groups_before<'a>(
    alloc: Global,
    body: &'a [u8],
    count: usize,
    bound: &Item<'_>,
) -> Result<Vec<Group<'a>>, AllocError>
    requires { AreAt body.now (places_from body.now 0 count) }
    ensures records { IfOk result (λ v. flat v.items ≡ before bound.now (records_in body.now count)) }
    ensures rows { IfOk result (λ v. AllByRecursion IsOfOneRow v.items) }
{
    let mut groups = Vec::new(alloc);
    let mut place = 0;
    let mut left = count;
    while left > 0 {
        let span = span_of_row(body, place, left);
        push_before(&mut groups, group_at(body, place, span), bound)?;
        place = span.end;
        left -= span.count;
    }
    Ok(groups)
}

// So many rows are looked at to see whether rows are wide.
const LOOKED: usize = 16;

// So many records a row has at least, on average, where rows are wide.
const WIDE: usize = 4;

/// Whether the first rows of so many records from the beginning of the body on are wide: then it is quicker to sort groups than records.
pub(crate) fn are_wide(body: &[u8], count: usize) -> bool
    requires { AreAt body.now (places_from body.now 0 count) }
{
    let mut rows: usize = 0;
    let mut place = 0;
    let mut left = count;
    while left > 0 {
        if rows == LOOKED {
            break;
        }
        let span = span_of_row(body, place, left);
        rows += 1;
        place = span.end;
        left -= span.count;
    }
    (count - left) / WIDE >= rows
}

// Puts the group behind the others, if its row stands before the bound's.
fn push_before<'a>(
    groups: &mut Vec<Group<'a>>,
    group: Group<'a>,
    bound: &Item<'_>,
) -> Result<(), AllocError>
    requires row { IsOfOneRow group }
    requires rows { AllByRecursion IsOfOneRow groups.old.items }
    ensures records { OnOk result (flat groups.new.items ≡ flat groups.old.items ++ before bound.now group.entry) }
    ensures rows { OnOk result (AllByRecursion IsOfOneRow groups.new.items) }
{
    if group.cmp_bound(bound).is_lt() {
        groups.push(group)?;
        return Ok(());
    }
    Ok(())
}

// How far the first ones of some records reach that have the row of the first.
#[derive(Clone, Copy)]
struct RowSpan {
    // where they end
    end: usize,
    // how many they are
    count: usize,
}

// How far the records reach, of so many from a place on, that have the row of the first.
fn span_of_row(body: &[u8], place: usize, left: usize) -> RowSpan
    requires at { AreAt body.now (places_from body.now place left) }
    requires some { 0 < left }
    ensures { IsRowSpan body.now place left result.end result.count }
{
    let row = row_in(body, place);
    let prefix = prefix_at(body, place);
    let mut end = end_of(body, place);
    let mut count = 1;
    while count < left {
        if !has_row(body, end, row, prefix) {
            return RowSpan { end, count };
        }
        let next = end_of(body, end);
        end = next;
        count += 1;
    }
    RowSpan { end, count }
}

// The row of the record that lies in the body at a place.
fn row_in(body: &[u8], place: usize) -> &[u8]
    requires { IsAt body.now place }
    ensures { result.now ≡ (record_at body.now place).key.row }
{
    RecordRef::at(body, place).row()
}

// The first 16 bytes of that row, as a number.
fn prefix_at(body: &[u8], place: usize) -> u128
    requires { IsAt body.now place }
    ensures { IsRowPrefix result (record_at body.now place).key.row }
{
    prefix_of(&RecordRef::at(body, place))
}

// Whether the record that lies in the body at a place has this row, whose first 16 bytes are this number. Only a longer row is compared byte
// by byte, by a call of memcmp.
fn has_row(body: &[u8], place: usize, row: &[u8], prefix: u128) -> bool
    requires at { IsAt body.now place }
    requires prefix { IsRowPrefix prefix row.now }
    ensures { IsTrue result → (record_at body.now place).key.row ≡ row.now }
{
    let own = RecordRef::at(body, place).row_piece();
    if own.len() != row.len() {
        return false;
    }
    if prefix_in(&own) != prefix {
        return false;
    }
    if row.len() <= MOST_BYTES {
        return true;
    }
    own.as_slice() == row
}

// The group of the records that lie in the body from a place on, as far as they reach.
fn group_at(body: &[u8], place: usize, span: RowSpan) -> Group<'_>
    requires order { place ≤ span.end }
    requires inside { span.end ≤ length body.now }
    requires filled { IsFilled (slice_range body.now place span.end) span.count }
    requires some { 0 < span.count }
    ensures { result ≡ records_in (slice_range body.now place span.end) span.count }
{
    Group::new(&body[place..span.end])
}
