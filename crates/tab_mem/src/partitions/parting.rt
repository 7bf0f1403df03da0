//! Records of a body that a bound parts: those whose rows stand before its row are lent, and then the others move together.
ghost use Rattle.std.specs.Prelude.{◌≡◌, ◌≤◌, ◌++◌, ◌∷◌, [], length, take, drop, IfOk, OnOk};
ghost use Rattle.tab_key.specs.Encoding.{span_at, record_at, places_from, IsAt, AreAt};
ghost use Rattle.tab_mem.specs.Lists.{IsFilled};
ghost use Rattle.tab_mem.specs.Parting.{records_in, row_below, before, from_bound};

use crate::partitions::lending::item_at;
use crate::partitions::moving::move_piece;
use crate::sorting::item::Item;
use std::alloc::{AllocError, Global};
use tab_key::end_of;

/// Of so many records from the beginning of the body on those whose rows stand before the bound's. Memory is asked for once
/// where they are no more than this many.
pub(crate) fn items_before<'a>(
    alloc: Global,
    body: &'a [u8],
    count: usize,
    bound: &Item<'_>,
    room: usize,
) -> Result<Vec<Item<'a>>, AllocError>
    requires { AreAt body.now (places_from body.now 0 count) }
    ensures { IfOk result (λ v. v.items ≡ before bound.now (records_in body.now count)) }
{
    let mut items = Vec::with_capacity(alloc, room)?;
    let mut place = 0;
    let mut left = count;
    while left > 0 {
        let end = end_of(body, place);
        push_before(&mut items, item_at(body, place, end), bound)?;
        place = end;
        left -= 1;
    }
    Ok(items)
}

// Puts the record behind the others, if its row stands before the bound's.
fn push_before<'a>(
    items: &mut Vec<Item<'a>>,
    item: Item<'a>,
    bound: &Item<'_>,
) -> Result<(), AllocError>
    ensures { OnOk result (items.new.items ≡ items.old.items ++ before bound.now (item.entry ∷ [])) }
{
    if item.cmp_row(bound).is_lt() {
        items.push(item)?;
    }
    Ok(())
}

/// How far records that are kept fill the front of a body.
#[derive(Clone, Copy)]
pub(crate) struct FilledPart {
    /// The bytes that they take.
    pub(crate) bytes: usize,
    /// How many they are.
    pub(crate) count: usize,
}

/// Moves those of so many records whose rows don't stand before the bound's to the front of the body, one after another, in the order in
/// which they lie. It takes no memory.
pub(crate) fn keep_from(body: &mut [u8], count: usize, bound: &Item<'_>) -> FilledPart
    requires { IsFilled body.old count }
    ensures within { result.bytes ≤ length body.new }
    ensures filled { IsFilled (take result.bytes body.new) result.count }
    ensures records { records_in (take result.bytes body.new) result.count ≡ from_bound bound.now (records_in body.old count) }
{
    let mut kept = FilledPart { bytes: 0, count: 0 };
    let mut place = 0;
    let mut left = count;
    while left > 0 {
        let end = end_of(body, place);
        kept = keep_one(body, place, end, kept, bound);
        place = end;
        left -= 1;
    }
    kept
}

// Moves the record that lies in the body from one place up to another, that one excluded, behind those that are kept, unless its
// row stands before the bound's.
fn keep_one(
    body: &mut [u8],
    place: usize,
    end: usize,
    kept: FilledPart,
    bound: &Item<'_>,
) -> FilledPart
    requires within { IsAt body.old place }
    requires end { end ≡ (span_at body.old place).end }
    requires order { kept.bytes ≤ place }
    requires filled { IsFilled (take kept.bytes body.old) kept.count }
    ensures order { result.bytes ≤ end }
    ensures filled { IsFilled (take result.bytes body.new) result.count }
    ensures records { records_in (take result.bytes body.new) result.count ≡ records_in (take kept.bytes body.old) kept.count ++ from_bound bound.now (record_at body.old place ∷ []) }
    ensures behind { drop end body.new ≡ drop end body.old }
    ensures length { length body.new ≡ length body.old }
{
    if is_before(body, place, end, bound) {
        return kept;
    }
    move_piece(body, place, end, kept.bytes);
    FilledPart {
        bytes: kept.bytes + (end - place),
        count: kept.count + 1,
    }
}

// Whether the record that lies in the body from one place up to another, that one excluded, has a row before the bound's.
fn is_before(body: &[u8], place: usize, end: usize, bound: &Item<'_>) -> bool
    requires within { IsAt body.now place }
    requires end { end ≡ (span_at body.now place).end }
    ensures { result ≡ row_below (record_at body.now place) bound.now }
{
    item_at(body, place, end).cmp_row(bound).is_lt()
}
