//! The order of several sources by their first records.
//!
//! An order lists the places of the sources that have records left; the source whose first record stands before the others is the
//! last.
ghost use Rattle.std.specs.Prelude.{◌≡◌, ◌≢◌, ℕ, ◌≤◌, None, true, false, map, length, OnOk};
ghost use Rattle.std.specs.Bool.{OnTrue};
ghost use Rattle.std.specs.List.{AllByRecursion};
ghost use Rattle.std.specs.List.Sorted.{IsPartitionPoint};
ghost use Rattle.tab_iter.specs.Bags.{first_in, is_ahead_at, IsDescending, Covers, IsOutside};
ghost use Rattle.tab_iter.specs.TopPrefix.{IsTopPrefix};

use crate::{NoMemory, Source};
use std::cmp::Ordering;
use tab_key::RecordRef;

/// Makes the order of all sources anew.
pub(crate) fn put_all<S: Source>(sources: &[S], order: &mut Vec<usize>) -> Result<(), NoMemory>
    ensures descending { OnOk result (IsDescending (map S.rest sources.now) order.new.items) }
    ensures covers { OnOk result (Covers (map S.rest sources.now) order.new.items) }
{
    order.clear();
    for i in 0..sources.len() {
        put(sources, order, i)?;
    }
    Ok(())
}

/// Puts the source at this place into the order, if it has records left.
pub(crate) fn put<S: Source>(
    sources: &[S],
    order: &mut Vec<usize>,
    place: usize,
) -> Result<(), NoMemory>
    requires descending { IsDescending (map S.rest sources.now) order.old.items }
    requires outside { IsOutside order.old.items place }
    ensures descending { OnOk result (IsDescending (map S.rest sources.now) order.new.items) }
    ensures inside { OnOk result (IsOutside order.new.items place → first_in (map S.rest sources.now) place ≡ None) }
    ensures kept { OnOk result ((k : ℕ) → IsOutside order.new.items k → IsOutside order.old.items k) }
    ensures others { OnOk result ((k : ℕ) → k ≢ place → IsOutside order.old.items k → IsOutside order.new.items k) }
{
    if top_at(sources, place).is_none() {
        return Ok(());
    }
    if is_first(sources, order, place) {
        order.push(place)?;
        return Ok(());
    }
    let at = count_behind(sources, order, place);
    order.insert(at, place)?;
    Ok(())
}

// Whether no source of the order stands before this one.
#[inline(always)]
fn is_first<S: Source>(sources: &[S], order: &[usize], place: usize) -> bool
    requires { IsDescending (map S.rest sources.now) order.now }
    ensures { OnTrue result (AllByRecursion (λ o. is_ahead_at (map S.rest sources.now) o place ≡ false) order.now) }
{
    match order.last() {
        None => true,
        Some(first) => !is_ahead(sources, *first, place),
    }
}

// How many sources of the order don't stand before this one. They are its first ones.
#[inline(always)]
fn count_behind<S: Source>(sources: &[S], order: &[usize], place: usize) -> usize
    requires { IsDescending (map S.rest sources.now) order.now }
    ensures within { result ≤ length order.now }
    ensures parted { IsPartitionPoint (λ o. is_ahead_at (map S.rest sources.now) o place ≡ false) (λ o. is_ahead_at (map S.rest sources.now) o place ≡ true) order.now result }
{
    order.partition_point(|other| !is_ahead(sources, *other, place))
}

// Whether the first record of one source stands before that of the other. One that is empty stands last. Only where the two prefixes
// are one number are the records read.
#[inline(always)]
fn is_ahead<S: Source>(sources: &[S], place: usize, other: usize) -> bool
    ensures { result ≡ is_ahead_at (map S.rest sources.now) place other }
{
    let prefix = prefix_at(sources, place);
    let rival = prefix_at(sources, other);
    match prefix.cmp(&rival) {
        Ordering::Less => true,
        Ordering::Equal => is_record_ahead(sources, place, other),
        Ordering::Greater => false,
    }
}

// `is_ahead` by the records themselves.
#[inline(never)]
fn is_record_ahead<S: Source>(sources: &[S], place: usize, other: usize) -> bool
    ensures { result ≡ is_ahead_at (map S.rest sources.now) place other }
{
    match top_at(sources, place) {
        None => false,
        Some(record) => match top_at(sources, other) {
            None => true,
            Some(rival) => record.cmp(&rival).is_lt(),
        },
    }
}

// The row prefix of the first record that the source at this place has left; the largest number where there is none.
#[inline(always)]
fn prefix_at<S: Source>(sources: &[S], place: usize) -> u128
    ensures { IsTopPrefix result (first_in (map S.rest sources.now) place) }
{
    match sources.get(place) {
        None => u128::MAX,
        Some(source) => source.top_prefix(),
    }
}

/// The first record that the source at this place has left, if there is such a source.
#[inline]
pub(crate) fn top_at<S: Source>(sources: &[S], place: usize) -> Option<RecordRef<'_>>
    ensures { result ≡ first_in (map S.rest sources.now) place }
{
    match sources.get(place) {
        None => None,
        Some(source) => source.top(),
    }
}
