//! The oracle of the random tests: a table as one list of updates, what a scan of it shows, and what a merge of some updates
//! keeps, each rule in its own words. (Accumulo user manual: deletes, versioning iterator, column visibility, compactions)

use crate::query::{Columns, Query, is_in_rows};
use crate::update::{Update, column_order, order, sort};
use std::alloc::{AllocError, Global};

/// A marker hides what its column has at or below its timestamp.
fn hides(marker: &Update, update: &Update) -> bool {
    !marker.is_put && column_order(marker, update).is_eq() && update.timestamp <= marker.timestamp
}

/// Some marker of the table hides the update.
fn is_deleted(table: &[Update], update: &Update) -> bool {
    table.iter().any(|marker| hides(marker, update))
}

/// The other is an undeleted put of the update's column, and newer.
fn is_outranked_by(table: &[Update], update: &Update, other: &Update) -> bool {
    other.is_put
        && column_order(other, update).is_eq()
        && order(other, update).is_lt()
        && !is_deleted(table, other)
}

/// An undeleted put with fewer newer ones in its column than versions are shown.
fn is_kept(table: &[Update], versions: u32, update: &Update) -> bool {
    let newer = table
        .iter()
        .filter(|other| is_outranked_by(table, update, other))
        .count();
    update.is_put && !is_deleted(table, update) && newer < versions as usize
}

/// The authorizations satisfy the label.
fn is_visible(query: &Query, label: &[u8]) -> bool {
    match label {
        b"" => true,
        b"A" => query.has_a,
        b"B" => query.has_b,
        b"A&B" => query.has_a && query.has_b,
        _ => false,
    }
}

/// The update's column is asked for.
fn is_fetched(query: &Query, update: &Update) -> bool {
    match query.columns {
        Columns::All => true,
        Columns::Family(family) => family == update.family,
        Columns::Qualified(family, qualifier) => {
            family == update.family && qualifier == update.qualifier
        }
    }
}

/// What a scan of the table shows: what is kept, asked for and visible, in its order.
pub fn scanned(alloc: Global, table: &[Update], query: &Query) -> Result<Vec<Update>, AllocError> {
    let mut shown = Vec::new(alloc);
    for update in table {
        if is_kept(table, query.versions, update)
            && is_in_rows(update.row, query.low, query.high)
            && is_fetched(query, update)
            && is_visible(query, update.label)
        {
            shown.push(*update)?;
        }
    }
    sort(&mut shown);
    Ok(shown)
}

/// A marker before which no other of its column stands.
fn is_first_marker(updates: &[Update], update: &Update) -> bool {
    let is_led = updates.iter().any(|other| {
        !other.is_put && column_order(other, update).is_eq() && order(other, update).is_lt()
    });
    !update.is_put && !is_led
}

/// What a merge of these updates keeps, in its order: the puts that are kept, and of each column the first marker. A full merge
/// has a floor, and drops the first marker too where it lies below.
pub fn merged(
    alloc: Global,
    updates: &[Update],
    floor: Option<i64>,
    versions: u32,
) -> Result<Vec<Update>, AllocError> {
    let mut kept = Vec::new(alloc);
    for update in updates {
        let is_low = floor.is_some_and(|floor| update.timestamp < floor);
        if is_kept(updates, versions, update) || is_first_marker(updates, update) && !is_low {
            kept.push(*update)?;
        }
    }
    sort(&mut kept);
    Ok(kept)
}
