//! The row in the middle of some records, at which a tablet is split by size.
ghost use Rattle.std.specs.Prelude.{◌≡◌, length, filter, IfOk};
ghost use Rattle.std.specs.Ordering.{is_lt};
ghost use Rattle.tab_key.specs.Bytes.{bytes_cmp};
ghost use Rattle.tab_key.specs.Sorted.{IsDistinct};
ghost use Rattle.tab_version.specs.Sources.{records_of};
ghost use Rattle.tab_tablet.specs.Splitting.{last_row, middle_row};
ghost use Rattle.tab_tablet.specs.Selecting.{rows_of};

use crate::bounding::{rows_below, rows_up_to};
use crate::row_counting::count_rows;
use crate::selecting::row_at;
use std::alloc::{AllocError, Global};
use tab_key::{Bound, Bounds, ByteString};
use tab_version::Clips;

/// The row in the middle of the records: that at half of their number, rounded down, in their order, or the next lower one where
/// that is the greatest. None where no record is there, or none below the greatest row.
pub(crate) fn middle_row(alloc: Global, sources: &Clips) -> Result<Option<ByteString>, AllocError>
    requires { IsDistinct (records_of sources.now) }
    ensures { IfOk result (λ row. row ≡ middle_row (rows_of (records_of sources.now))) }
{
    let count = count_all(sources);
    if count == 0 {
        return Ok(None);
    }
    let middle = row_at(alloc, sources, count / 2)?;
    let up_to = rows_up_to(&middle)?;
    if count_rows(sources, &up_to) < count {
        return Ok(Some(middle));
    }
    row_below(alloc, sources, &middle)
}

// The greatest row below this one that a record has.
fn row_below(
    alloc: Global,
    sources: &Clips,
    row: &ByteString,
) -> Result<Option<ByteString>, AllocError>
    requires { IsDistinct (records_of sources.now) }
    ensures { IfOk result (λ found. found ≡ last_row (filter (λ r. is_lt (bytes_cmp r row.now)) (rows_of (records_of sources.now)))) }
{
    let below = rows_below(row)?;
    let count = count_rows(sources, &below);
    if count == 0 {
        return Ok(None);
    }
    let found = row_at(alloc, sources, count - 1)?;
    Ok(Some(found))
}

// How many records there are.
fn count_all(sources: &Clips) -> u128
    ensures { result ≡ length (records_of sources.now) }
{
    let all = Bounds {
        low: Bound::Unbounded,
        high: Bound::Unbounded,
    };
    count_rows(sources, &all)
}
