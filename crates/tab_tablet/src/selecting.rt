//! The row at a place of the records in their order, found without ordering them.
//!
//! What is left of each source is cut at one row after another, until one is the row that is sought. A cut leaves out at least a
//! quarter of the records, so their number grows with the logarithm of that of the records; each takes time logarithmic in each source.
ghost use Rattle.std.specs.Prelude.{◌≡◌, ◌<◌, ◌≤◌, Some, length, slice_get, IfOk, OnOk, MatchOption};
ghost use Rattle.std.specs.Bool.{MatchBool};
ghost use Rattle.tab_key.specs.Ranges.{is_in_range};
ghost use Rattle.tab_key.specs.Sorted.{IsDistinct};
ghost use Rattle.tab_version.specs.Sources.{clipped, records_of};
ghost use Rattle.tab_tablet.specs.Selecting.{rows_of, count_below, count_upto, HasRow, IsNarrower};

use crate::bounding::{rows_above, rows_below, rows_up_to};
use crate::probing::probe;
use crate::row_counting::count_rows;
use std::alloc::{AllocError, Global};
use tab_key::{Bounds, ByteString};
use tab_version::Clips;

// The records among which the row is, and its place among these.
#[derive(Drop)]
struct Search {
    left: Clips,
    place: u128,
}

/// The row at this place, counted from 0, of the records in their order. No record is copied.
///
/// It takes memory for a share and a row of each source. `AllocError` says that it lacked.
pub(crate) fn row_at(alloc: Global, sources: &Clips, place: u128) -> Result<ByteString, AllocError>
    requires distinct { IsDistinct (records_of sources.now) }
    requires inside { place < length (records_of sources.now) }
    ensures { IfOk result (λ row. slice_get (rows_of (records_of sources.now)) place ≡ Some row) }
{
    let left = sources.share(alloc)?;
    let mut search = Search { left, place };
    'cuts: loop {
        match search.narrow(alloc) {
            Ok(Some(row)) => return Ok(row),
            Ok(None) => {}
            Err(fault) => return Err(fault),
        }
    }
}

impl Search {
    // The row, where the cut is made at it; else leaves fewer records.
    fn narrow(&mut self, alloc: Global) -> Result<Option<ByteString>, AllocError>
        requires distinct { IsDistinct (records_of self.old.left) }
        requires inside { self.old.place < length (records_of self.old.left) }
        ensures { IfOk result (λ found. MatchOption found (IsNarrower (records_of self.old.left) self.old.place (records_of self.new.left) self.new.place) (λ row. slice_get (rows_of (records_of self.old.left)) self.old.place ≡ Some row)) }
    {
        let row = probe(alloc, &self.left)?;
        if self.cut_below(alloc, &row)? {
            return Ok(None);
        }
        if self.cut_above(alloc, &row)? {
            return Ok(None);
        }
        Ok(Some(row))
    }

    // Leaves the records below the row of one, if the place is among these. Whether it is.
    fn cut_below(&mut self, alloc: Global, row: &ByteString) -> Result<bool, AllocError>
        requires distinct { IsDistinct (records_of self.old.left) }
        requires held { HasRow (records_of self.old.left) row.now }
        ensures { IfOk result (λ cut. MatchBool cut (IsNarrower (records_of self.old.left) self.old.place (records_of self.new.left) self.new.place) ((self.new ≡ self.old) × (count_below row.now (records_of self.old.left) ≤ self.old.place))) }
    {
        let below = rows_below(row)?;
        if count_rows(&self.left, &below) <= self.place {
            return Ok(false);
        }
        self.keep(alloc, &below)?;
        Ok(true)
    }

    // Leaves the records above the row of one, if the place is among these. Whether it is.
    fn cut_above(&mut self, alloc: Global, row: &ByteString) -> Result<bool, AllocError>
        requires distinct { IsDistinct (records_of self.old.left) }
        requires inside { self.old.place < length (records_of self.old.left) }
        requires held { HasRow (records_of self.old.left) row.now }
        ensures { IfOk result (λ cut. MatchBool cut (IsNarrower (records_of self.old.left) self.old.place (records_of self.new.left) self.new.place) ((self.new ≡ self.old) × (self.old.place < count_upto row.now (records_of self.old.left)))) }
    {
        let up_to = rows_up_to(row)?;
        let count = count_rows(&self.left, &up_to);
        if self.place < count {
            return Ok(false);
        }
        let above = rows_above(row)?;
        self.keep(alloc, &above)?;
        self.place -= count;
        Ok(true)
    }

    // Leaves the records whose rows are in bounds.
    fn keep(&mut self, alloc: Global, bounds: &Bounds) -> Result<(), AllocError>
        ensures { OnOk result (self.new ≡ record (self.old) { left = clipped (is_in_range bounds.now) self.old.left }) }
    {
        self.left = self.left.in_rows(alloc, bounds)?;
        Ok(())
    }
}
