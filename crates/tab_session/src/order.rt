//! The order in which ranges are read.
ghost use Rattle.std.specs.Prelude.{◌≡◌, IfOk};
ghost use Rattle.std.specs.List.{enumerate_from};
ghost use Rattle.std.specs.List.Sorted.{IsPermutation, IsSortedBy};
ghost use Rattle.tab_session.specs.LowEnds.{low_row, begins_before};

use std::alloc::{AllocError, Global};
use std::marker::Model;
use tab_key::{Bound, Bounds};

/// A range of rows, and its place among those that were asked for. A contract sees the two.
#[derive(Drop)]
pub(crate) struct Placed<'a> {
    rows: &'a Bounds,
    place: usize,
}

impl<'a> Model for Placed<'a> {
    ghost use Rattle.std.specs.Prelude.{ℕ};
    ghost use Rattle.tab_key.specs.declared.range.Bounds.{Bounds as Ends};

    ghost Value = { ℕ × Ends };

    ghost view = { λ p. (p.place, p.rows.now) };
}

impl<'a> Placed<'a> {
    /// The range.
    pub(crate) fn rows(&self) -> &'a Bounds
        ensures { result.now ≡ self.now.1 }
    {
        self.rows
    }

    /// Its place.
    pub(crate) fn place(&self) -> usize
        ensures { result ≡ self.now.0 }
    {
        self.place
    }

    // The row of the low end, the first one where there is none.
    fn low(&self) -> &'a [u8]
        ensures { result.now ≡ low_row self.now.1.low }
    {
        match &self.rows.low {
            Bound::Unbounded => b"",
            Bound::Inclusive(row) | Bound::Exclusive(row) => row.as_bytes(),
        }
    }
}

/// The ranges in the order of their low ends: what lies together in the table is read one behind the other. It takes 16 bytes for each.
pub(crate) fn by_low_ends(alloc: Global, ranges: &[Bounds]) -> Result<Vec<Placed<'_>>, AllocError>
    ensures all { IfOk result (λ order. IsPermutation (enumerate_from 0 ranges.now) order.items) }
    ensures rises { IfOk result (λ order. IsSortedBy begins_before order.items) }
{
    let mut order = as_asked(alloc, ranges)?;
    order.sort_unstable_by(|a, b| a.low().cmp(b.low()));
    Ok(order)
}

// The ranges as they were asked for.
fn as_asked(alloc: Global, ranges: &[Bounds]) -> Result<Vec<Placed<'_>>, AllocError>
    ensures { IfOk result (λ order. order.items ≡ enumerate_from 0 ranges.now) }
{
    let mut order = Vec::with_capacity(alloc, ranges.len())?;
    for (place, rows) in ranges.iter().enumerate() {
        order.push(Placed { rows, place })?;
    }
    Ok(order)
}
