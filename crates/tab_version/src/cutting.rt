//! Clips cut to rows.
ghost use Rattle.std.specs.Prelude.{◌≡◌, IfOk, filter, map};
ghost use Rattle.tab_key.specs.Ranges.{is_in_range};
ghost use Rattle.tab_version.specs.Sources.{Sorted};

use crate::{Clip, TableClip};
use std::alloc::{AllocError, Global};
use tab_key::Bounds;

/// The runs, each cut to the rows in bounds; one without a record there stays.
pub(crate) fn runs_in(
    alloc: Global,
    runs: &[Clip],
    bounds: &Bounds,
) -> Result<Vec<Clip>, AllocError>
    ensures { IfOk result (λ v. v.items ≡ map (filter (λ u. is_in_range bounds.now u.key.row)) runs.now) }
{
    let mut cut = Vec::with_capacity(alloc, runs.len())?;
    for run in runs {
        let part = run.in_rows(bounds)?;
        cut.push(part)?;
    }
    Ok(cut)
}

/// The tables, each cut to the rows in bounds; one without a record there stays.
pub(crate) fn tables_in(
    alloc: Global,
    tables: &[TableClip],
    bounds: &Bounds,
) -> Result<Vec<TableClip>, AllocError>
    ensures { IfOk result (λ v. v.items ≡ map (λ (t : Sorted). record t { records = filter (λ u. is_in_range bounds.now u.key.row) t.records }) tables.now) }
{
    let mut cut = Vec::with_capacity(alloc, tables.len())?;
    for table in tables {
        let part = table.in_rows(bounds)?;
        cut.push(part)?;
    }
    Ok(cut)
}
