//! The records of sources whose rows are asked for.
ghost use Rattle.std.specs.Prelude.{◌≡◌, ◌++◌, filter, map, IfOk, OnOk};
ghost use Rattle.tab_key.specs.Ranges.{is_in_range};
ghost use Rattle.tab_iter.specs.Bags.{flat};
ghost use Rattle.tab_tablet.specs.MergedRuns.{held_in};
ghost use Rattle.tab_tablet.specs.MergedRunLists.{held_by};
ghost use Rattle.tab_version.specs.Sources.{records_of};

use crate::merged_runs::MergedRuns;
use std::alloc::{AllocError, Global};
use tab_key::Bounds;
use tab_version::{Clip, Clips, TableClip};

/// The part of each merged run and of each table whose rows are in range, without those that have none. No record is copied.
pub(crate) fn clips_in(
    alloc: Global,
    merged_runs: &MergedRuns,
    tables: &[TableClip],
    bounds: &Bounds,
) -> Result<Clips, AllocError>
    ensures { IfOk result (λ c. records_of c ≡ filter (λ u. is_in_range bounds.now u.key.row) (held_by merged_runs.now ++ held_in tables.now)) }
{
    let mut runs = Vec::new(alloc);
    add_parts(&mut runs, merged_runs.shared(), bounds)?;
    add_parts(&mut runs, merged_runs.merged(), bounds)?;
    let tables = tables_in(alloc, tables, bounds)?;
    Ok(Clips::of(runs, tables))
}

/// Puts the part of each run behind the others, without those that have no record in range.
pub(crate) fn add_parts(
    clips: &mut Vec<Clip>,
    runs: &[Clip],
    bounds: &Bounds,
) -> Result<(), AllocError>
    ensures { OnOk result (flat clips.new.items ≡ flat clips.old.items ++ filter (λ u. is_in_range bounds.now u.key.row) (flat runs.now)) }
{
    for run in runs {
        add_run(clips, run.in_rows(bounds)?)?;
    }
    Ok(())
}

// Puts the clip behind the others, if it has a record.
fn add_run(clips: &mut Vec<Clip>, clip: Clip) -> Result<(), AllocError>
    ensures { OnOk result (flat clips.new.items ≡ flat clips.old.items ++ clip) }
{
    if clip.is_empty() {
        return Ok(());
    }
    clips.push(clip)?;
    Ok(())
}

// The part of each table.
fn tables_in(
    alloc: Global,
    tables: &[TableClip],
    bounds: &Bounds,
) -> Result<Vec<TableClip>, AllocError>
    ensures { IfOk result (λ clips. held_in clips.items ≡ filter (λ u. is_in_range bounds.now u.key.row) (held_in tables.now)) }
{
    let mut clips = Vec::new(alloc);
    for table in tables {
        add_table(&mut clips, table.in_rows(bounds)?)?;
    }
    Ok(clips)
}

// Puts the clip behind the others, if it has a record.
fn add_table(clips: &mut Vec<TableClip>, clip: TableClip) -> Result<(), AllocError>
    ensures { OnOk result (flat (map (λ t. t.records) clips.new.items) ≡ flat (map (λ t. t.records) clips.old.items) ++ clip.records) }
{
    if clip.is_empty() {
        return Ok(());
    }
    clips.push(clip)?;
    Ok(())
}
