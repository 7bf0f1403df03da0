//! Clips of runs and of a table, and a version of them beside the model.
ghost use Rattle.std.specs.Prelude.{◌≡◌, IfOk, map, option_to_list};
ghost use Rattle.tab_iter.specs.Bags.{flat};
ghost use Rattle.tab_version.specs.Sources.{records_of};

mod caches;
mod copies;
mod cuts;
mod ranges;
mod sessions;

use crate::reading::expect_scan;
use crate::writing::CLOCK;
use std::alloc::{AllocError, Global};
use std::process::Abort;
use std::sync::Arc;
use tab_table::SortedTable;
use tab_testing::{End, Query, Random, Update, scanned};
use tab_version::{Clip, Clips, TableClip, Version};

// The clip as one of a table of its own.
fn tabled(alloc: Global, clip: Clip) -> Result<TableClip, AllocError>
    ensures { IfOk result (λ t. t.records ≡ clip) }
{
    let table = SortedTable::build(alloc, &mut clip.cursor(), 0, 0)?;
    Ok(TableClip::whole(Arc::new(alloc, table)?))
}

// The clip, if there is one, as one of a table of its own.
fn all_tabled(alloc: Global, clip: Option<Clip>) -> Result<Vec<TableClip>, AllocError>
    ensures { IfOk result (λ v. map (λ t. t.records) v.items ≡ option_to_list clip) }
{
    let mut tables = Vec::with_capacity(alloc, 1)?;
    match clip {
        None => Ok(tables),
        Some(clip) => {
            tables.push(tabled(alloc, clip)?)?;
            Ok(tables)
        }
    }
}

// The clips, the last one as one of a table.
fn last_tabled(alloc: Global, clips: Vec<Clip>) -> Result<Clips, AllocError>
    ensures { IfOk result (λ c. records_of c ≡ flat clips.items) }
{
    let mut runs = clips;
    let last = runs.pop();
    let tables = all_tabled(alloc, last)?;
    Ok(Clips::of(runs, tables))
}

// A scan of all rows of the version shows what one of the table does, also from some key on; how many records.
fn compare(
    rt: &impl Abort,
    alloc: Global,
    random: &mut Random,
    rows: &[&'static [u8]],
    version: &Version,
    table: &[Update],
) -> usize {
    let query = Query {
        low: End::Open,
        high: End::Open,
        ..random.query(rows)
    };
    let row = random.one_of(rows);
    let sought = random.update(row, 0, 0, CLOCK);
    let want = scanned(alloc, table, &query).expect(rt, "memory");
    expect_scan(rt, alloc, version, &query, &want, &sought);
    want.len()
}
