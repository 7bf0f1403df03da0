//! What a compaction reads of the sources that a tablet holds.
ghost use Rattle.std.specs.Prelude.{◌≡◌, ◌==◌, [], nat_lt, IfOk, OnOk};
ghost use Rattle.std.specs.List.{prefix_len};
ghost use Rattle.tab_key.specs.Sorted.{IsDistinct};
ghost use Rattle.tab_version.specs.Sources.{records_of, count_of};
ghost use Rattle.tab_compact.specs.Plans.{plan};
ghost use Rattle.tab_compact.specs.Merges.{put_by_size, by_size, sizes_of, taken, inputs_of, captured};

use crate::{Job, plan};
use std::alloc::Global;
use tab_cells::Compaction;
use tab_iter::NoMemory;
use tab_version::{Clips, TableClip};

/// The merge that a compaction begins on these sources of the tablet with this number, with the floor of their table's timestamps and
/// so many versions of a column; none where there is nothing to merge. The merge gets the number that is given for it.
///
/// A minor compaction reads all runs, a partial one the smallest tables, as many as [`plan`] says, and a full one all sources. What
/// it reads is shared. The error comes only from want of memory.
pub fn capture(
    alloc: Global,
    tablet: u64,
    number: u64,
    kind: Compaction,
    sources: &Clips,
    floor: i64,
    versions: u32,
) -> Result<Option<Job>, NoMemory>
    requires { IsDistinct (records_of sources.now) }
    ensures { IfOk result (λ job. job ≡ captured tablet number kind floor versions sources.now) }
{
    let inputs = inputs_of(alloc, kind, sources)?;
    if is_nothing(&inputs) {
        return Ok(None);
    }
    Ok(Some(Job::new(tablet, number, kind, inputs, floor, versions)))
}

// Whether there is no source.
fn is_nothing(sources: &Clips) -> bool
    ensures { result ≡ (count_of sources.now == 0) }
{
    sources.runs().is_empty() && sources.tables().is_empty()
}

// The sources that a compaction reads.
fn inputs_of(alloc: Global, kind: Compaction, sources: &Clips) -> Result<Clips, NoMemory>
    ensures { IfOk result (λ c. c ≡ inputs_of kind sources.now) }
{
    match kind {
        Compaction::Minor => Ok(runs_alone(alloc, sources.share(alloc)?)),
        Compaction::Partial => {
            let tables = smallest(alloc, sources.tables())?;
            Ok(Clips::of(Vec::new(alloc), tables))
        }
        Compaction::Full => Ok(sources.share(alloc)?),
    }
}

// The runs of these sources, without the tables.
fn runs_alone(alloc: Global, sources: Clips) -> Clips
    ensures { result ≡ record { runs = sources.runs; tables = [] } }
{
    let (runs, _) = sources.into_parts();
    Clips::of(runs, Vec::new(alloc))
}

// The smallest tables, as many as the plan says.
fn smallest(alloc: Global, tables: &[TableClip]) -> Result<Vec<TableClip>, NoMemory>
    ensures { IfOk result (λ v. v.items ≡ taken (plan (sizes_of (by_size tables.now))) (by_size tables.now)) }
{
    let mut sorted = by_size(alloc, tables)?;
    let sizes = sizes_of(alloc, &sorted)?;
    sorted.truncate(plan(&sizes).unwrap_or(0));
    Ok(sorted)
}

// The sizes of the tables.
fn sizes_of(alloc: Global, tables: &[TableClip]) -> Result<Vec<u64>, NoMemory>
    ensures { IfOk result (λ v. v.items ≡ sizes_of tables.now) }
{
    let mut sizes = Vec::with_capacity(alloc, tables.len())?;
    for table in tables {
        sizes.push(table.size())?;
    }
    Ok(sizes)
}

// The tables by size, each shared once more; those of equal size stay in their order.
#[tactic(auto, using(crate::proofs::BySize::by_size_more))]
fn by_size(alloc: Global, tables: &[TableClip]) -> Result<Vec<TableClip>, NoMemory>
    ensures { IfOk result (λ v. v.items ≡ by_size tables.now) }
{
    let mut sorted = Vec::with_capacity(alloc, tables.len())?;
    let mut left = tables.len();
    while 0 < left {
        left -= 1;
        put_by_size(&mut sorted, tables[left].share()?)?;
    }
    Ok(sorted)
}

// Puts the table before those that aren't smaller.
fn put_by_size(tables: &mut Vec<TableClip>, table: TableClip) -> Result<(), NoMemory>
    ensures { OnOk result (tables.new.items ≡ put_by_size table tables.old.items) }
{
    let at = count_smaller(tables, table.size());
    tables.insert(at, table)?;
    Ok(())
}

// How many of the first tables are smaller than this size.
fn count_smaller(tables: &[TableClip], size: u64) -> usize
    ensures { result ≡ prefix_len (λ t. nat_lt t.size size) tables.now }
{
    tables
        .iter()
        .take_while(|table| table.size() < size)
        .count()
}
