//! The sources after a compaction.
ghost use Rattle.std.specs.Prelude.{◌≡◌, Some, is_some, IfOk};
ghost use Rattle.tab_key.specs.Sorted.{IsDistinct};
ghost use Rattle.tab_version.specs.Sources.{records_of, with_table};
ghost use Rattle.tab_compact.specs.Merges.{output, inputs_of, captured};
ghost use Rattle.tab_tablet.specs.Spared.{spared, sources_after};

use crate::sparing::spared;
use std::alloc::Global;
use tab_cells::Compaction;
use tab_compact::{Finished, Job, capture};
use tab_iter::NoMemory;
use tab_version::{Clips, TableClip};

/// The sources after a compaction of this kind, with the floor of their table's timestamps and so many versions of a column: what
/// its merge makes takes the place of what it reads, and comes last; and whether there was anything to merge. Where there was nothing
/// they stay.
pub(crate) fn compacted(
    alloc: Global,
    tablet: u64,
    kind: Compaction,
    sources: Clips,
    floor: i64,
    versions: u32,
) -> Result<(Clips, bool), NoMemory>
    requires { IsDistinct (records_of sources) }
    ensures sources { IfOk result (λ p. p.0 ≡ sources_after kind (captured tablet 0 kind floor versions sources) sources) }
    ensures is_merged { IfOk result (λ p. p.1 ≡ is_some (captured tablet 0 kind floor versions sources)) }
{
    match capture(alloc, tablet, 0, kind, &sources, floor, versions)? {
        Some(job) => Ok((merged(alloc, kind, sources, job)?, true)),
        None => Ok((sources, false)),
    }
}

// The sources after the merge of those that a compaction of this kind reads.
fn merged(alloc: Global, kind: Compaction, sources: Clips, job: Job) -> Result<Clips, NoMemory>
    requires { job.inputs ≡ inputs_of kind sources }
    ensures { IfOk result (λ c. c ≡ with_table (output job) (spared kind sources)) }
{
    match job.merge(alloc) {
        Ok(finished) => replaced(alloc, kind, sources, finished),
        Err((_, fault)) => Err(fault),
    }
}

// The sources, with what the merge made in the place of what it read.
fn replaced(
    alloc: Global,
    kind: Compaction,
    sources: Clips,
    finished: Finished,
) -> Result<Clips, NoMemory>
    requires { finished.inputs ≡ inputs_of kind sources }
    ensures { IfOk result (λ c. c ≡ with_table (output finished) (spared kind sources)) }
{
    let mut left = spared(alloc, kind, finished.job().inputs(), sources);
    left.add_table(TableClip::whole(finished.into_table()))?;
    Ok(left)
}
