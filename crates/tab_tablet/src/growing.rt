//! The merged runs with the records of one more run.
ghost use Rattle.std.specs.Prelude.{◌≡◌, ◌≤◌, ◌++◌, ◌∷◌, [], length, IfOk};
ghost use Rattle.std.specs.List.Sorted.{IsPermutation};
ghost use Rattle.tab_key.specs.Sorted.{sorted, IsDistinct};
ghost use Rattle.tab_iter.specs.Bags.{flat};
ghost use Rattle.tab_tablet.specs.MergedRunLists.{held_by};

use crate::merged_runs::{MergedRuns, shares};
use crate::merging::merged;
use std::alloc::Global;
use tab_iter::NoMemory;
use tab_version::{Clip, Clips};

/// The most records of a run that is copied into a merged run.
const MOST_COPIED: usize = 16_384;

/// The most records of a merged run that is made of others.
const MOST_MERGED: usize = 65_536;

/// The merged runs with the records of one more run. These stay as they are, and so does the run.
///
/// Where memory for a merge lacks, the run is a merged run of its own. NoMemory says that there is none for a share of each merged run either.
pub(crate) fn merged_runs_with(
    alloc: Global,
    merged_runs: &MergedRuns,
    run: &Clip,
) -> Result<MergedRuns, NoMemory>
    requires { IsDistinct (run.now ++ held_by merged_runs.now) }
    ensures { IfOk result (λ b. IsPermutation (run.now ++ held_by merged_runs.now) (held_by b)) }
{
    if run.len() > MOST_COPIED {
        return beside(alloc, merged_runs, run);
    }
    let kept = count_kept(merged_runs.merged(), run.len());
    match merged_behind(alloc, merged_runs, kept, run) {
        Ok(with) => Ok(with),
        Err(_) => beside(alloc, merged_runs, run),
    }
}

// The merged runs, and the run as one more.
fn beside(alloc: Global, merged_runs: &MergedRuns, run: &Clip) -> Result<MergedRuns, NoMemory>
    ensures { IfOk result (λ b. IsPermutation (run.now ++ held_by merged_runs.now) (held_by b)) }
{
    let mut with = merged_runs.share(alloc)?;
    with.add_shared(run.share()?)?;
    Ok(with)
}

// The merged runs, but for the merged ones from this one on, which are merged with the run.
fn merged_behind(
    alloc: Global,
    merged_runs: &MergedRuns,
    kept: usize,
    run: &Clip,
) -> Result<MergedRuns, NoMemory>
    requires inside { kept ≤ length merged_runs.now.merged }
    requires distinct { IsDistinct (run.now ++ held_by merged_runs.now) }
    ensures { IfOk result (λ b. IsPermutation (run.now ++ held_by merged_runs.now) (held_by b)) }
{
    let one = merged_with(alloc, &merged_runs.merged()[kept..], run)?;
    let mut with = merged_runs.share(alloc)?;
    with.put_merged(kept, one)?;
    Ok(with)
}

// The merged runs and the run, merged.
fn merged_with(alloc: Global, merged_runs: &[Clip], run: &Clip) -> Result<Clip, NoMemory>
    requires { IsDistinct (flat merged_runs.now ++ run.now) }
    ensures { IfOk result (λ r. r ≡ sorted (flat merged_runs.now ++ run.now)) }
{
    let mut runs = shares(alloc, merged_runs)?;
    runs.push(run.share()?)?;
    let inputs = Clips::of(runs, Vec::new(alloc));
    let one = merged(alloc, &inputs)?;
    Ok(one)
}

// How many of the merged runs stay where so many records come behind them; the others are merged with these.
fn count_kept(merged_runs: &[Clip], count: usize) -> usize
    ensures { result ≤ length merged_runs.now }
{
    let mut kept = merged_runs.len();
    let mut merged = count;
    for merged_run in merged_runs.iter().rev() {
        if !are_merged(merged_run.len(), merged) {
            return kept;
        }
        merged = merged.saturating_add(merged_run.len());
        kept = kept.saturating_sub(1);
    }
    kept
}

// Whether a merged run of so many records is merged with so many that come behind it.
fn are_merged(before: usize, behind: usize) -> bool {
    if before / 2 > behind {
        return false;
    }
    before.saturating_add(behind) <= MOST_MERGED
}
