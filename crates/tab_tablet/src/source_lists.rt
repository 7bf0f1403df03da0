//! Frozen runs and sorted tables, with the merged runs that scans read in the place of the runs.
ghost use Rattle.std.specs.Prelude.{◌≡◌, ◌↔◌, ◌==◌, ◌++◌, ◌∷◌, [], Some, false, filter, length, is_some, IsTrue, IfOk, OnOk, OnErr};
ghost use Rattle.tab_key.specs.Ranges.{is_in_range};
ghost use Rattle.tab_key.specs.Sorted.{sorted, IsDistinct};
ghost use Rattle.tab_version.specs.Sources.{clipped, no_sources, records_of, left_by, with_table};
ghost use Rattle.tab_compact.specs.Merges.{output, captured};
ghost use Rattle.tab_tablet.specs.MergedRuns.{AreMergedRuns, Freezes, merged_runs_after};
ghost use Rattle.tab_tablet.specs.Spared.{sources_after};

use crate::clipping::clips_in;
use crate::compacting::compacted;
use crate::freeze::Freeze;
use crate::growing::merged_runs_with;
use crate::merged_runs::{MergedRuns, shares};
use std::alloc::{AllocError, Global};
use std::marker::Model;
use tab_cells::Compaction;
use tab_compact::Finished;
use tab_iter::NoMemory;
use tab_key::Bounds;
use tab_mem::Active;
use tab_version::{Clip, Clips, TableClip};

/// Frozen runs and sorted tables, and merged runs that hold what the runs hold: few, however many runs there are. A contract sees the
/// runs and the tables.
#[derive(Drop)]
pub(crate) struct SourceLists {
    sources: Clips,
    merged_runs: MergedRuns,
}

impl Model for SourceLists {
    ghost use Rattle.tab_version.specs.Sources.{Sources};
    ghost use Rattle.tab_tablet.specs.MergedRuns.{AreMergedRuns};

    ghost Value = { Sources };

    ghost view = { λ l. l.sources };

    ghost invariant = { λ l. AreMergedRuns l.sources.runs l.merged_runs };
}

impl SourceLists {
    /// No sources. It takes no memory.
    pub(crate) fn new(alloc: Global) -> SourceLists
        ensures { result ≡ no_sources }
    {
        SourceLists {
            sources: Clips::new(alloc),
            merged_runs: MergedRuns::new(alloc),
        }
    }

    /// Sources without a run. It takes no memory.
    pub(crate) fn of_tables(alloc: Global, sources: Clips) -> SourceLists
        requires { sources.runs ≡ [] }
        ensures { result ≡ sources }
    {
        SourceLists {
            sources,
            merged_runs: MergedRuns::new(alloc),
        }
    }

    /// Whether there is neither a run nor a table.
    pub(crate) fn is_empty(&self) -> bool
        ensures { IsTrue result ↔ (self.now ≡ no_sources) }
    {
        self.sources.runs().is_empty() && self.sources.tables().is_empty()
    }

    /// The runs and the tables.
    pub(crate) fn sources(&self) -> &Clips
        ensures { result.now ≡ self.now }
    {
        &self.sources
    }

    /// A copy that shares the sources and the merged runs.
    pub(crate) fn share(&self, alloc: Global) -> Result<SourceLists, AllocError>
        ensures { IfOk result (λ l. l ≡ self.now) }
    {
        let sources = self.sources.share(alloc)?;
        let merged_runs = self.merged_runs.share(alloc)?;
        Ok(SourceLists {
            sources,
            merged_runs,
        })
    }

    /// A copy that shares the sources, each cut to the rows in bounds, and so is each merged run.
    pub(crate) fn in_rows(&self, alloc: Global, bounds: &Bounds) -> Result<SourceLists, AllocError>
        requires { IsDistinct (records_of self.now) }
        ensures { IfOk result (λ l. l ≡ clipped (is_in_range bounds.now) self.now) }
    {
        let sources = self.sources.in_rows(alloc, bounds)?;
        let merged_runs = self.merged_runs.in_rows(alloc, bounds)?;
        Ok(SourceLists {
            sources,
            merged_runs,
        })
    }

    /// What a scan of these rows reads: the parts of the merged runs and of the tables.
    pub(crate) fn clips(&self, alloc: Global, bounds: &Bounds) -> Result<Clips, AllocError>
        requires { IsDistinct (records_of self.now) }
        ensures { IfOk result (λ c. sorted (records_of c) ≡ sorted (filter (λ u. is_in_range bounds.now u.key.row) (records_of self.now))) }
    {
        clips_in(alloc, &self.merged_runs, self.sources.tables(), bounds)
    }

    /// A run of these records, of which there are some, and the merged runs with it.
    pub(crate) fn prepare(&self, alloc: Global, active: &Active) -> Result<Freeze, AllocError>
        requires some { (length active.now == 0) ≡ false }
        requires distinct { IsDistinct (active.now ++ records_of self.now) }
        ensures { IfOk result (λ f. Freezes active.now self.now f) }
    {
        let run = Clip::whole(active.to_run(alloc)?);
        let merged_runs = merged_runs_with(alloc, &self.merged_runs, &run)?;
        Ok(Freeze { run, merged_runs })
    }

    /// What a scan of these rows reads once this run is put behind the others.
    pub(crate) fn clips_after(
        &self,
        alloc: Global,
        freeze: &Freeze,
        bounds: &Bounds,
    ) -> Result<Clips, AllocError>
        requires merged_runs { AreMergedRuns (self.now.runs ++ freeze.now.run ∷ []) freeze.now.merged_runs }
        requires distinct { IsDistinct (records_of (record (self.now) { runs = self.now.runs ++ freeze.now.run ∷ [] })) }
        ensures { IfOk result (λ c. sorted (records_of c) ≡ sorted (filter (λ u. is_in_range bounds.now u.key.row) (records_of (record (self.now) { runs = self.now.runs ++ freeze.now.run ∷ [] })))) }
    {
        clips_in(alloc, &freeze.merged_runs, self.sources.tables(), bounds)
    }

    /// Puts the run behind the others. `AllocError` leaves all as it was.
    pub(crate) fn put(&mut self, freeze: Freeze) -> Result<(), AllocError>
        requires { AreMergedRuns (self.old.runs ++ freeze.run ∷ []) freeze.merged_runs }
        ensures ok { OnOk result (self.new ≡ record (self.old) { runs = self.old.runs ++ freeze.run ∷ [] }) }
        ensures err { OnErr result (self.new ≡ self.old) }
    {
        let Freeze { run, merged_runs } = freeze;
        self.sources.add_run(run)?;
        self.merged_runs = merged_runs;
        Ok(())
    }

    /// The sources after a compaction of this kind of the tablet with this number, and whether there was anything to merge, as
    /// `compacting` says.
    pub(crate) fn compacted(
        self,
        alloc: Global,
        tablet: u64,
        kind: Compaction,
        floor: i64,
        versions: u32,
    ) -> Result<(SourceLists, bool), NoMemory>
        requires { IsDistinct (records_of self) }
        ensures sources { IfOk result (λ p. p.0 ≡ sources_after kind (captured tablet 0 kind floor versions self) self) }
        ensures is_merged { IfOk result (λ p. p.1 ≡ is_some (captured tablet 0 kind floor versions self)) }
    {
        let SourceLists {
            sources,
            merged_runs,
        } = self;
        let (sources, is_merged) = compacted(alloc, tablet, kind, sources, floor, versions)?;
        let merged_runs = merged_runs_after(alloc, kind, merged_runs);
        Ok((
            SourceLists {
                sources,
                merged_runs,
            },
            is_merged,
        ))
    }

    /// The sources that are left where the merge's inputs are taken out, with what it made behind them. These stay as they are. It takes
    /// memory for a share of each run or merged run.
    pub(crate) fn installed(
        &self,
        alloc: Global,
        left: Clips,
        finished: Finished,
    ) -> Result<SourceLists, AllocError>
        requires { left_by finished.inputs self.now ≡ Some left }
        ensures { IfOk result (λ l. l ≡ with_table (output finished) left) }
    {
        let merged_runs = self.merged_runs_left(alloc, &left, finished.job().inputs())?;
        let mut sources = left;
        sources.add_table(TableClip::whole(finished.into_table()))?;
        Ok(SourceLists {
            sources,
            merged_runs,
        })
    }

    // The merged runs of the runs that are left where these inputs are taken out: where there are no runs among these, all runs are left.
    fn merged_runs_left(
        &self,
        alloc: Global,
        left: &Clips,
        inputs: &Clips,
    ) -> Result<MergedRuns, AllocError>
        requires { left_by inputs.now self.now ≡ Some left.now }
        ensures { IfOk result (λ b. AreMergedRuns left.now.runs b) }
    {
        if inputs.runs().is_empty() {
            let merged_runs = self.merged_runs.share(alloc)?;
            return Ok(merged_runs);
        }
        let merged_runs = own_merged_runs(alloc, left.runs())?;
        Ok(merged_runs)
    }
}

// A share of each run, as a merged run.
fn own_merged_runs(alloc: Global, runs: &[Clip]) -> Result<MergedRuns, AllocError>
    ensures { IfOk result (λ b. b ≡ record { shared = runs.now; merged = [] }) }
{
    let shared = shares(alloc, runs)?;
    Ok(MergedRuns::of(shared, Vec::new(alloc)))
}

// The merged runs after a compaction of this kind: a partial one leaves the runs, the others merge them.
fn merged_runs_after(alloc: Global, kind: Compaction, merged_runs: MergedRuns) -> MergedRuns
    ensures { result ≡ merged_runs_after kind merged_runs }
{
    match kind {
        Compaction::Minor => MergedRuns::new(alloc),
        Compaction::Partial => merged_runs,
        Compaction::Full => MergedRuns::new(alloc),
    }
}
