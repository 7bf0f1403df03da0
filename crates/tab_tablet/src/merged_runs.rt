//! What scans read in the place of runs: few merged runs, however many runs there are.
//!
//! A small run is merged with the small merged runs before it, so that each of these has more than twice the records of the next one; a
//! large one is shared. So the merged runs are as many as the logarithm of the records, and one more for each 16,384 records at most.
ghost use Rattle.std.specs.Prelude.{◌≡◌, ◌++◌, ◌∷◌, [], filter, take, IfOk, OnOk};
ghost use Rattle.tab_key.specs.Ranges.{is_in_range};
ghost use Rattle.tab_tablet.specs.MergedRunLists.{no_merged_runs, held_by};

use crate::clipping::add_parts;
use std::alloc::{AllocError, Global};
use std::marker::Model;
use tab_key::Bounds;
use tab_version::Clip;

/// Merged runs: shares of runs as they are, and runs that small ones were merged into. A contract sees the records of each.
#[derive(Drop)]
pub(crate) struct MergedRuns {
    shared: Vec<Clip>,
    merged: Vec<Clip>,
}

impl Model for MergedRuns {
    ghost use Rattle.tab_tablet.specs.MergedRunLists.{MergedRuns as Contents};

    ghost Value = { Contents };

    ghost view = { λ b. record { shared = b.shared.items; merged = b.merged.items } };
}

impl MergedRuns {
    /// No merged runs. It takes no memory.
    pub(crate) fn new(alloc: Global) -> MergedRuns
        ensures { result ≡ no_merged_runs }
    {
        MergedRuns {
            shared: Vec::new(alloc),
            merged: Vec::new(alloc),
        }
    }

    /// These merged runs. It takes no memory.
    pub(crate) fn of(shared: Vec<Clip>, merged: Vec<Clip>) -> MergedRuns
        ensures { result ≡ record { shared = shared.items; merged = merged.items } }
    {
        MergedRuns { shared, merged }
    }

    /// The runs that are shared as they are.
    pub(crate) fn shared(&self) -> &[Clip]
        ensures { result.now ≡ self.now.shared }
    {
        self.shared.as_slice()
    }

    /// The runs that small ones were merged into.
    pub(crate) fn merged(&self) -> &[Clip]
        ensures { result.now ≡ self.now.merged }
    {
        self.merged.as_slice()
    }

    /// A copy that shares the merged runs.
    pub(crate) fn share(&self, alloc: Global) -> Result<MergedRuns, AllocError>
        ensures { IfOk result (λ b. b ≡ self.now) }
    {
        let shared = shares(alloc, &self.shared)?;
        let merged = shares(alloc, &self.merged)?;
        Ok(MergedRuns { shared, merged })
    }

    /// The merged runs, each cut to the rows in bounds, without those that have no record there.
    pub(crate) fn in_rows(&self, alloc: Global, bounds: &Bounds) -> Result<MergedRuns, AllocError>
        ensures { IfOk result (λ b. held_by b ≡ filter (λ u. is_in_range bounds.now u.key.row) (held_by self.now)) }
    {
        let mut shared = Vec::new(alloc);
        add_parts(&mut shared, &self.shared, bounds)?;
        let mut merged = Vec::new(alloc);
        add_parts(&mut merged, &self.merged, bounds)?;
        Ok(MergedRuns { shared, merged })
    }

    /// Puts the run behind those that are shared as they are.
    pub(crate) fn add_shared(&mut self, run: Clip) -> Result<(), AllocError>
        ensures { OnOk result (self.new ≡ record (self.old) { shared = self.old.shared ++ run ∷ [] }) }
    {
        self.shared.push(run)?;
        Ok(())
    }

    /// Puts the run in the place of all those merged from this one on.
    pub(crate) fn put_merged(&mut self, kept: usize, run: Clip) -> Result<(), AllocError>
        ensures { OnOk result (self.new ≡ record (self.old) { merged = take kept self.old.merged ++ run ∷ [] }) }
    {
        self.merged.truncate(kept);
        self.merged.push(run)?;
        Ok(())
    }
}

/// A copy that shares the runs.
pub(crate) fn shares(alloc: Global, runs: &[Clip]) -> Result<Vec<Clip>, AllocError>
    ensures { IfOk result (λ v. v.items ≡ runs.now) }
{
    let mut shared = Vec::with_capacity(alloc, runs.len())?;
    for run in runs {
        shared.push(run.share()?)?;
    }
    Ok(shared)
}
