//! What is made before a tablet is frozen in its place.
use crate::merged_runs::MergedRuns;
use tab_version::Clip;

/// A run of what was written to a tablet, and what scans then read in the place of its runs.
#[derive(Drop)]
pub struct Freeze {
    pub(crate) run: Clip,
    pub(crate) merged_runs: MergedRuns,
}
