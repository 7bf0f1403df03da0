//! Merges of the tablets of a table.
ghost use Rattle.std.specs.Prelude.{◌≡◌, IfOk, IfErr};
ghost use Rattle.tab_tablets.specs.Parts.{found_for};

use std::alloc::Global;
use std::marker::Model;
use tab_iter::NoMemory;
use tab_key::ByteString;
use tab_tablet::{Finished, Job, MadeTable, Pending};

/// A merge that was begun in one of the tablets of a table, with the row for which that was found. It is made apart from the table,
/// which goes on meanwhile. A contract sees it as a `TabletMerge`. (Accumulo user manual: minor and major compactions)
pub struct TabletJob {
    row: ByteString,
    job: Job,
}

// Written out, so that a crate above needn't prove anew how the parts are dropped.
impl Drop for TabletJob {
    fn drop(self) {
        let TabletJob { row: _, job: _ } = self;
    }
}

impl Model for TabletJob {
    ghost use Rattle.tab_tablets.specs.Parts.{TabletMerge};

    ghost Value = { TabletMerge };

    ghost view = { λ j. record { row = j.row; merge = j.job } };
}

impl TabletJob {
    /// The job, if there is one, with the row for which its tablet was found.
    pub(crate) fn found_for(row: ByteString, job: Option<Job>) -> Option<TabletJob>
        ensures { result ≡ found_for row job }
    {
        match job {
            Some(job) => Some(TabletJob { row, job }),
            None => None,
        }
    }

    /// The number that it was begun with.
    pub fn number(&self) -> u64
        ensures { result ≡ self.now.merge.number }
    {
        self.job.number()
    }

    /// Makes the merge: a sorted table of what it keeps of its inputs. It takes time linear in what it reads, and for each record the
    /// logarithm of the number of sources.
    ///
    /// It takes memory for that table. Where memory lacks, the job is handed back as it was.
    pub fn merge(self, alloc: Global) -> Result<FinishedJob, (TabletJob, NoMemory)>
        ensures ok { IfOk result (λ f. f ≡ self) }
        ensures err { IfErr result (λ e. e.0 ≡ self) }
    {
        let TabletJob { row, job } = self;
        match job.merge(alloc) {
            Ok(finished) => Ok(FinishedJob { row, finished }),
            Err((job, fault)) => Err((TabletJob { row, job }, fault)),
        }
    }
}

impl Pending for TabletJob {
    type Done = FinishedJob;

    ghost merge = { λ job. job.merge };

    ghost finishes = { λ job finished. finished ≡ job };

    fn job(&self) -> &Job {
        &self.job
    }

    fn finish(self, made: MadeTable) -> FinishedJob {
        let TabletJob { row, job } = self;
        let finished = job.with_table(made);
        FinishedJob { row, finished }
    }
}

/// A merge that was made, to be installed in its tablet. Only [`TabletJob::merge`] and [`merge_all`](tab_tablet::merge_all) make one. A
/// contract sees it as a `TabletMerge`.
pub struct FinishedJob {
    row: ByteString,
    finished: Finished,
}

// Written out, so that a crate above needn't prove anew how the parts are dropped.
impl Drop for FinishedJob {
    fn drop(self) {
        let FinishedJob {
            row: _,
            finished: _,
        } = self;
    }
}

impl Model for FinishedJob {
    ghost use Rattle.tab_tablets.specs.Parts.{TabletMerge};

    ghost Value = { TabletMerge };

    ghost view = { λ f. record { row = f.row; merge = f.finished } };
}

impl FinishedJob {
    /// The number that it was begun with.
    pub fn number(&self) -> u64
        ensures { result ≡ self.now.merge.number }
    {
        self.finished.job().number()
    }

    /// The number of the tablet that it was begun in.
    pub(crate) fn tablet(&self) -> u64
        ensures { result ≡ self.now.merge.tablet }
    {
        self.finished.job().tablet()
    }

    /// The row for which that was found.
    pub(crate) fn row(&self) -> &[u8]
        ensures { result.now ≡ self.now.row }
    {
        self.row.as_bytes()
    }

    /// The merge itself.
    pub(crate) fn into_finished(self) -> Finished
        ensures { result ≡ self.merge }
    {
        let FinishedJob { row: _, finished } = self;
        finished
    }
}
