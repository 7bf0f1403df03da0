//! A merge that is made.
ghost use Rattle.std.specs.Prelude.{◌≡◌};
ghost use Rattle.tab_table.specs.SortedTables.{records};
ghost use Rattle.tab_compact.specs.Merges.{output};

use crate::Job;
use std::marker::Model;
use std::sync::Arc;
use tab_table::SortedTable;

/// A job with the table that its merge made. Only [`Job::merge`] and [`merge_many`](crate::merge_many) make one. A contract sees the job's `Merge`.
pub struct Finished {
    job: Job,
    table: Arc<SortedTable>,
}

// Written out, so that a crate above needn't prove anew how the parts are dropped.
impl Drop for Finished {
    fn drop(self) {
        let Finished { job: _, table: _ } = self;
    }
}

impl Model for Finished {
    ghost use Rattle.std.specs.Prelude.{◌≡◌};
    ghost use Rattle.tab_table.specs.SortedTables.{records};
    ghost use Rattle.tab_compact.specs.Merges.{Merge, output};

    ghost Value = { Merge };

    ghost view = { λ f. f.job };

    ghost invariant = { λ f. records f.table.value ≡ output f.job };
}

impl Finished {
    // The job with its table.
    pub(crate) fn new(job: Job, table: Arc<SortedTable>) -> Finished
        requires { records table.value ≡ output job }
        ensures { result ≡ job }
    {
        Finished { job, table }
    }

    /// The job that was done.
    pub fn job(&self) -> &Job
        ensures { result.now ≡ self.now }
    {
        &self.job
    }

    /// The table that the merge made.
    pub fn table(&self) -> &Arc<SortedTable>
        ensures { records result.now.value ≡ output self.now }
    {
        &self.table
    }

    /// The table that the merge made, taken out. The job and its share of the sources are dropped.
    pub fn into_table(self) -> Arc<SortedTable>
        ensures { records result.value ≡ output self }
    {
        let Finished { job: _, table } = self;
        table
    }
}
