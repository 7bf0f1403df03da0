//! What holds a merge that is to be made.
ghost use Rattle.std.specs.Prelude.{◌≡◌, IfOk};
ghost use Rattle.tab_compact.specs.Merges.{Merge, output};

use crate::{Finished, Job};
use std::alloc::Global;
use std::marker::Model;
use std::sync::Arc;
use tab_iter::NoMemory;
use tab_table::SortedTable;

/// The table that a merge made, apart from its job. A contract sees its records.
#[derive(Drop)]
pub struct MadeTable {
    table: Arc<SortedTable>,
}

impl Model for MadeTable {
    ghost use Rattle.std.specs.Prelude.{List};
    ghost use Rattle.tab_key.specs.Records.{Record as Fields};
    ghost use Rattle.tab_table.specs.SortedTables.{records};

    ghost Value = { List Fields };

    ghost view = { λ m. records m.table.value };
}

/// What holds a job, and afterwards its finished merge.
pub trait Pending: Drop + Sized {
    /// What holds the finished merge.
    type Done: Drop;

    // The job's merge.
    ghost merge: { Self → Merge };

    // What holds the job, and what then holds its finished merge.
    ghost finishes: { Self → Self.Done → Type 0 };

    /// The job.
    fn job(&self) -> &Job
        ensures { result.now ≡ merge self.now };

    /// What it becomes with the table that the job's merge made.
    fn finish(self, made: MadeTable) -> Self::Done
        requires { made ≡ output (merge self) }
        ensures { finishes self result };
}

impl Pending for Job {
    type Done = Finished;

    ghost merge = { λ job. job };

    ghost finishes = { λ job finished. finished ≡ job };

    fn job(&self) -> &Job {
        self
    }

    fn finish(self, made: MadeTable) -> Finished {
        self.with_table(made)
    }
}

impl Job {
    // The table that the merge makes. The job stays as it is.
    pub(crate) fn make(&self, alloc: Global) -> Result<MadeTable, NoMemory>
        ensures { IfOk result (λ made. made ≡ output self.now) }
    {
        let table = self.table(alloc)?;
        Ok(MadeTable { table })
    }

    /// The finished merge of the job, where that made this table. It takes no memory.
    pub fn with_table(self, made: MadeTable) -> Finished
        requires { made ≡ output self }
        ensures { result ≡ self }
    {
        let MadeTable { table } = made;
        Finished::new(self, table)
    }
}
