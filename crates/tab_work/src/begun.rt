//! Merges that a compactor began.
ghost use Rattle.std.specs.Prelude.{◌≡◌};

use tab_core::{Due, FinishedJob, Job, MadeTable, Pending, TabletJob};
use tab_key::Name;

/// A merge that was begun in a tablet of the table. What was due there is claimed.
#[derive(Drop)]
pub(crate) struct BegunMerge {
    pub(crate) due: Due,
    pub(crate) table: Name,
    pub(crate) job: TabletJob,
}

/// A merge that was begun, and is made.
#[derive(Drop)]
pub(crate) struct DoneMerge {
    pub(crate) due: Due,
    pub(crate) table: Name,
    pub(crate) finished: FinishedJob,
}

impl Pending for BegunMerge {
    type Done = DoneMerge;

    ghost merge = { λ begun. begun.job.merge };

    ghost finishes = { λ begun made. (made.due ≡ begun.due) × (made.table ≡ begun.table) × (made.finished ≡ begun.job) };

    fn job(&self) -> &Job {
        self.job.job()
    }

    fn finish(self, made: MadeTable) -> DoneMerge {
        let BegunMerge { due, table, job } = self;
        let finished = job.finish(made);
        DoneMerge {
            due,
            table,
            finished,
        }
    }
}
