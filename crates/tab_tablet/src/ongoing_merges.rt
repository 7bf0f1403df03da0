//! The merges of a tablet that are under way.
ghost use Rattle.std.specs.Prelude.{◌≡◌, ◌↔◌, IsTrue, IfOk, Some, None, cond, OnOk, OnErr};
ghost use Rattle.tab_compact.specs.Merges.{is_under_way};
ghost use Rattle.tab_tablet.specs.Tablets.{no_jobs, job_of, with_job, registered};

use std::alloc::{AllocError, Global};
use std::marker::Model;
use std::sync::Arc;
use tab_cells::Compaction;
use tab_compact::Job;

/// The merge under way of each kind, if there is one.
#[derive(Drop)]
pub(crate) struct OngoingMerges {
    minor: Option<OngoingMerge>,
    partly: Option<OngoingMerge>,
    full: Option<OngoingMerge>,
}

impl Model for OngoingMerges {
    ghost use Rattle.tab_tablet.specs.Tablets.{Jobs as UnderWay};

    ghost Value = { UnderWay };

    ghost view = { λ e. record { minor = e.minor; partly = e.partly; full = e.full } };
}

impl OngoingMerges {
    /// None. It takes no memory.
    pub(crate) fn new() -> OngoingMerges
        ensures { result ≡ no_jobs }
    {
        OngoingMerges {
            minor: None,
            partly: None,
            full: None,
        }
    }

    /// Whether there is none.
    pub(crate) fn is_empty(&self) -> bool
        ensures { IsTrue result ↔ (self.now ≡ no_jobs) }
    {
        self.minor.is_none() && self.partly.is_none() && self.full.is_none()
    }

    /// A copy that shares them. It takes no memory. `AllocError` says that one couldn't be shared.
    pub(crate) fn share(&self) -> Result<OngoingMerges, AllocError>
        ensures { IfOk result (λ e. e ≡ self.now) }
    {
        let minor = share_of(&self.minor)?;
        let partly = share_of(&self.partly)?;
        let full = share_of(&self.full)?;
        Ok(OngoingMerges {
            minor,
            partly,
            full,
        })
    }

    /// Puts this one, or none, in the place of the one of the kind.
    pub(crate) fn put(&mut self, kind: Compaction, ongoing_merge: Option<OngoingMerge>)
        ensures { self.new ≡ with_job kind ongoing_merge self.old }
    {
        match kind {
            Compaction::Minor => self.minor = ongoing_merge,
            Compaction::Partial => self.partly = ongoing_merge,
            Compaction::Full => self.full = ongoing_merge,
        }
    }

    /// Whether the job is the one of its kind that is under way.
    pub(crate) fn has(&self, job: &Job) -> bool
        ensures { result ≡ is_under_way job.now (job_of job.now.kind self.now) }
    {
        match self.of(job.kind()) {
            Some(ongoing_merge) => ongoing_merge.is(job),
            None => false,
        }
    }

    // The one of this kind.
    fn of(&self, kind: Compaction) -> &Option<OngoingMerge>
        ensures { result.now ≡ job_of kind self.now }
    {
        match kind {
            Compaction::Minor => &self.minor,
            Compaction::Partial => &self.partly,
            Compaction::Full => &self.full,
        }
    }
}

// The merge, if there is one, shared once more.
fn share_of(ongoing_merge: &Option<OngoingMerge>) -> Result<Option<OngoingMerge>, AllocError>
    ensures { IfOk result (λ e. e ≡ ongoing_merge.now) }
{
    match ongoing_merge {
        Some(ongoing_merge) => Ok(Some(ongoing_merge.share()?)),
        None => Ok(None),
    }
}

/// A merge that is under way: a share of the job that was handed out. A contract sees its `Merge`.
#[derive(Drop)]
pub(crate) struct OngoingMerge {
    job: Arc<Job>,
}

impl Model for OngoingMerge {
    ghost use Rattle.tab_compact.specs.Merges.{Merge};

    ghost Value = { Merge };

    ghost view = { λ e. e.job.value };
}

impl OngoingMerge {
    /// The job's merge. It takes memory for a share of each source that the job reads. `AllocError` says that it lacked.
    pub(crate) fn of(alloc: Global, job: &Job) -> Result<OngoingMerge, AllocError>
        ensures { IfOk result (λ e. e ≡ job.now) }
    {
        let share = job.share(alloc)?;
        let job = Arc::new(alloc, share)?;
        Ok(OngoingMerge { job })
    }

    /// A copy that shares the merge. It takes no memory. `AllocError` says that it couldn't be shared.
    pub(crate) fn share(&self) -> Result<OngoingMerge, AllocError>
        ensures { IfOk result (λ e. e ≡ self.now) }
    {
        let job = self.job.clone()?;
        Ok(OngoingMerge { job })
    }

    /// Whether the job is this merge, by what it reads, its floor and its versions.
    pub(crate) fn is(&self, job: &Job) -> bool
        ensures { result ≡ is_under_way job.now (Some self.now) }
    {
        job.is_like(&self.job)
    }
}

/// The merge under way of each kind, if there is one. Memory for them is taken with the first, and given back with the last.
#[derive(Drop)]
pub(crate) struct Jobs {
    ongoing_merges: Option<Box<OngoingMerges>>,
}

impl Model for Jobs {
    ghost use Rattle.std.specs.Prelude.{option_map, unwrap_or};
    ghost use Rattle.tab_tablet.specs.Tablets.{Jobs as UnderWay, no_jobs};

    ghost Value = { UnderWay };

    ghost view = { λ j. unwrap_or (option_map (λ e. e.value) j.ongoing_merges) no_jobs };
}

impl Jobs {
    /// None. It takes no memory.
    pub(crate) fn new() -> Jobs
        ensures { result ≡ no_jobs }
    {
        Jobs {
            ongoing_merges: None,
        }
    }

    /// A copy that shares the jobs. `AllocError` says that memory for their place lacked, or that one couldn't be shared.
    pub(crate) fn share(&self, alloc: Global) -> Result<Jobs, AllocError>
        ensures { IfOk result (λ j. j ≡ self.now) }
    {
        match &self.ongoing_merges {
            Some(ongoing_merges) => {
                let ongoing_merges = Box::new(alloc, ongoing_merges.share()?)?;
                Ok(Jobs {
                    ongoing_merges: Some(ongoing_merges),
                })
            }
            None => Ok(Jobs::new()),
        }
    }

    /// Forgets the one of the kind. It takes no memory.
    pub(crate) fn forget(&mut self, kind: Compaction)
        ensures { self.new ≡ with_job kind None self.old }
    {
        let Some(ongoing_merges) = &mut self.ongoing_merges else {
            return;
        };
        ongoing_merges.put(kind, None);
        if ongoing_merges.is_empty() {
            self.ongoing_merges = None;
        }
    }

    /// The jobs; where this is so, without the one of the kind.
    pub(crate) fn after(self, kind: Compaction, is_merged: bool) -> Jobs
        ensures { result ≡ cond is_merged (with_job kind None self) self }
    {
        let mut jobs = self;
        if is_merged {
            jobs.forget(kind);
        }
        jobs
    }

    /// Puts the job, if there is one, in the place of the one of its kind. `AllocError` leaves all as it was.
    pub(crate) fn register(&mut self, alloc: Global, job: &Option<Job>) -> Result<(), AllocError>
        ensures ok { OnOk result (self.new ≡ registered job.now self.old) }
        ensures err { OnErr result (self.new ≡ self.old) }
    {
        match job {
            Some(job) => {
                let ongoing_merge = OngoingMerge::of(alloc, job)?;
                self.put(alloc, job.kind(), ongoing_merge)
            }
            None => Ok(()),
        }
    }

    // Puts this one in the place of the one of the kind.
    fn put(
        &mut self,
        alloc: Global,
        kind: Compaction,
        ongoing_merge: OngoingMerge,
    ) -> Result<(), AllocError>
        ensures ok { OnOk result (self.new ≡ with_job kind (Some ongoing_merge) self.old) }
        ensures err { OnErr result (self.new ≡ self.old) }
    {
        match &mut self.ongoing_merges {
            Some(ongoing_merges) => {
                ongoing_merges.put(kind, Some(ongoing_merge));
                Ok(())
            }
            None => {
                let mut ongoing_merges = OngoingMerges::new();
                ongoing_merges.put(kind, Some(ongoing_merge));
                self.ongoing_merges = Some(Box::new(alloc, ongoing_merges)?);
                Ok(())
            }
        }
    }

    /// Whether the job is the one of its kind that is under way.
    pub(crate) fn has(&self, job: &Job) -> bool
        ensures { result ≡ is_under_way job.now (job_of job.now.kind self.now) }
    {
        match &self.ongoing_merges {
            Some(ongoing_merges) => ongoing_merges.has(job),
            None => false,
        }
    }
}
