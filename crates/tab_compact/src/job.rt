//! A merge that is to be made.
ghost use Rattle.std.specs.Prelude.{◌≡◌, Some, IfOk, IfErr};
ghost use Rattle.tab_key.specs.Sorted.{IsDistinct};
ghost use Rattle.tab_table.specs.SortedTables.{records};
ghost use Rattle.tab_version.specs.Sources.{records_of};
ghost use Rattle.tab_compact.specs.Merges.{output, is_under_way};

use crate::Finished;
use std::alloc::{AllocError, Global};
use std::marker::Model;
use std::sync::Arc;
use tab_cells::Compaction;
use tab_iter::{NoMemory, merged_of};
use tab_table::SortedTable;
use tab_version::Clips;

/// A merge of some sources of a tablet that isn't made yet. A contract sees it as a `Merge`.
///
/// It shares its sources, so it can be made whatever becomes of the tablet meanwhile.
pub struct Job {
    tablet: u64,
    number: u64,
    kind: Compaction,
    inputs: Clips,
    floor: i64,
    versions: u32,
}

// Written out, so that a crate above needn't prove anew how the parts are dropped.
impl Drop for Job {
    fn drop(self) {
        let Job {
            tablet: _,
            number: _,
            kind: _,
            inputs: _,
            floor: _,
            versions: _,
        } = self;
    }
}

impl Model for Job {
    ghost use Rattle.tab_key.specs.Sorted.{IsDistinct};
    ghost use Rattle.tab_version.specs.Sources.{records_of};
    ghost use Rattle.tab_compact.specs.Merges.{Merge};

    ghost Value = { Merge };

    ghost view = { λ j. record { tablet = j.tablet; number = j.number; kind = j.kind; inputs = j.inputs; floor = j.floor; versions = j.versions } };

    ghost invariant = { λ j. IsDistinct (records_of j.inputs) };
}

impl Job {
    /// The merge with this number of these sources of the tablet with that number: no two of their records stand at one place. The
    /// floor is that of their table's timestamps; of a column so many versions are kept.
    pub fn new(
        tablet: u64,
        number: u64,
        kind: Compaction,
        inputs: Clips,
        floor: i64,
        versions: u32,
    ) -> Job
        requires { IsDistinct (records_of inputs) }
        ensures { result ≡ record { tablet = tablet; number = number; kind = kind; inputs = inputs; floor = floor; versions = versions } }
    {
        Job {
            tablet,
            number,
            kind,
            inputs,
            floor,
            versions,
        }
    }

    /// The number of the tablet whose sources it reads.
    pub fn tablet(&self) -> u64
        ensures { result ≡ self.now.tablet }
    {
        self.tablet
    }

    /// Its own number.
    pub fn number(&self) -> u64
        ensures { result ≡ self.now.number }
    {
        self.number
    }

    /// The kind of its compaction.
    pub fn kind(&self) -> Compaction
        ensures { result ≡ self.now.kind }
    {
        self.kind
    }

    /// The floor of the table's timestamps when it began.
    pub fn floor(&self) -> i64
        ensures { result ≡ self.now.floor }
    {
        self.floor
    }

    /// How many versions of a column the table kept when it began.
    pub fn versions(&self) -> u32
        ensures { result ≡ self.now.versions }
    {
        self.versions
    }

    /// A copy of the job that shares its sources. No record is copied.
    ///
    /// It takes memory for a share of each source. `AllocError` says that it lacked.
    pub fn share(&self, alloc: Global) -> Result<Job, AllocError>
        ensures { IfOk result (λ j. j ≡ self.now) }
    {
        let inputs = self.inputs.share(alloc)?;
        Ok(Job {
            tablet: self.tablet,
            number: self.number,
            kind: self.kind,
            inputs,
            floor: self.floor,
            versions: self.versions,
        })
    }

    /// Whether it merges what this one does: inputs of equal contents in the same order, with the same floor and as many versions. Which
    /// tablet, which kind and which numbers they have isn't looked at. It takes no memory, and time linear in the records of the inputs.
    pub fn is_like(&self, other: &Job) -> bool
        ensures { result ≡ is_under_way self.now (Some other.now) }
    {
        if self.floor != other.floor || self.versions != other.versions {
            return false;
        }
        self.inputs.same_sources(&other.inputs)
    }

    /// The sources that it reads.
    pub fn inputs(&self) -> &Clips
        ensures { result.now ≡ self.now.inputs }
    {
        &self.inputs
    }

    /// Makes the merge: one table of what is kept of the sources. It takes time linear in what it reads, and for each record the
    /// logarithm of the number of sources.
    ///
    /// Where memory lacks, the job is handed back as it was.
    pub fn merge(self, alloc: Global) -> Result<Finished, (Job, NoMemory)>
        ensures ok { IfOk result (λ f. f ≡ self) }
        ensures err { IfErr result (λ e. e.0 ≡ self) }
    {
        match self.table(alloc) {
            Ok(table) => Ok(Finished::new(self, table)),
            Err(fault) => Err((self, fault)),
        }
    }

    // The table that the merge makes.
    pub(crate) fn table(&self, alloc: Global) -> Result<Arc<SortedTable>, NoMemory>
        ensures { IfOk result (λ t. records t.value ≡ output self.now) }
    {
        let sources = self.inputs.cursors(alloc)?;
        let full = self.kind.is_full();
        let mut kept = merged_of(alloc, sources, full, self.floor, self.versions)?;
        let table = self.inputs.table_of(alloc, &mut kept)?;
        Ok(Arc::new(alloc, table)?)
    }
}
