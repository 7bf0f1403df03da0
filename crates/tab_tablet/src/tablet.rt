//! The tablet.
ghost use Rattle.std.specs.Prelude.{◌≡◌, ◌<◌, ◌==◌, ◌++◌, [], None, Some, false, IfOk, OnOk, OnErr, Contains, length, filter, min};
ghost use Rattle.std.specs.Ordering.{is_le, is_gt};
ghost use Rattle.tab_key.specs.Bytes.{bytes_cmp};
ghost use Rattle.tab_key.specs.Ranges.{is_in_range};
ghost use Rattle.tab_key.specs.Records.{Record as Fields};
ghost use Rattle.tab_key.specs.Sorted.{sorted, IsDistinct};
ghost use Rattle.tab_iter.specs.Bags.{flat};
ghost use Rattle.tab_cells.specs.Written.{mutation_records};
ghost use Rattle.tab_version.specs.Sources.{clipped, count_of, left_by, records_of, size_of};
ghost use Rattle.tab_compact.specs.Merges.{captured};
ghost use Rattle.tab_tablet.specs.MergedRuns.{IsFreezeOf};
ghost use Rattle.tab_tablet.specs.Due.{is_due};
ghost use Rattle.tab_tablet.specs.Spared.{sources_after, jobs_after};
ghost use Rattle.tab_tablet.specs.Splitting.{cut_to, middle_row, rows_in};
ghost use Rattle.tab_tablet.specs.Tablets.{new_tablet, no_jobs, with_job, records_in, written, frozen, compacted, tabled, capture, begun, begins, fitting, sources_told, replaced, installed};
ghost use Rattle.tab_tablet.specs.declared.installed.Installed.TheVariants.{Done, Stale};

use crate::bounding::{rows_above, rows_up_to};
use crate::counting::{count_in_runs, count_records, total_size};
use crate::due::{DueKind, SPLIT_SIZE, has_plan};
use crate::freeze::Freeze;
use crate::freezing::{add_frozen, frozen_sources};
use crate::installed::Installed;
use crate::listing::version_of;
use crate::middle::middle_row;
use crate::ongoing_merges::Jobs;
use crate::restoring::table_of;
use crate::source_lists::SourceLists;
use crate::sources::Sources;
use std::alloc::{AllocError, Global};
use std::marker::Model;
use std::mem;
use tab_cells::Compaction;
use tab_compact::{Finished, Job, capture};
use tab_iter::NoMemory;
use tab_key::{Bounds, ByteString};
use tab_mem::Active;
use tab_mutation::Shaped;
use tab_version::{Clip, Clips, Version};

/// So many records that were written or lie in runs are to be flushed.
const MANY_RECORDS: u64 = 4096;

// Each table has a tablet from the beginning: what that may hold later lies apart, and takes memory then.
const _: () = prove!(mem::size_of::<Tablet>() <= 96);

/// The records of a table's rows: what was written since the last freeze, and frozen runs and sorted tables. No two records stand at
/// one place in the order of records. It has a number, and keeps which merges of it are under way, at most one of each kind. A contract
/// sees all of it as it is.
pub struct Tablet {
    number: u64,
    active: Active,
    sources: Sources,
    jobs: Jobs,
}

// Written out, so that a crate above needn't prove anew how the parts are dropped.
impl Drop for Tablet {
    fn drop(self) {
        let Tablet {
            number: _,
            active: _,
            sources: _,
            jobs: _,
        } = self;
    }
}

impl Model for Tablet {
    ghost use Rattle.std.specs.Prelude.{None, ◌++◌};
    ghost use Rattle.tab_key.specs.Sorted.{IsDistinct};
    ghost use Rattle.tab_version.specs.Sources.{records_of};
    ghost use Rattle.tab_tablet.specs.Tablets.{Tablet as Contents};

    ghost Value = { Contents };

    ghost view = { λ t. record { number = t.number; end = None; active = t.active; sources = t.sources; jobs = t.jobs } };

    ghost invariant = { λ t. IsDistinct (t.active ++ records_of t.sources) };
}

impl Tablet {
    /// The tablet with this number, of all rows, without records. It takes no memory.
    pub fn new(alloc: Global, number: u64) -> Tablet
        ensures { result ≡ new_tablet number None }
    {
        Tablet {
            number,
            active: Active::new(alloc),
            sources: Sources::new(),
            jobs: Jobs::new(),
        }
    }

    /// Its number.
    pub fn number(&self) -> u64
        ensures { result ≡ self.now.number }
    {
        self.number
    }

    /// The tablet with this number that holds these records as one sorted table, each copied once; where there are none it has no source.
    ///
    /// It takes the memory that the table keeps. NoMemory says that it lacked.
    pub fn tabled(alloc: Global, number: u64, records: &Clip) -> Result<Tablet, NoMemory>
        ensures { IfOk result (λ t. t ≡ tabled number None records.now) }
    {
        let _count = records.len();
        let tables = table_of(alloc, records)?;
        let source_lists = SourceLists::of_tables(alloc, tables);
        let sources = Sources::of(alloc, source_lists)?;
        Ok(Tablet {
            number,
            active: Active::new(alloc),
            sources,
            jobs: Jobs::new(),
        })
    }

    /// Adds the updates of a mutation, whose shape was accepted: each with this number, its place in the mutation counted from 0,
    /// and the clock where it gives no timestamp. It takes time linear in the mutation, however much was written before.
    ///
    /// `AllocError` leaves all as it was: the mutation goes in whole or not at all.
    pub fn write(&mut self, mutation: &Shaped<'_>, seq: u64, clock: i64) -> Result<(), AllocError>
        requires unused { (u : Fields) → Contains (records_in self.old) u → u.seq < seq }
        ensures ok { OnOk result (self.new ≡ written (mutation_records seq clock mutation.now) self.old) }
        ensures err { OnErr result (self.new ≡ self.old) }
    {
        self.active.write(mutation, seq, clock)
    }

    /// Whether nothing was written since the last freeze: to freeze it would change nothing.
    pub fn is_frozen(&self) -> bool
        ensures frozen { result ≡ (length self.now.active == 0) }
        ensures distinct { IsDistinct (records_in self.now) }
    {
        self.active.is_empty()
    }

    /// Makes the run of what was written ahead: `prepare` and `frozen` then share it, until more is written. A contract sees nothing that
    /// changes.
    ///
    /// Of many records the partition in which they were written shrinks as the run grows, so that all of them lie in memory about once; where
    /// `frozen` makes the run itself they lie there twice. `AllocError` says that memory lacked.
    pub fn make_run(&mut self, alloc: Global) -> Result<(), AllocError>
        ensures { self.new ≡ self.old }
    {
        if self.is_frozen() {
            return Ok(());
        }
        self.active.freeze(alloc)?;
        Ok(())
    }

    /// The tablet with what was written frozen into a run, which comes last; without records there it gives no run. This one stays
    /// as it is.
    ///
    /// It takes memory for the run and for a share of each source and of what scans read. `AllocError` says that it lacked.
    pub fn frozen(&self, alloc: Global) -> Result<Tablet, AllocError>
        ensures { IfOk result (λ t. t ≡ frozen self.now) }
    {
        let sources = frozen_sources(alloc, &self.active, &self.sources)?;
        let jobs = self.jobs.share(alloc)?;
        Ok(Tablet {
            number: self.number,
            active: Active::new(alloc),
            sources,
            jobs,
        })
    }

    /// A copy of the tablet. What is done to one of the two later doesn't change the other. They share the sources, what scans read, and
    /// the merges under way.
    ///
    /// It takes memory for a share of each of these, and for a copy of what was written since the last freeze. `AllocError` says that it
    /// lacked.
    pub fn copied(&self, alloc: Global) -> Result<Tablet, AllocError>
        ensures { IfOk result (λ t. t ≡ self.now) }
    {
        let active = self.active.copied(alloc)?;
        let sources = self.sources.share(alloc)?;
        let jobs = self.jobs.share(alloc)?;
        Ok(Tablet {
            number: self.number,
            active,
            sources,
            jobs,
        })
    }

    /// The tablet after a compaction: frozen, and what the merge makes of the sources that a compaction of this kind reads in their
    /// place, as the last table; no merge of the kind is under way then. The floor is that of the table's timestamps; of a column so many
    /// versions are kept. Where there is nothing to merge it is only frozen. This one stays as it is.
    ///
    /// A minor compaction merges all runs, a partial one the smallest tables that fit, a full one everything. It takes time and
    /// memory for what it merges. NoMemory says that memory lacked. (Accumulo user manual: minor and major compactions)
    pub fn compacted(
        &self,
        alloc: Global,
        kind: Compaction,
        floor: i64,
        versions: u32,
    ) -> Result<Tablet, NoMemory>
        ensures { IfOk result (λ t. t ≡ compacted kind floor versions self.now) }
    {
        self.frozen(alloc)?.merged(alloc, kind, floor, versions)
    }

    // This tablet, whose active part is empty, with what a compaction merges replaced by what it makes.
    fn merged(
        self,
        alloc: Global,
        kind: Compaction,
        floor: i64,
        versions: u32,
    ) -> Result<Tablet, NoMemory>
        requires { self.active ≡ [] }
        ensures { IfOk result (λ t. t ≡ record (self) { sources = sources_after kind (captured self.number 0 kind floor versions self.sources) self.sources; jobs = jobs_after kind (captured self.number 0 kind floor versions self.sources) self.jobs }) }
    {
        let Tablet {
            number,
            active,
            sources,
            jobs,
        } = self;
        let (sources, is_merged) = sources.compacted(alloc, number, kind, floor, versions)?;
        let jobs = jobs.after(kind, is_merged);
        Ok(Tablet {
            number,
            active,
            sources,
            jobs,
        })
    }

    /// Begins a compaction: the tablet is frozen, and the merge of the sources that a compaction of this kind reads is under way, in the
    /// place of the one of its kind. It is handed out as a job with this number; none where there is nothing to merge. The floor is that
    /// of the table's timestamps; of a column so many versions are kept.
    ///
    /// It takes memory for a run of what was written, and for shares of the sources. NoMemory says that it lacked, and leaves all as it
    /// was.
    pub fn begin(
        &mut self,
        alloc: Global,
        kind: Compaction,
        floor: i64,
        versions: u32,
        number: u64,
    ) -> Result<Option<Job>, NoMemory>
        ensures job { IfOk result (λ j. j ≡ capture number kind floor versions self.old) }
        ensures ok { OnOk result (self.new ≡ begins number kind floor versions self.old) }
        ensures err { OnErr result (self.new ≡ self.old) }
    {
        self.make_run(alloc)?;
        let mut frozen = self.frozen(alloc)?;
        let job = frozen.begin_frozen(alloc, kind, floor, versions, number)?;
        *self = frozen;
        Ok(job)
    }

    // `begin` where nothing waits to be frozen.
    fn begin_frozen(
        &mut self,
        alloc: Global,
        kind: Compaction,
        floor: i64,
        versions: u32,
        number: u64,
    ) -> Result<Option<Job>, NoMemory>
        ensures job { IfOk result (λ j. j ≡ captured self.old.number number kind floor versions self.old.sources) }
        ensures ok { OnOk result (self.new ≡ begun (captured self.old.number number kind floor versions self.old.sources) self.old) }
    {
        let none = SourceLists::new(alloc);
        let sources = self.sources.lists_or(&none).sources();
        let job = capture(alloc, self.number, number, kind, sources, floor, versions)?;
        self.jobs.register(alloc, &job)?;
        Ok(job)
    }

    /// Ends a compaction: where its merge is the one of its kind that is under way, and each source that it read has one of equal contents
    /// here, what it made takes their place, and comes last. Else it is stale. Either way no merge of its kind is under way any more. What
    /// was written is not frozen. A merge that was begun in another tablet, by its number, is stale and changes nothing.
    ///
    /// It takes time linear in the records of the inputs, and memory for shares of the sources. NoMemory says that it lacked; then all is
    /// as it was, and the merge is lost.
    pub fn install(&mut self, alloc: Global, finished: Finished) -> Result<Installed, NoMemory>
        ensures told { IfOk result (λ told. told ≡ (installed finished self.old).0) }
        ensures ok { OnOk result (self.new ≡ (installed finished self.old).1) }
        ensures err { OnErr result (self.new ≡ self.old) }
    {
        if finished.job().tablet() != self.number {
            return Ok(Installed::Stale(self.count_sources()));
        }
        match self.fitting(alloc, finished.job())? {
            Some(left) => self.replace(alloc, left, finished),
            None => Ok(self.forget(finished.job().kind())),
        }
    }

    // The sources beside the merge's inputs, where it is under way and they are there.
    fn fitting(&self, alloc: Global, job: &Job) -> Result<Option<Clips>, AllocError>
        ensures { IfOk result (λ left. left ≡ fitting job.now self.now) }
    {
        if !self.jobs.has(job) {
            return Ok(None);
        }
        let none = SourceLists::new(alloc);
        let sources = self.sources.lists_or(&none).sources();
        sources.left_by(alloc, job.inputs())
    }

    // Puts what the merge made behind the sources that its inputs leave.
    fn replace(
        &mut self,
        alloc: Global,
        left: Clips,
        finished: Finished,
    ) -> Result<Installed, NoMemory>
        requires { left_by finished.inputs self.old.sources ≡ Some left }
        ensures told { IfOk result (λ told. told ≡ Done) }
        ensures ok { OnOk result (self.new ≡ replaced finished left self.old) }
        ensures err { OnErr result (self.new ≡ self.old) }
    {
        let kind = finished.job().kind();
        let none = SourceLists::new(alloc);
        let source_lists = self
            .sources
            .lists_or(&none)
            .installed(alloc, left, finished)?;
        let sources = Sources::of(alloc, source_lists)?;
        self.sources = sources;
        self.jobs.forget(kind);
        Ok(Installed::Done)
    }

    // Forgets the merge of this kind that is under way.
    fn forget(&mut self, kind: Compaction) -> Installed
        ensures told { result ≡ Stale (sources_told self.old) }
        ensures forgotten { self.new ≡ record (self.old) { jobs = with_job kind None self.old.jobs } }
    {
        let count = self.count_sources();
        self.jobs.forget(kind);
        Installed::Stale(count)
    }

    /// The two tablets that a split at the row makes, with these numbers, the row belonging to the lower one: both share the sources of
    /// this one, cut to their rows, and nothing of it is copied but what was written since the last freeze. No merge of them is under way.
    /// This one stays as it is.
    ///
    /// It takes memory for that and for two shares of each source. `AllocError` says that it lacked. (Accumulo user manual: tablets,
    /// splitting)
    pub fn split(
        &self,
        alloc: Global,
        row: &ByteString,
        lower_number: u64,
        upper_number: u64,
    ) -> Result<(Tablet, Tablet), AllocError>
        ensures lower { IfOk result (λ p. p.0 ≡ cut_to lower_number (λ r. is_le (bytes_cmp r row.now)) self.now) }
        ensures upper { IfOk result (λ p. p.1 ≡ cut_to upper_number (λ r. is_gt (bytes_cmp r row.now)) self.now) }
    {
        let frozen = self.frozen(alloc)?;
        frozen.halves(alloc, row, lower_number, upper_number)
    }

    // The two tablets of `split`, where nothing waits to be frozen.
    fn halves(
        &self,
        alloc: Global,
        row: &ByteString,
        lower_number: u64,
        upper_number: u64,
    ) -> Result<(Tablet, Tablet), AllocError>
        requires { self.now.active ≡ [] }
        ensures lower { IfOk result (λ p. p.0 ≡ record (self.now) { number = lower_number; sources = clipped (λ r. is_le (bytes_cmp r row.now)) self.now.sources; jobs = no_jobs }) }
        ensures upper { IfOk result (λ p. p.1 ≡ record (self.now) { number = upper_number; sources = clipped (λ r. is_gt (bytes_cmp r row.now)) self.now.sources; jobs = no_jobs }) }
    {
        let lower = self.cut_up_to(alloc, row, lower_number)?;
        let upper = self.cut_above(alloc, row, upper_number)?;
        Ok((lower, upper))
    }

    // The part of the rows up to this one.
    fn cut_up_to(&self, alloc: Global, row: &ByteString, number: u64) -> Result<Tablet, AllocError>
        requires { self.now.active ≡ [] }
        ensures { IfOk result (λ t. t ≡ record (self.now) { number = number; sources = clipped (λ r. is_le (bytes_cmp r row.now)) self.now.sources; jobs = no_jobs }) }
    {
        let up_to = rows_up_to(row)?;
        self.cut(alloc, number, &up_to)
    }

    // The part of the rows above this one.
    fn cut_above(&self, alloc: Global, row: &ByteString, number: u64) -> Result<Tablet, AllocError>
        requires { self.now.active ≡ [] }
        ensures { IfOk result (λ t. t ≡ record (self.now) { number = number; sources = clipped (λ r. is_gt (bytes_cmp r row.now)) self.now.sources; jobs = no_jobs }) }
    {
        let above = rows_above(row)?;
        self.cut(alloc, number, &above)
    }

    // A tablet with this number and the sources of this one, whose active part is empty, cut to the rows in bounds.
    fn cut(&self, alloc: Global, number: u64, bounds: &Bounds) -> Result<Tablet, AllocError>
        requires { self.now.active ≡ [] }
        ensures { IfOk result (λ t. t ≡ record (self.now) { number = number; sources = clipped (is_in_range bounds.now) self.now.sources; jobs = no_jobs }) }
    {
        let none = SourceLists::new(alloc);
        let source_lists = self.sources.lists_or(&none).in_rows(alloc, bounds)?;
        let sources = Sources::of(alloc, source_lists)?;
        Ok(Tablet {
            number,
            active: Active::new(alloc),
            sources,
            jobs: Jobs::new(),
        })
    }

    /// What is made before it is frozen in its place: a run of what was written, and what scans then read. It stays as it is.
    ///
    /// Where scans read small merged runs, these are merged with the run: over many freezes each record is copied as often as the
    /// logarithm of 65,536, at most. `AllocError` says that memory lacked.
    pub fn prepare(&self, alloc: Global) -> Result<Freeze, AllocError>
        requires { (length self.now.active == 0) ≡ false }
        ensures { IfOk result (λ f. IsFreezeOf self.now f) }
    {
        let none = SourceLists::new(alloc);
        self.sources.lists_or(&none).prepare(alloc, &self.active)
    }

    /// Freezes it in its place: the run comes last. It takes memory for one place in the list of runs, and at the first for the lists.
    ///
    /// `AllocError` leaves all as it was.
    pub fn freeze(&mut self, alloc: Global, freeze: Freeze) -> Result<(), AllocError>
        requires { IsFreezeOf self.old freeze }
        ensures ok { OnOk result (self.new ≡ frozen self.old) }
        ensures err { OnErr result (self.new ≡ self.old) }
    {
        self.sources.put(alloc, freeze)?;
        self.active = Active::new(alloc);
        Ok(())
    }

    /// What a scan of these rows reads. What was written must be frozen. A contract sees the records, in their order.
    ///
    /// Runs are not looked at: it takes time and memory for one clip a sorted table and a merged run, of which there are few however many
    /// runs there are. The records are shared. `AllocError` says that memory lacked.
    pub fn clips(&self, alloc: Global, bounds: &Bounds) -> Result<Clips, AllocError>
        requires { self.now.active ≡ [] }
        ensures { IfOk result (λ c. sorted (records_of c) ≡ sorted (filter (λ u. is_in_range bounds.now u.key.row) (records_in self.now))) }
    {
        let none = SourceLists::new(alloc);
        self.sources.lists_or(&none).clips(alloc, bounds)
    }

    /// What a scan of these rows reads once it is frozen. It stays as it is.
    pub fn clips_after(
        &self,
        alloc: Global,
        freeze: &Freeze,
        bounds: &Bounds,
    ) -> Result<Clips, AllocError>
        requires { IsFreezeOf self.now freeze.now }
        ensures { IfOk result (λ c. sorted (records_of c) ≡ sorted (filter (λ u. is_in_range bounds.now u.key.row) (records_in (frozen self.now)))) }
    {
        let none = SourceLists::new(alloc);
        let source_lists = self.sources.lists_or(&none);
        source_lists.clips_after(alloc, freeze, bounds)
    }

    /// All that it holds, as a version, which lists it: what was written since the last freeze as a run, and a share of each source.
    /// This one stays as it is, and nothing of it is frozen.
    ///
    /// It takes memory for that run, which is a copy, and for the shares. `AllocError` says that it lacked.
    pub fn version(&self, alloc: Global) -> Result<Version, AllocError>
        ensures held { IfOk result (λ v. v ≡ records_in (frozen self.now)) }
        ensures listed { IfOk result (λ v. sorted v ≡ sorted (records_in self.now)) }
    {
        let none = SourceLists::new(alloc);
        let mut sources = self.sources.lists_or(&none).sources().share(alloc)?;
        add_frozen(alloc, &self.active, &mut sources)?;
        version_of(alloc, sources)
    }

    /// The row in the middle of its records: that at half of their number, rounded down, in their order, or the next lower one where
    /// that is the greatest. None where it holds no record, or records of one row alone. What was written must be frozen.
    ///
    /// It copies no record: it takes memory for a share and a row of each source. Its time grows with the number of sources, and with
    /// no more than powers of the logarithm of that of the records. `AllocError` says that memory lacked.
    pub fn middle_row(&self, alloc: Global) -> Result<Option<ByteString>, AllocError>
        requires { self.now.active ≡ [] }
        ensures { IfOk result (λ row. row ≡ middle_row (rows_in self.now)) }
    {
        let none = SourceLists::new(alloc);
        middle_row(alloc, self.sources.lists_or(&none).sources())
    }

    /// The bytes of its sorted tables together, each with its whole size; the greatest `u64` for any number above it.
    pub fn size(&self) -> u64
        ensures { result ≡ min (size_of self.now.sources) 18446744073709551615 }
    {
        total_size(self.sources.tables())
    }

    /// How many runs and sorted tables there are; the greatest `u64` for any number above it.
    pub fn count_sources(&self) -> u64
        ensures { result ≡ min (count_of self.now.sources) 18446744073709551615 }
    {
        let runs = self.sources.runs().len() as u64;
        runs.saturating_add(self.sources.tables().len() as u64)
    }

    /// How many records there are, markers and hidden ones among them; the greatest `u64` for any number above it.
    pub fn count_records(&self) -> u64
        ensures { result ≡ min (length (records_in self.now)) 18446744073709551615 }
    {
        let frozen = count_records(self.sources.runs(), self.sources.tables());
        frozen.saturating_add(self.active.len() as u64)
    }

    /// Whether work of this kind is due: a minor compaction where what was written and the runs come to 4,096 records or more; a partial one
    /// where it would merge some of the sorted tables; a split where these come to 16,777,216 bytes or more. It takes no memory, and time
    /// linear in the sources, for a partial compaction quadratic in the tables.
    pub fn is_due(&self, kind: DueKind) -> bool
        ensures { result ≡ is_due kind self.now }
    {
        match kind {
            DueKind::Minor => self.count_unflushed() >= MANY_RECORDS,
            DueKind::Partial => has_plan(self.sources.tables()),
            DueKind::Split => self.size() >= SPLIT_SIZE,
        }
    }

    // How many records were written or lie in runs; the greatest `u64` for any number above it.
    fn count_unflushed(&self) -> u64
        ensures { result ≡ min (length (self.now.active ++ flat self.now.sources.runs)) 18446744073709551615 }
    {
        count_in_runs(self.sources.runs()).saturating_add(self.active.len() as u64)
    }
}
