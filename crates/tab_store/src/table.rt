//! One table.
ghost use Rattle.std.specs.Prelude.{◌≡◌, ◌<◌, [], ◌∷◌, None, length, map, Contains, IfOk, OnOk, OnErr};
ghost use Rattle.tab_key.specs.Records.{Record as Fields};
ghost use Rattle.tab_key.specs.Sorted.{sorted};
ghost use Rattle.tab_cells.specs.Written.{mutation_records};
ghost use Rattle.tab_iter.specs.Lists.{IsRising};
ghost use Rattle.tab_tablets.specs.Opened.{ShowsRowsOf};
ghost use Rattle.tab_tablets.specs.Tablets.{records_in, written, frozen, compacted};
ghost use Rattle.tab_history.specs.Held.{floor_of};
ghost use Rattle.tab_history.specs.Settings.{least};
ghost use Rattle.tab_tablets.specs.ByRow.{at_row, records_of_all, LieApart, ends_of};
ghost use Rattle.tab_tablets.specs.Places.{tablet_at};
ghost use Rattle.tab_tablets.specs.Restored.{EndRowsRise};
ghost use Rattle.tab_tablets.specs.Splits.{splits, halves};
ghost use Rattle.tab_tablets.specs.Parts.{begun_at, begins_at, installs_in};
ghost use Rattle.tab_tablets.specs.Due.{first_due, start_of};
ghost use Rattle.tab_store.specs.Stores.{told_count, counts_of};
ghost use Rattle.tab_store.specs.Tables.{made_table, restored_table, with_tablets, with_setting};

use crate::Setting;
use std::alloc::{AllocError, Global};
use std::marker::Model;
use std::mem::size_of;
use tab_cells::Compaction;
use tab_history::{Counts, TimeMode, Versions};
use tab_iter::NoMemory;
use tab_key::{Bounds, ByteString, Items};
use tab_mem::Records;
use tab_mutation::Shaped;
use tab_rules::ConstraintSet;
use tab_tablets::{DueKind, FinishedJob, Installed, Split, TabletJob, Tablets, Version};

// Half of the places in the map of tables stay empty where tables come in the order of their names, so each place takes few bytes.
const _: () = prove!(size_of::<Table>() <= 16);

/// What a table is set to, and its tablets. Both lie apart, so that a table takes few bytes where it is kept.
pub struct Table {
    contents: Box<Contents>,
}

// Written out, so that a crate above needn't prove anew how the parts are dropped.
impl Drop for Table {
    fn drop(self) {
        let Table { contents: _ } = self;
    }
}

#[derive(Drop)]
struct Contents {
    alloc: Global,
    time: TimeMode,
    versions: Versions,
    constraints: ConstraintSet,
    horizon: i64,
    tablets: Tablets,
}

impl Model for Table {
    ghost use Rattle.tab_store.specs.Tables.{TableState};

    ghost Value = { TableState };

    ghost view = { λ t. record { settings = record { time = t.contents.value.time; versions = t.contents.value.versions; constraints = t.contents.value.constraints; horizon = t.contents.value.horizon }; tablets = t.contents.value.tablets } };
}

/// A copy with the same settings and the same tablets. What is done to one of the two later doesn't change the other. It takes memory for
/// its place and the constraints, and for the tablets as `Tablets::copied` says; all is given back where that lacks.
impl Clone for Table {
    ghost is_clone = { λ source copy. copy ≡ source };

    fn clone(&self) -> Result<Table, AllocError> {
        let contents = &self.contents;
        let constraints = contents.constraints.clone()?;
        let tablets = contents.tablets.copied(contents.alloc)?;
        Table::holding(
            contents.alloc,
            contents.time,
            contents.versions,
            constraints,
            contents.horizon,
            tablets,
        )
    }
}

impl Table {
    /// A table without records, constraints and horizon, whose one tablet has this number.
    ///
    /// It takes memory for its place alone. `AllocError` says that it lacked.
    pub fn new(
        alloc: Global,
        time: TimeMode,
        versions: Versions,
        number: u64,
    ) -> Result<Table, AllocError>
        ensures { IfOk result (λ t. t ≡ made_table time versions number) }
    {
        let tablets = Tablets::new(alloc, number);
        Table::holding(
            alloc,
            time,
            versions,
            ConstraintSet::none(),
            i64::MIN,
            tablets,
        )
    }

    /// A table with these settings, whose tablets are numbered from this number on, end at these rows and hold these records: each those of
    /// its rows, as one sorted table, or no source where there are none.
    ///
    /// It takes time linear in the records. Beside the records, which are given back once it is done, it takes the memory that the sorted
    /// tables keep, and some for its place; NoMemory says that it lacked.
    pub fn restored(
        alloc: Global,
        time: TimeMode,
        versions: Versions,
        constraints: ConstraintSet,
        horizon: i64,
        number: u64,
        ends: Items<ByteString>,
        records: Records,
    ) -> Result<Table, NoMemory>
        requires ends { EndRowsRise ends }
        requires records { IsRising records }
        ensures { IfOk result (λ t. t ≡ restored_table time versions constraints horizon number ends records) }
    {
        let tablets = Tablets::restored(alloc, number, ends, records)?;
        Table::holding(alloc, time, versions, constraints, horizon, tablets)
    }

    // A table with these settings and these tablets.
    fn holding(
        alloc: Global,
        time: TimeMode,
        versions: Versions,
        constraints: ConstraintSet,
        horizon: i64,
        tablets: Tablets,
    ) -> Result<Table, AllocError>
        ensures { IfOk result (λ t. t ≡ record { settings = record { time = time; versions = versions; constraints = constraints; horizon = horizon }; tablets = tablets }) }
    {
        let contents = Contents {
            alloc,
            time,
            versions,
            constraints,
            horizon,
            tablets,
        };
        let contents = Box::new(alloc, contents)?;
        Ok(Table { contents })
    }

    /// Whether it takes timestamps or gives them.
    pub fn time(&self) -> TimeMode
        ensures { result ≡ self.now.settings.time }
    {
        self.contents.time
    }

    /// How many versions of a column it shows and keeps.
    pub fn versions(&self) -> Versions
        ensures { result ≡ self.now.settings.versions }
    {
        self.contents.versions
    }

    /// Its constraints.
    pub fn constraints(&self) -> &ConstraintSet
        ensures { result.now ≡ self.now.settings.constraints }
    {
        &self.contents.constraints
    }

    /// The time below which it takes no update.
    pub fn horizon(&self) -> i64
        ensures { result ≡ self.now.settings.horizon }
    {
        self.contents.horizon
    }

    /// Sets it so.
    pub fn set(&mut self, setting: Setting)
        ensures { self.new ≡ with_setting setting self.old }
    {
        match setting {
            Setting::Constraints(constraints) => self.contents.constraints = constraints,
            Setting::Versions(versions) => self.contents.versions = versions,
            Setting::Horizon(horizon) => self.contents.horizon = horizon,
        }
    }

    /// Writes a mutation, whose shape was accepted, to the tablet that holds its row: each update with this number and, where it
    /// gives no timestamp, this moment. It takes time linear in the mutation, and logarithmic in the number of tablets.
    ///
    /// `AllocError` leaves the table as it was.
    pub fn write(&mut self, mutation: &Shaped<'_>, seq: u64, now: i64) -> Result<(), AllocError>
        requires unused { (u : Fields) → Contains (records_of_all self.old.tablets) u → u.seq < seq }
        ensures ok { OnOk result (self.new ≡ with_tablets (at_row mutation.now.row (λ t. written (mutation_records seq now mutation.now) t ∷ [])) self.old) }
        ensures err { OnErr result (self.new ≡ self.old) }
    {
        self.contents.tablets.write(mutation, seq, now)
    }

    /// What a scan of these rows reads, as the table is now. Each tablet is frozen.
    ///
    /// It takes memory for one clip a source of the tablets that hold these rows, and for each tablet to which anything was written
    /// since its last freeze, for a run of that and a share of each of its sources. `AllocError` leaves the table as it was: no tablet
    /// is frozen either.
    pub fn open(&mut self, alloc: Global, bounds: &Bounds) -> Result<Version, AllocError>
        requires apart { LieApart self.old.tablets }
        ensures ok { OnOk result (self.new ≡ with_tablets (map frozen) self.old) }
        ensures answers { IfOk result (λ v. ShowsRowsOf bounds.now (sorted (records_of_all self.old.tablets)) v) }
        ensures err { OnErr result (self.new ≡ self.old) }
    {
        self.contents.tablets.open(alloc, bounds)
    }

    /// Compacts each tablet, with the floor of this moment and as many versions as the table keeps.
    ///
    /// NoMemory leaves the table as it was: no tablet is frozen either. (Accumulo user manual: minor and major compactions)
    pub fn compact(&mut self, alloc: Global, kind: Compaction, now: i64) -> Result<(), NoMemory>
        ensures ok { OnOk result (self.new ≡ with_tablets (map (compacted kind (floor_of self.old.settings.time now self.old.settings.horizon) self.old.settings.versions)) self.old) }
        ensures err { OnErr result (self.new ≡ self.old) }
    {
        let floor = self.floor(now);
        let versions = self.contents.versions.get();
        self.contents.tablets.compact(alloc, kind, floor, versions)
    }

    /// Splits the tablet that holds the row, which becomes the last row of the lower one of two tablets. Nothing changes where it is an
    /// end row already, or where the table has 4,294,967,295 end rows.
    ///
    /// Both tablets share the sources of the one that was split, which is frozen first; no record is copied but what was written since
    /// its last freeze. `AllocError` leaves the table as it was. (Accumulo user manual: tablets, splitting)
    pub fn split(
        &mut self,
        alloc: Global,
        row: ByteString,
        number: u64,
    ) -> Result<Split, AllocError>
        ensures told { IfOk result (λ told. told ≡ (splits row number self.old.tablets).0) }
        ensures ok { OnOk result (self.new ≡ with_tablets (λ ts. (splits row number ts).1) self.old) }
        ensures err { OnErr result (self.new ≡ self.old) }
    {
        self.contents.tablets.split(alloc, row, number)
    }

    /// Splits the tablet that holds the row in the middle of what it holds, where its sorted tables come to the limit, in bytes. Where
    /// they are smaller, where it holds no two rows, or where the table has 4,294,967,295 end rows, nothing changes.
    ///
    /// `AllocError` leaves the table as it was.
    pub fn halve(
        &mut self,
        alloc: Global,
        row: &[u8],
        limit: u64,
        number: u64,
    ) -> Result<Split, AllocError>
        ensures told { IfOk result (λ told. told ≡ (halves row.now limit number self.old.tablets).0) }
        ensures ok { OnOk result (self.new ≡ with_tablets (λ ts. (halves row.now limit number ts).1) self.old) }
        ensures err { OnErr result (self.new ≡ self.old) }
    {
        self.contents.tablets.halve(alloc, row, limit, number)
    }

    /// Begins a compaction of the tablet that holds the row, as the merge with this number, with the floor of this moment and as many
    /// versions as the table keeps. None where there is nothing to merge; the tablet is frozen either way.
    ///
    /// NoMemory leaves the table as it was. (Accumulo user manual: minor and major compactions)
    pub fn begin(
        &mut self,
        alloc: Global,
        row: ByteString,
        kind: Compaction,
        now: i64,
        number: u64,
    ) -> Result<Option<TabletJob>, NoMemory>
        ensures job { IfOk result (λ j. j ≡ begun_at row number kind (floor_of self.old.settings.time now self.old.settings.horizon) self.old.settings.versions self.old.tablets) }
        ensures ok { OnOk result (self.new ≡ with_tablets (begins_at row number kind (floor_of self.old.settings.time now self.old.settings.horizon) self.old.settings.versions) self.old) }
        ensures err { OnErr result (self.new ≡ self.old) }
    {
        let floor = self.floor(now);
        let versions = self.contents.versions.get();
        self.contents
            .tablets
            .begin(alloc, row, kind, floor, versions, number)
    }

    /// Installs a finished merge in the tablet that it was begun in. It is stale where that tablet is gone, where the merge of its kind
    /// that is under way there isn't this one, and where not all that it read is there.
    ///
    /// NoMemory leaves the table as it was; the merge is lost then. (Accumulo user manual: minor and major compactions)
    pub fn install(&mut self, alloc: Global, finished: FinishedJob) -> Result<Installed, NoMemory>
        ensures told { IfOk result (λ told. told ≡ (installs_in finished self.old.tablets).0) }
        ensures ok { OnOk result (self.new ≡ with_tablets (λ ts. (installs_in finished ts).1) self.old) }
        ensures err { OnErr result (self.new ≡ self.old) }
    {
        self.contents.tablets.install(alloc, finished)
    }

    /// The number of the first of its tablets, in the order of rows, that is due for work of this kind. It takes no memory.
    pub fn due(&self, kind: DueKind) -> Option<u64>
        ensures { result ≡ first_due kind self.now.tablets }
    {
        self.contents.tablets.due(kind)
    }

    /// Its tablets.
    pub fn tablets(&self) -> &Tablets
        ensures { result.now ≡ self.now.tablets }
    {
        &self.contents.tablets
    }

    /// The least row of its tablet with this number, if there is one: the end row before it and a zero byte, or the empty row.
    ///
    /// It takes memory for the row. `AllocError` says that it lacked.
    pub fn start_of(&self, alloc: Global, number: u64) -> Result<Option<ByteString>, AllocError>
        ensures { IfOk result (λ row. row ≡ start_of number None self.now.tablets) }
    {
        self.contents.tablets.start_of(alloc, number)
    }

    /// The end rows of its tablets, rising.
    pub fn ends(&self, alloc: Global) -> Result<Items<ByteString>, AllocError>
        ensures { IfOk result (λ ends. ends ≡ ends_of self.now.tablets) }
    {
        self.contents.tablets.ends(alloc)
    }

    /// All that the tablet at a place holds, as a version; places are counted from 0 in the order of rows. The table stays as it is: no
    /// tablet is frozen.
    ///
    /// It takes memory for a copy of what was written to this tablet since its last freeze, and for a share of each of its sources.
    /// `AllocError` says that it lacked.
    pub fn version_at(&self, alloc: Global, place: u64) -> Result<Version, AllocError>
        requires { place < length self.now.tablets }
        ensures { IfOk result (λ v. sorted v ≡ sorted (records_in (tablet_at self.now.tablets place))) }
    {
        self.contents.tablets.version_at(alloc, place)
    }

    /// How many tablets there are; 2^64 - 1 for any number above it.
    pub fn tablet_count(&self) -> u64
        ensures { result ≡ told_count (length self.now.tablets) }
    {
        self.contents.tablets.len()
    }

    // The time below which no update is accepted any more.
    fn floor(&self, now: i64) -> i64
        ensures { result ≡ floor_of self.now.settings.time now self.now.settings.horizon }
    {
        match self.contents.time {
            TimeMode::Any => self.contents.horizon,
            TimeMode::Server => now,
        }
    }

    /// How many tablets there are, how many runs and sorted tables they have, and how many records they hold. A count above 2^64 - 1
    /// is told as that.
    pub fn counts(&self) -> Counts
        ensures { result ≡ counts_of self.now.tablets }
    {
        Counts {
            tablets: self.contents.tablets.len(),
            sources: self.contents.tablets.count_sources(),
            records: self.contents.tablets.count_records(),
        }
    }
}
