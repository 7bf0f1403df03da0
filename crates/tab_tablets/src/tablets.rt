//! The tablets of a table.
ghost use Rattle.std.specs.Prelude.{◌≡◌, ◌<◌, [], ◌∷◌, None, length, map, min, sum, Contains, IfOk, OnOk, OnErr, ℕ, true, ◌==◌, not, filter};
ghost use Rattle.tab_key.specs.Records.{Record as Fields};
ghost use Rattle.tab_cells.specs.Written.{mutation_records};
ghost use Rattle.tab_version.specs.Sources.{count_of};
ghost use Rattle.tab_tablet.specs.Tablets.{new_tablet, written, records_in, frozen, compacted};
ghost use Rattle.tab_tablets.specs.ByRow.{at_row, records_of_all, ends_of};
ghost use Rattle.tab_tablets.specs.Places.{tablet_at, IsPlaceOf, AreMade, is_made};
ghost use Rattle.tab_key.specs.Sorted.{sorted};
ghost use Rattle.tab_tablets.specs.Due.{first_due, number_due, start_of};
ghost use Rattle.tab_tablets.specs.Parts.{begun_at, begins_at, installs_in};

use crate::bounded_tablet::{BoundedTablet, MadeTablet};
use crate::tablet_job::{FinishedJob, TabletJob};
use crate::tablet_list::TabletList;
use std::alloc::{AllocError, Global};
use std::marker::Model;
use tab_cells::Compaction;
use tab_iter::NoMemory;
use tab_key::{ByteString, Items};
use tab_mutation::Shaped;
use tab_tablet::{DueKind, Installed};
use tab_version::Version;

/// The tablets of a table, by their end rows: each row has one. A contract sees them in the order of rows.
pub struct Tablets {
    pub(crate) tablet_list: TabletList,
    // the places of the tablets that were written to since they were frozen, each once, and of no others: so what goes through them takes as
    // long as there are such tablets, however many writes there were
    pub(crate) written: Vec<usize>,
}

// Written out, so that a crate above needn't prove anew how the parts are dropped.
impl Drop for Tablets {
    fn drop(self) {
        let Tablets {
            tablet_list: _,
            written: _,
        } = self;
    }
}

impl Model for Tablets {
    ghost use Rattle.std.specs.Prelude.{List};
    ghost use Rattle.tab_tablet.specs.Tablets.{Tablet as Contents};
    ghost use Rattle.tab_tablets.specs.Places.{AreKept};

    ghost Value = { List Contents };

    ghost view = { λ t. t.tablet_list };

    ghost invariant = { λ t. AreKept t.tablet_list t.written.items };
}

impl Tablets {
    /// The tablet with this number alone, of all rows, without records. It takes no memory.
    pub fn new(alloc: Global, number: u64) -> Tablets
        ensures { result ≡ new_tablet number None ∷ [] }
    {
        Tablets {
            tablet_list: TabletList::new(alloc, number),
            written: Vec::new(alloc),
        }
    }

    /// Writes a mutation, whose shape was accepted, to the tablet that holds its row: each update with this number and, where it
    /// gives no timestamp, the clock. It takes time logarithmic in the tablets and linear in the mutation.
    ///
    /// `AllocError` leaves all as it was: the mutation goes in whole or not at all.
    pub fn write(&mut self, mutation: &Shaped<'_>, seq: u64, clock: i64) -> Result<(), AllocError>
        requires unused { (u : Fields) → Contains (records_of_all self.old) u → u.seq < seq }
        ensures ok { OnOk result (self.new ≡ at_row mutation.now.row (λ t. written (mutation_records seq clock mutation.now) t ∷ []) self.old) }
        ensures err { OnErr result (self.new ≡ self.old) }
    {
        let place = self.tablet_list.place_of(mutation.row());
        if self.tablet_list.tablet(place).is_frozen() {
            return self.write_first(place, mutation, seq, clock);
        }
        self.tablet_list.write(place, mutation, seq, clock)
    }

    // Writes it to the tablet at this place, to which nothing was written since it was frozen.
    fn write_first(
        &mut self,
        place: usize,
        mutation: &Shaped<'_>,
        seq: u64,
        clock: i64,
    ) -> Result<(), AllocError>
        requires place { IsPlaceOf mutation.now.row self.old place }
        requires idle { (tablet_at self.old place).active ≡ [] }
        requires unused { (u : Fields) → Contains (records_of_all self.old) u → u.seq < seq }
        ensures ok { OnOk result (self.new ≡ at_row mutation.now.row (λ t. written (mutation_records seq clock mutation.now) t ∷ []) self.old) }
        ensures err { OnErr result (self.new ≡ self.old) }
    {
        mutation.keeps();
        self.written.reserve(1)?;
        self.tablet_list.write(place, mutation, seq, clock)?;
        self.written.push_reserved(place);
        Ok(())
    }

    /// The end rows, rising.
    ///
    /// It takes memory for a copy of each. `AllocError` says that it lacked.
    pub fn ends(&self, alloc: Global) -> Result<Items<ByteString>, AllocError>
        ensures { IfOk result (λ v. v ≡ ends_of self.now) }
    {
        Ok(Items::from_vec(self.tablet_list.ends(alloc)?))
    }

    /// How many tablets there are; the greatest `u64` for any number above it.
    pub fn len(&self) -> u64
        ensures { result ≡ min (length self.now) 18446744073709551615 }
    {
        self.places() as u64
    }

    /// How many runs and sorted tables they have; the greatest `u64` for any number above it.
    pub fn count_sources(&self) -> u64
        ensures { result ≡ min (sum (map (λ t. count_of t.sources) self.now)) 18446744073709551615 }
    {
        self.tablet_list.count_sources()
    }

    /// How many records they hold, markers and hidden ones among them; the greatest `u64` for any number above it.
    pub fn count_records(&self) -> u64
        ensures { result ≡ min (length (records_of_all self.now)) 18446744073709551615 }
    {
        self.tablet_list.count_records()
    }
}

impl Tablets {
    /// A copy of the tablets. What is done to one of the two later doesn't change the other. They share the sources, what scans read, and
    /// the merges under way.
    ///
    /// It takes memory for each tablet and its end row, for a share of what it holds, and for a copy of what was written to it since its
    /// last freeze. `AllocError` says that it lacked.
    pub fn copied(&self, alloc: Global) -> Result<Tablets, AllocError>
        ensures { IfOk result (λ ts. ts ≡ self.now) }
    {
        let tablet_list = self.tablet_list.copied(alloc)?;
        let written = self.written.clone()?;
        Ok(Tablets {
            tablet_list,
            written,
        })
    }
}

/// Each of these tablets once more, in their order.
pub(crate) fn copied_lower(
    alloc: Global,
    lower: &[BoundedTablet],
) -> Result<Vec<BoundedTablet>, AllocError>
    ensures { IfOk result (λ copies. copies.items ≡ lower.now) }
{
    let mut copies = Vec::with_capacity(alloc, lower.len())?;
    for tablet in lower {
        let copy = tablet.copied(alloc)?;
        copies.push(copy)?;
    }
    Ok(copies)
}

impl Tablets {
    /// All that the tablet at a place holds, as a version, which lists it; places are counted from 0 in the order of rows. All tablets
    /// stay as they are: what was written since the last freeze is copied into a run of the version, and nothing is frozen. Whoever goes
    /// through the places from 0 on lists the whole table in its order, as the laws of listings say.
    ///
    /// It takes memory for that copy, of this one tablet, and for a share of each of its sources. `AllocError` says that it lacked.
    pub fn version_at(&self, alloc: Global, place: u64) -> Result<Version, AllocError>
        requires { place < length self.now }
        ensures held { IfOk result (λ v. v ≡ records_in (frozen (tablet_at self.now place))) }
        ensures listed { IfOk result (λ v. sorted v ≡ sorted (records_in (tablet_at self.now place))) }
    {
        self.tablet_list.tablet(place as usize).version(alloc)
    }
}

impl Tablets {
    /// The number of the first tablet, in the order of rows, that is due for work of this kind. It takes no memory, and of each tablet up
    /// to that one the time that `Tablet::is_due` takes.
    pub fn due(&self, kind: DueKind) -> Option<u64>
        ensures { result ≡ first_due kind self.now }
    {
        self.tablet_list.due(kind)
    }

    /// How many places there are, one for each tablet.
    pub fn places(&self) -> usize
        ensures { result ≡ length self.now }
    {
        self.tablet_list.len()
    }

    /// The number of the tablet at a place, counted from 0 in the order of rows, where it is due for work of this kind. It takes no memory.
    pub fn due_at(&self, kind: DueKind, place: usize) -> Option<u64>
        requires { place < length self.now }
        ensures { result ≡ number_due kind (tablet_at self.now place) }
    {
        let tablet = self.tablet_list.tablet(place);
        if tablet.is_due(kind) {
            return Some(tablet.number());
        }
        None
    }

    /// The least row of the tablet with this number, if there is one: the end row before it and a zero byte, or the empty row.
    ///
    /// It takes time linear in the tablets, and memory for the row. `AllocError` says that it lacked.
    pub fn start_of(&self, alloc: Global, number: u64) -> Result<Option<ByteString>, AllocError>
        ensures { IfOk result (λ row. row ≡ start_of number None self.now) }
    {
        match self.tablet_list.place_with(number) {
            Some(place) => Ok(Some(self.tablet_list.start_at(alloc, place)?)),
            None => Ok(None),
        }
    }
}

impl Tablets {
    /// Compacts each tablet, with this floor of the table's timestamps and so many versions of a column. All merges are made before
    /// any tablet is replaced.
    ///
    /// It takes time and memory for what it merges. NoMemory leaves all as it was: no tablet is frozen either. (Accumulo user manual:
    /// minor and major compactions)
    pub fn compact(
        &mut self,
        alloc: Global,
        kind: Compaction,
        floor: i64,
        versions: u32,
    ) -> Result<(), NoMemory>
        ensures ok { OnOk result (self.new ≡ map (compacted kind floor versions) self.old) }
        ensures err { OnErr result (self.new ≡ self.old) }
    {
        self.make_runs(alloc)?;
        self.compact_made(alloc, kind, floor, versions)
    }

    // `compact` where the runs of what was written are made.
    fn compact_made(
        &mut self,
        alloc: Global,
        kind: Compaction,
        floor: i64,
        versions: u32,
    ) -> Result<(), NoMemory>
        ensures ok { OnOk result (self.new ≡ map (compacted kind floor versions) self.old) }
        ensures err { OnErr result (self.new ≡ self.old) }
    {
        let made = compacted_all(alloc, &self.tablet_list, kind, floor, versions)?;
        self.tablet_list.install(made);
        self.written.clear();
        Ok(())
    }
}

// For each place the tablet that is there, compacted.
fn compacted_all(
    alloc: Global,
    tablet_list: &TabletList,
    kind: Compaction,
    floor: i64,
    versions: u32,
) -> Result<Vec<MadeTablet>, NoMemory>
    ensures made { IfOk result (λ v. AreMade (compacted kind floor versions) tablet_list.now v.items) }
    ensures all { IfOk result (λ v. (k : ℕ) → k < length tablet_list.now → is_made v.items k ≡ true) }
{
    let mut made = Vec::with_capacity(alloc, tablet_list.len())?;
    for place in 0..tablet_list.len() {
        let tablet = tablet_list
            .tablet(place)
            .compacted(alloc, kind, floor, versions)?;
        made.push(MadeTablet { place, tablet })?;
    }
    Ok(made)
}

impl Tablets {
    /// Begins a compaction of the tablet that holds the row: it is frozen, and its merge, with this number, is under way in the place of
    /// the one of its kind. None where there is nothing to merge. The floor is that of the table's timestamps; of a column so many
    /// versions are kept.
    ///
    /// It takes time logarithmic in the tablets and linear in those that were written to, and time and memory for a run of what was
    /// written to this one and for shares of its sources. NoMemory says that memory lacked, and leaves all as it was. (Accumulo user
    /// manual: minor and major compactions)
    pub fn begin(
        &mut self,
        alloc: Global,
        row: ByteString,
        kind: Compaction,
        floor: i64,
        versions: u32,
        number: u64,
    ) -> Result<Option<TabletJob>, NoMemory>
        ensures job { IfOk result (λ job. job ≡ begun_at row number kind floor versions self.old) }
        ensures tablets { OnOk result (self.new ≡ begins_at row number kind floor versions self.old) }
        ensures err { OnErr result (self.new ≡ self.old) }
    {
        let place = self.tablet_list.place_of(row.as_bytes());
        let begun = self
            .tablet_list
            .begin(alloc, place, kind, floor, versions, number)?;
        leave_out(&mut self.written, place);
        Ok(TabletJob::found_for(row, begun))
    }

    /// Installs a finished merge in the tablet that it was begun in, as `Tablet::install` does. Where that tablet is gone, the merge is
    /// stale, with no source, and nothing changes: the tablet that holds the row then has another number.
    ///
    /// It takes time logarithmic in the tablets, and time linear in the records of the inputs. NoMemory leaves all as it was; the merge
    /// is lost.
    pub fn install(&mut self, alloc: Global, finished: FinishedJob) -> Result<Installed, NoMemory>
        ensures told { IfOk result (λ told. told ≡ (installs_in finished self.old).0) }
        ensures tablets { OnOk result (self.new ≡ (installs_in finished self.old).1) }
        ensures err { OnErr result (self.new ≡ self.old) }
    {
        let place = self.tablet_list.place_of(finished.row());
        if !self.tablet_list.has_number(place, finished.tablet()) {
            return Ok(Installed::Stale(0));
        }
        let merge = finished.into_finished();
        self.tablet_list.install_merge(alloc, place, merge)
    }
}

// Leaves the others of these places.
fn leave_out(places: &mut Vec<usize>, place: usize)
    ensures { places.new.items ≡ filter (λ other. not (other == place)) places.old.items }
{
    places.retain(|other| *other != place);
}
