//! Tablets in the order of their rows.
ghost use Rattle.std.specs.Prelude.{◌≡◌, ◌==◌, ℕ, ◌+◌, ◌<◌, [], ◌∷◌, ◌++◌, None, Some, false, length, map, min, sum, Contains, IfOk, IfSome, OnOk, OnErr};
ghost use Rattle.std.specs.List.{AllByRecursion, insert};
ghost use Rattle.tab_key.specs.Records.{Record as Fields};
ghost use Rattle.tab_cells.specs.Written.{mutation_records};
ghost use Rattle.tab_tablet.specs.Tablets.{new_tablet, frozen, records_in, written, capture, begins, installed as installed_by};
ghost use Rattle.tab_tablet.specs.MergedRuns.{IsFreezeOf};
ghost use Rattle.tab_tablet.specs.Splitting.{split_at};
ghost use Rattle.tab_version.specs.Sources.{count_of};
ghost use Rattle.tab_tablets.specs.ByRow.{AreWhole, ends_of, records_of_all};
ghost use Rattle.tab_tablets.specs.Places.{ended, tablet_at, IsPlaceOf, at_place, put_at, installed, is_end_row};
ghost use Rattle.tab_tablets.specs.Due.{first_due, IsFirstWith, start_at};
ghost use Rattle.tab_tablets.specs.Splits.{is_full};

use crate::bounded_tablet::{
    BoundedTablet, MadeTablet, count_records, count_sources, ends_of, insert_reserved, prefixes_of,
};
use crate::tablets::copied_lower;
use std::alloc::{AllocError, Global};
use std::marker::Model;
use std::mem;
use tab_cells::Compaction;
use tab_iter::NoMemory;
use tab_key::{ByteString, row_prefix};
use tab_mem::{count_below, count_up_to};
use tab_mutation::Shaped;
use tab_tablet::{DueKind, Finished, Freeze, Installed, Job, Tablet};

/// The most end rows that a table may have.
const MOST_ENDS: usize = 4_294_967_295;

/// The tablets of a table in the order of their rows, each at its place, counted from 0. A contract sees them with their end rows. The
/// prefixes of these lie side by side, so that a search reads little else.
#[derive(Drop)]
pub(crate) struct TabletList {
    // of the end rows, in their order
    prefixes: Vec<u128>,
    lower: Vec<BoundedTablet>,
    last: Tablet,
}

impl Model for TabletList {
    ghost use Rattle.std.specs.Prelude.{List, [], ◌∷◌, ◌++◌, None};
    ghost use Rattle.tab_tablet.specs.Tablets.{Tablet as Contents};
    ghost use Rattle.tab_tablets.specs.Places.{ended};

    ghost Value = { List Contents };

    ghost use Rattle.tab_tablets.specs.EndPrefixes.{ArePrefixes};

    ghost view = { λ l. l.lower.items ++ ended None l.last ∷ [] };

    ghost invariant = { λ l. ArePrefixes l.prefixes.items l.lower.items };
}

impl TabletList {
    /// The tablet with this number alone, of all rows, without records. It takes no memory.
    pub(crate) fn new(alloc: Global, number: u64) -> TabletList
        ensures { result ≡ new_tablet number None ∷ [] }
    {
        TabletList {
            prefixes: Vec::new(alloc),
            lower: Vec::new(alloc),
            last: Tablet::new(alloc, number),
        }
    }

    /// These tablets, the last one behind the others.
    ///
    /// It takes memory for the prefixes of the end rows. `AllocError` says that it lacked.
    pub(crate) fn of(
        alloc: Global,
        lower: Vec<BoundedTablet>,
        last: Tablet,
    ) -> Result<TabletList, AllocError>
        ensures { IfOk result (λ l. l ≡ lower.items ++ ended None last ∷ []) }
    {
        let prefixes = prefixes_of(alloc, &lower)?;
        Ok(TabletList {
            prefixes,
            lower,
            last,
        })
    }

    /// How many tablets there are.
    pub(crate) fn len(&self) -> usize
        ensures { result ≡ length self.now }
    {
        self.lower.len() + 1
    }

    /// The place of the tablet that holds the row. It is found among the prefixes of the end rows; only of end rows that have the row's
    /// own prefix is any read itself, by halves.
    pub(crate) fn place_of(&self, row: &[u8]) -> usize
        requires { AreWhole self.now }
        ensures { IsPlaceOf row.now self.now result }
    {
        let prefix = row_prefix(row);
        let prefixes = self.prefixes.as_slice();
        let from = count_below(prefixes, prefix);
        let end = count_up_to(prefixes, from, prefix);
        let alike = &self.lower[from..end];
        from + alike.partition_point(|lower| !lower.is_up_to(row))
    }

    /// The tablet at a place.
    pub(crate) fn tablet(&self, place: usize) -> &Tablet
        requires { place < length self.now }
        ensures { ended (tablet_at self.now place).end result.now ≡ tablet_at self.now place }
    {
        if place < self.lower.len() {
            return self.lower[place].tablet();
        }
        &self.last
    }

    /// A copy of the tablets, each as `Tablet::copied` has it.
    ///
    /// It takes memory as that does, for each. `AllocError` says that it lacked.
    pub(crate) fn copied(&self, alloc: Global) -> Result<TabletList, AllocError>
        ensures { IfOk result (λ l. l ≡ self.now) }
    {
        let lower = copied_lower(alloc, &self.lower)?;
        let last = self.last.copied(alloc)?;
        TabletList::of(alloc, lower, last)
    }

    /// Puts another tablet in the place of one, up to the same end row.
    pub(crate) fn put(&mut self, place: usize, tablet: Tablet)
        requires { place < length self.old }
        ensures { self.new ≡ put_at place tablet self.old }
    {
        if place < self.lower.len() {
            self.lower[place].put(tablet);
        } else {
            drop(mem::replace(&mut self.last, tablet));
        }
    }

    /// Writes a mutation, whose shape was accepted, to the tablet at a place, as `Tablet::write` does.
    pub(crate) fn write(
        &mut self,
        place: usize,
        mutation: &Shaped<'_>,
        seq: u64,
        clock: i64,
    ) -> Result<(), AllocError>
        requires inside { place < length self.old }
        requires unused { (u : Fields) → Contains (records_in (tablet_at self.old place)) u → u.seq < seq }
        ensures ok { OnOk result (self.new ≡ at_place place (λ t. written (mutation_records seq clock mutation.now) t ∷ []) self.old) }
        ensures err { OnErr result (self.new ≡ self.old) }
    {
        if place < self.lower.len() {
            return self.lower[place].write(mutation, seq, clock);
        }
        self.last.write(mutation, seq, clock)
    }

    /// Makes the run of what was written to the tablet at a place ahead, as `Tablet::make_run` does.
    pub(crate) fn make_run(&mut self, alloc: Global, place: usize) -> Result<(), AllocError>
        requires { place < length self.old }
        ensures { self.new ≡ self.old }
    {
        if place < self.lower.len() {
            return self.lower[place].make_run(alloc);
        }
        self.last.make_run(alloc)
    }

    /// Freezes the tablet at a place, as `Tablet::freeze` does.
    pub(crate) fn freeze(
        &mut self,
        alloc: Global,
        place: usize,
        freeze: Freeze,
    ) -> Result<(), AllocError>
        requires inside { place < length self.old }
        requires freeze { IsFreezeOf (tablet_at self.old place) freeze }
        ensures ok { OnOk result (self.new ≡ at_place place (λ t. frozen t ∷ []) self.old) }
        ensures err { OnErr result (self.new ≡ self.old) }
    {
        if place < self.lower.len() {
            return self.lower[place].freeze(alloc, freeze);
        }
        self.last.freeze(alloc, freeze)
    }

    /// Begins a compaction of the tablet at a place, as `Tablet::begin` does.
    pub(crate) fn begin(
        &mut self,
        alloc: Global,
        place: usize,
        kind: Compaction,
        floor: i64,
        versions: u32,
        number: u64,
    ) -> Result<Option<Job>, NoMemory>
        requires { place < length self.old }
        ensures job { IfOk result (λ job. job ≡ capture number kind floor versions (tablet_at self.old place)) }
        ensures ok { OnOk result (self.new ≡ at_place place (λ t. begins number kind floor versions t ∷ []) self.old) }
        ensures err { OnErr result (self.new ≡ self.old) }
    {
        if place < self.lower.len() {
            return self.lower[place].begin(alloc, kind, floor, versions, number);
        }
        self.last.begin(alloc, kind, floor, versions, number)
    }

    /// Installs a finished merge in the tablet at a place, as `Tablet::install` does.
    pub(crate) fn install_merge(
        &mut self,
        alloc: Global,
        place: usize,
        finished: Finished,
    ) -> Result<Installed, NoMemory>
        requires { place < length self.old }
        ensures told { IfOk result (λ told. told ≡ (installed_by finished (tablet_at self.old place)).0) }
        ensures ok { OnOk result (self.new ≡ at_place place (λ t. (installed_by finished t).1 ∷ []) self.old) }
        ensures err { OnErr result (self.new ≡ self.old) }
    {
        if place < self.lower.len() {
            return self.lower[place].install(alloc, finished);
        }
        self.last.install(alloc, finished)
    }

    /// Puts tablets in their places that were made before. It can't fail.
    pub(crate) fn install(&mut self, mut made: Vec<MadeTablet>)
        requires { AllByRecursion (λ m. m.place < length self.old) made.items }
        ensures { self.new ≡ installed made.items self.old }
    {
        while let Some(next) = made.pop() {
            self.put_made(next);
        }
    }

    // Puts one of them in its place.
    fn put_made(&mut self, made: MadeTablet)
        requires { made.place < length self.old }
        ensures { self.new ≡ put_at made.place made.tablet self.old }
    {
        let MadeTablet { place, tablet } = made;
        self.put(place, tablet);
    }

    /// Splits the tablet at a place at this row, as `Tablet::split` does: the lower one of the two gets this number, the upper one the next.
    ///
    /// `AllocError` leaves all as it was.
    pub(crate) fn split(
        &mut self,
        alloc: Global,
        place: usize,
        row: ByteString,
        number: u64,
    ) -> Result<(), AllocError>
        requires { place < length self.old }
        ensures ok { OnOk result (self.new ≡ at_place place (split_at row number) self.old) }
        ensures err { OnErr result (self.new ≡ self.old) }
    {
        let next = number.saturating_add(1);
        let (lower, upper) = self.tablet(place).split(alloc, &row, number, next)?;
        self.divide(alloc, place, row, lower, upper)
    }

    // Puts two tablets in the place of one: the lower one up to this row, the upper one up to the end row that there was.
    fn divide(
        &mut self,
        alloc: Global,
        place: usize,
        row: ByteString,
        lower: Tablet,
        upper: Tablet,
    ) -> Result<(), AllocError>
        requires { place < length self.old }
        ensures ok { OnOk result (self.new ≡ at_place place (λ t. ended (Some row) lower ∷ ended t.end upper ∷ []) self.old) }
        ensures err { OnErr result (self.new ≡ self.old) }
    {
        let lower = BoundedTablet::new(alloc, row, lower)?;
        let behind = self.insert(place, lower)?;
        self.put(behind, upper);
        Ok(())
    }

    // Puts a tablet with an end row before the one at a place. It tells the place that this one has then.
    fn insert(&mut self, place: usize, lower: BoundedTablet) -> Result<usize, AllocError>
        requires { place < length self.old }
        ensures behind { IfOk result (λ behind. behind ≡ place + 1) }
        ensures ok { OnOk result (self.new ≡ insert self.old place lower) }
        ensures err { OnErr result (self.new ≡ self.old) }
    {
        let prefix = row_prefix(lower.end().as_bytes());
        self.prefixes.reserve(1)?;
        self.lower.insert(place, lower)?;
        insert_reserved(&mut self.prefixes, place, prefix);
        Ok(place + 1)
    }

    /// Whether the tablet at a place has this number.
    pub(crate) fn has_number(&self, place: usize, number: u64) -> bool
        requires { place < length self.now }
        ensures { result ≡ ((tablet_at self.now place).number == number) }
    {
        self.tablet(place).number() == number
    }

    /// The place of the tablet with this number, if there is one: the first of several. It takes time linear in the tablets.
    pub(crate) fn place_with(&self, number: u64) -> Option<usize>
        ensures place { IfSome result (λ place. IsFirstWith number self.now place) }
        ensures none { result ≡ None → (k : ℕ) → k < length self.now → ((tablet_at self.now k).number == number) ≡ false }
    {
        for place in 0..self.len() {
            if self.has_number(place, number) {
                return Some(place);
            }
        }
        None
    }

    /// The number of the first tablet that is due for work of this kind. It takes of each tablet up to that one the time that
    /// `Tablet::is_due` takes.
    pub(crate) fn due(&self, kind: DueKind) -> Option<u64>
        ensures { result ≡ first_due kind self.now }
    {
        for place in 0..self.len() {
            let tablet = self.tablet(place);
            if tablet.is_due(kind) {
                return Some(tablet.number());
            }
        }
        None
    }

    /// The least row of the tablet at a place.
    ///
    /// It takes memory for the row. `AllocError` says that it lacked.
    pub(crate) fn start_at(&self, alloc: Global, place: usize) -> Result<ByteString, AllocError>
        requires { place < length self.now }
        ensures { IfOk result (λ row. row ≡ start_at self.now place) }
    {
        if place == 0 {
            return Ok(ByteString::new(alloc));
        }
        self.lower[place - 1].row_above(alloc)
    }

    /// Whether the row is the end row of the tablet at a place.
    pub(crate) fn is_end_at(&self, place: usize, row: &[u8]) -> bool
        requires { place < length self.now }
        ensures { result ≡ is_end_row row.now (tablet_at self.now place).end }
    {
        if place < self.lower.len() {
            return self.lower[place].ends_at(row);
        }
        false
    }

    /// Whether there are as many end rows as a table may have.
    pub(crate) fn is_full(&self) -> bool
        requires { AreWhole self.now }
        ensures { result ≡ is_full self.now }
    {
        self.lower.len() >= MOST_ENDS
    }

    /// The end rows, rising.
    ///
    /// It takes memory for a copy of each. `AllocError` says that it lacked.
    pub(crate) fn ends(&self, alloc: Global) -> Result<Vec<ByteString>, AllocError>
        ensures { IfOk result (λ v. v.items ≡ ends_of self.now) }
    {
        ends_of(alloc, &self.lower)
    }

    /// How many runs and sorted tables the tablets have; the greatest `u64` for any number above it.
    pub(crate) fn count_sources(&self) -> u64
        ensures { result ≡ min (sum (map (λ t. count_of t.sources) self.now)) 18446744073709551615 }
    {
        count_sources(&self.lower).saturating_add(self.last.count_sources())
    }

    /// How many records they hold, markers and hidden ones among them; the greatest `u64` for any number above it.
    pub(crate) fn count_records(&self) -> u64
        ensures { result ≡ min (length (records_of_all self.now)) 18446744073709551615 }
    {
        count_records(&self.lower).saturating_add(self.last.count_records())
    }
}
