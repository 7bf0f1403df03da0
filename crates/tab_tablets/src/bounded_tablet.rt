//! Tablets with an end row.
ghost use Rattle.std.specs.Prelude.{◌≡◌, ◌<◌, Some, Contains, IfOk, OnOk, OnErr, length, map, min, sum, ◌≤◌, vec_len, vec_capacity};
ghost use Rattle.tab_key.specs.Records.{Record as Fields};
ghost use Rattle.tab_cells.specs.Written.{mutation_records};
ghost use Rattle.tab_tablet.specs.Tablets.{is_up_to, frozen, records_in, written, capture, begins, installed};
ghost use Rattle.tab_tablet.specs.MergedRuns.{IsFreezeOf};
ghost use Rattle.tab_tablets.specs.Due.{least_above};
ghost use Rattle.tab_tablets.specs.Places.{ended, is_end_row};
ghost use Rattle.tab_tablets.specs.ByRow.{ends_of, records_of_all};
ghost use Rattle.tab_version.specs.Sources.{count_of};
ghost use Rattle.std.specs.List.{insert};
ghost use Rattle.tab_tablets.specs.EndPrefixes.{ArePrefixes};

use std::alloc::{AllocError, Global};
use std::marker::Model;
use tab_cells::Compaction;
use tab_iter::NoMemory;
use tab_key::{ByteString, row_prefix};
use tab_mutation::Shaped;
use tab_tablet::{Finished, Freeze, Installed, Job, Tablet};

/// A tablet that isn't the last of its table, with the last row that it may hold. A contract sees the tablet with its end row. The
/// tablet lies apart, so that few bytes are moved where another one is put among many.
#[derive(Drop)]
pub(crate) struct BoundedTablet {
    end: ByteString,
    tablet: Box<Tablet>,
}

impl Model for BoundedTablet {
    ghost use Rattle.std.specs.Prelude.{Some};
    ghost use Rattle.tab_tablet.specs.Tablets.{Tablet as Contents};

    ghost Value = { Contents };

    ghost view = { λ l. record (l.tablet.value) { end = Some l.end } };
}

impl BoundedTablet {
    /// The tablet of the rows up to this one.
    ///
    /// `AllocError` says that memory lacked.
    pub(crate) fn new(
        alloc: Global,
        end: ByteString,
        tablet: Tablet,
    ) -> Result<BoundedTablet, AllocError>
        ensures { IfOk result (λ l. l ≡ ended (Some end) tablet) }
    {
        let tablet = Box::new(alloc, tablet)?;
        Ok(BoundedTablet { end, tablet })
    }

    /// The last row that it may hold.
    pub(crate) fn end(&self) -> &ByteString
        ensures { self.now.end ≡ Some result.now }
    {
        &self.end
    }

    /// The least row above the end row: that and a zero byte.
    ///
    /// It takes memory for the row. `AllocError` says that it lacked.
    pub(crate) fn row_above(&self, alloc: Global) -> Result<ByteString, AllocError>
        ensures { IfOk result (λ row. row ≡ least_above self.now.end) }
    {
        let end = self.end.as_bytes();
        let mut row = Vec::with_capacity(alloc, end.len() + 1)?;
        row.extend_from_slice(end)?;
        row.push(0)?;
        Ok(ByteString::from_vec(row))
    }

    /// Whether the row is at or before the end row.
    pub(crate) fn is_up_to(&self, row: &[u8]) -> bool
        ensures { result ≡ is_up_to self.now.end row.now }
    {
        row.cmp(self.end.as_bytes()).is_le()
    }

    /// Whether the row is the end row.
    pub(crate) fn ends_at(&self, row: &[u8]) -> bool
        ensures { result ≡ is_end_row row.now self.now.end }
    {
        row == self.end.as_bytes()
    }

    /// The tablet itself.
    pub(crate) fn tablet(&self) -> &Tablet
        ensures { ended self.now.end result.now ≡ self.now }
    {
        &self.tablet
    }

    /// A copy of the tablet up to its end row, as `Tablet::copied` has it.
    ///
    /// It takes memory as that does, for its place and for the end row. `AllocError` says that it lacked.
    pub(crate) fn copied(&self, alloc: Global) -> Result<BoundedTablet, AllocError>
        ensures { IfOk result (λ l. l ≡ self.now) }
    {
        let end = self.end.clone()?;
        let tablet = self.tablet.copied(alloc)?;
        BoundedTablet::new(alloc, end, tablet)
    }

    /// Puts another tablet in its place.
    pub(crate) fn put(&mut self, tablet: Tablet)
        ensures { self.new ≡ ended self.old.end tablet }
    {
        *self.tablet = tablet;
    }

    /// Writes a mutation, whose shape was accepted, as `Tablet::write` does.
    pub(crate) fn write(
        &mut self,
        mutation: &Shaped<'_>,
        seq: u64,
        clock: i64,
    ) -> Result<(), AllocError>
        requires unused { (u : Fields) → Contains (records_in self.old) u → u.seq < seq }
        ensures ok { OnOk result (self.new ≡ written (mutation_records seq clock mutation.now) self.old) }
        ensures err { OnErr result (self.new ≡ self.old) }
    {
        self.tablet.write(mutation, seq, clock)
    }

    /// Begins a compaction, as `Tablet::begin` does.
    pub(crate) fn begin(
        &mut self,
        alloc: Global,
        kind: Compaction,
        floor: i64,
        versions: u32,
        number: u64,
    ) -> Result<Option<Job>, NoMemory>
        ensures job { IfOk result (λ job. job ≡ capture number kind floor versions self.old) }
        ensures ok { OnOk result (self.new ≡ begins number kind floor versions self.old) }
        ensures err { OnErr result (self.new ≡ self.old) }
    {
        self.tablet.begin(alloc, kind, floor, versions, number)
    }

    /// Installs a finished merge, as `Tablet::install` does.
    pub(crate) fn install(
        &mut self,
        alloc: Global,
        finished: Finished,
    ) -> Result<Installed, NoMemory>
        ensures told { IfOk result (λ told. told ≡ (installed finished self.old).0) }
        ensures ok { OnOk result (self.new ≡ (installed finished self.old).1) }
        ensures err { OnErr result (self.new ≡ self.old) }
    {
        self.tablet.install(alloc, finished)
    }

    /// Makes the run of what was written ahead, as `Tablet::make_run` does.
    pub(crate) fn make_run(&mut self, alloc: Global) -> Result<(), AllocError>
        ensures { self.new ≡ self.old }
    {
        self.tablet.make_run(alloc)
    }

    /// Freezes it in its place, as `Tablet::freeze` does.
    pub(crate) fn freeze(&mut self, alloc: Global, freeze: Freeze) -> Result<(), AllocError>
        requires { IsFreezeOf self.old freeze }
        ensures ok { OnOk result (self.new ≡ frozen self.old) }
        ensures err { OnErr result (self.new ≡ self.old) }
    {
        self.tablet.freeze(alloc, freeze)
    }
}

/// A tablet that is to take the place of one, counted from 0 in the order of rows.
#[derive(Drop)]
pub(crate) struct MadeTablet {
    pub(crate) place: usize,
    pub(crate) tablet: Tablet,
}

/// A copy of each end row, in their order.
pub(crate) fn ends_of(alloc: Global, lower: &[BoundedTablet]) -> Result<Vec<ByteString>, AllocError>
    ensures { IfOk result (λ v. v.items ≡ ends_of lower.now) }
{
    let mut ends = Vec::with_capacity(alloc, lower.len())?;
    for tablet in lower {
        ends.push(tablet.end().clone()?)?;
    }
    Ok(ends)
}

/// How many runs and sorted tables there are; the greatest `u64` for any number above it.
pub(crate) fn count_sources(lower: &[BoundedTablet]) -> u64
    ensures { result ≡ min (sum (map (λ t. count_of t.sources) lower.now)) 18446744073709551615 }
{
    let mut count = 0u64;
    for tablet in lower {
        count = count.saturating_add(tablet.tablet().count_sources());
    }
    count
}

/// How many records there are; the greatest `u64` for any number above it.
pub(crate) fn count_records(lower: &[BoundedTablet]) -> u64
    ensures { result ≡ min (length (records_of_all lower.now)) 18446744073709551615 }
{
    let mut count = 0u64;
    for tablet in lower {
        count = count.saturating_add(tablet.tablet().count_records());
    }
    count
}

/// The prefix of each end row, in their order.
///
/// It takes memory for a number for each. `AllocError` says that it lacked.
pub(crate) fn prefixes_of(alloc: Global, lower: &[BoundedTablet]) -> Result<Vec<u128>, AllocError>
    ensures { IfOk result (λ v. ArePrefixes v.items lower.now) }
{
    let mut prefixes = Vec::with_capacity(alloc, lower.len())?;
    for tablet in lower {
        prefixes.push(row_prefix(tablet.end().as_bytes()))?;
    }
    Ok(prefixes)
}

/// Puts a prefix at a place, for which there is room.
pub(crate) fn insert_reserved(prefixes: &mut Vec<u128>, place: usize, prefix: u128)
    requires place { place ≤ length prefixes.old.items }
    requires room { vec_len prefixes.old < vec_capacity prefixes.old }
    ensures { prefixes.new.items ≡ insert prefixes.old.items place prefix }
{
    prefixes.insert(place, prefix).unwrap()
}
