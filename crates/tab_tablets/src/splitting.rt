//! Splits of one tablet, and tablets made of end rows and of records.
ghost use Rattle.std.specs.Prelude.{◌≡◌, ◌<◌, [], ◌∷◌, ◌++◌, false, length, IfOk, OnOk, OnErr, Some, None, filter};
ghost use Rattle.std.specs.List.{AllByRecursion, filter_map};
ghost use Rattle.tab_key.specs.Sorted.{IsDistinct};
ghost use Rattle.tab_tablet.specs.Splitting.{split_at, middle_row, rows_in};
ghost use Rattle.tab_tablet.specs.Tablets.{records_in, tabled};
ghost use Rattle.tab_tablets.specs.Places.{tablet_at, IsPlaceOf, at_place, is_end_row, moved_from};
ghost use Rattle.tab_tablets.specs.Splits.{split_in, split_found, splits, halves};
ghost use Rattle.std.specs.Ordering.{is_le, is_gt};
ghost use Rattle.tab_key.specs.Bytes.{bytes_cmp};
ghost use Rattle.tab_iter.specs.Lists.{IsRising};
ghost use Rattle.tab_tablets.specs.Restored.{EndRowsRise, restored};

use crate::bounded_tablet::BoundedTablet;
use crate::tablet_list::TabletList;
use crate::tablets::Tablets;
use std::alloc::{AllocError, Global};
use std::sync::Arc;
use tab_iter::NoMemory;
use tab_key::{ByteString, Items};
use tab_mem::{Records, Run};
use tab_tablet::{Tablet, rows_above, rows_up_to};
use tab_version::Clip;

impl Tablets {
    /// Splits the tablet that holds the row, which becomes an end row and belongs to the lower one of the two. Both share the sources
    /// of the one that there was; what was written to it is frozen. The lower one gets this number, the upper one the next. A split
    /// that is refused freezes nothing.
    ///
    /// `AllocError` leaves all as it was.
    pub fn split(
        &mut self,
        alloc: Global,
        row: ByteString,
        number: u64,
    ) -> Result<Split, AllocError>
        ensures told { IfOk result (λ told. told ≡ (splits row number self.old).0) }
        ensures tablets { OnOk result (self.new ≡ (splits row number self.old).1) }
        ensures err { OnErr result (self.new ≡ self.old) }
    {
        let place = self.tablet_list.place_of(row.as_bytes());
        if self.tablet_list.is_end_at(place, row.as_bytes()) {
            return Ok(Split::Present);
        }
        self.split_in(alloc, place, row, number)
    }

    /// Splits the tablet that holds the row, if its sorted tables come to the limit, in bytes: at the row in the middle of its
    /// records. The lower one of the two gets this number, the upper one the next. A split that is refused freezes nothing.
    ///
    /// It takes memory for a run of what was written to the tablet, too. `AllocError` leaves all as it was.
    pub fn halve(
        &mut self,
        alloc: Global,
        row: &[u8],
        limit: u64,
        number: u64,
    ) -> Result<Split, AllocError>
        ensures told { IfOk result (λ told. told ≡ (halves row.now limit number self.old).0) }
        ensures tablets { OnOk result (self.new ≡ (halves row.now limit number self.old).1) }
        ensures err { OnErr result (self.new ≡ self.old) }
    {
        let place = self.tablet_list.place_of(row);
        if self.tablet_list.tablet(place).size() < limit {
            return Ok(Split::Small);
        }
        self.halve_at(alloc, place, number)
    }

    // Splits the tablet at this place at the row in the middle of its records. What was written to it is made a run ahead: both the search
    // for that row and the split share it.
    fn halve_at(&mut self, alloc: Global, place: usize, number: u64) -> Result<Split, AllocError>
        requires { place < length self.old }
        ensures told { IfOk result (λ told. told ≡ (split_found (middle_row (rows_in (tablet_at self.old place))) number self.old).0) }
        ensures tablets { OnOk result (self.new ≡ (split_found (middle_row (rows_in (tablet_at self.old place))) number self.old).1) }
        ensures err { OnErr result (self.new ≡ self.old) }
    {
        self.make_run(alloc, place)?;
        match middle_of(alloc, self.tablet_list.tablet(place))? {
            None => Ok(Split::OneRow),
            Some(middle) => self.split_in(alloc, place, middle, number),
        }
    }

    // Splits the tablet at this place, which holds the row, unless there are too many end rows already.
    fn split_in(
        &mut self,
        alloc: Global,
        place: usize,
        row: ByteString,
        number: u64,
    ) -> Result<Split, AllocError>
        requires place { IsPlaceOf row self.old place }
        requires fresh { is_end_row row (tablet_at self.old place).end ≡ false }
        ensures told { IfOk result (λ told. told ≡ (split_in row number self.old).0) }
        ensures tablets { OnOk result (self.new ≡ (split_in row number self.old).1) }
        ensures err { OnErr result (self.new ≡ self.old) }
    {
        if self.tablet_list.is_full() {
            return Ok(Split::Full);
        }
        self.make_run(alloc, place)?;
        self.divide(alloc, place, row, number)?;
        Ok(Split::Done)
    }

    // Splits it.
    fn divide(
        &mut self,
        alloc: Global,
        place: usize,
        row: ByteString,
        number: u64,
    ) -> Result<(), AllocError>
        requires place { IsPlaceOf row self.old place }
        requires fresh { is_end_row row (tablet_at self.old place).end ≡ false }
        ensures ok { OnOk result (self.new ≡ at_place place (split_at row number) self.old) }
        ensures err { OnErr result (self.new ≡ self.old) }
    {
        let written = moved(alloc, &self.written, place, self.tablet_list.len())?;
        self.tablet_list.split(alloc, place, row, number)?;
        self.written = written;
        Ok(())
    }
}

// The row in the middle of what the tablet holds. The tablet stays as it is.
fn middle_of(alloc: Global, tablet: &Tablet) -> Result<Option<ByteString>, AllocError>
    ensures middle { IfOk result (λ row. row ≡ middle_row (rows_in tablet.now)) }
    ensures distinct { IsDistinct (records_in tablet.now) }
{
    if tablet.is_frozen() {
        return tablet.middle_row(alloc);
    }
    let frozen = tablet.frozen(alloc)?;
    frozen.middle_row(alloc)
}

// The places once the tablet at this one is split, without that one. All of them are below the count.
fn moved(
    alloc: Global,
    places: &[usize],
    place: usize,
    count: usize,
) -> Result<Vec<usize>, AllocError>
    requires { AllByRecursion (λ w. w < count) places.now }
    ensures { IfOk result (λ v. v.items ≡ filter_map (moved_from place) places.now) }
{
    let mut moved = Vec::with_capacity(alloc, places.len())?;
    for other in places {
        add_moved(&mut moved, *other, place, count)?;
    }
    Ok(moved)
}

// Puts the place of another tablet behind these, as it is once the one at this place is split, unless it is that one's.
fn add_moved(
    moved: &mut Vec<usize>,
    other: usize,
    place: usize,
    count: usize,
) -> Result<(), AllocError>
    requires { other < count }
    ensures { OnOk result (moved.new.items ≡ moved.old.items ++ filter_map (moved_from place) (other ∷ [])) }
{
    if other == place {
        return Ok(());
    }
    if other < place {
        moved.push(other)?;
        return Ok(());
    }
    moved.push(other + 1)?;
    Ok(())
}

/// What became of a split. Only where it was done anything changed, and anything was frozen.
#[derive(Clone, Copy, Debug, PartialEq, Eq)]
pub enum Split {
    /// The tablet was split.
    Done,
    /// The row is an end row already.
    Present,
    /// The tablet's sorted tables are smaller than the limit.
    Small,
    /// The tablet holds no record, or records of one row alone.
    OneRow,
    /// The table has 4,294,967,295 end rows already.
    Full,
}

impl Tablets {
    /// Tablets that end at these rows, numbered from this number on, and hold these records: each those of its rows, as one sorted table,
    /// or no source where there are none. Any number of end rows will do; a table that has 4,294,967,295 or more is not split again.
    ///
    /// It takes time linear in the records. Beside the records, which are given back once it is done, it takes the memory that the tables
    /// keep; NoMemory says that it lacked.
    pub fn restored(
        alloc: Global,
        number: u64,
        ends: Items<ByteString>,
        records: Records,
    ) -> Result<Tablets, NoMemory>
        requires ends { EndRowsRise ends }
        requires records { IsRising records }
        ensures { IfOk result (λ ts. ts ≡ restored number ends records) }
    {
        let run = Arc::new(alloc, Run::of(records))?;
        let mut left = Clip::whole(run);
        let mut next = number;
        let lower = lower_of(alloc, ends.into_vec(), &mut left, &mut next)?;
        let last = Tablet::tabled(alloc, next, &left)?;
        let tablet_list = TabletList::of(alloc, lower, last)?;
        let written = Vec::new(alloc);
        Ok(Tablets {
            tablet_list,
            written,
        })
    }
}

// For each end row the tablet of the rows up to it, numbered from the next number on; what it holds is taken from the records that are left.
fn lower_of(
    alloc: Global,
    ends: Vec<ByteString>,
    left: &mut Clip,
    next: &mut u64,
) -> Result<Vec<BoundedTablet>, NoMemory>
    requires { EndRowsRise ends.items }
    ensures { IfOk result (λ v. v.items ++ tabled next.new None left.new ∷ [] ≡ restored next.old ends.items left.old) }
{
    let mut lower = Vec::with_capacity(alloc, ends.len())?;
    for end in ends {
        lower.push(take_lower(alloc, *next, end, left)?)?;
        *next = next.saturating_add(1);
    }
    Ok(lower)
}

// The tablet with this number, of the rows up to this one, which holds the first of the records that are left; the others are left then.
fn take_lower(
    alloc: Global,
    number: u64,
    end: ByteString,
    left: &mut Clip,
) -> Result<BoundedTablet, NoMemory>
    ensures lower { IfOk result (λ l. l ≡ tabled number (Some end) (filter (λ u. is_le (bytes_cmp u.key.row end)) left.old)) }
    ensures left { OnOk result (left.new ≡ filter (λ u. is_gt (bytes_cmp u.key.row end)) left.old) }
{
    let own = clip_up_to(left, &end)?;
    *left = clip_above(left, &end)?;
    lower_with(alloc, number, end, &own)
}

// The records of the rows up to this one.
fn clip_up_to(records: &Clip, row: &ByteString) -> Result<Clip, NoMemory>
    ensures { IfOk result (λ c. c ≡ filter (λ u. is_le (bytes_cmp u.key.row row.now)) records.now) }
{
    let up_to = rows_up_to(row)?;
    records.in_rows(&up_to)
}

// The records of the rows above this one.
fn clip_above(records: &Clip, row: &ByteString) -> Result<Clip, NoMemory>
    ensures { IfOk result (λ c. c ≡ filter (λ u. is_gt (bytes_cmp u.key.row row.now)) records.now) }
{
    let above = rows_above(row)?;
    records.in_rows(&above)
}

// The tablet with this number, of the rows up to this one, that holds these records.
fn lower_with(
    alloc: Global,
    number: u64,
    end: ByteString,
    records: &Clip,
) -> Result<BoundedTablet, NoMemory>
    ensures { IfOk result (λ l. l ≡ tabled number (Some end) records.now) }
{
    let tablet = Tablet::tabled(alloc, number, records)?;
    BoundedTablet::new(alloc, end, tablet)
}
