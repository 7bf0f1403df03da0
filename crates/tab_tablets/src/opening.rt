//! What a scan reads of tablets, which are frozen for it.
ghost use Rattle.std.specs.Prelude.{◌≡◌, ◌≢◌, ℕ, ◌≤◌, ◌<◌, ◌==◌, ◌++◌, [], length, map, slice_range, IsTrue, IfOk, OnOk, OnErr, true};
ghost use Rattle.tab_key.specs.Sorted.{sorted};
ghost use Rattle.tab_iter.specs.Bags.{flat};
ghost use Rattle.tab_version.specs.Sources.{records_of};
ghost use Rattle.tab_tablet.specs.MergedRuns.{IsFreezeOf};
ghost use Rattle.tab_tablet.specs.Opened.{ShowsRowsOf};
ghost use Rattle.tab_tablet.specs.Tablets.{frozen, records_in};
ghost use Rattle.tab_tablets.specs.ByRow.{LieApart, records_of_all};
ghost use Rattle.tab_tablets.specs.Places.{tablet_at, IsSettled, AreMade, part_in, MakesMore, is_among};
ghost use Rattle.std.specs.List.{AllByRecursion};

use crate::bounded_tablet::MadeTablet;
use crate::bounds::{end_met, first_met};
use crate::tablet_list::TabletList;
use crate::tablets::Tablets;
use std::alloc::{AllocError, Global};
use tab_key::Bounds;
use tab_tablet::{Freeze, Tablet};
use tab_version::{Clips, Version};

impl Tablets {
    /// What a scan of these rows reads, as the tablets are now. Each of them is frozen; those that the range doesn't meet are looked at
    /// only where they were written to.
    ///
    /// It takes memory for one clip of each sorted table, and of the few merged runs that stand for the runs, of the tablets that the range
    /// meets, and for a run of what was written to a tablet. Where more than one was written to, each of these takes a share of each of
    /// its sources too; one alone is frozen in its place, in time that doesn't grow with its runs. `AllocError` leaves all as it was: no
    /// tablet is frozen either.
    pub fn open(&mut self, alloc: Global, bounds: &Bounds) -> Result<Version, AllocError>
        requires { LieApart self.old }
        ensures ok { OnOk result (self.new ≡ map frozen self.old) }
        ensures answers { IfOk result (λ v. ShowsRowsOf bounds.now (sorted (records_of_all self.old)) v) }
        ensures err { OnErr result (self.new ≡ self.old) }
    {
        self.make_runs(alloc)?;
        if self.written.len() == 1 {
            let place = self.written[0];
            return self.open_one(alloc, bounds, place);
        }
        self.open_all(alloc, bounds)
    }

    // `open` where several tablets were written to, or none: a new one is made for each that was.
    fn open_all(&mut self, alloc: Global, bounds: &Bounds) -> Result<Version, AllocError>
        requires { LieApart self.old }
        ensures ok { OnOk result (self.new ≡ map frozen self.old) }
        ensures answers { IfOk result (λ v. ShowsRowsOf bounds.now (sorted (records_of_all self.old)) v) }
        ensures err { OnErr result (self.new ≡ self.old) }
    {
        let from = first_met(&self.tablet_list, &bounds.low);
        let end = end_met(&self.tablet_list, &bounds.high).max(from);
        let mut made = Vec::new(alloc);
        let clips = clips_in(alloc, &self.tablet_list, bounds, from, end, &mut made)?;
        freeze_others(
            alloc,
            &self.tablet_list,
            &self.written,
            from,
            end,
            &mut made,
        )?;
        self.tablet_list.install(made);
        self.written.clear();
        Ok(Version::of(clips))
    }

    // `open` where the tablet at this place was written to and no other one was: it is frozen in its place.
    fn open_one(
        &mut self,
        alloc: Global,
        bounds: &Bounds,
        place: usize,
    ) -> Result<Version, AllocError>
        requires apart { LieApart self.old }
        requires inside { place < length self.old }
        requires waits { (tablet_at self.old place).active ≢ [] }
        requires idle { (k : ℕ) → k ≢ place → (tablet_at self.old k).active ≡ [] }
        ensures ok { OnOk result (self.new ≡ map frozen self.old) }
        ensures answers { IfOk result (λ v. ShowsRowsOf bounds.now (sorted (records_of_all self.old)) v) }
        ensures err { OnErr result (self.new ≡ self.old) }
    {
        let from = first_met(&self.tablet_list, &bounds.low);
        let end = end_met(&self.tablet_list, &bounds.high).max(from);
        let prepared = self.tablet_list.tablet(place).prepare(alloc)?;
        let clips = clips_with(
            alloc,
            &self.tablet_list,
            bounds,
            from,
            end,
            place,
            &prepared,
        )?;
        self.tablet_list.freeze(alloc, place, prepared)?;
        self.written.clear();
        Ok(Version::of(clips))
    }
}

// What a scan reads of the tablets from one place up to another, but for those that hold nothing. Where anything was written to one, a
// frozen one is made.
fn clips_in(
    alloc: Global,
    tablet_list: &TabletList,
    bounds: &Bounds,
    from: usize,
    end: usize,
    made: &mut Vec<MadeTablet>,
) -> Result<Vec<Clips>, AllocError>
    requires order { from ≤ end }
    requires inside { end ≤ length tablet_list.now }
    requires none { made.old.items ≡ [] }
    ensures clips { IfOk result (λ v. flat (map (λ c. sorted (records_of c)) v.items) ≡ flat (map (λ t. sorted (part_in bounds.now t)) (slice_range tablet_list.now from end))) }
    ensures made { OnOk result (AreMade frozen tablet_list.now made.new.items) }
    ensures settled { OnOk result ((k : ℕ) → from ≤ k → k < end → IsSettled frozen tablet_list.now made.new.items k) }
{
    let mut clips = Vec::new(alloc);
    for place in from..end {
        add_clips_at(alloc, tablet_list, bounds, place, &mut clips, made)?;
    }
    Ok(clips)
}

// Puts what a scan reads of the tablet at a place behind the others, unless the tablet holds nothing.
fn add_clips_at(
    alloc: Global,
    tablet_list: &TabletList,
    bounds: &Bounds,
    place: usize,
    clips: &mut Vec<Clips>,
    made: &mut Vec<MadeTablet>,
) -> Result<(), AllocError>
    requires { place < length tablet_list.now }
    ensures clips { OnOk result (flat (map (λ c. sorted (records_of c)) clips.new.items) ≡ flat (map (λ c. sorted (records_of c)) clips.old.items) ++ sorted (part_in bounds.now (tablet_at tablet_list.now place))) }
    ensures more { OnOk result (MakesMore frozen tablet_list.now made.old.items made.new.items) }
    ensures settled { OnOk result (IsSettled frozen tablet_list.now made.new.items place) }
{
    if holds_nothing(tablet_list.tablet(place)) {
        return Ok(());
    }
    push_clips_at(alloc, tablet_list, bounds, place, clips, made)
}

// `add_clips_at` of a tablet that may hold something.
#[inline(never)]
fn push_clips_at(
    alloc: Global,
    tablet_list: &TabletList,
    bounds: &Bounds,
    place: usize,
    clips: &mut Vec<Clips>,
    made: &mut Vec<MadeTablet>,
) -> Result<(), AllocError>
    requires { place < length tablet_list.now }
    ensures clips { OnOk result (flat (map (λ c. sorted (records_of c)) clips.new.items) ≡ flat (map (λ c. sorted (records_of c)) clips.old.items) ++ sorted (part_in bounds.now (tablet_at tablet_list.now place))) }
    ensures more { OnOk result (MakesMore frozen tablet_list.now made.old.items made.new.items) }
    ensures settled { OnOk result (IsSettled frozen tablet_list.now made.new.items place) }
{
    clips.push(clips_at(alloc, tablet_list, bounds, place, made)?)?;
    Ok(())
}

// Whether the tablet holds no record, and has no source.
fn holds_nothing(tablet: &Tablet) -> bool
    ensures frozen { IsTrue result → (length tablet.now.active == 0) ≡ true }
    ensures none { IsTrue result → records_in tablet.now ≡ [] }
{
    if !tablet.is_frozen() {
        return false;
    }
    tablet.count_sources() == 0
}

// What a scan reads of them once the one at a place is frozen, for which that was prepared, but for those that hold nothing. Nothing was
// written to another one.
fn clips_with(
    alloc: Global,
    tablet_list: &TabletList,
    bounds: &Bounds,
    from: usize,
    end: usize,
    written: usize,
    freeze: &Freeze,
) -> Result<Vec<Clips>, AllocError>
    requires order { from ≤ end }
    requires inside { end ≤ length tablet_list.now }
    requires idle { (k : ℕ) → k ≢ written → (tablet_at tablet_list.now k).active ≡ [] }
    requires freeze { IsFreezeOf (tablet_at tablet_list.now written) freeze.now }
    ensures { IfOk result (λ v. flat (map (λ c. sorted (records_of c)) v.items) ≡ flat (map (λ t. sorted (part_in bounds.now t)) (slice_range tablet_list.now from end))) }
{
    let mut clips = Vec::new(alloc);
    for place in from..end {
        add_clips_beside(
            alloc,
            tablet_list,
            bounds,
            place,
            written,
            freeze,
            &mut clips,
        )?;
    }
    Ok(clips)
}

// Puts what a scan reads of the tablet at a place behind the others, unless the tablet holds nothing.
fn add_clips_beside(
    alloc: Global,
    tablet_list: &TabletList,
    bounds: &Bounds,
    place: usize,
    written: usize,
    freeze: &Freeze,
    clips: &mut Vec<Clips>,
) -> Result<(), AllocError>
    requires inside { place < length tablet_list.now }
    requires idle { (k : ℕ) → k ≢ written → (tablet_at tablet_list.now k).active ≡ [] }
    requires freeze { IsFreezeOf (tablet_at tablet_list.now written) freeze.now }
    ensures { OnOk result (flat (map (λ c. sorted (records_of c)) clips.new.items) ≡ flat (map (λ c. sorted (records_of c)) clips.old.items) ++ sorted (part_in bounds.now (tablet_at tablet_list.now place))) }
{
    if holds_nothing(tablet_list.tablet(place)) {
        return Ok(());
    }
    clips.push(clips_beside(alloc, tablet_list, bounds, place, written, freeze)?)?;
    Ok(())
}

// What a scan reads of the tablet at a place.
fn clips_beside(
    alloc: Global,
    tablet_list: &TabletList,
    bounds: &Bounds,
    place: usize,
    written: usize,
    freeze: &Freeze,
) -> Result<Clips, AllocError>
    requires inside { place < length tablet_list.now }
    requires idle { (k : ℕ) → k ≢ written → (tablet_at tablet_list.now k).active ≡ [] }
    requires freeze { IsFreezeOf (tablet_at tablet_list.now written) freeze.now }
    ensures { IfOk result (λ c. sorted (records_of c) ≡ sorted (part_in bounds.now (tablet_at tablet_list.now place))) }
{
    let tablet = tablet_list.tablet(place);
    if place == written {
        return tablet.clips_after(alloc, freeze, bounds);
    }
    tablet.clips(alloc, bounds)
}

impl Tablets {
    /// Makes the run of what was written to each tablet ahead, as `Tablet::make_run` does, one after another: so only one of them at a time
    /// takes memory beside what was written. A contract sees nothing that changes.
    pub(crate) fn make_runs(&mut self, alloc: Global) -> Result<(), AllocError>
        ensures { self.new ≡ self.old }
    {
        make_runs(alloc, &mut self.tablet_list, &self.written)
    }

    /// Makes that run of the tablet at a place alone.
    pub(crate) fn make_run(&mut self, alloc: Global, place: usize) -> Result<(), AllocError>
        requires { place < length self.old }
        ensures { self.new ≡ self.old }
    {
        self.tablet_list.make_run(alloc, place)
    }
}

// Makes the runs of what was written to the tablets at these places ahead.
fn make_runs(
    alloc: Global,
    tablet_list: &mut TabletList,
    places: &[usize],
) -> Result<(), AllocError>
    requires { AllByRecursion (λ w. w < length tablet_list.old) places.now }
    ensures { tablet_list.new ≡ tablet_list.old }
{
    for place in places {
        tablet_list.make_run(alloc, *place)?;
    }
    Ok(())
}

// What a scan of these rows reads of the tablet at a place. Where anything was written to it, a frozen one is made.
fn clips_at(
    alloc: Global,
    tablet_list: &TabletList,
    bounds: &Bounds,
    place: usize,
    made: &mut Vec<MadeTablet>,
) -> Result<Clips, AllocError>
    requires { place < length tablet_list.now }
    ensures clips { IfOk result (λ c. sorted (records_of c) ≡ sorted (part_in bounds.now (tablet_at tablet_list.now place))) }
    ensures more { OnOk result (MakesMore frozen tablet_list.now made.old.items made.new.items) }
    ensures settled { OnOk result (IsSettled frozen tablet_list.now made.new.items place) }
{
    let tablet = tablet_list.tablet(place);
    if tablet.is_frozen() {
        return tablet.clips(alloc, bounds);
    }
    let frozen = tablet.frozen(alloc)?;
    let clips = frozen.clips(alloc, bounds)?;
    made.push(MadeTablet {
        place,
        tablet: frozen,
    })?;
    Ok(clips)
}

// Makes a frozen tablet for this place, unless it lies from the one up to the other, where that was done before.
fn freeze_outside(
    alloc: Global,
    tablet_list: &TabletList,
    place: usize,
    from: usize,
    end: usize,
    made: &mut Vec<MadeTablet>,
) -> Result<(), AllocError>
    requires inside { place < length tablet_list.now }
    requires settled { (k : ℕ) → from ≤ k → k < end → IsSettled frozen tablet_list.now made.old.items k }
    ensures more { OnOk result (MakesMore frozen tablet_list.now made.old.items made.new.items) }
    ensures settled { OnOk result (IsSettled frozen tablet_list.now made.new.items place) }
{
    if from <= place && place < end {
        return Ok(());
    }
    let frozen = tablet_list.tablet(place).frozen(alloc)?;
    made.push(MadeTablet {
        place,
        tablet: frozen,
    })?;
    Ok(())
}

// Makes a frozen tablet for each of these places, but for those from the one up to the other, where that was done before.
fn freeze_others(
    alloc: Global,
    tablet_list: &TabletList,
    places: &[usize],
    from: usize,
    end: usize,
    made: &mut Vec<MadeTablet>,
) -> Result<(), AllocError>
    requires inside { AllByRecursion (λ w. w < length tablet_list.now) places.now }
    requires settled { (k : ℕ) → from ≤ k → k < end → IsSettled frozen tablet_list.now made.old.items k }
    ensures more { OnOk result (MakesMore frozen tablet_list.now made.old.items made.new.items) }
    ensures settled { OnOk result ((k : ℕ) → is_among places.now k ≡ true → IsSettled frozen tablet_list.now made.new.items k) }
{
    for place in places {
        freeze_outside(alloc, tablet_list, *place, from, end, made)?;
    }
    Ok(())
}
