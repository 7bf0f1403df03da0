//! Clips of runs and of tables.
ghost use Rattle.std.specs.Prelude.{◌≡◌, ◌++◌, ◌∷◌, [], Some, None, cond, map, IfSome, IfOk, OnOk, OnErr};
ghost use Rattle.tab_key.specs.Ranges.{is_in_range};
ghost use Rattle.tab_key.specs.Sorted.{sorted};
ghost use Rattle.tab_iter.specs.Bags.{flat};
ghost use Rattle.tab_mem.specs.Lists.{HasShortParts};
ghost use Rattle.tab_table.specs.SortedTables.{records};
ghost use Rattle.tab_version.specs.Clips.{lists_of};
ghost use Rattle.tab_version.specs.Sources.{no_sources, records_of, clipped, same_sources, left_by};

use crate::caches::Caches;
use crate::cutting::{runs_in, tables_in};
use crate::has_records::{HasRecords, count_all};
use crate::sought::pair_up;
use crate::table_clip::room_in_blocks;
use crate::taking::{take_runs, take_tables};
use crate::{Clip, OneOf, TableClip};
use std::alloc::{AllocError, Global};
use std::marker::Model;
use std::sync::Arc;
use tab_iter::{NoMemory, Source};
use tab_key::Bounds;
use tab_mem::{Run, RunCursor};
use tab_table::{Cursor, SortedTable};

/// A cursor over a clip of a run or of a table.
pub type ClipCursor<'a> = OneOf<RunCursor<'a>, Cursor<'a>>;

/// What a tablet reads beside its active part: clips of runs and clips of tables, each in the order in which they came.
pub struct Clips {
    runs: Vec<Clip>,
    tables: Vec<TableClip>,
}

// Written out, so that a crate above needn't prove anew how the parts are dropped.
impl Drop for Clips {
    #[inline(always)]
    fn drop(self) {
        let Clips { runs: _, tables: _ } = self;
    }
}

impl Model for Clips {
    ghost use Rattle.tab_version.specs.Sources.{Sources};

    ghost Value = { Sources };

    ghost view = { λ c. record { runs = c.runs.items; tables = c.tables.items } };
}

impl Clips {
    /// No clips. It takes no memory.
    pub fn new(alloc: Global) -> Clips
        ensures { result ≡ no_sources }
    {
        Clips {
            runs: Vec::new(alloc),
            tables: Vec::new(alloc),
        }
    }

    /// These clips. It takes no memory.
    pub fn of(runs: Vec<Clip>, tables: Vec<TableClip>) -> Clips
        ensures { result ≡ record { runs = runs.items; tables = tables.items } }
    {
        Clips { runs, tables }
    }

    /// The clips of runs.
    pub fn runs(&self) -> &[Clip]
        ensures { result.now ≡ self.now.runs }
    {
        self.runs.as_slice()
    }

    /// The clips of tables.
    pub fn tables(&self) -> &[TableClip]
        ensures { result.now ≡ self.now.tables }
    {
        self.tables.as_slice()
    }

    /// The clips, taken apart. It takes no memory.
    pub fn into_parts(self) -> (Vec<Clip>, Vec<TableClip>)
        ensures runs { result.0.items ≡ self.runs }
        ensures tables { result.1.items ≡ self.tables }
    {
        let Clips { runs, tables } = self;
        (runs, tables)
    }

    /// A copy that shares each source. No record is copied.
    ///
    /// It takes memory for a share of each source. `AllocError` says that it lacked.
    pub fn share(&self, alloc: Global) -> Result<Clips, AllocError>
        ensures { IfOk result (λ c. c ≡ self.now) }
    {
        let runs = share_runs(alloc, &self.runs)?;
        let tables = share_tables(alloc, &self.tables)?;
        Ok(Clips { runs, tables })
    }

    /// Clips that share the sources, each cut to the rows in bounds; one without a record there stays. No record is copied.
    ///
    /// It takes memory for a share of each source, and time logarithmic in each. `AllocError` says that memory lacked.
    pub fn in_rows(&self, alloc: Global, bounds: &Bounds) -> Result<Clips, AllocError>
        ensures { IfOk result (λ c. c ≡ clipped (is_in_range bounds.now) self.now) }
    {
        let runs = runs_in(alloc, &self.runs, bounds)?;
        let tables = tables_in(alloc, &self.tables, bounds)?;
        Ok(Clips::of(runs, tables))
    }

    /// Whether the sources of both pair up in order, a run with a run and a table with a table, each with one that holds the same records.
    /// The sizes of whole tables aren't compared. It takes no memory, and time linear in the records that are the same.
    pub fn same_sources(&self, other: &Clips) -> bool
        ensures { result ≡ same_sources self.now other.now }
    {
        if !pair_up(self.runs(), other.runs()) {
            return false;
        }
        pair_up(self.tables(), other.tables())
    }

    /// The other sources, where each of the inputs has a source of its own with equal contents among these, a run a run and a table a
    /// table; of tables with equal contents one of equal size is taken first. None where an input has none. Each that is left is shared
    /// once more; these stay as they are.
    ///
    /// It takes memory for a share of each source, and time linear in the records of the inputs, where sources with as many records
    /// differ in one of their first. `AllocError` says that memory lacked.
    pub fn left_by(&self, alloc: Global, inputs: &Clips) -> Result<Option<Clips>, AllocError>
        ensures { IfOk result (λ left. left ≡ left_by inputs.now self.now) }
    {
        let shared = self.share(alloc)?;
        Ok(shared.spared(inputs))
    }

    // What is left where a source of equal contents is taken out for each of the inputs.
    fn spared(self, inputs: &Clips) -> Option<Clips>
        ensures { result ≡ left_by inputs.now self }
    {
        let mut left = self;
        if left.take_out(inputs) {
            Some(left)
        } else {
            None
        }
    }

    // Takes out a source of equal contents for each of the inputs, and says whether each input had one of its own.
    fn take_out(&mut self, inputs: &Clips) -> bool
        ensures { left_by inputs.now self.old ≡ cond result (Some self.new) None }
    {
        if !take_runs(&mut self.runs, inputs.runs()) {
            return false;
        }
        take_tables(&mut self.tables, inputs.tables())
    }

    /// Puts a clip of a run behind the others. `AllocError` leaves all as it was.
    pub fn add_run(&mut self, clip: Clip) -> Result<(), AllocError>
        ensures ok { OnOk result (self.new ≡ record (self.old) { runs = self.old.runs ++ clip ∷ [] }) }
        ensures err { OnErr result (self.new ≡ self.old) }
    {
        self.runs.reserve(1)?;
        self.runs.push_reserved(clip);
        Ok(())
    }

    /// Puts a clip of a table behind the others. `AllocError` leaves all as it was.
    pub fn add_table(&mut self, clip: TableClip) -> Result<(), AllocError>
        ensures ok { OnOk result (self.new ≡ record (self.old) { tables = self.old.tables ++ clip ∷ [] }) }
        ensures err { OnErr result (self.new ≡ self.old) }
    {
        self.tables.reserve(1)?;
        self.tables.push_reserved(clip);
        Ok(())
    }

    /// A table of the records that a source has left which reads these clips. Room for all that they hold is asked for at once, and what
    /// isn't needed of it is given back: so building takes no more memory than they hold.
    ///
    /// NoMemory says that it lacked; some of the records may be passed then.
    pub fn table_of<S: Source>(
        &self,
        alloc: Global,
        source: &mut S,
    ) -> Result<SortedTable, NoMemory>
        ensures { IfOk result (λ t. records t ≡ S.rest source.old) }
    {
        let in_runs = count_all(self.runs());
        SortedTable::build(
            alloc,
            source,
            self.count(),
            room_in_blocks(self.room(), in_runs),
        )
    }

    /// A run of the records that a source has left which reads these clips, as a clip. Room for all that they hold is asked for at once,
    /// and what isn't needed of it is given back: so building takes no more memory than they hold.
    ///
    /// NoMemory says that it lacked; some of the records may be passed then.
    pub fn run_of<S: Source>(&self, alloc: Global, source: &mut S) -> Result<Clip, NoMemory>
        ensures { IfOk result (λ c. c ≡ S.rest source.old) }
    {
        let run = Run::build(alloc, source, self.count(), self.room())?;
        let shared = Arc::new(alloc, run)?;
        Ok(Clip::whole(shared))
    }

    /// A cursor over each clip, at its first record. No record has a part that is too long for a table.
    ///
    /// It takes memory for the cursors, and for the first record of each table. `AllocError` says that it lacked.
    pub fn cursors<'a>(&'a self, alloc: Global) -> Result<Vec<ClipCursor<'a>>, AllocError>
        ensures lists { IfOk result (λ v. map ⟦<ClipCursor<'a> as Source>⟧.whole v.items ≡ lists_of self.now) }
        ensures whole { IfOk result (λ v. flat (map ⟦<ClipCursor<'a> as Source>⟧.whole v.items) ≡ records_of self.now) }
        ensures at_start { IfOk result (λ v. map ⟦<ClipCursor<'a> as Source>⟧.rest v.items ≡ map ⟦<ClipCursor<'a> as Source>⟧.whole v.items) }
        ensures short { OnOk result (HasShortParts (records_of self.now)) }
    {
        let count = self.runs.len().saturating_add(self.tables.len());
        let mut cursors = Vec::with_capacity(alloc, count)?;
        put_runs(&mut cursors, &self.runs)?;
        put_tables(alloc, &mut cursors, &self.tables)?;
        Ok(cursors)
    }

    /// The cursors of `cursors`, but those over tables are unpositioned, and have the caches of this tablet: no record of these is read
    /// before a seek.
    ///
    /// It takes memory for the cursors alone. `AllocError` says that it lacked.
    pub(crate) fn unread_cursors<'a>(
        &'a self,
        alloc: Global,
        caches: &mut Caches,
        tablet: usize,
    ) -> Result<Vec<ClipCursor<'a>>, AllocError>
        ensures { IfOk result (λ v. flat (map ⟦<ClipCursor<'a> as Source>⟧.whole v.items) ≡ records_of self.now) }
    {
        let count = self.runs.len().saturating_add(self.tables.len());
        let mut cursors = Vec::with_capacity(alloc, count)?;
        put_runs(&mut cursors, &self.runs)?;
        put_unread(alloc, &mut cursors, &self.tables, caches, tablet)?;
        Ok(cursors)
    }

    /// A cursor over all records, at the first of them, where one clip has them all. It takes memory for the first record of a table;
    /// NoMemory says that it lacked.
    pub fn only_cursor<'a>(&'a self, alloc: Global) -> Result<Option<ClipCursor<'a>>, NoMemory>
        ensures whole { IfOk result (λ o. IfSome o (λ c. ⟦<ClipCursor<'a> as Source>⟧.whole c ≡ sorted (records_of self.now))) }
        ensures at_start { IfOk result (λ o. IfSome o (λ c. ⟦<ClipCursor<'a> as Source>⟧.rest c ≡ ⟦<ClipCursor<'a> as Source>⟧.whole c)) }
    {
        match (self.runs.len(), self.tables.len()) {
            (1, 0) => Ok(Some(OneOf::First(self.runs[0].cursor()))),
            (0, 1) => {
                let cursor = self.tables[0].cursor(alloc)?;
                Ok(Some(OneOf::Second(cursor)))
            }
            _ => Ok(None),
        }
    }

    /// The cursor of `only_cursor`, but over a table it is unpositioned, and has this tablet's cache: no record of it is read before a
    /// seek. It takes no memory.
    pub(crate) fn only_unread<'a>(
        &'a self,
        alloc: Global,
        caches: &mut Caches,
        tablet: usize,
    ) -> Option<ClipCursor<'a>>
        ensures { IfSome result (λ c. ⟦<ClipCursor<'a> as Source>⟧.whole c ≡ sorted (records_of self.now)) }
    {
        let counts = (self.runs.len(), self.tables.len());
        match counts {
            (1, 0) => Some(OneOf::First(self.runs[0].cursor())),
            (0, 1) => {
                let cache = caches.take(tablet, 0);
                Some(OneOf::Second(self.tables[0].unread_cursor(alloc, cache)))
            }
            _ => None,
        }
    }
}

// A copy that shares the runs.
fn share_runs(alloc: Global, runs: &[Clip]) -> Result<Vec<Clip>, AllocError>
    ensures { IfOk result (λ v. v.items ≡ runs.now) }
{
    let mut shared = Vec::with_capacity(alloc, runs.len())?;
    for run in runs {
        shared.push(run.share()?)?;
    }
    Ok(shared)
}

// A copy that shares the tables.
fn share_tables(alloc: Global, tables: &[TableClip]) -> Result<Vec<TableClip>, AllocError>
    ensures { IfOk result (λ v. v.items ≡ tables.now) }
{
    let mut shared = Vec::with_capacity(alloc, tables.len())?;
    for table in tables {
        shared.push(table.share()?)?;
    }
    Ok(shared)
}

// Puts a cursor over each of the runs' clips behind the others.
fn put_runs<'a>(cursors: &mut Vec<ClipCursor<'a>>, clips: &'a [Clip]) -> Result<(), AllocError>
    ensures whole { OnOk result (map ⟦<ClipCursor<'a> as Source>⟧.whole cursors.new.items ≡ map ⟦<ClipCursor<'a> as Source>⟧.whole cursors.old.items ++ clips.now) }
    ensures rest { OnOk result (map ⟦<ClipCursor<'a> as Source>⟧.rest cursors.new.items ≡ map ⟦<ClipCursor<'a> as Source>⟧.rest cursors.old.items ++ clips.now) }
    ensures short { OnOk result (HasShortParts (flat clips.now)) }
{
    for clip in clips {
        cursors.push(OneOf::First(clip.cursor()))?;
    }
    Ok(())
}

// Puts a cursor over each of the tables' clips behind the others.
fn put_tables<'a>(
    alloc: Global,
    cursors: &mut Vec<ClipCursor<'a>>,
    clips: &'a [TableClip],
) -> Result<(), AllocError>
    ensures whole { OnOk result (map ⟦<ClipCursor<'a> as Source>⟧.whole cursors.new.items ≡ map ⟦<ClipCursor<'a> as Source>⟧.whole cursors.old.items ++ map (λ t. t.records) clips.now) }
    ensures rest { OnOk result (map ⟦<ClipCursor<'a> as Source>⟧.rest cursors.new.items ≡ map ⟦<ClipCursor<'a> as Source>⟧.rest cursors.old.items ++ map (λ t. t.records) clips.now) }
    ensures short { OnOk result (HasShortParts (flat (map (λ t. t.records) clips.now))) }
{
    for clip in clips {
        let cursor = clip.cursor(alloc)?;
        cursors.push(OneOf::Second(cursor))?;
    }
    Ok(())
}

// Puts them unpositioned, each with its cache, by its place among the cursors.
fn put_unread<'a>(
    alloc: Global,
    cursors: &mut Vec<ClipCursor<'a>>,
    clips: &'a [TableClip],
    caches: &mut Caches,
    tablet: usize,
) -> Result<(), AllocError>
    ensures { OnOk result (map ⟦<ClipCursor<'a> as Source>⟧.whole cursors.new.items ≡ map ⟦<ClipCursor<'a> as Source>⟧.whole cursors.old.items ++ map (λ t. t.records) clips.now) }
{
    for clip in clips {
        let cache = caches.take(tablet, cursors.len());
        let cursor = clip.unread_cursor(alloc, cache);
        cursors.push(OneOf::Second(cursor))?;
    }
    Ok(())
}
