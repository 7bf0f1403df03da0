//! What a session reads: a version of a table, and what a scan asks of it.
ghost use Rattle.std.specs.Prelude.{◌≡◌, map, take, drop, IfOk};
ghost use Rattle.tab_key.specs.Records.{cell_of};
ghost use Rattle.tab_cells.specs.SessionState.{cells_within};
ghost use Rattle.tab_iter.specs.Verdicts.{IsSound};
ghost use Rattle.tab_session.specs.Bookmarks.{from_mark, ahead_of};
ghost use Rattle.tab_session.specs.KeptVerdicts.{AreSound, AreSound-prop};
ghost use Rattle.tab_version.specs.Shown.{shown};

use crate::bookmark::{Bookmark, pass_before};
use crate::chunks::{FIRST_RANGES, are_worth_threads, read_by_threads, thread_count};
use crate::kept_verdicts::KeptVerdicts;
use crate::room::Room;
use crate::rows::take_ranges;
use crate::taking::take;
use std::alloc::Global;
use std::marker::Model;
use std::thread::Threads;
use tab_iter::{NoMemory, Source, Verdicts, taken_apart};
use tab_key::{Bounds, Cells, Column, Items};
use tab_label::AuthSet;
use tab_version::{Caches, Stack, Version, caches_of};

// Of how many blocks the cache of a table is at most, where nothing else was set.
const BLOCKS: usize = 8;

/// What is asked of a version: these columns, under these authorizations, so many versions of each column.
#[derive(Drop)]
pub(crate) struct Asked {
    columns: Items<Column>,
    auths: AuthSet,
    versions: u32,
}

/// A scan of a table as it stood: the version, and what is asked of it. A contract sees the records that the scan shows.
#[derive(Drop)]
pub(crate) struct SnapshotScan {
    version: Version,
    asked: Asked,
    // on the labels that were judged in what was read before
    verdicts: KeptVerdicts,
    // of the tables that were read before
    caches: Caches,
    ghost sound: { AreSound asked.auths verdicts } by { AreSound-prop asked.auths verdicts },
}

impl Model for SnapshotScan {
    ghost use Rattle.std.specs.Prelude.{List};
    ghost use Rattle.tab_key.specs.Records.{Record as Fields};
    ghost use Rattle.tab_version.specs.Shown.{shown};

    ghost Value = { List Fields };

    ghost view = { λ s. shown s.version s.asked.versions s.asked.columns s.asked.auths };
}

/// Cells, and where to go on behind them; nowhere once there are no more.
#[derive(Drop)]
pub(crate) struct Batch {
    pub(crate) cells: Cells,
    pub(crate) next: Option<Bookmark>,
}

impl SnapshotScan {
    /// All rows of the version, of these columns, under these authorizations, so many versions of each column.
    pub(crate) fn new(
        alloc: Global,
        version: Version,
        columns: Items<Column>,
        auths: AuthSet,
        versions: u32,
    ) -> SnapshotScan
        ensures { result ≡ shown version versions columns auths }
    {
        SnapshotScan {
            version,
            asked: Asked {
                columns,
                auths,
                versions,
            },
            verdicts: KeptVerdicts::none(),
            caches: Caches::of(alloc, BLOCKS),
        }
    }

    /// Drops the caches of tables; new ones are of so many blocks at most.
    pub(crate) fn set_cache(&mut self, blocks: usize)
        ensures { self.new ≡ self.old }
    {
        self.caches.resize(blocks);
    }

    /// The cells of the next `count` records from the bookmark on, fewer only at the end. The room is asked for at once.
    ///
    /// The verdicts on labels and the caches of tables go with the batch and come back with it; after an error they are lost, and made anew.
    pub(crate) fn read(
        &mut self,
        alloc: Global,
        from: &Bookmark,
        count: u32,
        room: Room,
    ) -> Result<Batch, NoMemory>
        ensures same { self.new ≡ self.old }
        ensures cells { IfOk result (λ b. b.cells ≡ take count (map cell_of (from_mark from.now self.old))) }
        ensures next { IfOk result (λ b. ahead_of b.next self.old ≡ drop count (from_mark from.now self.old)) }
    {
        let verdicts = self.verdicts.take(alloc);
        let caches = self.caches.take_all();
        let asked = &self.asked;
        let mut source = source(alloc, &self.version, asked, from, verdicts, caches)?;
        let cells = take(alloc, &mut source, count, room)?;
        let next = Bookmark::of(alloc, &source)?;
        let (verdicts, source) = taken_apart(alloc, source, &asked.auths);
        self.verdicts.put(alloc, verdicts);
        self.caches = caches_of(source);
        Ok(Batch { cells, next })
    }

    /// The cells of the records with a row in each of the ranges. The verdicts go with them and come back as in `read`.
    pub(crate) fn read_ranges(
        &mut self,
        alloc: Global,
        ranges: &[Bounds],
    ) -> Result<Items<Cells>, NoMemory>
        ensures same { self.new ≡ self.old }
        ensures cells { IfOk result (λ answers. answers ≡ map (λ rows. cells_within rows (map cell_of self.old)) ranges.now) }
    {
        let answers = self.read_each(alloc, ranges)?;
        Ok(Items::from_vec(answers))
    }

    /// The cells of `read_ranges`. The calling thread reads the first ranges, and several threads the others where those were worth it.
    pub(crate) fn read_at_once(
        &mut self,
        rt: &(impl Threads + Sync),
        alloc: Global,
        ranges: &[Bounds],
    ) -> Result<Items<Cells>, NoMemory>
        ensures same { self.new ≡ self.old }
        ensures cells { IfOk result (λ answers. answers ≡ map (λ rows. cells_within rows (map cell_of self.old)) ranges.now) }
    {
        let (first, others) = ranges.split_at(FIRST_RANGES.min(ranges.len()));
        let mut answers = self.read_each(alloc, first)?;
        let at_once = are_worth_threads(answers.as_slice());
        let mut more = self.read_others(rt, alloc, others, at_once)?;
        answers.append(&mut more)?;
        Ok(Items::from_vec(answers))
    }

    // The cells of `read_ranges` in a vector, read by several threads, each under verdicts of its own, or by the calling one.
    fn read_others(
        &mut self,
        rt: &(impl Threads + Sync),
        alloc: Global,
        ranges: &[Bounds],
        at_once: bool,
    ) -> Result<Vec<Cells>, NoMemory>
        ensures same { self.new ≡ self.old }
        ensures cells { IfOk result (λ v. v.items ≡ map (λ rows. cells_within rows (map cell_of self.old)) ranges.now) }
    {
        if at_once {
            self.read_by_threads(rt, alloc, ranges)
        } else {
            self.read_each(alloc, ranges)
        }
    }

    // By several threads.
    fn read_by_threads(
        &self,
        rt: &(impl Threads + Sync),
        alloc: Global,
        ranges: &[Bounds],
    ) -> Result<Vec<Cells>, NoMemory>
        ensures { IfOk result (λ v. v.items ≡ map (λ rows. cells_within rows (map cell_of self.now)) ranges.now) }
    {
        read_by_threads(
            rt,
            alloc,
            &self.version,
            &self.asked,
            ranges,
            thread_count(rt),
        )
    }

    // By the calling one.
    fn read_each(&mut self, alloc: Global, ranges: &[Bounds]) -> Result<Vec<Cells>, NoMemory>
        ensures same { self.new ≡ self.old }
        ensures cells { IfOk result (λ v. v.items ≡ map (λ rows. cells_within rows (map cell_of self.old)) ranges.now) }
    {
        let verdicts = self.verdicts.take(alloc);
        let asked = &self.asked;
        let caches = Caches::of(alloc, 0);
        let mut source = unread(alloc, &self.version, asked, verdicts, caches);
        let answers = take_ranges(alloc, &mut source, ranges)?;
        let verdicts = verdicts_of(alloc, source, &asked.auths);
        self.verdicts.put(alloc, verdicts);
        Ok(answers)
    }
}

// The records from the bookmark on. Nothing before its column is read.
fn source<'a>(
    alloc: Global,
    version: &'a Version,
    asked: &'a Asked,
    from: &Bookmark,
    verdicts: Verdicts,
    caches: Caches,
) -> Result<Stack<'a>, NoMemory>
    requires { IsSound asked.now.auths verdicts }
    ensures whole { IfOk result (λ s. ⟦<Stack<'a> as Source>⟧.whole s ≡ shown version.now asked.now.versions asked.now.columns asked.now.auths) }
    ensures rest { IfOk result (λ s. ⟦<Stack<'a> as Source>⟧.rest s ≡ from_mark from.now (shown version.now asked.now.versions asked.now.columns asked.now.auths)) }
{
    match from {
        Bookmark::Beginning => {
            let columns = asked.columns.as_slice();
            version.stack(
                alloc,
                columns,
                &asked.auths,
                verdicts,
                caches,
                asked.versions,
            )
        }
        Bookmark::At(first) => {
            let mut source = unread(alloc, version, asked, verdicts, caches);
            source.seek(first.as_ref().key())?;
            pass_before(&mut source, first)?;
            Ok(source)
        }
    }
}

/// All records, none of them read before a seek.
pub(crate) fn unread<'a>(
    alloc: Global,
    version: &'a Version,
    asked: &'a Asked,
    verdicts: Verdicts,
    caches: Caches,
) -> Stack<'a>
    requires { IsSound asked.now.auths verdicts }
    ensures { ⟦<Stack<'a> as Source>⟧.whole result ≡ shown version.now asked.now.versions asked.now.columns asked.now.auths }
{
    let columns = asked.columns.as_slice();
    version.unread_stack(
        alloc,
        columns,
        &asked.auths,
        verdicts,
        caches,
        asked.versions,
    )
}

// The verdicts that the source made or began with.
fn verdicts_of(alloc: Global, source: Stack<'_>, auths: &AuthSet) -> Verdicts
    ensures { IsSound auths.now result }
{
    taken_apart(alloc, source, auths).0
}
