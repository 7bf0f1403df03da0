//! Many ranges, read by several threads.
ghost use Rattle.std.specs.Prelude.{◌≡◌, ◌≤◌, map, IfOk};
ghost use denote.Param.Send.{IsSync};
ghost use Rattle.tab_key.specs.Records.{cell_of};
ghost use Rattle.tab_cells.specs.SessionState.{cells_within};
ghost use Rattle.tab_version.specs.Shown.{shown};

use crate::rows::take_ranges;
use crate::snapshot_scan::{Asked, unread};
use std::alloc::Global;
use std::thread::{Threads, available_parallelism, join};
use tab_iter::{NoMemory, Verdicts};
use tab_key::{Bounds, Cells};
use tab_version::{Caches, Version};

/// How many ranges there are at least, where several threads may read them: fewer are read sooner by one.
pub(crate) const LEAST_RANGES: usize = 500;

/// How many of these the calling thread reads first.
pub(crate) const FIRST_RANGES: usize = 32;

// How many cells the answers in the first ranges have at least, where the others are worth threads: 32 a range.
const LEAST_CELLS: usize = 1024;

// By how many threads the others are read at most, the calling one among them.
const MOST_THREADS: usize = 4;

/// Whether ranges like those that have these answers are worth threads.
pub(crate) fn are_worth_threads(answers: &[Cells]) -> bool {
    let mut cells = 0usize;
    for answer in answers {
        cells = cells.saturating_add(answer.len());
    }
    cells >= LEAST_CELLS
}

/// By how many threads they are read: no more than there are processors.
pub(crate) fn thread_count(rt: &impl Threads) -> usize {
    let processors = available_parallelism(rt).map_or(1, |count| count.get());
    processors.min(MOST_THREADS)
}

/// The answers in the ranges, read by so many threads, the calling one among them, in shares of like size. It starts the others one after
/// another: of two that begin at one moment the system puts both on one processor, though another is idle.
#[cycle(read_by_threads)]
pub(crate) fn read_by_threads<R: Threads + Sync>(
    rt: &R,
    alloc: Global,
    version: &Version,
    asked: &Asked,
    ranges: &[Bounds],
    threads: usize,
) -> Result<Vec<Cells>, NoMemory>
    ensures { IfOk result (λ v. v.items
        ≡ map (λ rows. cells_within rows (map cell_of (shown version.now asked.now.versions asked.now.columns asked.now.auths))) ranges.now) }
{
    if threads < 2 {
        return read_chunk(alloc, version, asked, ranges);
    }
    let (first, others) = ranges.split_at(ranges.len() / threads);
    let beside = move || -> Result<Vec<Cells>, NoMemory>
        ensures { IfOk result (λ v. v.items
            ≡ map (λ rows. cells_within rows (map cell_of (shown version.entry.now asked.entry.now.versions asked.entry.now.columns asked.entry.now.auths))) first.entry.now) }
    { read_chunk(alloc, version, asked, first) };
    let here = move || -> Result<Vec<Cells>, NoMemory>
        requires { IsSync R.row × (2 ≤ threads) }
        ensures { IfOk result (λ v. v.items
            ≡ map (λ rows. cells_within rows (map cell_of (shown version.entry.now asked.entry.now.versions asked.entry.now.columns asked.entry.now.auths))) others.entry.now) }
    { read_by_threads(rt, alloc, version, asked, others, threads - 1) };
    let (answers, more) = join(rt, beside, here);
    let mut answers = answers?;
    let mut more = more?;
    answers.append(&mut more)?;
    Ok(answers)
}

// The answers in these ranges, under verdicts of their own.
fn read_chunk(
    alloc: Global,
    version: &Version,
    asked: &Asked,
    chunk: &[Bounds],
) -> Result<Vec<Cells>, NoMemory>
    ensures { IfOk result (λ v. v.items
        ≡ map (λ rows. cells_within rows (map cell_of (shown version.now asked.now.versions asked.now.columns asked.now.auths))) chunk.now) }
{
    let verdicts = Verdicts::none(alloc);
    let caches = Caches::of(alloc, 0);
    let mut source = unread(alloc, version, asked, verdicts, caches);
    take_ranges(alloc, &mut source, chunk)
}
