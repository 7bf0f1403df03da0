//! Many jobs, merged by several threads.
ghost use Rattle.std.specs.Prelude.{◌≡◌, ◌+◌, ◌≤◌, [], List, Ok, map, flat_map, IfOk, IfErr, vec_len, vec_capacity};
ghost use Rattle.std.specs.List.{AllZip};
ghost use Rattle.std.proofs.Common.{Vec, Global};
ghost use Rattle.tab_compact.specs.Merges.{output};

use crate::{Finished, Job, MadeTable, Pending};
use std::alloc::Global;
use std::thread;
use std::thread::Threads;
use tab_iter::NoMemory;

// In how many chunks jobs are merged at most.
const MOST_CHUNKS: usize = 8;

/// Makes the merges of all jobs, each as [`Job::merge`] does, by several threads: in at most eight chunks, each of which is merged one
/// job after another. The finished merges come in the order of the jobs.
///
/// It takes the memory of all merges at once. Where memory lacks for one of them, all jobs are handed back as they were.
pub fn merge_many(
    rt: &(impl Threads + Sync),
    alloc: Global,
    jobs: Vec<Job>,
) -> Result<Vec<Finished>, (Vec<Job>, NoMemory)>
    ensures ok { IfOk result (λ finished. finished.items ≡ jobs.items) }
    ensures err { IfErr result (λ e. e.0.items ≡ jobs.items) }
{
    merge_all(rt, alloc, jobs)
}

/// Makes the merges of whatever holds jobs, as [`merge_many`] does.
pub fn merge_all<J: Pending>(
    rt: &(impl Threads + Sync),
    alloc: Global,
    jobs: Vec<J>,
) -> Result<Vec<J::Done>, (Vec<J>, NoMemory)>
    ensures ok { IfOk result (λ done. AllZip J.finishes jobs.items done.items) }
    ensures err { IfErr result (λ e. e.0.items ≡ jobs.items) }
{
    let room = match Vec::with_capacity(alloc, jobs.len()) {
        Ok(room) => room,
        Err(fault) => return Err((jobs, fault)),
    };
    match make_pending(rt, alloc, &jobs) {
        Ok(tables) => Ok(finish_all(jobs, tables, room)),
        Err(fault) => Err((jobs, fault)),
    }
}

// The tables that the merges make, in the order of what holds the jobs.
fn make_pending<J: Pending>(
    rt: &(impl Threads + Sync),
    alloc: Global,
    jobs: &[J],
) -> Result<Vec<MadeTable>, NoMemory>
    ensures { IfOk result (λ tables. tables.items ≡ map (λ job. output (J.merge job)) jobs.now) }
{
    let lent = lend_all(alloc, jobs)?;
    make_all(rt, alloc, lent.as_slice())
}

// The jobs that are held.
fn lend_all<'a, J: Pending>(alloc: Global, jobs: &'a [J]) -> Result<Vec<&'a Job>, NoMemory>
    ensures { IfOk result (λ lent. map (λ job. job.now) lent.items ≡ map J.merge jobs.now) }
{
    let mut lent = Vec::with_capacity(alloc, jobs.len())?;
    for job in jobs {
        lent.push(job.job())?;
    }
    Ok(lent)
}

// The tables that the merges make, in their order, by several threads.
fn make_all(
    rt: &(impl Threads + Sync),
    alloc: Global,
    jobs: &[&Job],
) -> Result<Vec<MadeTable>, NoMemory>
    ensures { IfOk result (λ tables. tables.items ≡ map (λ job. output job.now) jobs.now) }
{
    if jobs.is_empty() {
        return Ok(Vec::new(alloc));
    }
    let size = jobs.len().div_ceil(MOST_CHUNKS);
    let chunks = thread::map_chunks(
        rt,
        alloc,
        jobs,
        size,
        &|_: usize, chunk: &[&Job]| -> Result<Vec<MadeTable>, NoMemory>
            ensures { IfOk result (λ tables. tables.items ≡ map (λ job. output job.now) chunk.now) }
        { make_each(alloc, chunk) },
    )?;
    joined(alloc, chunks)
}

// The tables that the merges make, one after another.
fn make_each(alloc: Global, jobs: &[&Job]) -> Result<Vec<MadeTable>, NoMemory>
    ensures { IfOk result (λ tables. tables.items ≡ map (λ job. output job.now) jobs.now) }
{
    let mut tables = Vec::with_capacity(alloc, jobs.len())?;
    for job in jobs {
        tables.push(job.make(alloc)?)?;
    }
    Ok(tables)
}

// The tables of all chunks in one list, where memory lacked for none.
fn joined(
    alloc: Global,
    chunks: Vec<Result<Vec<MadeTable>, NoMemory>>,
) -> Result<Vec<MadeTable>, NoMemory>
    ensures { IfOk result (λ tables. (made : List (Vec MadeTable Global)) × (chunks.items ≡ map Ok made) × (tables.items ≡ flat_map (λ part. part.items) made)) }
{
    let mut tables = Vec::new(alloc);
    for chunk in chunks {
        let mut made = chunk?;
        tables.append(&mut made)?;
    }
    Ok(tables)
}

// The finished merges of the jobs, which made these tables. They go into the room, from the last one on.
fn finish_all<J: Pending>(
    mut jobs: Vec<J>,
    mut tables: Vec<MadeTable>,
    mut done: Vec<J::Done>,
) -> Vec<J::Done>
    requires made { tables.items ≡ map (λ job. output (J.merge job)) jobs.items }
    requires none { done.items ≡ [] }
    requires room { vec_len done + vec_len jobs ≤ vec_capacity done }
    ensures { AllZip J.finishes jobs.items result.items }
{
    while let Some(job) = jobs.pop() {
        let Some(table) = tables.pop() else {
            break;
        };
        done.push_reserved(job.finish(table));
    }
    done.reverse();
    done
}
