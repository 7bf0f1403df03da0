//! Tablets of several sources.

use std::alloc::{AllocError, Global};
use tab_cells::Compaction;
use tab_core::{Base, Core, Pending, TabletJob};
use tab_history::Act;
use tab_key::{ByteString, Name};

/// A tablet of several sources: its table, a row that it holds, and how many sources a read of it meets, what was written and isn't frozen
/// among them.
#[derive(Drop)]
pub(crate) struct Crowded {
    pub(crate) table: Name,
    pub(crate) row: ByteString,
    pub(crate) sources: usize,
}

/// The tablets of several sources in a core that holds this, those that have most of them last.
///
/// It takes time linear in the tablets and their sources, and memory for a share of each source. What is there is seen by merges that are
/// begun and not made, in a core of its own that is dropped.
pub(crate) fn crowded_in(
    alloc: Global,
    user: &Name,
    base: Base,
) -> Result<Vec<Crowded>, AllocError> {
    let mut core = Core::from_base(base);
    let mut found = Vec::new(alloc);
    for table in names_in(alloc, &core)? {
        add_crowded(alloc, &mut core, user, table, &mut found)?;
    }
    found.sort_unstable_by(|a, b| a.sources.cmp(&b.sources));
    Ok(found)
}

/// How many sources the merge reads.
pub(crate) fn count_sources(job: &TabletJob) -> usize {
    let inputs = job.job().inputs();
    inputs.runs().len().saturating_add(inputs.tables().len())
}

// The names of the tables.
fn names_in(alloc: Global, core: &Core) -> Result<Vec<Name>, AllocError> {
    let tables = core.tables();
    let mut names = Vec::with_capacity(alloc, tables.len())?;
    for (name, _) in tables.iter() {
        names.push(name.to_name())?;
    }
    Ok(names)
}

// Adds the tablets of this table that have several sources.
fn add_crowded(
    alloc: Global,
    core: &mut Core,
    user: &Name,
    table: Name,
    found: &mut Vec<Crowded>,
) -> Result<(), AllocError> {
    for row in rows_of(alloc, core, table)? {
        add_if_crowded(alloc, core, user, table, row, found)?;
    }
    Ok(())
}

// A row of each tablet of this table.
fn rows_of(alloc: Global, core: &Core, table: Name) -> Result<Vec<ByteString>, AllocError> {
    let mut rows = Vec::new(alloc);
    let Some(table) = core.tables().get(&table) else {
        return Ok(rows);
    };
    let ends = table.ends(alloc)?;
    for end in ends.as_slice() {
        rows.push(end.clone()?)?;
    }
    rows.push(row_behind(alloc, ends.as_slice())?)?;
    Ok(rows)
}

// A row behind all of these, which rise.
fn row_behind(alloc: Global, ends: &[ByteString]) -> Result<ByteString, AllocError> {
    let Some(last) = ends.last() else {
        return Ok(ByteString::new(alloc));
    };
    let mut bytes = last.clone()?.into_vec();
    bytes.push(0)?;
    Ok(ByteString::from_vec(bytes))
}

// Adds the tablet that holds the row, if it has several sources.
fn add_if_crowded(
    alloc: Global,
    core: &mut Core,
    user: &Name,
    table: Name,
    row: ByteString,
    found: &mut Vec<Crowded>,
) -> Result<(), AllocError> {
    let sources = sources_at(alloc, core, user, table, row.clone()?);
    if sources > 1 {
        found.push(Crowded {
            table,
            row,
            sources,
        })?;
    }
    Ok(())
}

// How many sources the tablet has that holds the row; 0 where memory lacks to see it.
fn sources_at(alloc: Global, core: &mut Core, user: &Name, table: Name, row: ByteString) -> usize {
    let mut act = Act::Begin(table, row, Compaction::Full);
    let (_, _, job) = core.step_lent(alloc, user, 0, &mut act).into_parts();
    match job {
        Some(job) => count_sources(&job),
        None => 0,
    }
}
