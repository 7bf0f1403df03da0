//! What a tablet holds, as plain data, and what a compaction makes of it, each rule in its own words. (Accumulo user manual: minor
//! and major compactions)

use crate::model::merged;
use crate::update::{Update, sort};
use std::alloc::{AllocError, Global};
use tab_cells::Compaction;

/// The updates of a run or of a table.
#[derive(Drop)]
struct SourceUpdates {
    is_table: bool,
    updates: Vec<Update>,
}

/// Runs and tables in the order in which they came.
#[derive(Drop)]
pub struct Holding {
    sources: Vec<SourceUpdates>,
}

/// How many records a block of a table has.
const BLOCK_LEN: usize = 64;

/// What stands before a block's first record.
const NOTHING: Update = Update {
    row: b"",
    family: b"",
    qualifier: b"",
    label: b"",
    timestamp: 0,
    is_clocked: false,
    is_put: false,
    seq: 0,
    idx: 0,
};

/// The bytes of a part that the same part before it doesn't begin with.
fn rest_len(before: &[u8], part: &[u8]) -> u64 {
    let mut len = part.len() as u64;
    for (old, new) in before.iter().zip(part) {
        if old != new {
            return len;
        }
        len = len.saturating_sub(1);
    }
    len
}

/// The bytes of one record of a table behind another one: 57, what its four parts don't share with that one, and its value.
fn record_len(before: &Update, update: &Update) -> u64 {
    let value = if update.is_put {
        update.value().len()
    } else {
        0
    };
    57u64
        .saturating_add(rest_len(before.row, update.row))
        .saturating_add(rest_len(before.family, update.family))
        .saturating_add(rest_len(before.qualifier, update.qualifier))
        .saturating_add(rest_len(before.label, update.label))
        .saturating_add(value as u64)
}

/// The bytes of a table of these updates, which are in their order.
pub fn table_len(updates: &[Update]) -> u64 {
    let mut len = 0u64;
    for block in updates.chunks(BLOCK_LEN) {
        let mut before = NOTHING;
        for update in block {
            len = len.saturating_add(record_len(&before, update));
            before = *update;
        }
    }
    len
}

/// How many tables stand before a table of this place and of so many bytes: the smaller ones, and those of its size that came
/// earlier.
fn rank(sources: &[SourceUpdates], place: usize, len: u64) -> usize {
    let mut rank = 0usize;
    for (other, held) in sources.iter().enumerate() {
        let there = table_len(&held.updates);
        if held.is_table && (there < len || there == len && other < place) {
            rank = rank.saturating_add(1);
        }
    }
    rank
}

/// The source at this place is one of so many smallest tables.
fn is_among(sources: &[SourceUpdates], place: usize, count: usize) -> bool {
    match sources.get(place) {
        None => false,
        Some(held) => held.is_table && rank(sources, place, table_len(&held.updates)) < count,
    }
}

/// Three times the largest of so many smallest tables is at most the sum of all of these.
fn fit(sources: &[SourceUpdates], count: usize) -> bool {
    let mut largest = 0u64;
    let mut sum = 0u64;
    for (place, held) in sources.iter().enumerate() {
        if is_among(sources, place, count) {
            let len = table_len(&held.updates);
            largest = largest.max(len);
            sum = sum.saturating_add(len);
        }
    }
    largest.saturating_mul(3) <= sum
}

fn count_tables(sources: &[SourceUpdates]) -> usize {
    sources.iter().filter(|held| held.is_table).count()
}

/// How many of the smallest tables a partial compaction merges: as many as fit, and none where no two do.
fn plan(sources: &[SourceUpdates]) -> usize {
    let mut taken = 0;
    for count in 2..count_tables(sources).saturating_add(1) {
        if fit(sources, count) {
            taken = count;
        }
    }
    taken
}

impl Holding {
    /// Nothing.
    pub fn new(alloc: Global) -> Holding {
        Holding {
            sources: Vec::new(alloc),
        }
    }

    /// A run more.
    pub fn add_run(&mut self, updates: Vec<Update>) -> Result<(), AllocError> {
        let held = SourceUpdates {
            is_table: false,
            updates,
        };
        self.sources.push(held)?;
        Ok(())
    }

    /// A table more.
    pub fn add_table(&mut self, mut updates: Vec<Update>) -> Result<(), AllocError> {
        sort(&mut updates);
        let held = SourceUpdates {
            is_table: true,
            updates,
        };
        self.sources.push(held)?;
        Ok(())
    }

    /// A compaction of this kind reads the source at this place, if a partial one takes so many tables.
    fn is_read(&self, kind: Compaction, place: usize, taken: usize) -> bool {
        match kind {
            Compaction::Minor => self.sources.get(place).is_some_and(|held| !held.is_table),
            Compaction::Partial => is_among(&self.sources, place, taken),
            Compaction::Full => true,
        }
    }

    /// What a compaction of this kind makes of the sources that it reads, where so many versions of a column are kept; nothing where
    /// it reads none. A full one has a floor.
    pub fn output(
        &self,
        alloc: Global,
        kind: Compaction,
        floor: i64,
        versions: u32,
    ) -> Result<Option<Vec<Update>>, AllocError> {
        let taken = plan(&self.sources);
        let mut is_any = false;
        let mut inputs = Vec::new(alloc);
        for (place, held) in self.sources.iter().enumerate() {
            if self.is_read(kind, place, taken) {
                is_any = true;
                append(&mut inputs, &held.updates)?;
            }
        }
        if !is_any {
            return Ok(None);
        }
        let floor = if kind.is_full() { Some(floor) } else { None };
        Ok(Some(merged(alloc, &inputs, floor, versions)?))
    }
}

fn append(updates: &mut Vec<Update>, more: &[Update]) -> Result<(), AllocError> {
    for update in more {
        updates.push(*update)?;
    }
    Ok(())
}
