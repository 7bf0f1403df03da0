//! The row at which a search cuts the records that are left.
//!
//! It is the median of the rows in the middle of each source, where each counts as often as its source holds records: at least a
//! quarter of the records have that row or one below it, and at least a quarter that row or one above it.
ghost use Rattle.std.specs.Prelude.{◌≡◌, ◌<◌, ◌++◌, List, length, map, Contains, IfOk, OnOk};
ghost use Rattle.tab_key.specs.Records.{Record as Fields};
ghost use Rattle.tab_iter.specs.Bags.{flat};
ghost use Rattle.tab_version.specs.Sources.{records_of};
ghost use Rattle.tab_tablet.specs.Selecting.{HasRow, AreMiddles};

use std::alloc::{AllocError, Global};
use std::marker::Model;
use tab_key::ByteString;
use tab_version::{Clip, Clips, TableClip};

// The row of the record in the middle of a source, and how many records that holds. A contract sees the row.
#[derive(Drop)]
struct Middle {
    row: ByteString,
    count: usize,
}

impl Model for Middle {
    ghost use Rattle.std.specs.Prelude.{ℕ, List};

    ghost Value = { List ℕ };

    ghost view = { λ m. m.row };
}

impl Middle {
    fn row(&self) -> &[u8]
        ensures { result.now ≡ self.now }
    {
        self.row.as_bytes()
    }
}

/// The row at which to cut.
///
/// It takes memory for a row of each source. `AllocError` says that it lacked.
pub(crate) fn probe(alloc: Global, sources: &Clips) -> Result<ByteString, AllocError>
    requires { 0 < length (records_of sources.now) }
    ensures { IfOk result (λ row. HasRow (records_of sources.now) row) }
{
    let middles = middles_of(alloc, sources)?;
    let row = ByteString::from_slice(alloc, median(&middles))?;
    Ok(row)
}

// The middle of each source that holds a record, in the order of their rows.
fn middles_of(alloc: Global, sources: &Clips) -> Result<Vec<Middle>, AllocError>
    ensures { IfOk result (λ v. AreMiddles (records_of sources.now) v.items) }
{
    let mut middles = Vec::new(alloc);
    add_runs(alloc, &mut middles, sources.runs())?;
    add_tables(alloc, &mut middles, sources.tables())?;
    middles.sort_unstable_by(|a, b| a.row().cmp(b.row()));
    Ok(middles)
}

// Puts the middles of the runs behind the others.
fn add_runs(alloc: Global, middles: &mut Vec<Middle>, runs: &[Clip]) -> Result<(), AllocError>
    ensures { (us : List Fields) → AreMiddles us middles.old.items → OnOk result (AreMiddles (us ++ flat runs.now) middles.new.items) }
{
    for run in runs {
        add_run(alloc, middles, run)?;
    }
    Ok(())
}

// Puts the middle of the run behind the others, if it has a record.
fn add_run(alloc: Global, middles: &mut Vec<Middle>, run: &Clip) -> Result<(), AllocError>
    ensures { (us : List Fields) → AreMiddles us middles.old.items → OnOk result (AreMiddles (us ++ run.now) middles.new.items) }
{
    let count = run.len();
    if count == 0 {
        return Ok(());
    }
    let row = run.row_of(alloc, count / 2)?;
    middles.push(Middle { row, count })?;
    Ok(())
}

// Puts the middles of the tables behind the others.
fn add_tables(
    alloc: Global,
    middles: &mut Vec<Middle>,
    tables: &[TableClip],
) -> Result<(), AllocError>
    ensures { (us : List Fields) → AreMiddles us middles.old.items → OnOk result (AreMiddles (us ++ flat (map (λ t. t.records) tables.now)) middles.new.items) }
{
    for table in tables {
        add_table(alloc, middles, table)?;
    }
    Ok(())
}

// Puts the middle of the table behind the others, if it has a record.
fn add_table(alloc: Global, middles: &mut Vec<Middle>, table: &TableClip) -> Result<(), AllocError>
    ensures { (us : List Fields) → AreMiddles us middles.old.items → OnOk result (AreMiddles (us ++ table.now.records) middles.new.items) }
{
    let count = table.len();
    if count == 0 {
        return Ok(());
    }
    let row = table.row_of(alloc, count / 2)?;
    middles.push(Middle { row, count })?;
    Ok(())
}

// The first of these rows at which the sources so far hold more than half of the records.
fn median(middles: &[Middle]) -> &[u8]
    requires { 0 < length middles.now }
    ensures { Contains middles.now result.now }
{
    let total = middles
        .iter()
        .fold(0usize, |sum, middle| sum.saturating_add(middle.count));
    let mut row = middles[0].row();
    let mut count = 0usize;
    for middle in middles {
        if total / 2 < count {
            return row;
        }
        row = middle.row();
        count = count.saturating_add(middle.count);
    }
    row
}
