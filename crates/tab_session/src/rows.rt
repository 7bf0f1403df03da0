//! The cells of a range of rows.
ghost use Rattle.std.specs.Prelude.{◌≡◌, ◌<◌, ◌++◌, ◌∷◌, [], map, length, slice_set, IfOk, OnOk};
ghost use Rattle.tab_key.specs.KeyOf.{key_of};
ghost use Rattle.tab_key.specs.Records.{cell_of};
ghost use Rattle.tab_cells.specs.SessionState.{cells_within};
ghost use Rattle.tab_iter.specs.NamedColumns.{row_start};
ghost use Rattle.tab_session.specs.LowEnds.{from_low};

use crate::order::by_low_ends;
use crate::room::Room;
use std::alloc::{AllocError, Global};
use tab_iter::{NoMemory, Source};
use tab_key::{Bound, Bounds, Cells, Key};

// The first key that a record of the row can have.
fn row_start(row: &[u8]) -> Key<'_>
    ensures { key_of result ≡ row_start row.now }
{
    Key {
        row,
        family: b"",
        qualifier: b"",
        label: b"",
        timestamp: i64::MAX,
    }
}

// The row that comes next after this one, whatever rows there are.
fn row_after(alloc: Global, row: &[u8]) -> Result<Vec<u8>, AllocError>
    ensures { IfOk result (λ next. next.items ≡ row.now ++ 0 ∷ []) }
{
    let mut next = Vec::new(alloc);
    next.extend_from_slice(row)?;
    next.push(0)?;
    Ok(next)
}

/// Goes to the first record whose row the low end admits.
pub(crate) fn seek_low<S: Source>(
    alloc: Global,
    source: &mut S,
    low: &Bound,
) -> Result<(), NoMemory>
    ensures whole { S.whole source.new ≡ S.whole source.old }
    ensures rest { OnOk result (S.rest source.new ≡ from_low low.now (S.whole source.old)) }
{
    match low {
        Bound::Unbounded => source.seek(row_start(b"")),
        Bound::Inclusive(row) => source.seek(row_start(row.as_bytes())),
        Bound::Exclusive(row) => {
            let next = row_after(alloc, row.as_bytes())?;
            source.seek(row_start(&next))
        }
    }
}

/// The cells of the source's records with a row in the range. The source stands at the first of them, and no record behind the first
/// one past them is read. The room is taken at once; what the cells need beyond it is taken as they come.
pub(crate) fn take_rows<S: Source>(
    alloc: Global,
    source: &mut S,
    rows: &Bounds,
    room: Room,
) -> Result<Cells, NoMemory>
    requires { S.rest source.old ≡ from_low rows.now.low (S.whole source.old) }
    ensures whole { S.whole source.new ≡ S.whole source.old }
    ensures cells { IfOk result (λ v. v ≡ cells_within rows.now (map cell_of (S.whole source.old))) }
{
    let mut cells = Cells::with_capacity(alloc, room.cells, room.bytes)?;
    while let Some(record) = source.top() {
        if !rows.high.is_below(record.row()) {
            break;
        }
        cells.push(&record)?;
        source.advance()?;
    }
    Ok(cells)
}

// The cells of the source's records with a row in the range, read from its low end on.
fn take_range<S: Source>(
    alloc: Global,
    source: &mut S,
    rows: &Bounds,
    room: Room,
) -> Result<Cells, NoMemory>
    ensures whole { S.whole source.new ≡ S.whole source.old }
    ensures cells { IfOk result (λ v. v ≡ cells_within rows.now (map cell_of (S.whole source.old))) }
{
    seek_low(alloc, source, &rows.low)?;
    take_rows(alloc, source, rows, room)
}

// So many answers without a cell. They take no memory of their own.
fn empty_answers(alloc: Global, count: usize) -> Result<Vec<Cells>, AllocError>
    ensures { IfOk result (λ v. length v.items ≡ count) }
{
    let mut answers = Vec::with_capacity(alloc, count)?;
    for _ in 0..count {
        answers.push(Cells::new(alloc))?;
    }
    Ok(answers)
}

// Puts the cells of an answer in its place.
fn put(answers: &mut Vec<Cells>, place: usize, cells: Cells)
    requires { place < length answers.old.items }
    ensures { answers.new.items ≡ slice_set answers.old.items place cells }
{
    answers[place] = cells;
}

/// The cells of the source's records with a row in each of the ranges. The ranges are read in the order of their low ends. What is read of
/// one begins there, and ends with the first record behind its high one. The memory for an answer is asked for at once, about as much as
/// the one before it took.
pub(crate) fn take_ranges<S: Source>(
    alloc: Global,
    source: &mut S,
    ranges: &[Bounds],
) -> Result<Vec<Cells>, NoMemory>
    ensures { IfOk result (λ v. v.items ≡ map (λ rows. cells_within rows (map cell_of (S.whole source.old))) ranges.now) }
{
    let order = by_low_ends(alloc, ranges)?;
    let mut answers = empty_answers(alloc, ranges.len())?;
    let mut room = Room::unknown();
    for placed in order.as_slice() {
        let cells = take_range(alloc, source, placed.rows(), room)?;
        room = Room::of(&cells).for_next(u32::MAX);
        put(&mut answers, placed.place(), cells);
    }
    Ok(answers)
}
