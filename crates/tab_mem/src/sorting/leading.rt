//! The beginning of a record's row, or of its family and qualifier, as a number, read where it lies.
ghost use Rattle.std.specs.Prelude.{◌≡◌, ◌≤◌, ◌/◌, ◌*◌, ◌-◌, ◌^◌, length, take};
ghost use Rattle.std.specs.Int.{w128, from_be_bytes};
ghost use Rattle.std.specs.List.{slice_range};
ghost use Rattle.tab_key.specs.RowPrefix.{IsRowPrefix};

use tab_key::{Piece, RecordRef, row_prefix};

/// How many bytes of a row the number is of.
pub(crate) const MOST_BYTES: usize = 16;

/// The number that the first 16 bytes of the record's row spell, with zeros behind a shorter row. It is read in one load, without a
/// copy as long as the row, unless the row is empty or the body ends close behind it.
#[inline]
pub(crate) fn prefix_of(record: &RecordRef<'_>) -> u128
    ensures { IsRowPrefix result record.now.key.row }
{
    prefix_in(&record.row_piece())
}

/// The number that the row's first 16 bytes spell, as [`prefix_of`] has it.
#[inline]
pub(crate) fn prefix_in(row: &Piece<'_>) -> u128
    ensures { IsRowPrefix result row.now }
{
    let onward = row.onward();
    if row.len() == 0 || onward.len() < MOST_BYTES {
        return copied_prefix(row);
    }
    first_bytes(onward, row.len())
}

// The number of a row behind which the body ends, or of an empty one.
#[cold]
#[inline(never)]
fn copied_prefix(row: &Piece<'_>) -> u128
    ensures { IsRowPrefix result row.now }
{
    row_prefix(row.as_slice())
}

/// The number that the first 16 of the bytes between two places spell, with zeros behind fewer. It is read in one load, unless there is
/// none or the bytes end close behind them.
#[inline]
pub(crate) fn prefix_between(bytes: &[u8], start: usize, end: usize) -> u128
    requires order { start ≤ end }
    requires within { end ≤ length bytes.now }
    ensures { IsRowPrefix result (slice_range bytes.now start end) }
{
    if start == end || bytes.len() - start < MOST_BYTES {
        return row_prefix(&bytes[start..end]);
    }
    first_bytes(&bytes[start..], end - start)
}

// The number of the row that the first `count` bytes are.
#[inline]
fn first_bytes(bytes: &[u8], count: usize) -> u128
    requires long { 16 ≤ length bytes.now }
    requires within { count ≤ length bytes.now }
    requires some { 1 ≤ count }
    ensures { IsRowPrefix result (take count bytes.now) }
{
    cut(number_of(bytes), count.min(MOST_BYTES))
}

// The number that the first 16 bytes spell.
#[inline]
fn number_of(bytes: &[u8]) -> u128
    requires { 16 ≤ length bytes.now }
    ensures { result ≡ from_be_bytes w128 (take 16 bytes.now) }
{
    let mut sixteen = [0; MOST_BYTES];
    sixteen.copy_from_slice(&bytes[..MOST_BYTES]);
    u128::from_be_bytes(sixteen)
}

// Of a number of 16 bytes the highest ones, and zeros in place of the others.
#[inline]
fn cut(number: u128, count: usize) -> u128
    requires some { 1 ≤ count }
    requires most { count ≤ 16 }
    ensures { result ≡ number / 2 ^ (128 - 8 * count) * 2 ^ (128 - 8 * count) }
{
    let gap = 128 - 8 * count;
    (number >> gap) << gap
}
