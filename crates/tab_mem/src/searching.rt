//! Searches in records that rise.
ghost use Rattle.std.specs.Prelude.{◌≡◌, ◌≤◌, length, max, min, filter};
ghost use Rattle.std.specs.List.{prefix_len};
ghost use Rattle.tab_key.specs.Ranges.{is_below, is_in_range};
ghost use Rattle.tab_iter.specs.Lists.{IsRising};
ghost use Rattle.tab_mem.specs.Lists.{part};
ghost use Rattle.tab_mem.specs.Starts.{is_before, from_start};

use crate::{Ordered, Start, Target};
use std::ops::Range;
use tab_key::{Bound, Bounds};

/// In so many records a search goes from one to the next; among more it first asks for a part that is near.
const FAR: usize = 128;

// How many records stand before the start, but no fewer than `low` and no more than `high`: between these by halves, of a part that is
// near where they are many.
fn count_between<R: Ordered>(records: &R, low: usize, high: usize, target: &Target<'_>) -> usize
    requires rising { IsRising (R.listed records.now) }
    requires ends { low ≤ high }
    requires inside { high ≤ length (R.listed records.now) }
    ensures { result ≡ max low (min (prefix_len (is_before target.now.start) (R.listed records.now)) high) }
{
    if high - low <= FAR {
        return count_by_halves(records, low, high, target);
    }
    let near = records.narrowed(low, high, target);
    count_by_halves(records, near.start, near.end, target)
}

// `count_between` by halves alone.
fn count_by_halves<R: Ordered>(
    records: &R,
    mut low: usize,
    mut high: usize,
    target: &Target<'_>,
) -> usize
    requires rising { IsRising (R.listed records.now) }
    requires ends { low ≤ high }
    requires inside { high ≤ length (R.listed records.now) }
    ensures { result ≡ max low (min (prefix_len (is_before target.now.start) (R.listed records.now)) high) }
{
    while low < high {
        let mid = low + (high - low) / 2;
        if records.precedes(mid, target) {
            low = mid + 1;
        } else {
            high = mid;
        }
    }
    low
}

// `count_between` by steps from `low` on that double. Where the count isn't near, it is then looked for in all that is left, and at once
// where the index of rows tells that it is far: each step reads a record that lies elsewhere.
fn count_from<R: Ordered>(records: &R, low: usize, high: usize, target: &Target<'_>) -> usize
    requires rising { IsRising (R.listed records.now) }
    requires ends { low ≤ high }
    requires inside { high ≤ length (R.listed records.now) }
    ensures { result ≡ max low (min (prefix_len (is_before target.now.start) (R.listed records.now)) high) }
{
    if records.is_far(low, target) {
        return count_between(records, low, high, target);
    }
    let far = high.min(low.saturating_add(FAR));
    let mut near = low;
    let mut step: usize = 1;
    while step < far - near {
        if !records.precedes(near + step, target) {
            return count_between(records, near, near + step, target);
        }
        near += step;
        step = step.saturating_mul(2);
    }
    count_between(records, near, high, target)
}

// `count_between` from a place between the two: by steps from there on that double, or by halves before it. At `low` nothing was read yet,
// so nothing says that the count is near: it is found by halves.
fn count_near<R: Ordered>(
    records: &R,
    low: usize,
    at: usize,
    high: usize,
    target: &Target<'_>,
) -> usize
    requires rising { IsRising (R.listed records.now) }
    requires before { low ≤ at }
    requires behind { at ≤ high }
    requires inside { high ≤ length (R.listed records.now) }
    ensures { result ≡ max low (min (prefix_len (is_before target.now.start) (R.listed records.now)) high) }
{
    if at == low {
        return count_between(records, low, high, target);
    }
    if !records.precedes(at - 1, target) {
        return count_between(records, low, at - 1, target);
    }
    count_from(records, at, high, target)
}

// The index of the first record of a part that isn't before the start, or the part's end. The part goes from one index up to
// another, that one excluded.
fn first_at<R: Ordered>(records: &R, from: usize, end: usize, start: Start<'_>) -> usize
    requires rising { IsRising (R.listed records.now) }
    requires ends { from ≤ end }
    requires inside { end ≤ length (R.listed records.now) }
    ensures low { from ≤ result }
    ensures high { result ≤ end }
    ensures found { part result end (R.listed records.now) ≡ from_start start.entry (part from end (R.listed records.now)) }
{
    let target = Target::of(start);
    count_between(records, from, end, &target)
}

/// The index of the first record of a part that isn't before the start, or the part's end, found from a place in the part: it takes
/// time logarithmic in how far the index lies behind that place where it is near, and else in how much of the part lies before or
/// behind the place. From the part's first place it takes time logarithmic in the part.
///
/// The part goes from one index up to another, that one excluded.
pub fn first_near<R: Ordered>(
    records: &R,
    from: usize,
    at: usize,
    end: usize,
    start: Start<'_>,
) -> usize
    requires rising { IsRising (R.listed records.now) }
    requires before { from ≤ at }
    requires behind { at ≤ end }
    requires inside { end ≤ length (R.listed records.now) }
    ensures low { from ≤ result }
    ensures high { result ≤ end }
    ensures found { part result end (R.listed records.now) ≡ from_start start.entry (part from end (R.listed records.now)) }
{
    let target = Target::of(start);
    count_near(records, from, at, end, &target)
}

// The index behind those first records of a part whose rows aren't above the high end.
fn past_rows<R: Ordered>(records: &R, from: usize, end: usize, high: &Bound) -> usize
    requires rising { IsRising (R.listed records.now) }
    requires ends { from ≤ end }
    requires inside { end ≤ length (R.listed records.now) }
    ensures low { from ≤ result }
    ensures high { result ≤ end }
    ensures rows { part from result (R.listed records.now) ≡ filter (λ u. is_below high.now u.key.row) (part from end (R.listed records.now)) }
{
    let target = Target::of(Start::PastHigh(high));
    count_from(records, from, end, &target)
}

/// The indexes of the records of a part whose rows are in bounds: these records stand together. The part goes from one index
/// up to another, that one excluded.
///
/// The low end takes time logarithmic in the part; so does the high end, or time logarithmic in the number of records between them where
/// these are few.
pub fn rows_in<R: Ordered>(records: &R, from: usize, end: usize, bounds: &Bounds) -> Range<usize>
    requires rising { IsRising (R.listed records.now) }
    requires ends { from ≤ end }
    requires inside { end ≤ length (R.listed records.now) }
    ensures low { from ≤ result.start }
    ensures order { result.start ≤ result.end }
    ensures high { result.end ≤ end }
    ensures rows { part result.start result.end (R.listed records.now) ≡ filter (λ u. is_in_range bounds.now u.key.row) (part from end (R.listed records.now)) }
{
    let first = first_at(records, from, end, Start::AtLow(&bounds.low));
    let past = past_rows(records, first, end, &bounds.high);
    first..past
}
