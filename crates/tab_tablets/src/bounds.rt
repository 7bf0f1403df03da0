//! Which tablets a range of rows meets.
ghost use Rattle.std.specs.Prelude.{◌≡◌, ℕ, ◌<◌, ◌≤◌, List, false, length};
ghost use Rattle.tab_key.specs.Ranges.{is_above, is_below};
ghost use Rattle.tab_tablets.specs.ByRow.{AreWhole};
ghost use Rattle.tab_tablets.specs.Places.{IsPlaceOf};

use crate::tablet_list::TabletList;
use tab_key::Bound;

/// The place of the first tablet that a range with this low end meets: no tablet before it holds a row of the range.
pub(crate) fn first_met(tablet_list: &TabletList, low: &Bound) -> usize
    requires { AreWhole tablet_list.now }
    ensures inside { result < length tablet_list.now }
    ensures low { (k : ℕ) (row : List ℕ) → k < result → IsPlaceOf row tablet_list.now k → is_above low.now row ≡ false }
{
    match low {
        Bound::Unbounded => 0,
        Bound::Inclusive(row) => tablet_list.place_of(row.as_bytes()),
        Bound::Exclusive(row) => tablet_list.place_of(row.as_bytes()),
    }
}

/// The place behind the last tablet that a range with this high end meets: no tablet from it on holds a row of the range.
pub(crate) fn end_met(tablet_list: &TabletList, high: &Bound) -> usize
    requires { AreWhole tablet_list.now }
    ensures inside { result ≤ length tablet_list.now }
    ensures high { (k : ℕ) (row : List ℕ) → result ≤ k → IsPlaceOf row tablet_list.now k → is_below high.now row ≡ false }
{
    let count = tablet_list.len();
    match high {
        Bound::Unbounded => count,
        Bound::Inclusive(row) => tablet_list.place_of(row.as_bytes()) + 1,
        Bound::Exclusive(row) => tablet_list.place_of(row.as_bytes()) + 1,
    }
}
