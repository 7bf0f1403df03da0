//! Where a search goes.
ghost use Rattle.std.specs.Prelude.{◌≡◌};
ghost use Rattle.tab_mem.specs.Starts.{is_before, IsEndPrefix, IsPrefixOf, IsPrefixOf-prop};

use std::cmp::Ordering;
use tab_key::{Bound, Key, RecordRef, row_prefix};

/// The first place that a search may stop at.
#[derive(Clone, Copy)]
pub enum Start<'a> {
    /// The first record whose key isn't before this one.
    AtKey(Key<'a>),
    /// The first record whose row isn't below this low end.
    AtLow(&'a Bound),
    /// The first record whose row is above this high end.
    PastHigh(&'a Bound),
}

impl<'a> Start<'a> {
    // Whether the record stands before the start.
    #[tactic(auto, unfolding(crate::specs::Starts::is_before))]
    fn is_after(self, other: &RecordRef<'_>) -> bool
        ensures { result ≡ is_before self.entry other.now }
    {
        match self {
            Start::AtKey(key) => other.key().cmp(key).is_lt(),
            Start::AtLow(low) => !low.is_above(other.row()),
            Start::PastHigh(high) => high.is_below(other.row()),
        }
    }

    // The prefix of the row that the search goes to: it decides of all records whose rows have another one. An end that isn't there
    // lies before all rows, or behind them.
    fn prefix(self) -> u128
        ensures { IsPrefixOf self.entry result }
    {
        match self {
            Start::AtKey(key) => row_prefix(key.row),
            Start::AtLow(low) => prefix_or(low, 0),
            Start::PastHigh(high) => prefix_or(high, u128::MAX),
        }
    }
}

/// A start, and the prefix of its row, which is computed once for a search. It mostly tells alone whether a record stands before the
/// start.
#[derive(Drop)]
pub struct Target<'a> {
    start: Start<'a>,
    prefix: u128,
    ghost own: { IsPrefixOf start prefix } by { IsPrefixOf-prop start prefix },
}

impl<'a> Target<'a> {
    /// Of a search for this start.
    pub fn of(start: Start<'a>) -> Target<'a>
        ensures { result.start ≡ start.entry }
    {
        let prefix = start.prefix();
        Target { start, prefix }
    }

    /// The start.
    pub fn start(&self) -> Start<'a>
        ensures { result ≡ self.now.start }
    {
        self.start
    }

    /// Whether the record stands before the start. Its key is read only where its row has the prefix of the start's.
    pub fn is_after(&self, other: &RecordRef<'_>) -> bool
        ensures { result ≡ is_before self.now.start other.now }
    {
        match row_prefix(other.row()).cmp(&self.prefix) {
            Ordering::Less => true,
            Ordering::Equal => self.start.is_after(other),
            Ordering::Greater => false,
        }
    }

    // The prefix of the start's row.
    pub(crate) fn prefix(&self) -> u128
        ensures { IsPrefixOf self.now.start result }
    {
        self.prefix
    }
}

// The prefix of the end's row, or this number where there is no end.
fn prefix_or(bound: &Bound, none: u128) -> u128
    ensures { IsEndPrefix none bound.now result }
{
    match bound {
        Bound::Unbounded => none,
        Bound::Inclusive(row) => row_prefix(row.as_bytes()),
        Bound::Exclusive(row) => row_prefix(row.as_bytes()),
    }
}
