//! The key of a cell, borrowed.
ghost use Rattle.std.specs.Prelude.{◌≡◌};
ghost use Rattle.tab_key.specs.Order.{kind_rank, column_cmp, key_cmp};
ghost use Rattle.tab_key.specs.Kept.{is_put, same_column};
ghost use Rattle.tab_key.specs.KeyOf.{key_of};

use std::cmp::Ordering;

/// Whether a record hides others or is shown itself.
#[derive(Clone, Copy, Debug, PartialEq, Eq)]
pub enum Kind {
    /// A delete marker, which hides the puts of its column at or below its timestamp.
    Delete,
    /// A put, which gives its column a value.
    Put,
}

impl Kind {
    /// Whether it is a put.
    #[inline]
    pub fn is_put(self) -> bool
        ensures { result ≡ is_put self }
    {
        match self {
            Kind::Delete => false,
            Kind::Put => true,
        }
    }

    /// Its place in the order of records: at one key a marker stands before a put.
    #[inline]
    pub fn rank(self) -> u8
        ensures { result ≡ kind_rank self }
    {
        match self {
            Kind::Delete => 0,
            Kind::Put => 1,
        }
    }
}

/// The key of a cell, lent by whoever holds it. A contract reads it by `key_of`.
#[derive(Clone, Copy)]
pub struct Key<'a> {
    /// The row.
    pub row: &'a [u8],
    /// The column family.
    pub family: &'a [u8],
    /// The column qualifier.
    pub qualifier: &'a [u8],
    /// The label, which Accumulo calls column visibility: the text itself, not what it means.
    pub label: &'a [u8],
    /// The timestamp, which a table's user or its clock gave. It has no unit.
    pub timestamp: i64,
}

impl<'a> Key<'a> {
    /// The order of columns: row, family, qualifier and label, each rising by unsigned bytes.
    #[tactic(auto, unfolding(crate::specs::Order::column_cmp))]
    pub fn column_cmp(self, other: Key<'_>) -> Ordering
        ensures { result ≡ column_cmp (key_of self.entry) (key_of other.entry) }
    {
        self.row
            .cmp(other.row)
            .then_with(|| self.family.cmp(other.family))
            .then_with(|| self.qualifier.cmp(other.qualifier))
            .then_with(|| self.label.cmp(other.label))
    }

    /// The order of keys: by column, then the greater timestamp first.
    #[tactic(auto, unfolding(crate::specs::Order::key_cmp))]
    pub fn cmp(self, other: Key<'_>) -> Ordering
        ensures { result ≡ key_cmp (key_of self.entry) (key_of other.entry) }
    {
        self.column_cmp(other)
            .then_with(|| other.timestamp.cmp(&self.timestamp))
    }

    /// Whether the keys are of one column: the same row, family, qualifier and label, byte for byte.
    #[tactic(auto, unfolding(crate::specs::Kept::same_column))]
    pub fn same_column(self, other: Key<'_>) -> bool
        ensures { result ≡ same_column (key_of self.entry) (key_of other.entry) }
    {
        self.row == other.row
            && self.family == other.family
            && self.qualifier == other.qualifier
            && self.label == other.label
    }
}
