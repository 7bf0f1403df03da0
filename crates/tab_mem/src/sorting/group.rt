//! Neighbouring records of one row, lent.
ghost use Rattle.std.specs.Prelude.{◌≡◌, ◌<◌, ◌++◌, ◌∷◌, [], length, IsTrue, OnOk};
ghost use Rattle.tab_key.specs.Bytes.{bytes_cmp};
ghost use Rattle.tab_key.specs.RowPrefix.{IsRowPrefix};
ghost use Rattle.tab_mem.specs.Groups.{row_of, count_in};
ghost use Rattle.tab_mem.specs.Lists.{IsFilled};
ghost use Rattle.tab_mem.specs.Parting.{records_in};

use crate::sorting::column_item::{ColumnItem, lend_columns};
use crate::sorting::item::Item;
use crate::sorting::leading::prefix_of;
use std::alloc::AllocError;
use std::cmp::Ordering;
use std::marker::Model;
use tab_key::{RecordRef, end_of};

/// Records that lie one after another and have one row, lent: their bytes, and the first 16 bytes of the row as a number. Mostly that
/// number decides which group stands before, and no record is read. How many they are isn't kept, so it takes no more than an item: 32
/// bytes. A contract sees their list.
#[derive(Drop)]
pub(crate) struct Group<'a> {
    prefix: u128,
    bytes: &'a [u8],
}

impl<'a> Model for Group<'a> {
    ghost use Rattle.std.specs.Prelude.{List};
    ghost use Rattle.tab_key.specs.Records.{Record as Fields};

    ghost Value = { List Fields };

    ghost use Rattle.tab_mem.specs.Parting.{records_in};
    ghost use Rattle.tab_mem.specs.Groups.{IsGroup, count_in};

    ghost view = { λ g. records_in g.bytes.now (count_in g.bytes.now) };

    ghost invariant = { λ g. IsGroup g.prefix g.bytes.now (count_in g.bytes.now) };
}

impl<'a> Group<'a> {
    /// The group of the records, one or more, whose bytes these are.
    pub(crate) fn new(bytes: &'a [u8]) -> Group<'a>
        requires filled { IsFilled bytes.now (count_in bytes.now) }
        requires some { 0 < count_in bytes.now }
        ensures { result ≡ records_in bytes.now (count_in bytes.now) }
    {
        let first = RecordRef::at(bytes, 0);
        let _timestamp = first.timestamp();
        let prefix = prefix_of(&first);
        Group { prefix, bytes }
    }

    /// Whether there is but one record.
    pub(crate) fn is_single(&self) -> bool
        ensures { IsTrue result → length self.now ≡ 1 }
    {
        end_of(self.bytes, 0) == self.bytes.len()
    }

    /// The first 16 bytes of the row, as a number.
    pub(crate) fn prefix(&self) -> u128
        ensures { IsRowPrefix result (row_of self.now) }
    {
        self.prefix
    }

    // The row.
    fn row(&self) -> &'a [u8]
        ensures { result.now ≡ row_of self.now }
    {
        RecordRef::at(self.bytes, 0).row()
    }

    /// The order of the rows.
    pub(crate) fn cmp_row(&self, other: &Group<'_>) -> Ordering
        ensures { result ≡ bytes_cmp (row_of self.now) (row_of other.now) }
    {
        match self.prefix.cmp(&other.prefix) {
            Ordering::Equal => self.row().cmp(other.row()),
            decided => decided,
        }
    }

    /// The order of the row, and that of a record.
    pub(crate) fn cmp_bound(&self, bound: &Item<'_>) -> Ordering
        ensures { result ≡ bytes_cmp (row_of self.now) bound.now.key.row }
    {
        match self.prefix.cmp(&bound.prefix()) {
            Ordering::Equal => self.row().cmp(bound.record().row()),
            decided => decided,
        }
    }

    /// The record, where there is but one. It isn't read.
    pub(crate) fn only(&self) -> Item<'a>
        requires { length self.now ≡ 1 }
        ensures { self.now ≡ result ∷ [] }
    {
        Item::with_prefix(self.prefix, self.bytes)
    }

    /// Puts the records, lent, behind others, in their order. After an error, which only want of memory gives, some may stand there.
    pub(crate) fn lend_to(&self, items: &mut Vec<ColumnItem<'a>>) -> Result<(), AllocError>
        ensures { OnOk result (items.new.items ≡ items.old.items ++ self.now) }
    {
        lend_columns(items, self.bytes)
    }
}
