//! What a scan shows of a put.
ghost use Rattle.std.specs.Prelude.{◌≡◌};
ghost use Rattle.tab_key.specs.KeyOf.{key_of};
ghost use Rattle.tab_key.specs.Records.{cell_of};

use crate::{Key, Piece, RecordRef};
use std::marker::Model;

/// What a scan shows of a put, lent: its key and its value.
///
/// It is a record whose numbers nobody reads.
#[derive(Drop)]
pub struct CellRef<'a> {
    record: RecordRef<'a>,
}

impl<'a> Model for CellRef<'a> {
    ghost use Rattle.tab_key.specs.Records.{Cell as Fields, cell_of};

    ghost Value = { Fields };

    ghost view = { λ c. cell_of c.record };
}

impl<'a> CellRef<'a> {
    /// The cell that the record shows.
    pub fn of(record: RecordRef<'a>) -> CellRef<'a>
        ensures { result ≡ cell_of record.entry }
    {
        CellRef { record }
    }

    /// The row.
    pub fn row(&self) -> &'a [u8]
        ensures { result.now ≡ self.now.key.row }
    {
        self.record.row()
    }

    /// The column family.
    pub fn family(&self) -> &'a [u8]
        ensures { result.now ≡ self.now.key.family }
    {
        self.record.family()
    }

    /// The column qualifier.
    pub fn qualifier(&self) -> &'a [u8]
        ensures { result.now ≡ self.now.key.qualifier }
    {
        self.record.qualifier()
    }

    /// The label, which Accumulo calls column visibility.
    pub fn label(&self) -> &'a [u8]
        ensures { result.now ≡ self.now.key.label }
    {
        self.record.label()
    }

    /// The timestamp.
    #[inline]
    pub fn timestamp(&self) -> i64
        ensures { result ≡ self.now.key.timestamp }
    {
        self.record.timestamp()
    }

    /// The value.
    pub fn value(&self) -> &'a [u8]
        ensures { result.now ≡ self.now.value }
    {
        self.record.value()
    }

    /// The row, as a piece of a longer byte string.
    #[inline]
    pub fn row_piece(&self) -> Piece<'a>
        ensures { result ≡ self.now.key.row }
    {
        self.record.row_piece()
    }

    /// The column family, as a piece of a longer byte string.
    #[inline]
    pub fn family_piece(&self) -> Piece<'a>
        ensures { result ≡ self.now.key.family }
    {
        self.record.family_piece()
    }

    /// The column qualifier, as a piece of a longer byte string.
    #[inline]
    pub fn qualifier_piece(&self) -> Piece<'a>
        ensures { result ≡ self.now.key.qualifier }
    {
        self.record.qualifier_piece()
    }

    /// The label, as a piece of a longer byte string.
    #[inline]
    pub fn label_piece(&self) -> Piece<'a>
        ensures { result ≡ self.now.key.label }
    {
        self.record.label_piece()
    }

    /// The value, as a piece of a longer byte string.
    #[inline]
    pub fn value_piece(&self) -> Piece<'a>
        ensures { result ≡ self.now.value }
    {
        self.record.value_piece()
    }

    /// The key, lent for as long as the cell is.
    pub fn key(&self) -> Key<'a>
        ensures { key_of result ≡ self.now.key }
    {
        self.record.key()
    }
}
