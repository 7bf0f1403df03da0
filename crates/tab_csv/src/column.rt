//! The columns that a text may have.
ghost use Rattle.std.specs.Prelude.{◌≡◌};
ghost use Rattle.tab_csv.specs.Columns.{column_name, column_named};

use std::fmt;
use std::fmt::{Display, Formatter};

/// A column of a text.
#[derive(Clone, Copy, Debug, PartialEq, Eq)]
pub enum CsvColumn {
    /// The table's name.
    Table,
    /// The row.
    Row,
    /// The column family.
    Family,
    /// The column qualifier.
    Qualifier,
    /// The label.
    Label,
    /// The timestamp, or nothing for none.
    Timestamp,
    /// `put` or `delete`, or nothing for `put`.
    Kind,
    /// The value, of a delete nothing.
    Value,
}

impl CsvColumn {
    /// Its name.
    pub fn name(self) -> &'static str
        ensures { result.now ≡ column_name self }
    {
        match self {
            CsvColumn::Table => "table",
            CsvColumn::Row => "row",
            CsvColumn::Family => "family",
            CsvColumn::Qualifier => "qualifier",
            CsvColumn::Label => "label",
            CsvColumn::Timestamp => "timestamp",
            CsvColumn::Kind => "kind",
            CsvColumn::Value => "value",
        }
    }

    /// The column of this name, if there is one.
    pub fn named(name: &[u8]) -> Option<CsvColumn>
        ensures { result ≡ column_named name.now }
    {
        if name == b"table".as_slice() {
            Some(CsvColumn::Table)
        } else if name == b"row".as_slice() {
            Some(CsvColumn::Row)
        } else if name == b"family".as_slice() {
            Some(CsvColumn::Family)
        } else if name == b"qualifier".as_slice() {
            Some(CsvColumn::Qualifier)
        } else if name == b"label".as_slice() {
            Some(CsvColumn::Label)
        } else if name == b"timestamp".as_slice() {
            Some(CsvColumn::Timestamp)
        } else if name == b"kind".as_slice() {
            Some(CsvColumn::Kind)
        } else if name == b"value".as_slice() {
            Some(CsvColumn::Value)
        } else {
            None
        }
    }
}

impl Display for CsvColumn {
    fn fmt<W: fmt::Write>(&self, f: &mut Formatter<W>) -> fmt::Result {
        f.write_str(self.name())
    }
}
