//! Where the columns of a text stand, by its first record.
ghost use Rattle.std.specs.Prelude.{◌≡◌, length};
ghost use Rattle.csv.specs.Records.{fields_of};
ghost use Rattle.tab_csv.specs.Columns.{no_columns, place, with_place, with_name, with_column, columns_from, complete, header_of};

use crate::column::CsvColumn;
use crate::fields::{count_of, field_at};
use csv::ByteRecord;
use thiserror::Error;

/// Where each column stands in a record, counted from 0, and how many fields a record has.
#[derive(Clone, Copy, Debug, PartialEq, Eq)]
pub struct Header {
    count: usize,
    table: Option<usize>,
    row: Option<usize>,
    family: Option<usize>,
    qualifier: Option<usize>,
    label: Option<usize>,
    timestamp: Option<usize>,
    kind: Option<usize>,
    value: Option<usize>,
}

/// Why a first record names no columns by which others can be read.
#[derive(Clone, Copy, Debug, PartialEq, Eq, Error)]
pub enum HeaderFault {
    /// There is no record.
    #[error("there is no first line that names the columns")]
    Empty,
    /// A quote isn't closed.
    #[error("a quote in the first line isn't closed")]
    OpenQuote,
    /// The name at this place, counted from 0, is no column's.
    #[error("column {place} of the first line is none of table, row, family, qualifier, label, timestamp, kind, value", place = .0.saturating_add(1))]
    Unknown(usize),
    /// A column is named twice.
    #[error("the first line names the column {0} twice")]
    Repeated(CsvColumn),
    /// A column is missing that has to be there.
    #[error("the first line names no column {0}")]
    Missing(CsvColumn),
    /// Neither a column nor an option names the table.
    #[error("the first line names no column table: --table T would say which one it is")]
    NoTable,
    /// Both do.
    #[error("the first line names a column table, so --table can't say which one it is")]
    TwoTables,
}

/// Reads the first record of a text. `is_given` says whether the table's name is given besides.
pub fn read_header(names: &ByteRecord, is_given: bool) -> Result<Header, HeaderFault>
    ensures { result ≡ header_of is_given (fields_of names.now) }
{
    columns_of(names)?.complete(is_given)
}

// Reads the names.
fn columns_of(names: &ByteRecord) -> Result<Header, HeaderFault>
    ensures { result ≡ columns_from (no_columns (length (fields_of names.now))) 0 (fields_of names.now) }
{
    let count = count_of(names);
    let mut header = Header::new(count);
    for index in 0..count {
        match header.with_name(index, field_at(names, index)) {
            Ok(longer) => header = longer,
            Err(fault) => return Err(fault),
        }
    }
    Ok(header)
}

impl Header {
    // Of so many fields, of which none is named yet.
    fn new(count: usize) -> Header
        ensures { result ≡ no_columns count }
    {
        Header {
            count,
            table: None,
            row: None,
            family: None,
            qualifier: None,
            label: None,
            timestamp: None,
            kind: None,
            value: None,
        }
    }

    // How many fields a record has.
    pub(crate) fn count(&self) -> usize
        ensures { result ≡ self.now.count }
    {
        self.count
    }

    // Where the column stands.
    pub(crate) fn place(&self, column: CsvColumn) -> Option<usize>
        ensures { result ≡ place self.now column }
    {
        match column {
            CsvColumn::Table => self.table,
            CsvColumn::Row => self.row,
            CsvColumn::Family => self.family,
            CsvColumn::Qualifier => self.qualifier,
            CsvColumn::Label => self.label,
            CsvColumn::Timestamp => self.timestamp,
            CsvColumn::Kind => self.kind,
            CsvColumn::Value => self.value,
        }
    }

    // With this column at this place.
    fn with_place(&self, column: CsvColumn, index: usize) -> Header
        ensures { result ≡ with_place self.now column index }
    {
        let mut header = *self;
        match column {
            CsvColumn::Table => header.table = Some(index),
            CsvColumn::Row => header.row = Some(index),
            CsvColumn::Family => header.family = Some(index),
            CsvColumn::Qualifier => header.qualifier = Some(index),
            CsvColumn::Label => header.label = Some(index),
            CsvColumn::Timestamp => header.timestamp = Some(index),
            CsvColumn::Kind => header.kind = Some(index),
            CsvColumn::Value => header.value = Some(index),
        }
        header
    }

    // With the column of this name at this place.
    fn with_name(&self, index: usize, name: &[u8]) -> Result<Header, HeaderFault>
        ensures { result ≡ with_name self.now index name.now }
    {
        match CsvColumn::named(name) {
            Some(column) => self.with_column(index, column),
            None => Err(HeaderFault::Unknown(index)),
        }
    }

    // With this column at this place, if it stands at no other.
    fn with_column(&self, index: usize, column: CsvColumn) -> Result<Header, HeaderFault>
        ensures { result ≡ with_column self.now index column }
    {
        if self.place(column).is_some() {
            Err(HeaderFault::Repeated(column))
        } else {
            Ok(self.with_place(column, index))
        }
    }

    // This, if it has the columns that have to be there.
    fn complete(self, is_given: bool) -> Result<Header, HeaderFault>
        ensures { result ≡ complete is_given self }
    {
        if self.row.is_none() {
            return Err(HeaderFault::Missing(CsvColumn::Row));
        }
        if self.value.is_none() {
            return Err(HeaderFault::Missing(CsvColumn::Value));
        }
        match (is_given, self.table.is_some()) {
            (true, true) => Err(HeaderFault::TwoTables),
            (false, false) => Err(HeaderFault::NoTable),
            _ => Ok(self),
        }
    }
}
