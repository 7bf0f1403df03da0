//! Why a record means nothing.
use crate::column::CsvColumn;
use thiserror::Error;

/// Why a record means nothing.
#[derive(Clone, Copy, Debug, PartialEq, Eq, Error)]
pub enum RecordFault {
    /// A quote isn't closed.
    #[error("a quote isn't closed")]
    OpenQuote,
    /// It has so many fields, and the first record so many.
    #[error("{0} fields, where the first line has {1}")]
    Fields(usize, usize),
    /// What stands in the column of tables is no name.
    #[error("the table's name isn't 1 to 128 bytes of a-z A-Z 0-9 _ - .")]
    Table,
    /// This field is too long.
    #[error("the {0} has over 1,048,576 bytes")]
    TooLong(CsvColumn),
    /// The label is none: this long is the longest front of it with which one begins.
    #[error("the label is malformed at {0}")]
    Label(usize),
    /// The timestamp is no whole number of 64 bits.
    #[error("the timestamp isn't a whole number of 64 bits")]
    Timestamp,
    /// The kind is neither.
    #[error("the kind is neither put nor delete")]
    Kind,
    /// A delete has a value.
    #[error("a delete has no value")]
    Value,
}
