//! CSV: what an image says as records of fields, and records of fields as lines of a script.
//!
//! Texts of CSV are read and written by the crate `csv`, as RFC 4180 has them. What is written of an image is proved to be exactly what
//! `specs/CsvTexts` says; what a record means, or why it means nothing, exactly what `specs/Meaning` says.
//!
//! | File | What |
//! |---|---|
//! | `column` | the columns that a text may have |
//! | `header` | where they stand, by its first record |
//! | `fields` | the fields of a record, by their columns |
//! | `number`, `kind` | a timestamp, and whether a record writes a cell or a marker |
//! | `meaning`, `checks`, `record_fault` | what a record means, and why it means nothing |
//! | `line` | the line of a script that does what a record means |
//! | `source`, `records` | a text a line at a time, and its records, with the numbers of their lines |
//! | `importing` | each record as such a line |
//! | `exporting` | an image as a text |
//!
//! In `specs`, `Columns` and `Meaning` say what a record means, `CsvLines` which line that is, `CsvTexts` what an image says, `Parts` and
//! `Rows` what values of the code stand for, and what is written so far.
#![tactic(auto)]

mod checks;
mod column;
mod exporting;
mod fields;
mod header;
mod importing;
mod kind;
mod line;
mod meaning;
mod number;
mod record_fault;
mod records;
mod source;

pub use column::CsvColumn;
pub use exporting::write_csv;
pub use header::{Header, HeaderFault, read_header};
pub use importing::{Faults, ImportFault, Mode, Tally, import};
pub use line::put_line_of;
pub use meaning::{Meant, meaning_of};
pub use record_fault::RecordFault;
pub use records::TextFault;
