//! The data that a tablet server keeps: byte strings, names, keys, records and their order, ranges of rows and columns.
//!
//! | File | What |
//! |---|---|
//! | `byte_string`, `items` | a string of bytes and a list that contracts see as lists |
//! | `spelled` | how a byte string is printed for a reader |
//! | `name` | names of users and tables |
//! | `limited_part` | parts of an event that have a limit, and the limits |
//! | `key` | a key, lent, and the order of keys |
//! | `encoding`, `record_span` | how a record lies in a body of bytes: how it is put there, and where its parts are |
//! | `piece` | a byte string that lies in a longer one |
//! | `record`, `record_ref` | a record in a body of its own, and one lent from a body; their order |
//! | `cell`, `cells` | what a scan shows of a put, and a list of such cells |
//! | `column`, `range` | what a scan asks for |
//! | `prefix` | the beginning of a row as a number |
//! | `word` | a short byte string as a number |
//! | `laws` | the order is total, and sorting gives the one rising list |
//!
//! Every definition that the contracts cite stands in `specs`:
//!
//! | File | What |
//! |---|---|
//! | `Bytes`, `Order` | the order of byte strings, keys and records |
//! | `Names`, `NameFields` | which bytes make a name, and how a name keeps them |
//! | `Records`, `KeyOf` | keys, records and cells as contracts see them |
//! | `Encoding`, `RecordSpans` | the record that lies in a body of bytes |
//! | `RowPrefix` | the first bytes of a row as a number |
//! | `Words` | a byte string as a number |
//! | `Kept` | which records are hidden, and which are kept |
//! | `Same` | when two records are the same |
//! | `Sorted` | records in their order, computed and said without computing |
//! | `Ranges`, `Columns` | which rows are in a range, which keys are of a column |
//!
//! In `proofs`, `Order`, `Ties`, `Numbers`, `Rising`, `Sorting` and `Listing` are on the order and on lists in it, `BigEndian`
//! and `RowPrefix` on the order of rows by their prefixes, `WordLaws` on short byte strings as numbers, `Bodies` and
//! `Packed` and `SameRecords` on records in bytes, `Columns` and `Selecting` on columns, `Each` on lists, and `Examples` has worked examples.
#![tactic(auto)]

mod byte_string;
mod cell;
mod cells;
mod column;
mod encoding;
mod items;
mod key;
pub mod laws;
mod limited_part;
mod name;
mod piece;
mod prefix;
mod range;
mod record;
mod record_ref;
mod record_span;
mod spelled;
mod word;

pub use byte_string::ByteString;
pub use cell::CellRef;
pub use cells::Cells;
pub use column::{Column, is_selected};
pub use encoding::{append, append_copy, append_joined, end_of};
pub use items::Items;
pub use key::{Key, Kind};
pub use limited_part::{
    LimitedPart, MAX_AUTHORIZATION_LEN, MAX_AUTHORIZATIONS, MAX_COLUMNS, MAX_LABEL_DEPTH,
    MAX_OPENED, MAX_PART_LEN, MAX_RANGES, MAX_SESSIONS, MAX_UPDATES, MAX_VERSIONS,
};
pub use name::{MAX_NAME_LEN, Name};
pub use piece::Piece;
pub use prefix::row_prefix;
pub use range::{BadRange, Bound, Bounds, Range, is_bad_range};
pub use record::Record;
pub use record_ref::RecordRef;
pub use word::word_between;
