//! What frames, records of events and images are made of: numbers, fields, names, lists, ends of ranges and sets of bits, written and
//! read.
//!
//! Numbers are big-endian. A field is a length of four bytes and that many bytes, a list a count of four bytes and that many fields.
//!
//! | File | What |
//! |---|---|
//! | `numbers`, `bits` | numbers and fields, put, and sets of permissions and constraints as bytes |
//! | `taking` | a number or a field at the front of some bytes, and what stands behind it |
//! | `fields` | one field after another, taken and counted off |
//! | `choices` | what one byte or number decides: ends of ranges, times, versions, constraints and kinds |
//! | `laws` | parts are read exactly where they stand, and a byte of bits is a set |
//!
//! In `specs`, `Parts` says how each part lies in bytes, as a relation, `Spelling` how it is written, and `Reading` reads parts from the
//! front; `Exactness` says when a reader takes exactly what a relation says, and `Codes` what follows where the relation is a spelling. In
//! `proofs`, `Exact` has one such reader made of others, for all that is made of parts; `PartLaw` and `TagLaw` go through the parts,
//! `BitLaw` through sets. `Coded` makes a codec of others, field by field, and `ChoiceCode` has those of `choices`.
#![tactic(auto)]

mod bits;
mod choices;
mod fields;
mod laws;
mod numbers;
mod taking;

pub use bits::{constraint_bits, system_bits, system_in, table_bits, table_in};
pub use choices::{
    a_bound, a_constraint_set, a_kind, a_range, a_time, a_version_count, constraint_set, kind_byte,
    time_byte,
};
pub use fields::{
    Fields, a_byte, a_byte_string, a_field, a_long_number, a_name, a_number, a_signed_number,
};
pub use laws::{bits_are_sets, parts_are_exact};
pub use numbers::{low, put_field, put_length, put_long, put_number, put_short, put_signed};
pub use taking::{take_field, take_long, take_number, take_signed};
