//! The texts of which lines are made: byte words, numbers, words on a line, cells.
//!
//! A byte word is how lines spell a string of bytes: a byte from 0x21 to 0x7e other than the backslash stands for
//! itself, `\\` is a backslash, `\x` and two lower-case hexadecimal digits are that byte, and the whole word `\e` is
//! the empty string. Each function here puts its text piece by piece into an `Output`, and takes no memory.
//!
//! | File | What |
//! |---|---|
//! | `word` | one byte word |
//! | `line` | words parted by one space, and a line feed |
//! | `items` | many items, one after another |
//! | `cell` | the line of a cell |
//! | `cells` | many cells, one after another |
//! | `parse_error` | why a text wasn't read |
//! | `escape` | what is read of an escape so far: the steps by which a word is read |
//! | `laws` | what is written reads back, and reading is exactly the spelling |
//!
//! `specs/Words` says what a word is and which one is written, `specs/Reading` what a word says, `specs/Lines` the texts
//! of lines, `specs/Parts` what one step of writing a word puts, `specs/Gives` what a reading function gives.
#![tactic(auto)]

mod cell;
mod cells;
mod escape;
mod items;
pub mod laws;
mod line;
mod parse_error;
mod word;

pub use cell::put_cell;
pub use cells::{PutCell, put_each_cell};
pub use escape::{Escape, hex_value, step};
pub use items::{PutItem, put_each};
pub use line::{Word, put_line};
pub use parse_error::ParseError;
pub use word::{is_plain, put_word};
