//! What an image says, as lines of the shell of Apache Accumulo, so that a cluster can be fed with it.
//!
//! Each text is proved to be exactly what `specs/Lines` says, and so is how much is left out. That the shell takes a line apart as
//! `specs/Shell` says isn't proved, nor tried: docs/ACCUMULO.md says what goes over, and what doesn't.
//!
//! | File | What |
//! |---|---|
//! | `shell` | the whole |
//! | `lines` | the lines for each thing |
//! | `authorizations` | those of a user's authorizations |
//! | `making`, `constraints`, `records` | those of a new table, of its constraints and of a record |
//! | `obstacle` | what keeps a line from going over |
//! | `carried` | which words go over exactly |
//! | `left` | how many things are left out |
//! | `telling` | a line, or a comment in its place |
//! | `word`, `versions`, `quoting` | words on a line, the settings of a new table, and bytes between quotes |
//! | `laws` | each word is read as it was, and nothing else |
//!
//! In `specs`, `Words` says how words are written, `Shell` how they are read, `Carried` which go over, `Lines` which lines there are,
//! `Counting` how much is left out, `Parts` which part of a word a value of the code stands for.
#![tactic(auto)]

mod authorizations;
mod carried;
mod constraints;
pub mod laws;
mod left;
mod lines;
mod making;
mod obstacle;
mod quoting;
mod records;
mod shell;
mod telling;
mod versions;
mod word;

pub use left::left_out;
pub use shell::put_shell_lines;
