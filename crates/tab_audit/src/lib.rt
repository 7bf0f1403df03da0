//! An audit log: the entries of a history as lines of a script, so that a person can read and search them, in the form in
//! which a script's run takes them.
//!
//! Of each entry there are four lines: `at` with the clock that the event had, `as` with who asked, what was asked, and what was
//! told. What was asked stands as a line of a script where it was done and changes something; else it is a comment, behind `# `, in the
//! same words: what only asks, what was refused, and what isn't replayed, as the parts of a compaction. What was told is a comment:
//! `ok`, `nothing`, or a refusal as scripts print it.
//!
//! Each text is proved to be exactly what `specs/Entries` says. That such a text is read back as the lines that it stands for, and that a
//! run of them leaves what the entries left, is not proved.
//!
//! | File | What |
//! |---|---|
//! | `entry` | the lines of an entry |
//! | `act` | the words of what was asked |
//! | `updates` | those of a mutation's updates |
//! | `piece` | one word of a line, and words on a line |
//! | `list`, `part` | lists of parts between commas, and one part |
//!
//! `specs/Words` says which words are written for an act, `specs/Entries` which lines for an entry. Of the other definitions, `Pieces` and
//! `Lists` say what the code's words and members of lists stand for.
#![tactic(auto)]

mod act;
mod entry;
mod list;
mod part;
mod piece;
mod updates;

pub use act::put_act;
pub use entry::{clock_behind, is_replayed, put_entry};
pub use piece::{Piece, put_line};
