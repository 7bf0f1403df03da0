//! Scripts: lines in, replies out.
//!
//! A [`Script`] holds a core and answers lines of text, each by the replies of the steps that the line asks for.
//!
//! | File | What |
//! |---|---|
//! | `script` | a core that answers lines: one line, the lines that are here, a whole input |
//! | `file_lines` | the lines that name a file |
//! | `batches` | a scan's cells, batch by batch |
//! | `scans` | the sessions that lines open: read at once, or kept |
//! | `pending` | the line that has begun, and how the next one is taken |
//! | `laws` | two runs of a script are one |
//!
//! `specs/Numbers` says what the numbers of sessions stand for, `specs/Readings` how a scan reads its session, `specs/Scripts` what a line adds to every history that the script refines, how its core and its jobs go on,
//! and what is printed, `specs/Batches` what reading a session puts, `specs/Ahead` what is to come where a line has begun,
//! and `specs/Progress` how far a run has come, also where the reader or the writer failed.
#![tactic(auto)]

mod batches;
mod file_lines;
mod laws;
mod pending;
mod scans;
mod script;

pub use laws::runs_are_one;
pub use pending::{Pending, take_line};
pub use script::{Ended, Script, ScriptFault};
pub use tab_lines::{FileKind, FileLine, FileName, Line, ParseError, read_line};
pub use tab_replies::{put_begun, put_cells, put_next, put_opened, write_reply};
