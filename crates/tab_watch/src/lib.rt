//! Between a run of lines and its streams: a run that stops at the first fault or refusal, one that prints only what isn't `ok`, and cells in
//! columns.
//!
//! | File | What |
//! |---|---|
//! | `course` | what is asked of a run, and where it stands: its reader and its writer share it |
//! | `steps` | a reader that hands one line at a time on, and none behind the one at which the run stops |
//! | `replies` | a writer that looks at each reply |
//! | `kinds` | what a line of a reply says |
//! | `columns` | a writer that puts cells into columns |
//!
//! All of them go by the bytes alone. A run answers each line before it reads the next one, so what is written between two lines is one reply.
#![tactic(auto)]

mod columns;
mod course;
mod kinds;
mod replies;
mod steps;

pub use columns::Columns;
pub use course::{Course, LineCounts, RunOptions};
pub use replies::Replies;
pub use steps::Steps;
