//! What an image says, for a person to read and search: one fact a line.
//!
//! | File | What |
//! |---|---|
//! | `image` | the whole |
//! | `facts` | the fact for each thing |
//! | `tally` | how many records a table has, and how many bytes |
//!
//! In `specs`, `Facts` says which lines there are, `Parts` which part of them a value of the code stands for.
#![tactic(auto)]

mod facts;
mod image;
mod tally;

pub use image::put_facts;
pub use tally::RecordCounts;
