//! Open scans: what they show, and how far they have come.
//!
//! A session holds no cells. It owns the version of the table that it was opened on, and reads each batch from it anew: it goes to
//! the record at which the last batch ended, and takes the cells from there on. Ranges of rows are read in the same way, each from its
//! low end on.
//!
//! | File | What |
//! |---|---|
//! | `session` | an open scan, which gives its cells batch by batch and knows whether it is done |
//! | `open_scan` | the same as its list and how far it has come |
//! | `snapshot_scan` | what a session reads: a version, and what is asked of it |
//! | `kept_verdicts` | the verdicts on labels that it keeps from batch to batch |
//! | `bookmark` | where a session goes on |
//! | `taking` | the cells of a batch |
//! | `room` | how much memory a batch asks for at once |
//! | `order` | the order in which ranges are read |
//! | `rows` | the cells of a range of rows |
//! | `chunks` | many ranges, read by several threads |
#![tactic(auto)]

mod bookmark;
mod chunks;
mod kept_verdicts;
mod open_scan;
mod order;
mod room;
mod rows;
mod session;
mod snapshot_scan;
mod taking;

pub use session::Session;
