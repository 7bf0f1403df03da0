//! The tablets of a table: each holds the rows up to its end row and above that of the one before it.
//!
//! A write goes to the tablet of its row. Whatever freezes, merges or splits makes the new tablets first and puts them in their
//! places once nothing can fail any more, so want of memory leaves all as it was. (Accumulo user manual: tablets, splitting)
//!
//! | File | What |
//! |---|---|
//! | `bounded_tablet` | a tablet with an end row, and of several of them the end rows, their prefixes, and the counts; one that is made before it is put in its place |
//! | `tablet_list` | tablets in the order of their rows, and the search among them |
//! | `bounds` | which tablets a range of rows meets |
//! | `tablets` | the tablets of a table: writes, end rows and counts, copies, what is due, compactions of all of them, and of one in parts |
//! | `opening` | runs that are made ahead, tablets that are frozen for an Open, and what a scan reads of them |
//! | `tablet_job` | a merge of one of them that is to be made, and one that is made |
//! | `splitting` | splits of one of them, what became of one, and tablets made of end rows and of records |
//! | `laws` | what holds of listings, and of tablets that are restored |
#![tactic(auto)]

mod bounded_tablet;
mod bounds;
mod laws;
mod opening;
mod splitting;
mod tablet_job;
mod tablet_list;
mod tablets;

pub use laws::{lists_in_order, lists_on, restored_are_whole, restored_hold_all};
pub use splitting::Split;
pub use tab_mem::Records;
pub use tab_tablet::{DueKind, Installed, Job, MadeTable, Pending, SPLIT_SIZE, merge_all};
pub use tab_version::Version;
pub use tablet_job::{FinishedJob, TabletJob};
pub use tablets::Tablets;
