//! The records of a table's rows: what is being written, and the frozen runs and sorted tables under it.
//!
//! A write goes to the active part alone, and nothing is ordered by it. Whatever reads or merges the records has a tablet made first
//! that holds them frozen; its makers lend the tablet that there was and share its sources, so want of memory leaves that one
//! untouched, and to put the new one in its place can't fail. (Accumulo user manual: tablets, minor and major compactions)
//!
//! | File | What |
//! |---|---|
//! | `tablet` | the tablet: writes, freezes, compactions, splits, and what a scan reads |
//! | `sources` | its sources, if there are any, and the place where they lie |
//! | `source_lists` | the sources, and the merged runs that scans read in the place of runs |
//! | `merged_runs` | these |
//! | `growing` | these, with one more run |
//! | `merging` | sources merged into one run |
//! | `freezing` | what was written, made a run |
//! | `freeze` | what is made before a tablet is frozen in its place |
//! | `clipping` | the records of merged runs and tables in range |
//! | `listing` | all that sources hold, to be listed |
//! | `restoring` | records, made a sorted table |
//! | `compacting` | the sources after a compaction |
//! | `sparing` | the sources that a compaction doesn't read |
//! | `ongoing_merges` | the merges that are under way, one of each kind, and the place where they lie |
//! | `installed` | what an install tells |
//! | `counting` | how many records there are, and the sizes of tables |
//! | `due` | work that is due |
//! | `bounding` | the rows below one row, up to it and above it |
//! | `row_counting` | how many records have rows in bounds |
//! | `middle` | the row in the middle of all records |
//! | `selecting` | the row at a place in the order of records |
//! | `probing` | the row at which a search for that cuts |
//! | `specs/Splitting`, `SplitExamples` | splits, and worked examples |
#![tactic(auto)]

mod bounding;
mod clipping;
mod compacting;
mod counting;
mod due;
mod freeze;
mod freezing;
mod growing;
mod installed;
mod listing;
mod merged_runs;
mod merging;
mod middle;
mod ongoing_merges;
mod probing;
mod restoring;
mod row_counting;
mod selecting;
mod source_lists;
mod sources;
mod sparing;
mod tablet;

pub use bounding::{rows_above, rows_up_to};
pub use due::{DueKind, SPLIT_SIZE};
pub use freeze::Freeze;
pub use installed::Installed;
pub use tab_compact::{Finished, Job, MadeTable, Pending, merge_all};
pub use tablet::Tablet;
