//! What a session reads: clips of shared runs and tables, as they stood when the session was opened.
//!
//! | File | What |
//! |---|---|
//! | `frozen_records` | what clips are cut of |
//! | `clip` | the records of a shared run or table whose rows lie in bounds |
//! | `table_clip` | the same of a table, with the table's size |
//! | `one_of` | a source that is of one of two kinds |
//! | `clips` | clips of runs and of tables: what a tablet reads |
//! | `cutting` | clips cut to rows |
//! | `sought`, `taking` | sources that are found by their contents, and taken out |
//! | `has_records` | what is asked of the records that clips hold |
//! | `lists` | lists of records, one behind the other |
//! | `in_turn` | the records of such lists, of which one is read at a time |
//! | `caches` | what scans leave behind of the tables that they read |
//! | `tablets` | tablets as such lists |
//! | `laws`, `specs/Choices` | that what is left behind sources that are taken out is what a choice of the inputs leaves |
//! | `version` | the records of tablets, and the stack of layers over them that a scan reads |
#![tactic(auto)]

mod caches;
mod clip;
mod clips;
mod cutting;
mod frozen_records;
mod has_records;
mod in_turn;
mod laws;
mod lists;
mod one_of;
mod sought;
mod table_clip;
mod tablets;
mod taking;
mod version;

pub use caches::Caches;
pub use clip::{Clip, ClipOf};
pub use clips::{ClipCursor, Clips};
pub use frozen_records::FrozenRecords;
pub use in_turn::InTurn;
pub use laws::left_by_choice;
pub use lists::Lists;
pub use one_of::OneOf;
pub use table_clip::TableClip;
pub use tablets::{TabletSource, Tablets};
pub use version::{Raw, Stack, Version, caches_of};
