//! The memory part of a table: records as they are written, and frozen runs of them in their order.
//!
//! A write goes to the end of a partition, and nothing is ordered by it but which one that is: once records are many, each of 16
//! partitions has a range of rows. Whoever wants to read freezes first: the records are sorted once and written anew, one after another, as a
//! run that nothing changes.
//!
//! | File | What |
//! |---|---|
//! | `active` | what is written, until it is frozen |
//! | `write_buffer`, `partitions::layout`, `partitions` | records as they were written, in one partition and, once they are many, in 16 by their rows |
//! | `records` | records in their places in one body |
//! | `sorting::item`, `sorting` | what a freeze sorts, and the sort |
//! | `freezing`, `sorted_records` | the steps of a freeze, and what is kept until it has its place |
//! | `run` | a frozen run |
//! | `building` | a run built of what a source has left |
//! | `ordered`, `start`, `searching` | records by their index, where a search in them goes, and the searches |
//! | `row_index` | a sparse index of records by their rows |
//! | `rising` | the search among numbers that rise |
//! | `cursor` | a part of a run that is gone over, as a source of `tab_iter` |
//! | `sorting::leading` | the beginning of a record's row as a number |
//! | `sorting::group`, `sorting::grouping` | neighbouring records of one row, lent |
//! | `sorting::column_item`, `sorting::one_row` | what is sorted of records of one row, and that sort |
//! | `sorting::classes` | groups, sorted by their rows and put behind others |
//! | `partitions::unsorted` | records as they were written, one after another in one body |
//! | `partitions::appending` | records that are put behind others: those of an accepted mutation, and copies |
//! | `partitions::lending` | records that lie one after another, lent |
//! | `partitions::parting`, `partitions::moving` | those of a body whose rows don't stand before a bound's, and how they move together |
//! | `partitions::emptying` | partitions that are sorted and given back one after another |
//! | `partitions::draining`, `partitions::sampling` | the sort of a body in parts, and where these end |
#![tactic(auto)]

mod active;
mod building;
mod cursor;
mod freezing;
mod ordered;
mod partitions;
mod records;
mod rising;
mod row_index;
mod run;
mod searching;
mod sorted_records;
mod sorting;
mod start;
mod write_buffer;

pub use active::Active;
pub use cursor::RunCursor;
pub use ordered::Ordered;
pub use records::{Records, room_between};
pub use rising::{count_below, count_up_to};
pub use row_index::RowIndex;
pub use run::Run;
pub use searching::{first_near, rows_in};
pub use start::{Start, Target};
