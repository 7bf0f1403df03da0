//! Sorted tables: records that no longer change, in their order, in one piece of bytes.
//!
//! | File | What |
//! |---|---|
//! | `sorted_table` | a sorted table |
//! | `building` | a table built of what a source has left |
//! | `cursor` | a part of a table that is gone over, as a source of `tab_iter`; it borrows its table or shares it |
//! | `entry`, `sharing` | how a record lies in a block: what of it the record before it doesn't have |
//! | `heads`, `writing` | the head of a record, and bytes that are written over others, in steps of a fixed length |
//! | `rebuilding`, `decoded` | how a record is rebuilt of its entry and the record before it, and the records that are decoded |
//! | `restarts` | where decoding may begin |
//! | `blocks` | records in blocks, with their indexes, as they are built |
//! | `packed` | records in blocks that no longer change, and the searches among them |
//! | `agreement`, `key_agreement` | how a record compares with a key, found from entry to entry |
//! | `part_bytes`, `same` | single bytes of a record's parts, and whether two records are the same |
//! | `rows` | the row of a record, without its value |
//! | `window` | the records that are decoded, and which ones they are |
//! | `kept`, `block_cache` | what cursors left of it, which the next one may take up |
#![tactic(auto)]

mod agreement;
mod block_cache;
mod blocks;
mod building;
mod cursor;
mod decoded;
mod entry;
mod heads;
mod kept;
mod key_agreement;
mod packed;
mod part_bytes;
mod rebuilding;
mod restarts;
mod rows;
mod same;
mod sharing;
mod sorted_table;
mod window;
mod writing;

pub use block_cache::BlockCache;
pub use cursor::{Cursor, HasSortedTable, OwnedCursor, TableCursor};
pub use sorted_table::SortedTable;
