//! What an image says.

use crate::table::ImageTable;
use crate::user::ImageUser;
use tab_key::Items;

/// All that a core holds: its clock, users and rights, and tables with their records.
#[derive(Drop)]
pub struct Image {
    /// The greatest moment of all events so far.
    pub clock: i64,
    /// The number that the next accepted write gets.
    pub next: u64,
    /// The users, rising by name; root is among them.
    pub users: Items<ImageUser>,
    /// The tables, rising by name.
    pub tables: Items<ImageTable>,
}
