//! What an image says of a table.

use tab_history::{TimeMode, Versions};
use tab_key::{ByteString, Items, Name};
use tab_mem::Records;
use tab_policy::TablePermissions;
use tab_rules::ConstraintSet;

/// A user's permissions on a table.
#[derive(Drop)]
pub struct ImageRight {
    /// The user's name.
    pub user: Name,
    /// His permissions on the table: one at least.
    pub held: TablePermissions,
}

/// All of a table but its records.
#[derive(Drop)]
pub struct TableHead {
    /// Its name.
    pub name: Name,
    /// Whether it takes timestamps or gives them.
    pub time: TimeMode,
    /// How many versions of a column it shows.
    pub versions: Versions,
    /// Its constraints.
    pub constraints: ConstraintSet,
    /// The time below which it takes no update: the least one where it gives the timestamps.
    pub horizon: i64,
    /// Who may what, rising by name.
    pub rights: Items<ImageRight>,
    /// The rows at which its tablets end, rising: at most 1,048,576 bytes each.
    pub ends: Items<ByteString>,
}

/// A table with its records, in their order.
#[derive(Drop)]
pub struct ImageTable {
    /// All but its records.
    pub head: TableHead,
    /// Its records.
    pub records: Records,
}
