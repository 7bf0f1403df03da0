//! What of a table may be set.
use tab_history::Versions;
use tab_rules::ConstraintSet;

/// A setting of a table that takes the place of the one that it has.
#[derive(Drop)]
pub enum Setting {
    /// The constraints that each write must meet.
    Constraints(ConstraintSet),
    /// How many versions of a column are shown and kept.
    Versions(Versions),
    /// The time below which no update is taken.
    Horizon(i64),
}
