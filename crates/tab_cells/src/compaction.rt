//! The kinds of compactions.
ghost use Rattle.std.specs.Prelude.{◌≡◌};
ghost use Rattle.tab_cells.specs.Compactions.{is_full};

/// What a compaction of a tablet merges into one table. (Accumulo user manual: minor and major compactions)
///
/// Each keeps the versions that the table's setting allows and the first delete marker of each column. Only a full one may drop
/// that marker too: it merges all that the tablet holds, so nothing is left elsewhere for the marker to hide, and what is written
/// later can't lie below the floor.
#[derive(Clone, Copy, PartialEq, Eq)]
pub enum Compaction {
    /// What was written since the last one, and no table.
    Minor,
    /// Some of the tables, the smallest ones.
    Partial,
    /// All that the tablet holds.
    Full,
}

impl Compaction {
    /// Whether it is a full one.
    pub fn is_full(self) -> bool
        ensures { result ≡ is_full self }
    {
        match self {
            Compaction::Full => true,
            Compaction::Minor | Compaction::Partial => false,
        }
    }
}
