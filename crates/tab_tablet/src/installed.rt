//! What an install tells.

/// What an install tells.
#[derive(Clone, Copy, PartialEq, Eq)]
pub enum Installed {
    /// What the merge made has taken the place of what it read.
    Done,
    /// The merge was begun in another tablet, or wasn't under way any more, or not all of what it read is there. That many frozen runs and
    /// sorted tables are there now; the greatest `u64` for any number above it.
    Stale(u64),
}
