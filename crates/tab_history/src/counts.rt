//! What a table's tablets hold, counted.

/// How many tablets a table has, and what they hold. A count above 2^64 - 1 is told as that.
#[derive(Clone, Copy, Debug, PartialEq, Eq)]
pub struct Counts {
    /// The tablets.
    pub tablets: u64,
    /// Their frozen memory maps and sorted tables; one of which several tablets have a part is counted for each of them.
    pub sources: u64,
    /// The records that they hold, those of active memory maps among them.
    pub records: u64,
}
