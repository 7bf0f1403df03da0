//! Why a tablet isn't split.

/// Why a tablet isn't split.
#[derive(Clone, Copy, Debug, PartialEq, Eq)]
pub enum SplitFault {
    /// The row is an end row already.
    Present,
    /// The tablet's sorted tables are smaller than the limit.
    Small,
    /// The tablet holds no record, or records of one row alone.
    OneRow,
}
