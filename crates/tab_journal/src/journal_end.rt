//! Where a journal ends that was read.

use crate::header::Header;

/// Where a journal ends that was read, and what stands behind it.
#[derive(Clone, Copy, Debug)]
pub struct JournalEnd {
    /// Its header.
    pub header: Header,
    /// The sum of its last batch, or of the header.
    pub sum: u64,
    /// How many bytes its header and its whole batches have.
    pub length: u64,
    /// How many bytes stand behind these.
    pub left: u64,
    /// Whether each batch says that no more was on the disk than stands before it, as those do that a writer put.
    pub is_timely: bool,
    /// Whether what stands behind them is damaged: a batch stands there that was written when more was on the disk. Otherwise it is torn.
    pub is_damaged: bool,
}
