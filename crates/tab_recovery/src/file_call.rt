//! A call of a file.

/// What was asked of a file.
#[derive(Clone, Copy, Debug, PartialEq, Eq)]
pub enum Asked {
    /// Nothing: it was found, with bytes of which nothing is known.
    Found,
    /// To read the next of them, so many.
    Read(usize),
    /// To put some bytes behind those that are there.
    Append,
    /// To cut it to its first bytes, so many.
    Cut(usize),
    /// To see on the disk what is there.
    Sync,
}

/// A call of a file.
#[derive(Clone, Copy, Debug)]
pub struct FileCall {
    /// What was asked.
    pub asked: Asked,
    /// Whether it went well.
    pub is_ok: bool,
}
