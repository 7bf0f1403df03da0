//! Why the entries of a journal aren't all done again.

/// Why the entries of a journal aren't all done again.
#[derive(Clone, Copy, Debug, PartialEq, Eq, thiserror::Error)]
pub enum ReplayFault {
    /// An entry isn't done by this core: the journal goes on from another one.
    #[error("an entry doesn't fit")]
    Unfit,
    /// Some bytes behind the entries in front are no entry.
    #[error("an entry isn't understood")]
    Bad,
    /// There was no memory.
    #[error("there is no memory")]
    NoMemory,
}
