//! Which side of a connection failed.

/// Why a connection wasn't served to its end. What was done before has taken effect.
#[derive(Clone, Copy, Debug, PartialEq, Eq, thiserror::Error)]
pub enum ServeFault {
    /// The reader failed. Every frame that was read whole was answered, and all replies are written.
    #[error("the input can't be read")]
    Read,
    /// The writer failed. A beginning of the replies is written.
    #[error("the output can't be written")]
    Write,
}
