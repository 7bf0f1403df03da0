//! Why a text was not read as a label.
use thiserror::Error;

/// Why a text was not read as a label.
#[derive(Clone, Copy, Debug, Error)]
pub enum LabelFault {
    /// The text is no label. The offset is the length, in bytes, of its longest front with which some label begins.
    #[error("malformed label at {0}")]
    Malformed(usize),
    /// Memory ran out, which says nothing of the text.
    #[error("out of memory")]
    NoMemory,
}
