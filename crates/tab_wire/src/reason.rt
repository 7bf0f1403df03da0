//! Why a frame asks nothing.

/// Why a frame asks nothing.
#[derive(Clone, Copy, Debug, PartialEq, Eq)]
pub enum Reason {
    /// Its length is 0. The connection ends.
    Empty,
    /// Its length is over the limit. The connection ends.
    TooLong,
    /// The input ended inside it. The connection ends.
    Cut,
    /// No request has its first byte.
    Opcode,
    /// Its bytes aren't the form of its opcode, or some are left over.
    Field,
    /// A request before Hello, or a second Hello.
    Order,
}
