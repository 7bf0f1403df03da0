//! Where a record's parts lie in a body of bytes.

use crate::Kind;

/// Where a record's parts lie in a body of bytes that may hold others too, and what of it is not bytes: what its head says.
///
/// Row, family, qualifier, label and value follow one another; each begins where the one before it ends.
#[derive(Clone, Copy)]
pub struct RecordSpan {
    /// Where the row begins.
    pub start: usize,
    /// Where the row ends.
    pub row_end: usize,
    /// Where the column family ends.
    pub family_end: usize,
    /// Where the column qualifier ends.
    pub qualifier_end: usize,
    /// Where the label ends.
    pub label_end: usize,
    /// Where the value ends.
    pub end: usize,
    /// The timestamp.
    pub timestamp: i64,
    /// The number of the record's mutation.
    pub seq: u64,
    /// The record's place in its mutation.
    pub idx: u32,
    /// Whether it is a put or a delete marker.
    pub kind: Kind,
}
