//! Labels, as they are built.
use crate::joiner::Joiner;

/// An expression: a term with its escapes undone, or two or more operands under one joiner.
/// Parentheses leave no trace but the shape, so of a label that was read it is at most 65 deep:
/// joins nest only through parentheses, of which at most 64 stand open.
#[derive(Debug, Drop)]
pub enum Tree {
    /// A term, by its bytes.
    Term(Vec<u8>),
    /// Two or more operands under one joiner.
    Join(Joiner, Vec<Tree>),
}

/// What a column visibility label says.
#[derive(Debug, Drop)]
pub enum Label {
    /// The empty label: everybody sees.
    Everyone,
    /// Only who meets the expression sees.
    Only(Tree),
}
