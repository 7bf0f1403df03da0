//! What joins operands.
/// What joins the operands of an expression.
#[derive(Clone, Copy, Debug, PartialEq, Eq)]
pub enum Joiner {
    /// `&`: each operand has to hold.
    And,
    /// `|`: one operand has to hold.
    Or,
}
