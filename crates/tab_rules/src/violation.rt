//! What a check answers.

use crate::Constraint;
use tab_key::Items;

/// A constraint that a mutation violates, in the way that the code says.
#[derive(Clone, Copy, Debug, PartialEq, Eq)]
pub struct Violation {
    /// The constraint.
    pub constraint: Constraint,
    /// In what way: see [`Constraint`].
    pub code: u8,
    /// The first update that fails so, counted from 0.
    pub update: u32,
}

/// Every violation, rising by constraint and code; empty where nothing fails.
pub type Verdict = Items<Violation>;

/// A constraint and one of its codes: one way in which an update can fail.
#[derive(Clone, Copy)]
pub struct Test {
    /// The constraint.
    pub constraint: Constraint,
    /// In what way: see [`Constraint`].
    pub code: u8,
}
