//! The constraints of a table, and what a mutation fails of them.
//!
//! A table has a set of constraints, which each write to it must meet (the Accumulo user manual's
//! constraints). `check` lists all that a mutation fails, so that a client can mend it in one go.
//!
//! | File | What |
//! |---|---|
//! | `constraint` | the four constraints, their numbers, names and texts |
//! | `constraint_set` | the constraints of one table, as one value |
//! | `violation` | what a check answers, and the tests that it makes |
//! | `syntax` | what letters and digits, and numerals, are |
//! | `fails` | whether one update fails one test |
//! | `verdict` | the list of all that a mutation violates |
//!
//! `specs/Verdict` defines that list, `specs/Constraints` numbers, names, texts and sets. In `proofs`, `Digits` is on numerals and
//! `FirstIndex` on the first update that fails.
#![tactic(auto)]

mod constraint;
mod constraint_set;
mod fails;
mod syntax;
mod verdict;
mod violation;

pub use constraint::{Constraint, text};
pub use constraint_set::ConstraintSet;
pub use verdict::check;
pub use violation::{Verdict, Violation};
