//! Mutations: one row, and the updates that a client wants applied to it together.
//!
//! A mutation (the Accumulo user manual's word) is a row and a list of puts and deletes, all of
//! which are applied or none. It keeps all of its bytes in one buffer; contracts see the row and the
//! list of updates.
//!
//! | File | What |
//! |---|---|
//! | `mutation` | making a mutation, reading it, and the limits on its shape |
//! | `update`, `updates` | one update, lent, and going over all of them |
//! | `update_span` | where an update's parts lie in the buffer |
//! | `shape_error` | why a mutation is refused for its shape |
//! | `shaped` | a mutation whose shape was accepted, lent |
//!
//! `specs/Mutations` has mutations as contracts see them, `specs/Shape` the limits, `specs/UpdateSpans` and
//! `specs/MutationFields` the updates and the mutation that lie in a buffer. In `proofs`, `Bodies` is on buffers that grow,
//! `Firsts` on the first answer in a list, `Shapes` on what an accepted shape says.
#![tactic(auto)]

mod mutation;
mod shape_error;
mod shaped;
mod update;
mod update_span;
mod updates;

pub use mutation::Mutation;
pub use shape_error::ShapeError;
pub use shaped::Shaped;
pub use update::UpdateRef;
pub use updates::Updates;
