//! A walk over what an image says. Whoever walks has a text for each thing, and says which parts of a user and of a table come, and in
//! which order.
//!
//! | File | What |
//! |---|---|
//! | `visitor` | a text for each thing, as a trait |
//! | `users`, `tables`, `rights` | the parts of a user, those of a table, and the permissions on it |
//! | `records` | records, the last one first |
//!
//! In `specs`, `Texts` says which texts there are, `Walks` in which cases each of them comes.
#![tactic(auto)]

mod records;
mod rights;
mod tables;
mod users;
mod visitor;

pub use records::{PutRecord, put_last_first};
pub use rights::ToldRights;
pub use tables::{TablePart, put_tables};
pub use users::{UserPart, put_users};
pub use visitor::Visitor;
