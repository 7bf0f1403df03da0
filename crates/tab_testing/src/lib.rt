//! What the tests of several crates share: a table modelled naively from the rules, and what is written and asked at random.
//!
//! The model uses no crate that stores or reads records. Its contracts promise safety alone.
//!
//! | File | What |
//! |---|---|
//! | `random` | a stream of numbers that look random |
//! | `update` | an update as plain data, and the order of updates |
//! | `query` | what a scan asks for, as plain data |
//! | `model` | what a scan of a table shows and what a merge keeps, rule by rule |
//! | `holding` | the runs and tables of a tablet, and what a compaction makes of them |
//! | `generating` | random updates and queries |
//! | `building` | authorizations, columns and mutations from literals |
#![tactic(auto)]

mod building;
mod generating;
mod holding;
mod model;
mod query;
mod random;
mod update;

pub use building::{auths_of, family, mutation_of};
pub use holding::{Holding, table_len};
pub use model::scanned;
pub use query::{Columns, End, Query};
pub use random::Random;
pub use update::{Update, from_key, sort};
