//! What an image says, as lines of a script that make it again.
//!
//! `tabd script` over these lines, and a `save`, give an image of the same, but for the numbers that mutations have, and the place of an
//! update in its mutation: each record is written by a mutation of its own. Each text is proved to be exactly what `specs/Script` says, in
//! the words that `tab_audit` writes for acts. That a run of them leaves what the image says is tested (`tests/export.sh`).
//!
//! | File | What |
//! |---|---|
//! | `script` | the whole |
//! | `lines`, `records` | a line for each thing, and the lines of records |
//! | `placed`, `order` | the records of tables that give the timestamps, and the order in which they are written |
//!
//! In `specs`, `Script` says which lines there are, `Parts` which part of them a value of the code stands for.
#![tactic(auto)]

mod lines;
mod order;
mod placed;
mod records;
mod script;

pub use order::server_records;
pub use placed::Placed;
pub use script::put_script;
