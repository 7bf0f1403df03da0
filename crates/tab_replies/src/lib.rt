//! The texts of replies: what a line is answered.
//!
//! | File | What |
//! |---|---|
//! | `reply` | the texts of replies |
//! | `refusal` | the texts of refusals |
//! | `rights` | the text of one's own rights |
//!
//! `specs/Texts` has the lines of a text and the texts of replies.
#![tactic(auto)]

mod refusal;
mod reply;
mod rights;

pub use refusal::put_refusal;
pub use reply::{put_begun, put_cells, put_next, put_opened, write_reply};
