//! Connections compared: where the events of two connections are told the same, their frames are.
//!
//! A connection tells more than its events: batches and ranges are cut from the list of the session that an Open handed out. So whoever
//! shows that the Opens of two connections are told alike, each with its whole list, has shown it of all bytes that the two are replied.
//!
//! | File | What |
//! |---|---|
//! | `laws` | two connections that are alike are replied the same bytes: the contract of a function that does nothing |
//!
//! Of the definitions in `specs`, `SameReplies` says when connections are alike and states the law, and `Examples` computes which exchanges
//! are alike.
#![tactic(auto)]

mod laws;

pub use laws::same_replies;
