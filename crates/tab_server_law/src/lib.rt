//! Noninterference over the histories of a server: what a user may not see doesn't change what they are told.
//!
//! `tab_noninterference` says it of runs, in which each user has a list of sessions. A server keeps its history in a book, in which each
//! event stands alone: nobody has a list of sessions there, and none is ever full. The law is the same, with the same view and the same
//! hearing. It is said of two servers too, whose histories may begin on two bases that refine one: so do those of two cores that were made
//! new, or loaded from one image.
//!
//! | File | What |
//! |---|---|
//! | `laws` | the law, from one base and from two, and of the newest event alone: the contracts of functions that do nothing |
//!
//! Of the definitions in `specs`, `ServerNoninterference` states the laws, and `Examples` computes what bob sees of histories and is told
//! in them. The lemmas of `proofs/Uses` see that the law speaks of two histories in which others do different things, and that it fails
//! where a view hides the clock.
#![tactic(auto)]

mod laws;

pub use laws::{last_alike, noninterference_of_events, noninterference_over};
