//! What labels mean, in the words of the grammar: laws that tie the tests of other definitions to it.
//!
//! Scans, views and checks use functions of a text, which read it byte by byte: whether it is a label that holds, and at which offset it is
//! none. The laws say of each text of bytes that these functions give what the grammar and the rules of holding say. So whoever relies on
//! them believes the grammar, and not how a text is read.
//!
//! | File | What |
//! |---|---|
//! | `laws` | what is read as a label, when it holds, which update is malformed: the contracts of functions that do nothing |
//!
//! Of the definitions in `specs`, `Meaning` states the laws, and `Examples` derives from the grammar what some texts mean; the lemmas of
//! `proofs/Uses` get from there, by the laws alone, what the functions give.
#![tactic(auto)]

mod laws;

pub use laws::{labels_are_read, labels_hold, malformed_is_the_first};
