//! Noninterference: what a user may not see doesn't change what he is told. It is the promise that the labels are for.
//!
//! Two histories that look alike to a user, and in which nothing ran out, tell him the same, whatever else happened in
//! them: each scan that he opens has the same whole list, and each batch, each reply to a write and to the question for
//! his rights is the same, in order.
//!
//! | File | What |
//! |---|---|
//! | `laws` | noninterference, the contract of functions that do nothing |
//!
//! The definitions stand in `specs`, in this order of reading: `Given` (the authorizations that a user ever holds), `Concerns` (what
//! concerns him of a change), `Views` (all that he sees of a history), `Hearing` (what he is told), `Noninterference` (the law). `Examples`
//! computes examples: two histories of which one user sees the same, and what each of the definitions says of small ones.
//!
//! What a user sees: his own steps, each event with the clock after it, but not those that only ask where records lie or lay them
//! otherwise (counts, compactions, whole or in parts, and splits), nor those that ask whether an image may be saved or loaded; which tables are made and
//! dropped and what they are set to;
//! that he is made or dropped himself, and what rights and authorizations he gets and loses; and of the updates that others write those
//! whose label holds under all authorizations that he ever holds, taken together. What he doesn't see: who else there is and what others ask, hold
//! and may, and all other updates.
//!
//! Not covered: the replies to changes of tables, users and rights (some tell whether there is another user), to compactions, to a
//! close, to a save and a load, the counts of a table, and all of a history in which memory or numbers ran out.
#![tactic(auto)]

mod laws;

pub use laws::{noninterference, noninterference_from_a_base};
