//! What of a history is to outlive a crash, and what a core that was made of that answers.
//!
//! Of all entries those are to be kept that were done and left something. Each is kept at the clock that it met, in the place of its own
//! moment: so an entry that is left out doesn't take its clock along. The kept ones are legal by themselves and make all changes that the
//! history makes; and a core that went through them answers as the lost one from the first event on that is at or above the lost clock.
//!
//! | File | What |
//! |---|---|
//! | `laws` | both laws, each the contract of a function that does nothing |
//!
//! The definitions stand in `specs`: `Lasting` (which acts leave a trace, what is kept of an entry and of a history), `Recovered` (the law on
//! two cores).
//!
//! Not kept: sessions and jobs, where records lie, and the splits that a server chooses by itself. The clock of what is kept is at
//! most the lost one.
#![tactic(auto)]

mod laws;

pub use laws::{lasting_is_all, recovered_answers_as_lost};
