//! Recovery: what a journal keeps is done again, on the core that it goes on from.
//!
//! Each entry is done at the clock that it met when it was done first. So a core that held what the image holds, and did them all, holds what
//! the lost core held, with a clock that is at most the lost one; and it answers as the lost one from the first event on that is at or above
//! the lost clock.
//!
//! | File | What |
//! |---|---|
//! | `replaying`, `fault` | the entries of a journal, done again, and why they aren't |
//! | `recoverable`, `file_call`, `call_log` | a file that a crash left, as recovery sees it, and its calls |
//! | `taking_up`, `clearing`, `take_up_fault` | a journal in such a file, taken up; the file, made empty; and why it isn't taken up |
//! | `left`, `left_fault` | what stands in a journal that was left: its entries, done again batch by batch, or its text |
//! | `left_device` | such a file in memory |
//! | `laws` | a core that was recovered answers as the lost one; what crashes leave of a journal is taken up, and a cut changes nothing of that |
//! | `taking_up_tests` | tests of taking up |
//!
//! In `specs`, `Recovering` says what a replay leaves, and `Answering` has the law on what the recovered core answers. `TakingUp` says what is left
//! where a journal is taken up, `Leaving` where one is done again batch by batch, `Cutting` what a crash leaves of a cut, and `Calls` what is known of
//! a file behind given calls.
#![tactic(auto)]

mod call_log;
mod clearing;
mod fault;
mod file_call;
mod laws;
mod left;
mod left_device;
mod left_fault;
mod recoverable;
mod replaying;
mod take_up_fault;
mod taking_up;
#[cfg(test)]
mod taking_up_tests;

pub use call_log::CallLog;
pub use clearing::clear;
pub use fault::ReplayFault;
pub use file_call::{Asked, FileCall};
pub use laws::{crashes_are_taken_up, cuts_keep_all, recovered_core_answers_as_lost};
pub use left::{replay_left, text_left};
pub use left_device::LeftDevice;
pub use left_fault::LeftFault;
pub use recoverable::Recoverable;
pub use replaying::replay;
pub use take_up_fault::TakeUpFault;
pub use taking_up::take_up;
