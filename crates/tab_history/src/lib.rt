//! What is asked of a tablet server and what it answers; and the definitions of legal histories, with their laws.
//!
//! | File | What |
//! |---|---|
//! | `event` | events, and the steps of a run |
//! | `reply` | replies and refusals |
//! | `counts` | what a table's tablets hold, counted |
//! | `split_fault` | why a tablet isn't split |
//! | `versions` | how many versions of a column a table shows |
//! | `rights` | what a user is told of his own rights |
//! | `laws` | the laws of the definitions, each the contract of a function that does nothing |
//!
//! The definitions stand in `specs`, in this order of reading: `Settings`, `Bases`, `Changes`, `Readings` (what there is after some
//! changes), `Cells` (what a scan shows), `Checks` (why an event is refused, or a request for ranges),
//! `OwnRights` (what a user is told of his rights), `Sessions`, `Jobs` (compactions that were begun), `Answers` (the answer to each step, and which are left open), `Histories`, `Lives` (what a creation begins with), `Legal` (which histories are),
//! `Rooted` (root stays), `Held` and `Refinement` (which cores refine which histories), `Chains`, `Runs`. `Examples` computes
//! examples. The definitions of records, labels, mutations, constraints and permissions stand in the crates below.
#![tactic(auto)]

mod counts;
mod event;
mod laws;
mod reply;
mod rights;
mod split_fault;
mod versions;

pub use counts::Counts;
pub use event::{Act, Event, Extent, Given, Scan, Step, TimeMode, copied};
pub use laws::{
    alike_refines, answers_are_one, chains_refine, every_run_is_answered, goes_on, installs_use_up,
    lives_are_apart, memory_lacks_where_it_may, new_core_is_sound, new_core_refines, one_history,
    refinement_is_sound, refinement_is_transitive, right_step, rights_are_told, root_stays,
    same_events, same_histories, slots_are_aside, sound_refines_itself, unmoved,
};
pub use reply::{Refusal, Reply};
pub use rights::Rights;
pub use split_fault::SplitFault;
pub use versions::Versions;
