//! The core: one event at a time is applied to users, rights and tables, and answered.
//!
//! What a right answer is, and what an event leaves behind, is defined in `tab_history`. The contract of
//! [`Core::step`] says it of every history that the core refines, and that of [`run`] of a whole list of steps.
//! [`compare_runs`] carries the law of `tab_noninterference`: what a user may not see doesn't change what he is told.
//!
//! | File | What |
//! |---|---|
//! | `state` | the core, and its step |
//! | `store` | what a core holds, and what an event does to it: the policy decides once, then the act is done |
//! | `policing` | what the policy is asked, the refusal of whom it doesn't admit, which acts name a slot, and the horizon that one asks for |
//! | `acts`, `writes`, `scans`, `tablets` | what each act does |
//! | `numbering` | the numbers of tablets and jobs |
//! | `checking` | the checks that are an event's own, and those of a request for ranges |
//! | `labels` | the labels of a mutation, judged |
//! | `reply` | replies with and without what they hand out |
//! | `base` | what a core holds, as data, on which a history begins |
//! | `event_reply`, `recording` | what an event is told, copied, and the step whose history is recorded |
//! | `slots`, `sessions`, `job_slots` | the sessions of one user, those of all users by name, and the jobs of all |
//! | `ranges_reader` | how the ranges of a session are read |
//! | `totals` | what all tables hold, counted |
//! | `running` | runs of steps |
//! | `comparing` | two runs compared by what one user is told in them |
//!
//! Of the definitions in `specs`, `Stepping` says what a step does, `Holding` what a store holds, `Bounded` which limits a core keeps to
//! beside those of its tables, `EventReplies` what an event is told, `Spending` what is left of an act that was lent, `ByTablet` what each
//! tablet of a core refines, `Recording` what a step means for a history that is recorded beside the core, `Rotating` the base on which one
//! begins anew, `Totals` what all tables hold, `Slots`, `Sessions` and `JobSlots` what a run or a script keeps, `Lending` what is left of sessions that were lent, `Owners`
//! what a step of a run does, and `Comparing` what two runs tell; `ComparingExamples` computes it for a small history.
#![tactic(auto)]

mod acts;
mod base;
mod checking;
mod comparing;
mod event_reply;
mod job_slots;
mod labels;
mod numbering;
mod policing;
mod ranges_reader;
mod recording;
mod reply;
mod running;
mod scans;
mod sessions;
mod slots;
mod state;
mod store;
mod tablets;
mod totals;
mod writes;

pub use base::Base;
pub use comparing::{Compared, compare_runs};
pub use event_reply::EventReply;
pub use job_slots::{JobSlot, JobSlots};
pub use reply::{Answer, told};
pub use running::run;
pub use sessions::{Sessions, UserSessions};
pub use slots::Slots;
pub use state::Core;
pub use tab_session::Session;
pub use tab_store::{
    Due, DueKind, FinishedJob, Job, MadeTable, Pending, SPLIT_SIZE, TabletJob, merge_all,
};
