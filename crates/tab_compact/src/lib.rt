//! Compactions: which sources one merges, and the merge. (Accumulo user manual: minor and major compactions)
//!
//! | File | What |
//! |---|---|
//! | `planning` | how many of the smallest tables a partial compaction merges |
//! | `capturing` | the sources that a compaction reads |
//! | `job` | a merge that is to be made, and making it |
//! | `finished` | a merge that is made, with its table |
//! | `pending`, `many` | what holds a job, and many jobs merged by several threads |
//! | `laws` | that the plan is the greatest number that fits |
//! | `specs/Plans`, `PlanExamples` | the plan, said by computing and without, and worked examples |
//! | `specs/Merges` | what a merge reads, and what it makes |
#![tactic(auto)]

mod capturing;
mod finished;
mod job;
mod laws;
mod many;
mod pending;
mod planning;

pub use capturing::capture;
pub use finished::Finished;
pub use job::Job;
pub use laws::plan_is_greatest;
pub use many::{merge_all, merge_many};
pub use pending::{MadeTable, Pending};
pub use planning::plan;
