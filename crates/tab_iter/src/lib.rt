//! Sources of records, and the layers over them, as Accumulo has its system iterators.
//!
//! | File | What |
//! |---|---|
//! | `source` | what every source does: its first record, an advance, a seek |
//! | `list_source` | a source over a rising list |
//! | `merging` | the one rising list of several sources |
//! | `prefixed` | sources with the row prefixes of their first records |
//! | `source_order` | the order of several sources by their first records |
//! | `filtered` | a source without the records that a rule holds back |
//! | `rule` | what a rule observes, what it tells, and where it aims |
//! | `then_rule` | two rules, one behind the other, as one |
//! | `deleting_rule`, `fetching_rule`, `visible_rule`, `versioning_rule` | the four rules of a scan: markers, columns, labels, versions |
//! | `first_markers_rule` | the rule of a merge: of each column the first marker |
//! | `last_column` | the column of the last record that a rule observed, and the one next after it |
//! | `named_column` | where the columns that a scan names begin in a row |
//! | `verdicts` | verdicts on labels, kept and found again, and guesses at labels that aren't read yet |
//! | `system_iterators` | a source filtered by one of these four rules alone: deleting, fetching, visible, versioning |
//! | `layers` | what a scan reads: its rules, one behind the other, in one layer |
//! | `merged` | what a merge writes: its rules, one behind the other, in one layer |
//!
//! Each rule lets a part of a whole list through, by a test of that list and the record. The tests stand in `specs/Layers`. A rule
//! behind another one is asked of what that one lets through (`specs/Both`), and one layer serves both: a record is read once for
//! all rules of a scan, and a seek made once. `stack_of` says that the rules of a scan together show what the definition of its
//! answer shows, and `merged_of` that those of a merge list what the definition of a merge keeps.
#![tactic(auto)]

mod deleting_rule;
mod fetching_rule;
mod filtered;
mod first_markers_rule;
mod last_column;
mod layers;
mod list_source;
mod merged;
mod merging;
mod named_column;
mod prefixed;
mod rule;
mod source;
mod source_order;
mod system_iterators;
mod then_rule;
mod verdicts;
mod versioning_rule;
mod visible_rule;

pub use deleting_rule::DeletingRule;
pub use fetching_rule::FetchingRule;
pub use filtered::Filtered;
pub use first_markers_rule::FirstMarkersRule;
pub use layers::{Stack, StackRule, stack_of, stack_unread, taken_apart};
pub use list_source::{ListSource, is_rising};
pub use merged::{MergeRule, Merged, merged_of};
pub use merging::{Merging, MergingOf};
pub use prefixed::Prefixed;
pub use rule::Rule;
pub use source::{NoMemory, Source};
pub use system_iterators::{
    Deleting, Fetching, Versioning, Visible, deleting, fetching, versioning, visible,
};
pub use then_rule::ThenRule;
pub use verdicts::Verdicts;
pub use versioning_rule::VersioningRule;
pub use visible_rule::VisibleRule;
