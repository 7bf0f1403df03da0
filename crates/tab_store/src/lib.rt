//! What a core holds beyond what histories see of it: tables of tablets. The tables, their definitions, and the laws that join them to
//! histories.
//!
//! | File | What |
//! |---|---|
//! | `specs/Stores` | what a core holds, and what histories see of it |
//! | `specs/Stepping` | what an event does to the tablets, exactly, and what it is told |
//! | `specs/Keeping` | when tablets refine the updates of their table, and what a core keeps of them |
//! | `specs/Limits` | the limits that records and end rows keep to, which an image asks for |
//! | `specs/Rightness` | stores, and that their exact steps are right ones |
//! | `specs/Chains` | chains of exact steps |
//! | `specs/Examples` | worked examples, computed |
//! | `specs/Tables` | tables by name, and what calls change of them |
//! | `specs/Lending` | what is left of them once one of them, which was lent, has ended |
//! | `specs/Due` | which work is due, and where it is to be done |
//! | `specs/Numbers` | that a tablet's number identifies it |
//! | `specs/Belonging` | to which table a merge belongs, and that it is installed in no other |
//! | `specs/Targets` | that the target of work that is due is the tablet that is due |
//! | `setting` | what of a table may be set |
//! | `table` | one table: its settings, and its tablets |
//! | `tables` | tables by name |
//! | `due` | work that is due, and where it is to be done |
//! | `laws` | the laws of the definitions, each the contract of a function that does nothing |
//! | `proofs/HeldMerge` | held records still refine the updates once some of them are merged |
//! | `proofs/ByRows`, `OneTablet`, `AllTablets` | what is done to tablets leaves them refining the updates, row by row, and each row has one tablet still |
//! | `proofs/CutTablet`, `SplitTablets`, `SplitCases` | a split leaves them so too |
//! | `proofs/InstallCases` | how an install may end |
//! | `proofs/Accepted` | what tablets hold was accepted, and lies in their rows |
//! | `proofs/EachTablet` | where all that they hold refines some updates, each of them refines those in its rows |
//! | `proofs/Sound`, `Fewer`, `OneTable` | what a core keeps of a table by itself, also with fewer versions |
//! | `proofs/Apart` | its tablets hold what they hold one behind the other |
//! | `proofs/SortedParts` | how each part of some records is sorted decides how all of them are |
//! | `proofs/Middles` | the row in the middle of one of them is no end row |
//! | `proofs/Reading`, `Telling`, `Right` | exact steps are right ones, act by act |
//! | `proofs/Passed`, `WellFormed`, `Ends`, `Staying` | what an event adds has passed its checks, so that limits are kept, and a store stays one |
//! | `proofs/ChainLaws`, `Joining` | chains of exact steps, and two chains as one |
//! | `proofs/Named`, `Lent` | tables by name, as the map has them, and one that was lent |
//! | `proofs/Changed` | a change of one table, as an exact step and as histories read it |
//! | `proofs/DueTables`, `DueList` | work that is due, table by table, and lists of it |
//! | `proofs/Numbered`, `Numbering` | no two tablets have one number, whatever is done to them |
//! | `proofs/ByNumber`, `Belonging` | installs find their tablet by its number, and only in the merge's own table |
//! | `proofs/Targets` | work that is due has a target |
#![tactic(auto)]

mod due;
mod laws;
mod setting;
mod table;
mod tables;

pub use due::Due;
pub use laws::{
    bases_read, beginnings_keep, begun_belong, begun_belong_on, belonging_stays,
    captures_are_there, chains_are_legal, chains_keep_numbers, chains_stay, compactions_keep,
    due_is_first, each_tablet_refines, elsewhere_is_stale, fewer_keeps, freezes_keep,
    installs_by_number, installs_keep, later_keeps, middles_lie_inside, new_stores_are_numbered,
    new_stores_are_stores, new_tables_are_sound, numbers_stay, others_are_stale, sound_later,
    sound_tablets_lie_apart, sound_with_fewer, splits_keep, starts_lie_inside, stays_whole,
    steps_are_right, stores_are_sound, stores_stay, tablets_hold_all, targets_are_due,
    tells_legally, work_keeps, work_stays_sound, writes_keep,
};
pub use setting::Setting;
pub use tab_tablets::{
    DueKind, FinishedJob, Installed, Job, MadeTable, Pending, SPLIT_SIZE, Split, TabletJob,
    merge_all,
};
pub use table::Table;
pub use tables::Tables;
