//! What is asked: events, and the steps of a run.
ghost use Rattle.std.specs.Prelude.{◌≡◌, IfOk};

use crate::versions::Versions;
use std::alloc::AllocError;
use tab_cells::Compaction;
use tab_key::{Bounds, ByteString, Column, Items, Name};
use tab_label::AuthSet;
use tab_mutation::Mutation;
use tab_policy::Permission;
use tab_rules::ConstraintSet;

/// Whether a table takes timestamps from its writers, or gives them itself. A timestamp and the clock count in a unit of the callers' own.
#[derive(Clone, Copy, Debug, PartialEq, Eq)]
pub enum TimeMode {
    /// An update may have a timestamp; one without gets the clock.
    Any,
    /// Each update gets the clock, and one with a timestamp is refused.
    Server,
}

/// What a compaction of a whole table merges. (Accumulo user manual: compaction, full major compaction)
#[derive(Clone, Copy, Debug, PartialEq, Eq)]
pub enum Extent {
    /// Some of each tablet's sorted tables, chosen by their sizes.
    Partial,
    /// All that each tablet holds.
    Full,
}

/// Where the finished merge of an Install is.
#[derive(Clone, Copy, Debug, PartialEq, Eq)]
pub enum Given {
    /// In this slot of a run or a script: the merge of the job that was begun in it.
    InSlot(u64),
    /// It came with the event, where a core is stepped by itself or a book is written. The number is its job's: how many jobs were begun
    /// before it.
    ByHand(u64),
}

/// What a scan asks for. (Accumulo user manual: scanner, fetching columns, authorizations)
#[derive(Clone)]
pub struct Scan {
    /// The table that is read.
    pub table: Name,
    /// The rows, not checked yet: the low row may be above the high one.
    pub bounds: Bounds,
    /// The columns, at most 1,000; none means all.
    pub columns: Items<Column>,
    /// The authorizations that the labels are judged by: at most 1,024, each of at most 1,024 bytes, and all of them held by the caller.
    pub authorizations: AuthSet,
}

// Written out, so that a crate above needn't prove anew how the parts are dropped.
impl Drop for Scan {
    #[inline(always)]
    fn drop(self) {
        let Scan {
            table: _,
            bounds: _,
            columns: _,
            authorizations: _,
        } = self;
    }
}

/// What an event asks. An unknown caller, a table that doesn't exist and a missing permission refuse it before the checks named here.
/// `DropTable`, `SetConstraints`, `DropUser`, `SetAuths`, `Revoke`, `Status`, `Save` and `Load` take no memory; for the others it may lack.
#[derive(Clone, Drop)]
pub enum Act {
    /// Open a session on a scan, which answers from that moment for good. Refused for too many columns or authorizations, for a bad
    /// range, for an authorization that the caller doesn't hold, and before all else where the caller's list of sessions is full.
    Open(Scan),
    /// Apply the mutation to the table, all its updates together or none. Refused for the mutation's shape, a malformed label, a
    /// timestamp where the table gives them or below its horizon, for what the table's constraints say, and last of all where 2^64 - 1
    /// writes were done.
    Write(Name, Mutation),
    /// Make a table with this time mode and number of versions. The caller gets its five permissions. Refused where there is
    /// a table of the name, and last of all where there are 2^32 - 1 tables.
    CreateTable(Name, TimeMode, Versions),
    /// Take the table away with its cells and all rights on it. A table made under its name later begins with none of them. Sessions
    /// that were opened on it go on.
    DropTable(Name),
    /// Set which constraints the table has, in place of those that it had. (Accumulo user manual: constraints)
    SetConstraints(Name, ConstraintSet),
    /// Show so many versions of a column of the table, no more than it shows.
    SetVersions(Name, Versions),
    /// Take no update of the table below this time, which isn't below the one that it has. Refused where the table gives the timestamps.
    SetHorizon(Name, i64),
    /// Make a user without rights and authorizations, whatever a dropped user of the name had. Refused where there is a user of the name,
    /// and last of all where there are 2^32 - 1 users.
    CreateUser(Name),
    /// Take the user away with his rights and authorizations; his sessions go on. Refused where there is no such user, and for root.
    DropUser(Name),
    /// Give the user these authorizations in place of those that he holds: at most 1,024, each of at most 1,024 bytes. Refused where
    /// there are more, and where there is no such user.
    SetAuths(Name, AuthSet),
    /// Grant the permission to the user; nothing changes where he has it. One on a table names a table that must exist, and is refused
    /// where there is no such user. A system permission is refused where it is the one to grant, which root alone has, where there is no
    /// such user, and for root, whose system permissions don't change.
    Grant(Name, Permission),
    /// Revoke the permission from the user; nothing changes where he doesn't have it. Refused as a grant is.
    Revoke(Name, Permission),
    /// Tell the caller his own system permissions, his permissions on the table, and his authorizations. It needs no permission.
    Rights(Name),
    /// Tell how many tablets the table has, and how many sources and records they hold. Where these lie is the core's own affair: a
    /// history allows any counts.
    Status(Name),
    /// Merge what was written to the table since the last flush into a sorted table, in each of its tablets. No scan is answered
    /// otherwise after it. (Accumulo user manual: minor compaction)
    Flush(Name),
    /// Merge sorted tables of the table, in each of its tablets, and what was written since the last flush with them where it merges all.
    /// No scan is answered otherwise after it. (Accumulo user manual: major compaction)
    Compact(Name, Extent),
    /// Split the tablet that holds the row: the row becomes the end row of the lower one of two tablets. Refused for a row of more than
    /// 1,048,576 bytes, where the row is an end row already, and last of all where the table has 2^32 - 1 end rows. Where a table is
    /// split is the core's own affair: a history decides the first of these alone, and allows the others. No scan is answered otherwise
    /// after it. (Accumulo user manual: pre-splitting)
    AddSplit(Name, ByteString),
    /// Split the tablet that holds the row in the middle of what it holds, where the sizes of its sorted tables add up to so many bytes or
    /// more. Refused for a row of more than 1,048,576 bytes, where they are smaller, where the tablet holds no record or records of one row
    /// alone, and last of all where the table has 2^32 - 1 end rows. Of these too a history decides the first alone. No scan is answered
    /// otherwise after it. (Accumulo user manual: tablets, splitting)
    SplitBySize(Name, ByteString, u64),
    /// Tell the end rows of the table's tablets, rising. A history allows any rows.
    Splits(Name),
    /// Ask whether an image of all users, rights and tables may be saved. Where it is done the caller may save one: the event itself
    /// changes nothing but the clock.
    Save,
    /// Ask whether an image may be loaded in place of all users, rights and tables. Where it is done the caller may load one: the event
    /// itself changes nothing but the clock.
    Load,
    /// Ask whether a history may be handed out. The event itself changes nothing but the clock.
    Rotate,
    /// Begin a compaction of this kind in the tablet that holds the row, which may be of any length. What was written to the tablet since it
    /// was last frozen is frozen, and it is settled what is to be merged: all runs, some of the sorted tables, chosen by their sizes, or all
    /// that the tablet holds. The job that is handed out makes the merge, apart from all events, and an `Install` puts it in place; scans and
    /// writes go on meanwhile. Where there is nothing to merge `Nothing` is told. It needs one of the permissions ALTER_TABLE for the server,
    /// ALTER_TABLE and WRITE on the table. Whether there is anything to merge is the core's own affair: a history allows each of these
    /// answers. No scan is answered otherwise after it. (Accumulo user manual: minor compaction, major compaction)
    Begin(Name, ByteString, Compaction),
    /// Put the finished merge of a job in the place of what it merged. By a slot without a finished merge it is refused before all else, and
    /// is no event; else it uses the merge up, whatever it is answered, for want of memory too: the tablets are then as they were, and the
    /// merge can be begun and made anew. It needs what a `Begin` needs. Refused last of all as stale: where what was merged doesn't all
    /// stand in the job's tablet any more, where the compaction of its kind that is under way there isn't this one, and where the tablet is
    /// gone or isn't the named table's. What stands there is the core's own affair: a history allows it to be done, or stale with any count.
    /// No scan is answered otherwise after it. (Accumulo user manual: minor compaction, major compaction)
    Install(Name, Given),
}

/// What a user asks at a moment. Events are the atomic steps of a core. The clock is the greatest moment of all events so far, refused
/// ones among them, those for want of memory apart.
#[derive(Clone, Drop)]
pub struct Event {
    /// The caller.
    pub user: Name,
    /// The moment that the caller handed in.
    pub moment: i64,
    /// What is asked.
    pub act: Act,
}

/// One step of a run: an event, what one user does with a session of his, or the merge of a job.
#[derive(Clone, Drop)]
pub enum Step {
    /// An event.
    Event(Event),
    /// The next batch of the session in the user's slot, of this many cells, fewer only at the end. Refused where the slot holds none.
    Next {
        /// Whose session.
        user: Name,
        /// The number of sessions opened for the user before this one.
        slot: u32,
        /// How many cells are asked for.
        count: u32,
    },
    /// The whole answer of the session in the user's slot in each of these ranges, whatever batches were taken of it; it stays as it is.
    /// Refused where the slot holds none, then for more than 1,000 ranges, then where one of them is bad.
    Many {
        /// Whose session.
        user: Name,
        /// The number of sessions opened for the user before this one.
        slot: u32,
        /// The ranges of rows, not checked yet, in any order. They may meet.
        ranges: Items<Bounds>,
    },
    /// The session in the user's slot is closed. Refused where the slot holds none.
    Close {
        /// Whose session.
        user: Name,
        /// The number of sessions opened for the user before this one.
        slot: u32,
    },
    /// The merge of the job in the slot is made. It is no event and no one's step: it asks for no permission and has no moment, and no table
    /// changes before an `Install` of the slot. Refused where the slot holds no job whose merge is to be made: none was begun in it, or its
    /// merge was made already. Where memory lacks for it the job waits on in its slot.
    Merge {
        /// The number of jobs begun before this one, by whomever.
        slot: u64,
    },
}

/// A copy of the event. An error leaves nothing behind.
pub fn copied(event: &Event) -> Result<Event, AllocError>
    ensures { IfOk result (λ copy. copy ≡ event.now) }
{
    Ok(Event {
        user: event.user,
        moment: event.moment,
        act: copied_act(&event.act)?,
    })
}

// A copy of the act. An error leaves nothing behind.
fn copied_act(act: &Act) -> Result<Act, AllocError>
    ensures { IfOk result (λ copy. copy ≡ act.now) }
{
    Ok(match act {
        Act::Open(scan) => Act::Open(scan.clone()?),
        Act::Write(table, mutation) => Act::Write(*table, mutation.clone()?),
        Act::CreateTable(table, time, versions) => Act::CreateTable(*table, *time, *versions),
        Act::DropTable(table) => Act::DropTable(*table),
        Act::SetConstraints(table, set) => Act::SetConstraints(*table, set.clone()?),
        Act::SetVersions(table, versions) => Act::SetVersions(*table, *versions),
        Act::SetHorizon(table, horizon) => Act::SetHorizon(*table, *horizon),
        Act::CreateUser(name) => Act::CreateUser(*name),
        Act::DropUser(name) => Act::DropUser(*name),
        Act::SetAuths(name, auths) => Act::SetAuths(*name, auths.clone()?),
        Act::Grant(name, permission) => Act::Grant(*name, *permission),
        Act::Revoke(name, permission) => Act::Revoke(*name, *permission),
        Act::Rights(table) => Act::Rights(*table),
        Act::Status(table) => Act::Status(*table),
        Act::Flush(table) => Act::Flush(*table),
        Act::Compact(table, extent) => Act::Compact(*table, *extent),
        Act::AddSplit(table, row) => Act::AddSplit(*table, row.clone()?),
        Act::SplitBySize(table, row, limit) => Act::SplitBySize(*table, row.clone()?, *limit),
        Act::Splits(table) => Act::Splits(*table),
        Act::Save => Act::Save,
        Act::Load => Act::Load,
        Act::Rotate => Act::Rotate,
        Act::Begin(table, row, kind) => Act::Begin(*table, row.clone()?, *kind),
        Act::Install(table, given) => Act::Install(*table, *given),
    })
}
