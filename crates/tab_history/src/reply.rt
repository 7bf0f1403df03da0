//! What is answered.

use crate::counts::Counts;
use crate::rights::Rights;
use crate::split_fault::SplitFault;
use tab_key::{ByteString, Cells, Items, LimitedPart, Name};
use tab_policy::Permission;
use tab_rules::Violation;

/// Why a step is refused. A refused event changes no user, cell, right or table; all but `NoMemory`, a full
/// list of sessions and `NoJob` move the clock.
#[derive(PartialEq, Drop)]
pub enum Refusal {
    /// There is no user of the caller's name.
    UnknownUser(Name),
    /// There is no table of this name.
    NoTable(Name),
    /// The caller has none of the permissions that admit the event; the first of them is named.
    PermissionDenied(Permission),
    /// The scan asks for an authorization that the caller doesn't hold; the least such one.
    BadAuthorizations(ByteString),
    /// The first update, counted from 0, whose label is malformed, and the length of the label's longest front that begins some label.
    MalformedVisibility(u32, u32),
    /// Each failing pair of constraint and code, rising, with its first failing update. The whole mutation is refused.
    ConstraintViolation(Items<Violation>),
    /// The first update with a timestamp, where the table gives them.
    TimestampNotAllowed(u32),
    /// The mutation has no update.
    EmptyMutation,
    /// A part is over its limit, which [`LimitedPart`] names; `LimitedPart::Sessions` is a full list of sessions.
    /// `LimitedPart::Numbers` says, last of all checks, that the numbers of writes, tables, users or end rows are used up.
    TooLarge(LimitedPart),
    /// There is a table of this name already.
    TableExists(Name),
    /// There is a user of this name already.
    UserExists(Name),
    /// There is no user of this name to be changed or dropped.
    NoUser(Name),
    /// The low row is above the high row, or equal to it with an exclusive end.
    BadRange,
    /// A finished merge isn't installed: what it merged doesn't all stand in its tablet any more, or the compaction of its kind that is under
    /// way there isn't this one. It tells how many frozen memory maps and sorted tables the tablet holds now; 0 where the tablet is gone or
    /// isn't the named table's, and 2^64 - 1 where there are more.
    Stale(u64),
    /// There is no session in this slot of the user.
    NoSession(u32),
    /// There is no job in this slot whose merge can be made, or no finished merge that can be installed. In text and frames it is told
    /// under the number and the name of `NoSession`.
    NoJob(u64),
    /// There was no memory for a step that takes some; it had no effect at all, but that an Install gives its finished merge up.
    NoMemory,
    /// Root can't be dropped, and its system permissions don't change.
    RootFixed,
    /// The permission to grant system permissions is root's alone: it can't be granted or revoked.
    GrantInvalid,
    /// The first update whose timestamp is below the table's horizon.
    BelowHorizon(u32),
    /// More versions are asked for than the table shows; the present number.
    VersionsRaised(u32),
    /// The horizon asked for is below the table's; the present one.
    HorizonLowered(i64),
    /// The table gives the timestamps, and has no horizon.
    ServerTime,
    /// The tablet isn't split, for this reason.
    BadSplit(SplitFault),
}

/// What a step is answered; `S` is the session that an accepted Open hands out, `J` the job that a Begin does.
#[derive(Drop)]
pub enum Reply<S = (), J = ()> {
    /// The step was done.
    Done,
    /// The step was refused.
    Refused(Refusal),
    /// A session was opened.
    Opened(S),
    /// The next cells of a session.
    Batch(Cells),
    /// A session's cells in each of the ranges asked for, in their order.
    Ranges(Items<Cells>),
    /// What the caller may do and holds.
    Rights(Rights),
    /// What a table's tablets hold.
    Counted(Counts),
    /// The end rows of a table's tablets, rising.
    Rows(Items<ByteString>),
    /// A job was begun, and its merge can be made.
    Begun(J),
    /// There is nothing to merge, and no job was begun.
    Nothing,
}

impl<S, J> Reply<S, J> {
    ghost use Rattle.std.specs.Prelude.{◌≡◌};
    ghost use Rattle.tab_history.specs.Answers.{told_of, session_of, job_of};

    /// The reply without what it hands out; the session, and the job, where there is one.
    pub fn into_parts(self) -> (Reply, Option<S>, Option<J>)
        ensures told { result.0 ≡ told_of self }
        ensures session { result.1 ≡ session_of self }
        ensures job { result.2 ≡ job_of self }
    {
        match self {
            Reply::Done => (Reply::Done, None, None),
            Reply::Refused(refusal) => (Reply::Refused(refusal), None, None),
            Reply::Opened(session) => (Reply::Opened(()), Some(session), None),
            Reply::Batch(cells) => (Reply::Batch(cells), None, None),
            Reply::Ranges(ranges) => (Reply::Ranges(ranges), None, None),
            Reply::Rights(rights) => (Reply::Rights(rights), None, None),
            Reply::Counted(counts) => (Reply::Counted(counts), None, None),
            Reply::Rows(rows) => (Reply::Rows(rows), None, None),
            Reply::Begun(job) => (Reply::Begun(()), None, Some(job)),
            Reply::Nothing => (Reply::Nothing, None, None),
        }
    }
}
