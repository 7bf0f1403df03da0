//! What a user may ask for.
ghost use Rattle.std.specs.Prelude.{◌≡◌, option_copied};
ghost use Rattle.tab_policy.specs.Actions.{asked_for, table_named};

use crate::permission::Permission;
use tab_key::Name;

/// What is done to one table, which must exist.
#[derive(Clone, Copy, PartialEq, Eq)]
pub enum TableAction {
    /// To open a scan of it.
    Open,
    /// To write to it.
    Write,
    /// To drop it.
    DropTable,
    /// To split one of its tablets at a row.
    AddSplit,
    /// To split one of its tablets if it has grown to a size.
    SplitBySize,
    /// To list the rows at which it is split.
    Splits,
    /// To count what its tablets hold.
    Status,
    /// To set its constraints.
    SetConstraints,
    /// To lower the number of versions that it keeps.
    SetVersions,
    /// To raise the timestamp below which it takes no update.
    SetHorizon,
    /// To run a minor compaction of each of its tablets.
    Flush,
    /// To run a major compaction of each of its tablets.
    Compact,
    /// To begin a compaction of one of its tablets.
    Begin,
    /// To put the result of a compaction in its place.
    Install,
    /// To list one's own rights, on it too.
    Rights,
}

/// What is done to users, to new tables and to the server.
#[derive(Clone, Copy, PartialEq, Eq)]
pub enum ServerAction {
    /// To create a table.
    CreateTable,
    /// To create a user.
    CreateUser,
    /// To drop a user.
    DropUser,
    /// To set a user's authorizations.
    SetAuths,
    /// To save an image of everything.
    Save,
    /// To load an image in place of everything.
    Load,
    /// To begin a new part of the history.
    Rotate,
}

/// An event's kind, with the table or the permission that it names. A contract reads it by `asked_for`.
#[derive(Clone, Copy)]
pub enum Action<'a> {
    /// Something that is done to the table of this name.
    OnTable(TableAction, &'a Name),
    /// Something that is done to no table that exists.
    OnServer(ServerAction),
    /// To grant the permission to a user.
    Grant(&'a Permission),
    /// To revoke the permission from a user.
    Revoke(&'a Permission),
}

impl<'a> Action<'a> {
    /// The table that must exist for the action.
    pub fn table(&self) -> Option<&'a Name>
        ensures { option_copied result ≡ table_named (asked_for self.now) }
    {
        match self {
            Action::OnTable(_, table) => Some(*table),
            Action::OnServer(_) => None,
            Action::Grant(permission) | Action::Revoke(permission) => permission.table(),
        }
    }
}
