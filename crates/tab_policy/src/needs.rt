//! Which permissions admit which action. (This server's own profile of Accumulo's rules.)
ghost use Rattle.std.specs.Prelude.{◌≡◌, ◌||◌, [], true, is_some, IfOk, IfSome, unwrap_or, option_copied, if◌then◌else◌};
ghost use Rattle.std.specs.Result.{result_err};
ghost use Rattle.tab_policy.specs.Actions.{asked_for, needs, needs_on, server_permission, table_named, hands_out, table_of};
ghost use Rattle.tab_policy.specs.Needs.{listed, is_met, are_none, first_of_needs};
ghost use Rattle.tab_policy.specs.Sets.{table_contains};
ghost use Rattle.tab_policy.specs.Decisions.{judged};
ghost use Rattle.std.specs.List.{list_any};

use crate::action::{Action, ServerAction, TableAction};
use crate::decision::{Caller, Decision, Denial};
use crate::permission::{Permission, SystemPermission, TablePermission};
use crate::sets::{SystemPermissions, TablePermissions};
use tab_key::Name;

// The permissions of which any admits an action, in their order: one for the whole server, and some for the action's table.
#[derive(Clone, Copy)]
pub struct Needs {
    pub system: Option<SystemPermission>,
    pub on_table: &'static [TablePermission],
}

// What admits a change of a table's settings or tablets.
const ALTERS: Needs = Needs {
    system: Some(SystemPermission::AlterTable),
    on_table: &[TablePermission::AlterTable],
};

// What admits a compaction: who may alter a table or write to it.
const COMPACTS: Needs = Needs {
    system: Some(SystemPermission::AlterTable),
    on_table: &[TablePermission::AlterTable, TablePermission::Write],
};

impl Needs {
    // What admits the action.
    pub fn of(action: &Action<'_>) -> Needs
        ensures listed { needs (asked_for action.now) ≡ listed result.system result.on_table.now (unwrap_or (table_named (asked_for action.now)) []) }
        ensures tableless { table_named (asked_for action.now) ≡ None → result.on_table.now ≡ [] }
    {
        match action {
            Action::OnTable(action, _) => Needs::for_table(*action),
            Action::OnServer(action) => Needs::of_system(system_permission(*action)),
            Action::Grant(permission) | Action::Revoke(permission) => Needs::to_hand_out(
                permission,
            ),
        }
    }

    // What admits the action on a table.
    fn for_table(action: TableAction) -> Needs
        ensures { (t : _) → needs_on action t ≡ listed result.system result.on_table.now t }
    {
        match action {
            TableAction::Open => Needs::of_table(&[TablePermission::Read]),
            TableAction::Write => Needs::of_table(&[TablePermission::Write]),
            TableAction::DropTable => Needs {
                system: Some(SystemPermission::DropTable),
                on_table: &[TablePermission::DropTable],
            },
            TableAction::AddSplit
            | TableAction::SplitBySize
            | TableAction::Splits
            | TableAction::Status
            | TableAction::SetConstraints
            | TableAction::SetVersions
            | TableAction::SetHorizon => ALTERS,
            TableAction::Flush | TableAction::Compact | TableAction::Begin | TableAction::Install =>
                COMPACTS,
            TableAction::Rights => Needs::of_table(&[]),
        }
    }

    // The one permission for the whole server.
    fn of_system(permission: SystemPermission) -> Needs
        ensures system { result.system ≡ Some permission }
        ensures on_table { result.on_table.now ≡ [] }
    {
        Needs {
            system: Some(permission),
            on_table: &[],
        }
    }

    // These permissions for the table, and no other.
    fn of_table(permissions: &'static [TablePermission]) -> Needs
        ensures system { result.system ≡ None }
        ensures on_table { result.on_table.now ≡ permissions.now }
    {
        Needs {
            system: None,
            on_table: permissions,
        }
    }

    // What admits granting and revoking the permission.
    fn to_hand_out(permission: &Permission) -> Needs
        ensures listed { hands_out permission.now ≡ listed result.system result.on_table.now (unwrap_or (table_of permission.now) []) }
        ensures tableless { table_of permission.now ≡ None → result.on_table.now ≡ [] }
    {
        match permission {
            Permission::OfSystem(_) => Needs::of_system(SystemPermission::Grant),
            Permission::OfTable(_, _) => Needs {
                system: Some(SystemPermission::AlterTable),
                on_table: &[TablePermission::Grant],
            },
        }
    }

    // Whether one of them is in the sets.
    fn are_met(&self, system: SystemPermissions, rights: TablePermissions) -> bool
        ensures { result ≡ is_met self.now.system self.now.on_table.now system rights }
    {
        self.system
            .is_some_and(|permission| system.contains(permission))
            || self.gives_on_table(rights)
    }

    // Whether one of those for the table is in the set.
    fn gives_on_table(&self, rights: TablePermissions) -> bool
        ensures { result ≡ list_any (table_contains rights) self.now.on_table.now }
    {
        self.on_table
            .iter()
            .any(|permission| rights.contains(*permission))
    }

    // The caller, if he has one of them or none is needed.
    #[inline(always)]
    pub fn admitted<'a>(&self, caller: Caller<'a>) -> Option<Caller<'a>>
        ensures admits { is_some result ≡ (is_met self.now.system self.now.on_table.now caller.entry.system caller.entry.on_table || are_none self.now.system self.now.on_table.now) }
        ensures caller { IfSome result (λ admitted. admitted ≡ caller.entry) }
    {
        if self.are_met(caller.system, caller.on_table) || self.are_none() {
            return Some(caller);
        }
        None
    }

    // Whether none is needed.
    fn are_none(&self) -> bool
        ensures { result ≡ are_none self.now.system self.now.on_table.now }
    {
        self.system.is_none() && self.on_table.is_empty()
    }

    // The caller if he has one of them or none is needed, else denied by the first. Those for a table are for this one.
    pub fn decide<'a>(&self, caller: Caller<'a>, table: Option<&Name>) -> Decision<'a>
        ensures decided { result_err result ≡ judged None (if is_met self.now.system self.now.on_table.now caller.entry.system caller.entry.on_table then None else first_of_needs self.now.system self.now.on_table.now (option_copied table.entry)) }
        ensures caller { IfOk result (λ admitted. admitted ≡ caller.entry) }
    {
        if self.are_met(caller.system, caller.on_table) {
            return Ok(caller);
        }
        match self.first(table) {
            None => Ok(caller),
            Some(permission) => Err(Denial::PermissionDenied(permission)),
        }
    }

    // The first of them, those for a table being for this one.
    fn first(&self, table: Option<&Name>) -> Option<Permission>
        ensures { result ≡ first_of_needs self.now.system self.now.on_table.now (option_copied table.entry) }
    {
        if let Some(permission) = self.system {
            return Some(Permission::OfSystem(permission));
        }
        let first = self.on_table.first()?;
        Some(Permission::OfTable(*first, *table?))
    }
}

// The permission that admits the action on the server.
fn system_permission(action: ServerAction) -> SystemPermission
    ensures { result ≡ server_permission action }
{
    match action {
        ServerAction::CreateTable => SystemPermission::CreateTable,
        ServerAction::CreateUser => SystemPermission::CreateUser,
        ServerAction::DropUser => SystemPermission::DropUser,
        ServerAction::SetAuths => SystemPermission::AlterUser,
        ServerAction::Save | ServerAction::Load | ServerAction::Rotate => SystemPermission::System,
    }
}
