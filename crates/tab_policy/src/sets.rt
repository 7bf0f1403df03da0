//! Sets of permissions.
ghost use Rattle.std.specs.Prelude.{◌≡◌, not, true, false, IfOk, if◌then◌else◌};
ghost use Rattle.std.specs.List.{list_any};
ghost use Rattle.tab_policy.specs.Accounts.{system_set};
ghost use Rattle.tab_policy.specs.Permissions.{all_table, same_system, same_table};
ghost use Rattle.tab_policy.specs.Sets.{system_contains, table_contains, system_members, table_members};

use crate::permission::{SystemPermission, TablePermission};
use std::alloc::{AllocError, Global};

/// A set of system permissions. A contract reads it by `system_contains`.
#[derive(Clone, Copy, Debug, PartialEq, Eq)]
pub struct SystemPermissions {
    grant: bool,
    create_table: bool,
    drop_table: bool,
    alter_table: bool,
    create_user: bool,
    drop_user: bool,
    alter_user: bool,
    system: bool,
}

/// A set of permissions for one table. A contract reads it by `table_contains`.
#[derive(Clone, Copy, Debug, PartialEq, Eq)]
pub struct TablePermissions {
    read: bool,
    write: bool,
    alter_table: bool,
    grant: bool,
    drop_table: bool,
}

impl SystemPermissions {
    /// The set without members.
    pub fn none() -> SystemPermissions
        ensures { (p : _) → system_contains result p ≡ false }
    {
        SystemPermissions::only_if(false)
    }

    /// The set of all.
    pub fn all() -> SystemPermissions
        ensures { (p : _) → system_contains result p ≡ true }
    {
        SystemPermissions::only_if(true)
    }

    // All of them or none.
    fn only_if(held: bool) -> SystemPermissions
        ensures { (p : _) → system_contains result p ≡ held }
    {
        SystemPermissions {
            grant: held,
            create_table: held,
            drop_table: held,
            alter_table: held,
            create_user: held,
            drop_user: held,
            alter_user: held,
            system: held,
        }
    }

    /// Whether the permission is a member.
    pub fn contains(&self, permission: SystemPermission) -> bool
        ensures { result ≡ system_contains self.now permission }
    {
        match permission {
            SystemPermission::Grant => self.grant,
            SystemPermission::CreateTable => self.create_table,
            SystemPermission::DropTable => self.drop_table,
            SystemPermission::AlterTable => self.alter_table,
            SystemPermission::CreateUser => self.create_user,
            SystemPermission::DropUser => self.drop_user,
            SystemPermission::AlterUser => self.alter_user,
            SystemPermission::System => self.system,
        }
    }

    /// The set with this member too.
    pub fn with(self, permission: SystemPermission) -> SystemPermissions
        ensures { (p : _) → system_contains result p ≡ (if same_system permission p then true else system_contains self p) }
    {
        self.set_to(permission, true)
    }

    /// The set without this member.
    pub fn without(self, permission: SystemPermission) -> SystemPermissions
        ensures { (p : _) → system_contains result p ≡ (if same_system permission p then false else system_contains self p) }
    {
        self.set_to(permission, false)
    }

    // The set with or without this member.
    pub(crate) fn set_to(self, permission: SystemPermission, held: bool) -> SystemPermissions
        ensures exact { result ≡ system_set permission held self }
        ensures members { (p : _) → system_contains result p ≡ (if same_system permission p then held else system_contains self p) }
    {
        let mut changed = self;
        match permission {
            SystemPermission::Grant => changed.grant = held,
            SystemPermission::CreateTable => changed.create_table = held,
            SystemPermission::DropTable => changed.drop_table = held,
            SystemPermission::AlterTable => changed.alter_table = held,
            SystemPermission::CreateUser => changed.create_user = held,
            SystemPermission::DropUser => changed.drop_user = held,
            SystemPermission::AlterUser => changed.alter_user = held,
            SystemPermission::System => changed.system = held,
        }
        changed
    }

    /// The members in their order.
    ///
    /// # Errors
    ///
    /// The list couldn't grow.
    pub fn members(&self, alloc: Global) -> Result<Vec<SystemPermission>, AllocError>
        ensures { IfOk result (λ list. list.items ≡ system_members self.now) }
    {
        SystemPermission::ALL
            .iter()
            .copied()
            .filter(|permission| self.contains(*permission))
            .collect(alloc)
    }
}

impl TablePermissions {
    /// The set without members.
    pub fn none() -> TablePermissions
        ensures { (p : _) → table_contains result p ≡ false }
    {
        TablePermissions::only_if(false)
    }

    /// The set of all.
    pub fn all() -> TablePermissions
        ensures { (p : _) → table_contains result p ≡ true }
    {
        TablePermissions::only_if(true)
    }

    // All of them or none.
    fn only_if(held: bool) -> TablePermissions
        ensures { (p : _) → table_contains result p ≡ held }
    {
        TablePermissions {
            read: held,
            write: held,
            alter_table: held,
            grant: held,
            drop_table: held,
        }
    }

    /// Whether the permission is a member.
    pub fn contains(&self, permission: TablePermission) -> bool
        ensures { result ≡ table_contains self.now permission }
    {
        match permission {
            TablePermission::Read => self.read,
            TablePermission::Write => self.write,
            TablePermission::AlterTable => self.alter_table,
            TablePermission::Grant => self.grant,
            TablePermission::DropTable => self.drop_table,
        }
    }

    /// The set with this member too.
    pub fn with(self, permission: TablePermission) -> TablePermissions
        ensures { (p : _) → table_contains result p ≡ (if same_table permission p then true else table_contains self p) }
    {
        self.set_to(permission, true)
    }

    /// The set without this member.
    pub fn without(self, permission: TablePermission) -> TablePermissions
        ensures { (p : _) → table_contains result p ≡ (if same_table permission p then false else table_contains self p) }
    {
        self.set_to(permission, false)
    }

    // The set with or without this member.
    fn set_to(self, permission: TablePermission, held: bool) -> TablePermissions
        ensures { (p : _) → table_contains result p ≡ (if same_table permission p then held else table_contains self p) }
    {
        let mut changed = self;
        match permission {
            TablePermission::Read => changed.read = held,
            TablePermission::Write => changed.write = held,
            TablePermission::AlterTable => changed.alter_table = held,
            TablePermission::Grant => changed.grant = held,
            TablePermission::DropTable => changed.drop_table = held,
        }
        changed
    }

    /// Whether there is no member.
    pub fn is_empty(&self) -> bool
        ensures { result ≡ not (list_any (table_contains self.now) all_table) }
    {
        !TablePermission::ALL
            .iter()
            .any(|permission| self.contains(*permission))
    }

    /// The members in their order.
    ///
    /// # Errors
    ///
    /// The list couldn't grow.
    pub fn members(&self, alloc: Global) -> Result<Vec<TablePermission>, AllocError>
        ensures { IfOk result (λ list. list.items ≡ table_members self.now) }
    {
        TablePermission::ALL
            .iter()
            .copied()
            .filter(|permission| self.contains(*permission))
            .collect(alloc)
    }
}
