//! The permissions. (Accumulo user manual: permissions.)
ghost use Rattle.std.specs.Prelude.{◌≡◌, option_copied};
ghost use Rattle.tab_policy.specs.Permissions.{system_name, table_name, system_by_name, table_by_name};
ghost use Rattle.tab_policy.specs.Actions.{table_of};

use tab_key::Name;

/// A permission for the whole server.
#[derive(Clone, Copy, Debug, PartialEq, Eq)]
pub enum SystemPermission {
    /// To grant and revoke the other system permissions.
    Grant,
    /// To create tables.
    CreateTable,
    /// To drop any table.
    DropTable,
    /// To alter any table, compact it, and hand out rights on it.
    AlterTable,
    /// To create users.
    CreateUser,
    /// To drop users.
    DropUser,
    /// To set the authorizations of users.
    AlterUser,
    /// To save, to load and to rotate.
    System,
}

/// A permission for one table.
#[derive(Clone, Copy, Debug, PartialEq, Eq)]
pub enum TablePermission {
    /// To scan it.
    Read,
    /// To write to it and to compact it.
    Write,
    /// To alter it and to compact it.
    AlterTable,
    /// To grant and revoke permissions for it.
    Grant,
    /// To drop it.
    DropTable,
}

/// What may be granted to a user.
#[derive(Clone, Copy, PartialEq, Eq)]
pub enum Permission {
    /// For the whole server.
    OfSystem(SystemPermission),
    /// For the table of this name.
    OfTable(TablePermission, Name),
}

impl Permission {
    /// The table that the permission is for.
    pub fn table(&self) -> Option<&Name>
        ensures { option_copied result ≡ table_of self.now }
    {
        match self {
            Permission::OfSystem(_) => None,
            Permission::OfTable(_, table) => Some(table),
        }
    }
}

impl SystemPermission {
    /// All of them, in their order.
    pub const ALL: [SystemPermission; 8] = [
        SystemPermission::Grant,
        SystemPermission::CreateTable,
        SystemPermission::DropTable,
        SystemPermission::AlterTable,
        SystemPermission::CreateUser,
        SystemPermission::DropUser,
        SystemPermission::AlterUser,
        SystemPermission::System,
    ];

    /// The name, in upper case: `CREATE_TABLE`.
    pub fn name(&self) -> &'static [u8]
        ensures { result.now ≡ system_name self.now }
    {
        match self {
            SystemPermission::Grant => b"GRANT",
            SystemPermission::CreateTable => b"CREATE_TABLE",
            SystemPermission::DropTable => b"DROP_TABLE",
            SystemPermission::AlterTable => b"ALTER_TABLE",
            SystemPermission::CreateUser => b"CREATE_USER",
            SystemPermission::DropUser => b"DROP_USER",
            SystemPermission::AlterUser => b"ALTER_USER",
            SystemPermission::System => b"SYSTEM",
        }
    }

    /// The permission of this name, byte for byte; `None` where there is none.
    pub fn from_name(name: &[u8]) -> Option<SystemPermission>
        ensures { result ≡ system_by_name name.now }
    {
        SystemPermission::ALL
            .iter()
            .copied()
            .find(|permission| permission.name() == name)
    }
}

impl TablePermission {
    /// All of them, in their order.
    pub const ALL: [TablePermission; 5] = [
        TablePermission::Read,
        TablePermission::Write,
        TablePermission::AlterTable,
        TablePermission::Grant,
        TablePermission::DropTable,
    ];

    /// The name, in upper case: `ALTER_TABLE`.
    pub fn name(&self) -> &'static [u8]
        ensures { result.now ≡ table_name self.now }
    {
        match self {
            TablePermission::Read => b"READ",
            TablePermission::Write => b"WRITE",
            TablePermission::AlterTable => b"ALTER_TABLE",
            TablePermission::Grant => b"GRANT",
            TablePermission::DropTable => b"DROP_TABLE",
        }
    }

    /// The permission of this name, byte for byte; `None` where there is none.
    pub fn from_name(name: &[u8]) -> Option<TablePermission>
        ensures { result ≡ table_by_name name.now }
    {
        TablePermission::ALL
            .iter()
            .copied()
            .find(|permission| permission.name() == name)
    }
}
