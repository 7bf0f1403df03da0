//! The tables of an image, put into a policy with the rights on them.
ghost use Rattle.std.specs.Prelude.{◌≡◌, [], ◌∷◌, OnOk};
ghost use Rattle.std.specs.List.{fold};
ghost use Rattle.tab_policy.specs.State.{readings};
ghost use Rattle.tab_loading.specs.Policies.{granted_on, with_right, with_head, with_table};

use std::alloc::AllocError;
use tab_image::{ImageRight, ImageTable, TableHead};
use tab_key::Name;
use tab_policy::{Permission, Policy, TablePermission, TablePermissions};

/// Makes each of these tables known to the policy, with the rights on it and no others.
pub(crate) fn put_tables(policy: &mut Policy, tables: &[ImageTable]) -> Result<(), AllocError>
    ensures { OnOk result (readings policy.new ≡ fold with_table (readings policy.old) tables.now) }
{
    for table in tables {
        match put_head(policy, &table.head) {
            Ok(()) => {}
            Err(fault) => return Err(fault),
        }
    }
    Ok(())
}

fn put_head(policy: &mut Policy, head: &TableHead) -> Result<(), AllocError>
    ensures { OnOk result (readings policy.new ≡ with_head (readings policy.old) head.now) }
{
    policy.put_table(&head.name)?;
    put_rights(policy, &head.name, head.rights.as_slice())
}

fn put_rights(policy: &mut Policy, table: &Name, rights: &[ImageRight]) -> Result<(), AllocError>
    ensures { OnOk result (readings policy.new ≡ fold (with_right table.now) (readings policy.old) rights.now) }
{
    for right in rights {
        match put_right(policy, table, right) {
            Ok(()) => {}
            Err(fault) => return Err(fault),
        }
    }
    Ok(())
}

// Grants all that the user holds on the table.
fn put_right(policy: &mut Policy, table: &Name, right: &ImageRight) -> Result<(), AllocError>
    ensures { OnOk result (readings policy.new ≡ with_right table.now (readings policy.old) right.now) }
{
    grant_each(
        policy,
        table,
        &right.user,
        right.held,
        &TablePermission::ALL,
    )
}

// Grants those of these permissions on the table that are in the set.
fn grant_each(
    policy: &mut Policy,
    table: &Name,
    user: &Name,
    held: TablePermissions,
    permissions: &[TablePermission],
) -> Result<(), AllocError>
    ensures { OnOk result (readings policy.new ≡ granted_on table.now user.now held permissions.now (readings policy.old)) }
{
    for permission in permissions {
        match grant_held(policy, table, user, held, *permission) {
            Ok(()) => {}
            Err(fault) => return Err(fault),
        }
    }
    Ok(())
}

// Grants the permission on the table, if it is in the set.
fn grant_held(
    policy: &mut Policy,
    table: &Name,
    user: &Name,
    held: TablePermissions,
    permission: TablePermission,
) -> Result<(), AllocError>
    ensures { OnOk result (readings policy.new ≡ granted_on table.now user.now held (permission ∷ []) (readings policy.old)) }
{
    if !held.contains(permission) {
        return Ok(());
    }
    policy.grant(user, &Permission::OfTable(permission, *table))
}
