//! A policy, made of the users of an image.
ghost use Rattle.std.specs.Prelude.{◌≡◌, [], ◌∷◌, IfOk, OnOk};
ghost use Rattle.std.specs.List.{fold};
ghost use Rattle.tab_policy.specs.State.{readings};
ghost use Rattle.tab_loading.specs.Policies.{new_readings, granted, with_user};

use std::alloc::{AllocError, Global};
use tab_image::ImageUser;
use tab_key::Name;
use tab_policy::{Permission, Policy, SystemPermission, SystemPermissions};

/// A policy with these users, and no table. Root is among them.
pub(crate) fn policy_of(alloc: Global, users: Vec<ImageUser>) -> Result<Policy, AllocError>
    ensures { IfOk result (λ policy. readings policy ≡ fold with_user new_readings users.items) }
{
    let mut policy = Policy::new(alloc)?;
    put_users(&mut policy, users)?;
    Ok(policy)
}

fn put_users(policy: &mut Policy, users: Vec<ImageUser>) -> Result<(), AllocError>
    ensures { OnOk result (readings policy.new ≡ fold with_user (readings policy.old) users.items) }
{
    for user in users {
        match put_user(policy, user) {
            Ok(()) => {}
            Err(fault) => return Err(fault),
        }
    }
    Ok(())
}

// Makes the user, with all that the image says of him, whoever had his name before.
fn put_user(policy: &mut Policy, user: ImageUser) -> Result<(), AllocError>
    ensures { OnOk result (readings policy.new ≡ with_user (readings policy.old) user) }
{
    let ImageUser {
        name,
        system,
        authorizations,
    } = user;
    policy.create_user(&name)?;
    policy.set_auths(&name, authorizations);
    grant_each(policy, &name, system, &SystemPermission::ALL)
}

// Grants those of these permissions that are in the set.
fn grant_each(
    policy: &mut Policy,
    user: &Name,
    held: SystemPermissions,
    permissions: &[SystemPermission],
) -> Result<(), AllocError>
    ensures { OnOk result (readings policy.new ≡ granted user.now held permissions.now (readings policy.old)) }
{
    for permission in permissions {
        match grant_held(policy, user, held, *permission) {
            Ok(()) => {}
            Err(fault) => return Err(fault),
        }
    }
    Ok(())
}

// Grants the permission, if it is in the set.
fn grant_held(
    policy: &mut Policy,
    user: &Name,
    held: SystemPermissions,
    permission: SystemPermission,
) -> Result<(), AllocError>
    ensures { OnOk result (readings policy.new ≡ granted user.now held (permission ∷ []) (readings policy.old)) }
{
    if !held.contains(permission) {
        return Ok(());
    }
    policy.grant(user, &Permission::OfSystem(permission))
}
