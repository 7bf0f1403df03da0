//! Sets of permissions, a bit for each.
ghost use Rattle.std.specs.Prelude.{◌≡◌, ◌≤◌, ◌<◌, cond, if◌then◌else◌};
ghost use Rattle.tab_codec.specs.Parts.{system_bits, table_bits, constraint_bits, system_in, table_in, has_bit};
ghost use Rattle.tab_policy.specs.Permissions.{same_system, same_table};
ghost use Rattle.tab_policy.specs.Sets.{system_contains, table_contains};

use tab_policy::{SystemPermission, SystemPermissions, TablePermission, TablePermissions};
use tab_rules::{Constraint, ConstraintSet};

// 1 for a member.
fn bit(held: bool) -> u8
    ensures value { result ≡ cond held 1 0 }
    ensures most { result ≤ 1 }
{
    if held { 1 } else { 0 }
}

/// The set as a byte, whose lowest bit is the first permission.
pub fn system_bits(set: &SystemPermissions) -> u8
    ensures { result ≡ system_bits set.now }
{
    let upper = bit(set.contains(SystemPermission::CreateUser))
        + 2 * (bit(set.contains(SystemPermission::DropUser))
            + 2 * (bit(set.contains(SystemPermission::AlterUser))
                + 2 * bit(set.contains(SystemPermission::System))));
    bit(set.contains(SystemPermission::Grant))
        + 2 * (bit(set.contains(SystemPermission::CreateTable))
            + 2 * (bit(set.contains(SystemPermission::DropTable))
                + 2 * (bit(set.contains(SystemPermission::AlterTable)) + 2 * upper)))
}

/// The set as a byte, whose lowest bit is the first permission.
pub fn table_bits(set: &TablePermissions) -> u8
    ensures { result ≡ table_bits set.now }
{
    bit(set.contains(TablePermission::Read))
        + 2 * (bit(set.contains(TablePermission::Write))
            + 2 * (bit(set.contains(TablePermission::AlterTable))
                + 2 * (bit(set.contains(TablePermission::Grant))
                    + 2 * bit(set.contains(TablePermission::DropTable)))))
}

/// The set as a byte, whose lowest bit is the first constraint.
pub fn constraint_bits(set: &ConstraintSet) -> u8
    ensures { result ≡ constraint_bits set.now }
{
    bit(set.contains(Constraint::KeySize))
        + 2 * (bit(set.contains(Constraint::Alphanumeric))
            + 2 * (bit(set.contains(Constraint::Numeric))
                + 2 * bit(set.contains(Constraint::Visibility))))
}

// Whether the bit at this place is set; bit 0 is the lowest.
fn has_bit(bits: u8, place: u8) -> bool
    requires { place < 8 }
    ensures { result ≡ has_bit bits place }
{
    (bits >> place) % 2 == 1
}

// The set with this member, or without it.
fn with_system(
    set: SystemPermissions,
    permission: SystemPermission,
    held: bool,
) -> SystemPermissions
    ensures { (p : _) → system_contains result p ≡ (if same_system permission p then held else system_contains set p) }
{
    if held {
        set.with(permission)
    } else {
        set.without(permission)
    }
}

/// The system permissions whose bits are set.
pub fn system_in(bits: u8) -> SystemPermissions
    ensures { result ≡ system_in bits }
{
    let none = SystemPermissions::none();
    let first = with_system(none, SystemPermission::Grant, has_bit(bits, 0));
    let second = with_system(first, SystemPermission::CreateTable, has_bit(bits, 1));
    let third = with_system(second, SystemPermission::DropTable, has_bit(bits, 2));
    let fourth = with_system(third, SystemPermission::AlterTable, has_bit(bits, 3));
    let fifth = with_system(fourth, SystemPermission::CreateUser, has_bit(bits, 4));
    let sixth = with_system(fifth, SystemPermission::DropUser, has_bit(bits, 5));
    let seventh = with_system(sixth, SystemPermission::AlterUser, has_bit(bits, 6));
    with_system(seventh, SystemPermission::System, has_bit(bits, 7))
}

// The set with this member, or without it.
fn with_table(set: TablePermissions, permission: TablePermission, held: bool) -> TablePermissions
    ensures { (p : _) → table_contains result p ≡ (if same_table permission p then held else table_contains set p) }
{
    if held {
        set.with(permission)
    } else {
        set.without(permission)
    }
}

/// The table permissions whose bits are set.
pub fn table_in(bits: u8) -> TablePermissions
    ensures { result ≡ table_in bits }
{
    let none = TablePermissions::none();
    let first = with_table(none, TablePermission::Read, has_bit(bits, 0));
    let second = with_table(first, TablePermission::Write, has_bit(bits, 1));
    let third = with_table(second, TablePermission::AlterTable, has_bit(bits, 2));
    let fourth = with_table(third, TablePermission::Grant, has_bit(bits, 3));
    with_table(fourth, TablePermission::DropTable, has_bit(bits, 4))
}
