//! What one byte of a frame decides: columns, permissions, extents.
ghost use Rattle.std.specs.Prelude.{◌≡◌};
ghost use Rattle.tab_codec.specs.Reading.{picked, u8_at, and_then, name_at};
ghost use Rattle.tab_text.specs.Gives.{Gives};
ghost use Rattle.tab_wire.specs.Gives.{bytes_left};
ghost use Rattle.tab_wire.specs.FrameReading.{column_at, permission_at, system_permission, table_permission, extent_at};

use std::alloc::Global;
use tab_codec::{Fields, a_byte, a_byte_string, a_name};
use tab_history::Extent;
use tab_key::Column;
use tab_policy::{Permission, SystemPermission, TablePermission};
use tab_text::ParseError;

/// Takes a column.
#[tactic(auto, unfolding(crate::specs::FrameReading::column_at))]
pub fn a_column(alloc: Global, fields: &mut Fields) -> Result<Column, ParseError>
    ensures { Gives (λ x. (x, bytes_left fields.new)) result (column_at (bytes_left fields.old)) }
{
    let family = a_byte_string(alloc, fields)?;
    let flag = a_byte(fields)?;
    if flag == 0 {
        Ok(Column::Family(family))
    } else if flag == 1 {
        Ok(Column::Qualified(family, a_byte_string(alloc, fields)?))
    } else {
        Err(ParseError::Malformed)
    }
}

// Takes the place of a system permission.
fn a_system_permission(fields: &mut Fields) -> Result<Permission, ParseError>
    ensures { Gives (λ x. (x, bytes_left fields.new)) result (picked system_permission u8_at (bytes_left fields.old)) }
{
    let place = a_byte(fields)?;
    match SystemPermission::ALL.get(place as usize).copied() {
        Some(permission) => Ok(Permission::OfSystem(permission)),
        None => Err(ParseError::Malformed),
    }
}

// Takes the place of a table permission, and the table.
fn a_table_permission(fields: &mut Fields) -> Result<Permission, ParseError>
    ensures { Gives (λ x. (x, bytes_left fields.new)) result (and_then u8_at (λ place. picked (table_permission place) name_at) (bytes_left fields.old)) }
{
    let place = a_byte(fields)?;
    let table = a_name(fields)?;
    match TablePermission::ALL.get(place as usize).copied() {
        Some(permission) => Ok(Permission::OfTable(permission, table)),
        None => Err(ParseError::Malformed),
    }
}

/// Takes a permission.
#[tactic(auto, unfolding(crate::specs::FrameReading::permission_at))]
pub fn a_permission(fields: &mut Fields) -> Result<Permission, ParseError>
    ensures { Gives (λ x. (x, bytes_left fields.new)) result (permission_at (bytes_left fields.old)) }
{
    let flag = a_byte(fields)?;
    if flag == 0 {
        a_system_permission(fields)
    } else if flag == 1 {
        a_table_permission(fields)
    } else {
        Err(ParseError::Malformed)
    }
}

/// Takes the byte that says what a compaction merges.
#[tactic(auto, unfolding(crate::specs::FrameReading::extent_at))]
pub fn an_extent(fields: &mut Fields) -> Result<Extent, ParseError>
    ensures { Gives (λ x. (x, bytes_left fields.new)) result (extent_at (bytes_left fields.old)) }
{
    let flag = a_byte(fields)?;
    if flag == 0 {
        Ok(Extent::Partial)
    } else if flag == 1 {
        Ok(Extent::Full)
    } else {
        Err(ParseError::Malformed)
    }
}
