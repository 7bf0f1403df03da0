//! Byte strings, names and what is chosen by a number, read from an input.
#![tactic(auto, using(crate::proofs::Streams::reading, crate::proofs::FieldLemmas::fields))]

ghost use Rattle.std.specs.Prelude.{◌≡◌, ◌≤◌, ◌+◌, Some, None, OnOk, cond, length};
ghost use Rattle.tab_key.specs.declared.limited_part.TheConstants.{MAX_PART_LEN};
ghost use Rattle.tab_history.specs.Settings.{is_version_count};
ghost use Rattle.tab_image.specs.Reading.{part_at, system_at, held_at, held_of, horizon_at};
ghost use Rattle.tab_image.specs.Takes.{Appends};
ghost use Rattle.tab_image.specs.Streams.{Reads, HasRead, Stops, items_of};
ghost use Rattle.tab_codec.specs.Reading.{only_if, is_name, field_at, name_at, kind_of, kind_at, time_of, time_at, versions_at, constraints_at, constraints_of};

use crate::taking::{read_byte, read_i64, read_text, read_u32};
use crate::unread::Unread;
use crate::version::FIRST_VERSION;
use std::alloc::{AllocError, Global};
use tab_codec::{constraint_set, system_in, table_in};
use tab_history::{TimeMode, Versions};
use tab_io::Input;
use tab_key::{Kind, MAX_PART_LEN, Name};
use tab_policy::{SystemPermissions, TablePermissions};
use tab_rules::ConstraintSet;

/// Takes a byte string: its length, and so many bytes.
pub(crate) fn read_field<R: Input>(alloc: Global, input: &mut R) -> Result<Vec<u8>, Unread>
    ensures { Reads R.Input input.old input.new field_at (items_of result) }
{
    let count = read_u32(input)?;
    let mut text = Vec::new(alloc);
    read_text(input, &mut text, count as usize)?;
    Ok(text)
}

/// Takes a byte string within the limit of a row, a family, a qualifier, a label or a value, and puts it behind those that are there.
pub(crate) fn read_part<R: Input>(input: &mut R, parts: &mut Vec<u8>) -> Result<(), Unread>
    ensures bytes { Appends R.Input input.old input.new part_at parts.old.items parts.new.items result }
    ensures short { OnOk result (length parts.new.items ≤ length parts.old.items + MAX_PART_LEN) }
{
    let count = read_u32(input)?;
    if count as usize > MAX_PART_LEN {
        return Err(Unread::Bad);
    }
    read_text(input, parts, count as usize)
}

#[tactic(auto, using(tab_codec::proofs::NameLemmas::named))]
fn name_of(bytes: &[u8]) -> Option<Name>
    ensures { result ≡ only_if is_name bytes.now }
{
    Name::new(bytes)
}

/// Takes a name.
pub(crate) fn read_name<R: Input>(alloc: Global, input: &mut R) -> Result<Name, Unread>
    ensures { Reads R.Input input.old input.new name_at result }
{
    let text = read_field(alloc, input)?;
    let Some(name) = name_of(&text) else {
        return Err(Unread::Bad);
    };
    Ok(name)
}

fn time_of(byte: u8) -> Option<TimeMode>
    ensures { result ≡ time_of byte }
{
    match byte {
        0 => Some(TimeMode::Any),
        1 => Some(TimeMode::Server),
        _ => None,
    }
}

/// Takes a time mode.
pub(crate) fn read_time<R: Input>(input: &mut R) -> Result<TimeMode, Unread>
    ensures { Reads R.Input input.old input.new time_at result }
{
    let byte = read_byte(input)?;
    let Some(time) = time_of(byte) else {
        return Err(Unread::Bad);
    };
    Ok(time)
}

fn versions_of(count: u32) -> Option<Versions>
    ensures { result ≡ only_if is_version_count count }
{
    Versions::new(u64::from(count))
}

/// Takes a number of versions: 1 to 1,000.
pub(crate) fn read_versions<R: Input>(input: &mut R) -> Result<Versions, Unread>
    ensures { Reads R.Input input.old input.new versions_at result }
{
    let count = read_u32(input)?;
    let Some(versions) = versions_of(count) else {
        return Err(Unread::Bad);
    };
    Ok(versions)
}

/// The kind that a byte stands for.
pub(crate) fn kind_of(byte: u8) -> Option<Kind>
    ensures { result ≡ kind_of byte }
{
    match byte {
        0 => Some(Kind::Delete),
        1 => Some(Kind::Put),
        _ => None,
    }
}

/// Takes the kind of a record.
pub(crate) fn read_kind<R: Input>(input: &mut R) -> Result<Kind, Unread>
    ensures { Reads R.Input input.old input.new kind_at result }
{
    let byte = read_byte(input)?;
    let Some(kind) = kind_of(byte) else {
        return Err(Unread::Bad);
    };
    Ok(kind)
}

fn held_of(bits: u8) -> Option<TablePermissions>
    ensures { result ≡ held_of bits }
{
    if 0 < bits && bits < 32 {
        Some(table_in(bits))
    } else {
        None
    }
}

/// Takes permissions on a table: one at least.
#[tactic(auto, using(crate::proofs::Streams::reading), unfolding(crate::specs::Reading::held_at))]
pub(crate) fn read_held<R: Input>(input: &mut R) -> Result<TablePermissions, Unread>
    ensures { Reads R.Input input.old input.new held_at result }
{
    let bits = read_byte(input)?;
    let Some(held) = held_of(bits) else {
        return Err(Unread::Bad);
    };
    Ok(held)
}

/// Takes system permissions.
pub(crate) fn read_system<R: Input>(input: &mut R) -> Result<SystemPermissions, Unread>
    ensures { Reads R.Input input.old input.new system_at result }
{
    let bits = read_byte(input)?;
    Ok(system_in(bits))
}

/// Takes a set of constraints.
pub(crate) fn read_constraints<R: Input>(
    alloc: Global,
    input: &mut R,
) -> Result<ConstraintSet, Unread>
    ensures { Reads R.Input input.old input.new constraints_at result }
{
    let bits = read_byte(input)?;
    if bits >= 16 {
        return Err(Unread::Bad);
    }
    Ok(constraint_set(alloc, bits)?)
}

/// Takes a table's horizon; in the first version it is the least one, and nothing is taken.
#[tactic(auto, using(crate::proofs::Streams::reading, crate::proofs::FieldLemmas::horizons))]
pub(crate) fn read_horizon<R: Input>(input: &mut R, version: u16) -> Result<i64, Unread>
    ensures { Reads R.Input input.old input.new (horizon_at version) result }
{
    if version == FIRST_VERSION {
        return Ok(i64::MIN);
    }
    read_i64(input)
}
