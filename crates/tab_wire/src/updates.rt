//! The updates of a mutation, read from a frame.
ghost use Rattle.std.specs.Prelude.{◌≡◌};
ghost use Rattle.tab_codec.specs.Reading.{kind_at, parts_at};
ghost use Rattle.tab_text.specs.Gives.{Gives};
ghost use Rattle.tab_wire.specs.Gives.{bytes_left};
ghost use Rattle.tab_wire.specs.FrameReading.{timestamp_at, update_at, updates_at, mutation_at};
ghost use Rattle.tab_wire.specs.Updating.{updated, grown};

use std::alloc::Global;
use tab_codec::{Fields, a_byte, a_field, a_kind, a_number, a_signed_number};
use tab_key::Kind;
use tab_mutation::Mutation;
use tab_text::ParseError;

// Takes a timestamp that may be missing.
#[tactic(auto, unfolding(crate::specs::FrameReading::timestamp_at))]
fn a_timestamp(fields: &mut Fields) -> Result<Option<i64>, ParseError>
    ensures { Gives (λ x. (x, bytes_left fields.new)) result (timestamp_at (bytes_left fields.old)) }
{
    let flag = a_byte(fields)?;
    if flag == 0 {
        Ok(None)
    } else if flag == 1 {
        Ok(Some(a_signed_number(fields)?))
    } else {
        Err(ParseError::Malformed)
    }
}

// Takes an update, and adds it to the mutation.
#[tactic(auto, unfolding(crate::specs::FrameReading::update_at))]
fn add_update(fields: &mut Fields, mutation: &mut Mutation) -> Result<(), ParseError>
    ensures { Gives (λ x. (mutation.new, bytes_left fields.new)) result (updated mutation.old (update_at (bytes_left fields.old))) }
{
    let kind = a_kind(fields)?;
    let family = a_field(fields)?;
    let qualifier = a_field(fields)?;
    let label = a_field(fields)?;
    let timestamp = a_timestamp(fields)?;
    match kind {
        Kind::Delete => mutation.delete(family, qualifier, label, timestamp)?,
        Kind::Put => {
            let value = a_field(fields)?;
            mutation.put(family, qualifier, label, timestamp, value)?;
        }
    }
    Ok(())
}

// Takes that many updates, and adds them to the mutation.
fn add_each(count: u32, fields: &mut Fields, mutation: &mut Mutation) -> Result<(), ParseError>
    ensures { Gives (λ x. (mutation.new, bytes_left fields.new)) result (grown mutation.old (parts_at update_at count (bytes_left fields.old))) }
{
    for _ in 0..count {
        match add_update(fields, mutation) {
            Ok(()) => {}
            Err(why) => return Err(why),
        }
    }
    Ok(())
}

// Takes a count, and that many updates. A count that the rest can't hold takes no memory.
#[tactic(auto, unfolding(crate::specs::FrameReading::updates_at))]
fn add_updates(fields: &mut Fields, mutation: &mut Mutation) -> Result<(), ParseError>
    ensures { Gives (λ x. (mutation.new, bytes_left fields.new)) result (grown mutation.old (updates_at (bytes_left fields.old))) }
{
    let count = a_number(fields)?;
    if fields.left() < count as usize * 14 {
        return Err(ParseError::Malformed);
    }
    add_each(count, fields, mutation)
}

/// Takes a row and its updates.
#[tactic(auto, unfolding(crate::specs::FrameReading::mutation_at))]
pub fn a_mutation(alloc: Global, fields: &mut Fields) -> Result<Mutation, ParseError>
    ensures { Gives (λ x. (x, bytes_left fields.new)) result (mutation_at (bytes_left fields.old)) }
{
    let row = a_field(fields)?;
    let mut mutation = Mutation::new(alloc, row)?;
    add_updates(fields, &mut mutation)?;
    Ok(mutation)
}
