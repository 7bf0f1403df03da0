//! The parts of requests, put as a client sends them: ends of ranges, columns, updates.
#![tactic(auto, using(tab_io::proofs::Putting::putting))]

ghost use Rattle.std.specs.Prelude.{◌≡◌, ℤ, Option, [], ◌∷◌, ◌++◌};
ghost use Rattle.std.specs.List.{flat_map};
ghost use Rattle.tab_io.specs.Writing.{Puts};
ghost use Rattle.tab_key.specs.declared.key.Kind.{Kind as Kinds};
ghost use Rattle.tab_codec.specs.Parts.{kind_byte};
ghost use Rattle.tab_wire.specs.Replies.{i64, field};
ghost use Rattle.tab_wire.specs.Sending.{bound_bytes, bounds_bytes, column_bytes, timestamp_bytes, value_part, update_bytes, counted};

use tab_codec::{kind_byte, put_field, put_length, put_signed};
use tab_io::{Output, WriteFault, put_byte};
use tab_key::{Bound, Bounds, Column, Kind};
use tab_mutation::{Mutation, UpdateRef};

/// Puts the ends of a range.
pub fn put_bounds<W: Output>(output: &mut W, bounds: &Bounds) -> Result<(), WriteFault>
    ensures { Puts W.Output output.old output.new (bounds_bytes bounds.now) result }
{
    put_bound(output, &bounds.low)?;
    put_bound(output, &bounds.high)
}

fn put_bound<W: Output>(output: &mut W, bound: &Bound) -> Result<(), WriteFault>
    ensures { Puts W.Output output.old output.new (bound_bytes bound.now) result }
{
    match bound {
        Bound::Unbounded => put_byte(output, 0),
        Bound::Inclusive(row) => put_tagged(output, 1, row.as_bytes()),
        Bound::Exclusive(row) => put_tagged(output, 2, row.as_bytes()),
    }
}

// A byte and a field.
fn put_tagged<W: Output>(output: &mut W, tag: u8, text: &[u8]) -> Result<(), WriteFault>
    ensures { Puts W.Output output.old output.new (tag ∷ field text.now) result }
{
    put_byte(output, tag)?;
    put_field(output, text)
}

/// Puts a column.
pub fn put_column<W: Output>(output: &mut W, column: &Column) -> Result<(), WriteFault>
    ensures { Puts W.Output output.old output.new (column_bytes column.now) result }
{
    match column {
        Column::Family(family) => put_family(output, family.as_bytes()),
        Column::Qualified(family, qualifier) => {
            put_qualified(output, family.as_bytes(), qualifier.as_bytes())
        }
    }
}

fn put_family<W: Output>(output: &mut W, family: &[u8]) -> Result<(), WriteFault>
    ensures { Puts W.Output output.old output.new (field family.now ++ 0 ∷ []) result }
{
    put_field(output, family)?;
    put_byte(output, 0)
}

fn put_qualified<W: Output>(
    output: &mut W,
    family: &[u8],
    qualifier: &[u8],
) -> Result<(), WriteFault>
    ensures { Puts W.Output output.old output.new (field family.now ++ 1 ∷ field qualifier.now) result }
{
    put_field(output, family)?;
    put_tagged(output, 1, qualifier)
}

/// Puts how many updates a mutation has, and each of them.
pub fn put_updates<W: Output>(output: &mut W, mutation: &Mutation) -> Result<(), WriteFault>
    ensures { Puts W.Output output.old output.new (counted update_bytes mutation.now.updates) result }
{
    put_length(output, mutation.len())?;
    put_each_update(output, mutation)
}

fn put_each_update<W: Output>(output: &mut W, mutation: &Mutation) -> Result<(), WriteFault>
    ensures { Puts W.Output output.old output.new (flat_map update_bytes mutation.now.updates) result }
{
    for index in 0..mutation.len() {
        match put_update(output, &mutation.update(index)) {
            Ok(()) => {}
            Err(fault) => return Err(fault),
        }
    }
    Ok(())
}

fn put_update<W: Output>(output: &mut W, update: &UpdateRef<'_>) -> Result<(), WriteFault>
    ensures { Puts W.Output output.old output.new (update_bytes update.now) result }
{
    put_kind(output, update)?;
    put_key(output, update)
}

fn put_kind<W: Output>(output: &mut W, update: &UpdateRef<'_>) -> Result<(), WriteFault>
    ensures { Puts W.Output output.old output.new (kind_byte update.now.kind ∷ []) result }
{
    put_byte(output, kind_byte(update.kind()))
}

// All of an update but its kind.
fn put_key<W: Output>(output: &mut W, update: &UpdateRef<'_>) -> Result<(), WriteFault>
    ensures { Puts W.Output output.old output.new (field update.now.family ++ (field update.now.qualifier ++ (field update.now.label ++ (timestamp_bytes update.now.timestamp ++ value_part update.now.kind update.now.value)))) result }
{
    put_field(output, update.family())?;
    put_behind_family(output, update)
}

fn put_behind_family<W: Output>(output: &mut W, update: &UpdateRef<'_>) -> Result<(), WriteFault>
    ensures { Puts W.Output output.old output.new (field update.now.qualifier ++ (field update.now.label ++ (timestamp_bytes update.now.timestamp ++ value_part update.now.kind update.now.value))) result }
{
    put_field(output, update.qualifier())?;
    put_behind_column(output, update)
}

fn put_behind_column<W: Output>(output: &mut W, update: &UpdateRef<'_>) -> Result<(), WriteFault>
    ensures { Puts W.Output output.old output.new (field update.now.label ++ (timestamp_bytes update.now.timestamp ++ value_part update.now.kind update.now.value)) result }
{
    put_field(output, update.label())?;
    put_given(output, update)
}

fn put_given<W: Output>(output: &mut W, update: &UpdateRef<'_>) -> Result<(), WriteFault>
    ensures { Puts W.Output output.old output.new (timestamp_bytes update.now.timestamp ++ value_part update.now.kind update.now.value) result }
{
    put_timestamp(output, update.timestamp())?;
    put_value(output, update.kind(), update.value())
}

fn put_timestamp<W: Output>(output: &mut W, timestamp: Option<i64>) -> Result<(), WriteFault>
    ensures { Puts W.Output output.old output.new (timestamp_bytes timestamp) result }
{
    match timestamp {
        None => put_byte(output, 0),
        Some(timestamp) => put_given_timestamp(output, timestamp),
    }
}

fn put_given_timestamp<W: Output>(output: &mut W, timestamp: i64) -> Result<(), WriteFault>
    ensures { Puts W.Output output.old output.new (1 ∷ i64 timestamp) result }
{
    put_byte(output, 1)?;
    put_signed(output, timestamp)
}

// The value of a put; a marker has none.
fn put_value<W: Output>(output: &mut W, kind: Kind, value: &[u8]) -> Result<(), WriteFault>
    ensures { Puts W.Output output.old output.new (value_part kind value.now) result }
{
    match kind {
        Kind::Delete => output.put(b""),
        Kind::Put => put_field(output, value),
    }
}
