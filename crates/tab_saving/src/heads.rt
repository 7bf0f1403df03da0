//! All of a table but its records, written.
#![tactic(auto, using(crate::proofs::Texts::saving, tab_io::proofs::Putting::putting))]

ghost use Rattle.std.specs.Prelude.{◌++◌};
ghost use Rattle.tab_image.specs.Images.{written_version};
ghost use Rattle.tab_image.specs.Spelling.{field, counted, right_bytes, settings_bytes, head_bytes};
ghost use Rattle.tab_store.specs.ByRow.{ends_of};
ghost use Rattle.tab_store.specs.Tables.{named_table};
ghost use Rattle.tab_io.specs.Writing.{Puts};
ghost use Rattle.tab_saving.specs.ImageOf.{rights_of, head_of};
ghost use Rattle.tab_saving.specs.Saves.{Saves, ForUsers};

use crate::fault::SaveFault;
use std::alloc::Global;
use tab_image::{put_count, put_field, put_right, put_settings};
use tab_io::{Output, WriteFault};
use tab_key::{ByteString, Name};
use tab_policy::{Holder, Policy};
use tab_store::Table;
use tab_text::{PutItem, put_each};

/// Puts a table's name, its settings, who may what on it, and its end rows.
pub(crate) fn put_head<W: Output>(
    alloc: Global,
    output: &mut W,
    policy: &Policy,
    name: &Name,
    table: &Table,
) -> Result<(), SaveFault>
    ensures { ForUsers policy.now (λ names. Saves W.Output output.old output.new (head_bytes written_version (head_of policy.now names (named_table (name.now, table.now)))) result) }
{
    put_front_of(output, name, table)?;
    put_lists(alloc, output, policy, name, table)
}

// Puts a table's name and its settings.
fn put_front_of<W: Output>(output: &mut W, name: &Name, table: &Table) -> Result<(), WriteFault>
    ensures { Puts W.Output output.old output.new (field name.now ++ settings_bytes written_version table.now.settings.time table.now.settings.versions table.now.settings.constraints table.now.settings.horizon) result }
{
    put_field(output, name.as_bytes())?;
    put_settings(
        output,
        table.time(),
        table.versions(),
        table.constraints(),
        table.horizon(),
    )
}

// Puts who may what on a table, and its end rows.
fn put_lists<W: Output>(
    alloc: Global,
    output: &mut W,
    policy: &Policy,
    name: &Name,
    table: &Table,
) -> Result<(), SaveFault>
    ensures { ForUsers policy.now (λ names. Saves W.Output output.old output.new (counted right_bytes (rights_of policy.now names name.now) ++ counted field (ends_of table.now.tablets)) result) }
{
    put_rights(alloc, output, policy, name)?;
    put_ends(alloc, output, table)
}

// Puts who may what on the table of this name.
fn put_rights<W: Output>(
    alloc: Global,
    output: &mut W,
    policy: &Policy,
    name: &Name,
) -> Result<(), SaveFault>
    ensures { ForUsers policy.now (λ names. Saves W.Output output.old output.new (counted right_bytes (rights_of policy.now names name.now)) result) }
{
    let holders = policy.holders(alloc, name)?;
    put_holders(output, holders.as_slice())?;
    Ok(())
}

#[tactic(auto, using(tab_io::proofs::Putting::putting))]
fn put_holders<W: Output>(output: &mut W, holders: &[Holder]) -> Result<(), WriteFault>
    ensures { Puts W.Output output.old output.new (counted (λ h. right_bytes (record { user = h.user; held = h.held })) holders.now) result }
{
    put_count(output, holders.len())?;
    put_each(output, holders, &Right)
}

// Puts the rows at which a table's tablets end.
fn put_ends<W: Output>(alloc: Global, output: &mut W, table: &Table) -> Result<(), SaveFault>
    ensures { Saves W.Output output.old output.new (counted field (ends_of table.now.tablets)) result }
{
    let ends = table.ends(alloc)?;
    put_rows(output, ends.as_slice())?;
    Ok(())
}

#[tactic(auto, using(tab_io::proofs::Putting::putting))]
fn put_rows<W: Output>(output: &mut W, rows: &[ByteString]) -> Result<(), WriteFault>
    ensures { Puts W.Output output.old output.new (counted field rows.now) result }
{
    put_count(output, rows.len())?;
    put_each(output, rows, &EndRow)
}

// Whoever holds something on a table, as an item of a list.
struct Right;

impl PutItem<Holder> for Right {
    ghost use Rattle.tab_image.specs.Spelling.{right_bytes};

    ghost text = { λ _ h. right_bytes (record { user = h.user; held = h.held }) };

    fn put_item<W: Output>(&self, output: &mut W, holder: &Holder) -> Result<(), WriteFault> {
        put_right(output, &holder.user, holder.held)
    }
}

// A row at which a tablet ends.
struct EndRow;

impl PutItem<ByteString> for EndRow {
    ghost use Rattle.tab_image.specs.Spelling.{field};

    ghost text = { λ _ row. field row };

    fn put_item<W: Output>(&self, output: &mut W, row: &ByteString) -> Result<(), WriteFault> {
        put_field(output, row.as_bytes())
    }
}
