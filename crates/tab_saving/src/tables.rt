//! The tables of a core, written.
#![tactic(auto, using(crate::proofs::Texts::saving, tab_io::proofs::Putting::putting))]

ghost use Rattle.std.specs.Prelude.{OnOk};
ghost use Rattle.std.specs.List.{AllByRecursion, flat_map};
ghost use Rattle.tab_image.specs.Images.{written_version};
ghost use Rattle.tab_image.specs.Spelling.{counted, table_bytes};
ghost use Rattle.tab_store.specs.Tables.{named_table};
ghost use Rattle.tab_saving.specs.ImageOf.{table_of};
ghost use Rattle.tab_saving.specs.Saves.{Saves, ForUsers, AreListed};
ghost use Rattle.tab_saving.specs.Typed.{IsTypedHead, IsTypedTable};

use crate::fault::SaveFault;
use crate::heads::put_head;
use crate::records::put_records;
use std::alloc::Global;
use tab_image::put_count;
use tab_io::Output;
use tab_key::Name;
use tab_policy::Policy;
use tab_store::{Table, Tables};

/// Puts a count of tables, and each of them.
pub(crate) fn put_tables<W: Output>(
    alloc: Global,
    output: &mut W,
    policy: &Policy,
    tables: &Tables,
) -> Result<(), SaveFault>
    requires { AllByRecursion (λ t. AreListed t.tablets) tables.now }
    ensures put { ForUsers policy.now (λ names. Saves W.Output output.old output.new (counted (λ t. table_bytes written_version (table_of policy.now names t)) tables.now) result) }
    ensures typed { OnOk result (AllByRecursion IsTypedTable tables.now) }
{
    put_count(output, tables.len())?;
    put_each_table(alloc, output, policy, tables)
}

fn put_each_table<W: Output>(
    alloc: Global,
    output: &mut W,
    policy: &Policy,
    tables: &Tables,
) -> Result<(), SaveFault>
    requires { AllByRecursion (λ t. AreListed t.tablets) tables.now }
    ensures put { ForUsers policy.now (λ names. Saves W.Output output.old output.new (flat_map (λ t. table_bytes written_version (table_of policy.now names t)) tables.now) result) }
    ensures typed { OnOk result (AllByRecursion IsTypedTable tables.now) }
{
    for (name, table) in tables.iter() {
        match put_table(alloc, output, policy, &name.to_name(), table) {
            Ok(()) => {}
            Err(fault) => return Err(fault),
        }
    }
    Ok(())
}

// Puts a table with its records.
#[tactic(auto, using(crate::proofs::Texts::saving, tab_io::proofs::Putting::putting), unfolding(tab_image::specs::Spelling::table_bytes))]
fn put_table<W: Output>(
    alloc: Global,
    output: &mut W,
    policy: &Policy,
    name: &Name,
    table: &Table,
) -> Result<(), SaveFault>
    requires { AreListed table.now.tablets }
    ensures put { ForUsers policy.now (λ names. Saves W.Output output.old output.new (table_bytes written_version (table_of policy.now names (named_table (name.now, table.now)))) result) }
    ensures typed { OnOk result (IsTypedTable (named_table (name.now, table.now))) }
{
    keep_types(name, table);
    put_head(alloc, output, policy, name, table)?;
    put_records(alloc, output, table)
}

// The name is one, and so are the settings: nothing is done, and it is known afterwards.
fn keep_types(name: &Name, table: &Table)
    ensures { IsTypedHead name.now table.now.settings }
{
    let _bytes = name.as_bytes();
    let _count = table.versions().get();
    table.constraints().keeps();
    let _horizon = table.horizon();
}
