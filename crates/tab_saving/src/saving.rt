//! A core, saved as an image.
#![tactic(auto, using(crate::proofs::Texts::saving, tab_io::proofs::Putting::putting))]

ghost use Rattle.std.specs.Prelude.{◌++◌, OnOk};
ghost use Rattle.std.specs.List.{AllByRecursion};
ghost use Rattle.tab_io.specs.Writing.{Puts};
ghost use Rattle.tab_policy.specs.Holders.{AreUsers};
ghost use Rattle.tab_core.specs.Stepping.{IsCore};
ghost use Rattle.tab_image.specs.Images.{IsImage, written_version};
ghost use Rattle.tab_image.specs.Spelling.{counted, user_bytes, table_bytes, front_bytes, end_bytes, image_bytes};
ghost use Rattle.tab_saving.specs.ImageOf.{user_of, table_of, image_with};
ghost use Rattle.tab_saving.specs.Saves.{Saves, ForUsers, RootHasAll, AreListed};
ghost use Rattle.tab_saving.specs.Saving.{SavesImage};
ghost use Rattle.tab_saving.specs.Typed.{IsTypedUser, IsTypedTable, AreTypedClocks};

use crate::fault::SaveFault;
use crate::tables::put_tables;
use crate::users::put_users;
use std::alloc::Global;
use tab_core::Core;
use tab_image::{put_end, put_front};
use tab_io::{Output, WriteFault};
use tab_key::Name;
use tab_policy::Policy;
use tab_store::Tables;

/// Writes the image of a core, which stays as it is. The image is of the second version.
///
/// It goes through the core without a copy of it: memory is taken for the list of its users, for the rights and end rows of one table at
/// a time, and for what was written to one tablet since its last freeze. NoMemory is also told where a table has 2^64 - 1 records or
/// more, which an image can't count. After an error a beginning of the same bytes is written.
pub fn save<W: Output>(alloc: Global, output: &mut W, core: &Core) -> Result<(), SaveFault>
    ensures { SavesImage W.Output output.old output.new core.now result }
{
    core.keeps();
    let users = core.policy().users(alloc)?;
    put_core(alloc, output, core, users.as_slice())
}

// Writes the image of a core with these users.
fn put_core<W: Output>(
    alloc: Global,
    output: &mut W,
    core: &Core,
    users: &[Name],
) -> Result<(), SaveFault>
    requires core { IsCore core.now }
    requires users { AreUsers core.now.policy users.now }
    ensures put { Saves W.Output output.old output.new (image_bytes written_version (image_with core.now users.now)) result }
    ensures image { OnOk result (IsImage written_version (image_bytes written_version (image_with core.now users.now)) (image_with core.now users.now)) }
{
    put_clocks(output, core)?;
    put_held(alloc, output, core.policy(), core.tables(), users)
}

// Puts all before the users.
fn put_clocks<W: Output>(output: &mut W, core: &Core) -> Result<(), WriteFault>
    ensures put { Puts W.Output output.old output.new (front_bytes written_version core.now.clock core.now.next) result }
    ensures typed { AreTypedClocks core.now }
{
    let clock = core.clock();
    put_front(output, clock, core.next())
}

// Puts the users, and all behind them.
fn put_held<W: Output>(
    alloc: Global,
    output: &mut W,
    policy: &Policy,
    tables: &Tables,
    users: &[Name],
) -> Result<(), SaveFault>
    requires root { RootHasAll policy.now }
    requires users { AreUsers policy.now users.now }
    requires listed { AllByRecursion (λ t. AreListed t.tablets) tables.now }
    ensures put { Saves W.Output output.old output.new (counted (λ n. user_bytes (user_of policy.now n)) users.now ++ (counted (λ t. table_bytes written_version (table_of policy.now users.now t)) tables.now ++ end_bytes)) result }
    ensures users { OnOk result (AllByRecursion (IsTypedUser policy.now) users.now) }
    ensures tables { OnOk result (AllByRecursion IsTypedTable tables.now) }
{
    put_users(output, policy, users)?;
    put_rest(alloc, output, policy, tables)
}

// Puts the tables, and the mark of the end.
fn put_rest<W: Output>(
    alloc: Global,
    output: &mut W,
    policy: &Policy,
    tables: &Tables,
) -> Result<(), SaveFault>
    requires { AllByRecursion (λ t. AreListed t.tablets) tables.now }
    ensures put { ForUsers policy.now (λ names. Saves W.Output output.old output.new (counted (λ t. table_bytes written_version (table_of policy.now names t)) tables.now ++ end_bytes) result) }
    ensures typed { OnOk result (AllByRecursion IsTypedTable tables.now) }
{
    put_tables(alloc, output, policy, tables)?;
    put_end(output)?;
    Ok(())
}
