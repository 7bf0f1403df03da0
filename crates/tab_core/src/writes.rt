//! Mutations written.
ghost use Rattle.std.specs.Prelude.{◌≡◌, ◌<◌, ◌⊎◌, Some, true, is_some, Contains, IfOk, OnOk};
ghost use Rattle.std.specs.Result.{result_err};
ghost use Rattle.tab_key.specs.Records.{Record};
ghost use Rattle.tab_mutation.specs.Shape.{first_some};
ghost use Rattle.tab_store.specs.ByRow.{records_of_all};
ghost use Rattle.tab_store.specs.Tables.{table_at, tablets_of};
ghost use Rattle.tab_core.specs.Stepping.{ActsOnTables, write_checks};

use crate::checking::checked;
use crate::reply::Answer;
use std::alloc::{AllocError, Global};
use tab_history::{Act, Refusal, Reply};
use tab_key::{LimitedPart, Name};
use tab_label::{AuthSet, KnownLabels};
use tab_mutation::{Mutation, Shaped};
use tab_store::{Table, Tables};

/// All updates of a mutation, or none, by a caller with these authorizations. The number is the one that the write gets.
pub fn write(
    alloc: Global,
    tables: &mut Tables,
    next: &mut u64,
    authorizations: &AuthSet,
    known: &mut KnownLabels,
    now: i64,
    table: &Name,
    mutation: &Mutation,
) -> Answer
    requires there { is_some (table_at tables.old table.now) ≡ true }
    requires unused { (u : Record) → Contains (records_of_all (tablets_of (table_at tables.old table.now))) u → u.seq < next.old }
    ensures { ActsOnTables authorizations.now now (Act.Write table.now mutation.now) tables.old next.old result tables.new next.new }
{
    let Some(table) = tables.get_mut(table) else {
        return Reply::Refused(Refusal::NoTable(*table));
    };
    let shaped = match numbered(alloc, table, authorizations, known, *next, now, mutation) {
        Ok(shaped) => shaped,
        Err(refusal) => return Reply::Refused(refusal),
    };
    match table.write(&shaped, *next, now) {
        Ok(()) => {
            *next += 1;
            Reply::Done
        }
        Err(AllocError) => Reply::Refused(Refusal::NoMemory),
    }
}

// The mutation as one that the table takes of a caller with these authorizations, or why it is refused, or that memory lacked; last of all
// checks comes the number that the write would get.
fn numbered<'a>(
    alloc: Global,
    table: &Table,
    authorizations: &AuthSet,
    known: &mut KnownLabels,
    next: u64,
    now: i64,
    mutation: &'a Mutation,
) -> Result<Shaped<'a>, Refusal>
    ensures answers { (result_err result ≡ first_some (write_checks (Some table.now.settings) authorizations.now now mutation.now next)) ⊎ (result_err result ≡ Some Refusal.NoMemory) }
    ensures same { IfOk result (λ s. s ≡ mutation.now) }
    ensures room { OnOk result (next < 18446744073709551615) }
{
    let shaped = checked(alloc, table, authorizations, known, now, mutation)?;
    if next == u64::MAX {
        return Err(Refusal::TooLarge(LimitedPart::Numbers));
    }
    Ok(shaped)
}
