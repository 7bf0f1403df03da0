//! Tables, made of heads and records.
ghost use Rattle.std.specs.Prelude.{◌≡◌, ℕ, List, map, cond, Some, IfOk, OnOk, bytes_eq};
ghost use Rattle.std.specs.List.{AllByRecursion, fold};
ghost use Rattle.tab_label.specs.Sets.{IsRising};
ghost use Rattle.tab_store.specs.Stores.{RiseByName};
ghost use Rattle.tab_store.specs.Tables.{table_at};
ghost use Rattle.tab_loading.specs.Tables.{IsOrdered, number_behind, numbered_from, table_state_of, held_table_of};

use std::alloc::Global;
use tab_image::{ImageTable, TableHead};
use tab_iter::NoMemory;
use tab_store::{Table, Tables};

/// These tables, whose tablets are numbered from 0 on, table after table, and the number behind all of them. Each table is made of its
/// records, which are given back then, before the next one is made.
pub(crate) fn tables_of(alloc: Global, tables: Vec<ImageTable>) -> Result<(Tables, u64), NoMemory>
    requires names { IsRising (map (λ t. t.head.name) tables.items) }
    requires each { AllByRecursion IsOrdered tables.items }
    ensures tables { IfOk result (λ made. made.0 ≡ map held_table_of (numbered_from 0 tables.items)) }
    ensures number { IfOk result (λ made. made.1 ≡ fold number_behind 0 tables.items) }
{
    let mut made = Tables::new(alloc);
    let mut number = 0;
    for table in tables {
        match put_table(alloc, &mut made, &mut number, table) {
            Ok(()) => {}
            Err(fault) => return Err(fault),
        }
    }
    Ok((made, number))
}

// Makes the table, whose tablets are numbered from this number on, and puts it under its name; the number is that behind its tablets then.
fn put_table(
    alloc: Global,
    made: &mut Tables,
    number: &mut u64,
    table: ImageTable,
) -> Result<(), NoMemory>
    requires { IsOrdered table }
    ensures tables { OnOk result ((q : List ℕ) → table_at made.new q ≡ cond (bytes_eq table.head.name q) (Some (table_state_of (record { number = number.old; table = table }))) (table_at made.old q)) }
    ensures names { OnOk result (RiseByName made.new) }
    ensures number { OnOk result (number.new ≡ number_behind number.old table) }
{
    let ImageTable { head, records } = table;
    let TableHead {
        name,
        time,
        versions,
        constraints,
        horizon,
        rights: _,
        ends,
    } = head;
    let restored = Table::restored(
        alloc,
        time,
        versions,
        constraints,
        horizon,
        *number,
        ends,
        records,
    )?;
    *number = number.saturating_add(restored.tablet_count());
    made.put_table(name, restored)
}
