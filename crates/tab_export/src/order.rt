//! The records of the tables that give the timestamps, in the order in which they are written.
ghost use Rattle.std.specs.Prelude.{◌≡◌, ◌++◌, map, IfOk, OnOk};
ghost use Rattle.std.specs.List.{flat_map};
ghost use Rattle.std.specs.List.Sorted.{IsPermutation, IsSortedBy};
ghost use Rattle.tab_export.specs.Places.{place, table_places, written_before};

use crate::placed::Placed;
use std::alloc::{AllocError, Global};
use tab_history::TimeMode;
use tab_image::{ImageTable, Records};
use tab_key::Name;

/// The records of those of the tables that give the timestamps: by time, then by the number of their mutation, then by their place in it. It
/// takes 32 bytes for each of them, and up to twice as many besides while the list grows. `AllocError` says that these lacked.
pub fn server_records<'a>(
    alloc: Global,
    tables: &'a [ImageTable],
) -> Result<Vec<Placed<'a>>, AllocError>
    ensures all { IfOk result (λ order. IsPermutation (flat_map table_places tables.now) order.items) }
    ensures rises { IfOk result (λ order. IsSortedBy written_before order.items) }
{
    let mut order = gathered(alloc, tables)?;
    order.sort_unstable_by(|a, b| a.cmp(b));
    Ok(order)
}

// Those records, table after table.
fn gathered<'a>(alloc: Global, tables: &'a [ImageTable]) -> Result<Vec<Placed<'a>>, AllocError>
    ensures { IfOk result (λ order. order.items ≡ flat_map table_places tables.now) }
{
    let mut order = Vec::new(alloc);
    for table in tables {
        match add_table(&mut order, table) {
            Ok(()) => {}
            Err(fault) => return Err(fault),
        }
    }
    Ok(order)
}

// Puts the records of the table behind the others, if it gives the timestamps.
fn add_table<'a>(order: &mut Vec<Placed<'a>>, table: &'a ImageTable) -> Result<(), AllocError>
    ensures { OnOk result (order.new.items ≡ order.old.items ++ table_places table.now) }
{
    match table.head.time {
        TimeMode::Any => Ok(()),
        TimeMode::Server => add_records(order, &table.head.name, &table.records),
    }
}

// Puts the records behind the others.
fn add_records<'a>(
    order: &mut Vec<Placed<'a>>,
    table: &'a Name,
    records: &'a Records,
) -> Result<(), AllocError>
    ensures { OnOk result (order.new.items ≡ order.old.items ++ map (place table.now) records.now) }
{
    for index in 0..records.len() {
        order.push(Placed::new(table, records.get(index)))?;
    }
    Ok(())
}
