//! The records of a table, written tablet by tablet.
#![tactic(auto)]

ghost use Rattle.std.specs.Prelude.{◌<◌, length, OnOk};
ghost use Rattle.std.specs.List.{AllByRecursion, flat_map};
ghost use Rattle.tab_key.specs.Sorted.{sorted};
ghost use Rattle.tab_image.specs.Spelling.{record_bytes, records_bytes};
ghost use Rattle.tab_store.specs.ByRow.{records_of_all};
ghost use Rattle.tab_store.specs.Places.{tablet_at};
ghost use Rattle.tab_store.specs.Tablets.{records_in};
ghost use Rattle.tab_saving.specs.Saves.{Saves, AreListed};
ghost use Rattle.tab_saving.specs.Typed.{IsTypedRecord, AreTypedRecords};

use crate::fault::SaveFault;
use std::alloc::Global;
use tab_image::{put_record, put_record_count};
use tab_io::Output;
use tab_iter::Source;
use tab_key::RecordRef;
use tab_store::Table;

/// Puts a count of a table's records, and each of them, tablet by tablet. A table of 2^64 - 1 records or more can't be counted: it is
/// told as want of memory.
pub(crate) fn put_records<W: Output>(
    alloc: Global,
    output: &mut W,
    table: &Table,
) -> Result<(), SaveFault>
    requires { AreListed table.now.tablets }
    ensures put { Saves W.Output output.old output.new (records_bytes (sorted (records_of_all table.now.tablets))) result }
    ensures typed { OnOk result (AreTypedRecords (sorted (records_of_all table.now.tablets))) }
{
    let count = table.counts().records;
    if count == u64::MAX {
        return Err(SaveFault::NoMemory);
    }
    put_record_count(output, count as usize)?;
    put_tablets(alloc, output, table)
}

fn put_tablets<W: Output>(alloc: Global, output: &mut W, table: &Table) -> Result<(), SaveFault>
    requires { AreListed table.now.tablets }
    ensures put { Saves W.Output output.old output.new (flat_map record_bytes (sorted (records_of_all table.now.tablets))) result }
    ensures typed { OnOk result (AllByRecursion IsTypedRecord (sorted (records_of_all table.now.tablets))) }
{
    for place in 0..table.tablet_count() {
        match put_tablet(alloc, output, table, place) {
            Ok(()) => {}
            Err(fault) => return Err(fault),
        }
    }
    Ok(())
}

// Puts what the tablet at a place holds. What was written to it since its last freeze is copied, and nothing else.
fn put_tablet<W: Output>(
    alloc: Global,
    output: &mut W,
    table: &Table,
    place: u64,
) -> Result<(), SaveFault>
    requires { place < length table.now.tablets }
    ensures put { Saves W.Output output.old output.new (flat_map record_bytes (sorted (records_in (tablet_at table.now.tablets place)))) result }
    ensures typed { OnOk result (AllByRecursion IsTypedRecord (sorted (records_in (tablet_at table.now.tablets place)))) }
{
    let version = table.version_at(alloc, place)?;
    let mut records = version.raw(alloc)?;
    put_all(output, &mut records)
}

// Puts the records that the source has left, which it reads to its end. No record is copied.
fn put_all<S: Source, W: Output>(output: &mut W, source: &mut S) -> Result<(), SaveFault>
    ensures put { Saves W.Output output.old output.new (flat_map record_bytes (S.rest source.old)) result }
    ensures typed { OnOk result (AllByRecursion IsTypedRecord (S.rest source.old)) }
{
    while let Some(next) = source.top() {
        keep_types(&next);
        match put_record(output, &next) {
            Ok(()) => {}
            Err(_) => return Err(SaveFault::Write),
        }
        match source.advance() {
            Ok(()) => {}
            Err(_) => return Err(SaveFault::NoMemory),
        }
    }
    Ok(())
}

// The record's numbers are of their widths: nothing is done, and it is known afterwards.
fn keep_types(record: &RecordRef<'_>)
    ensures { IsTypedRecord record.now }
{
    let _bits = record.timestamp().cast_unsigned();
    let _seq = record.seq();
    let _idx = record.idx();
}
