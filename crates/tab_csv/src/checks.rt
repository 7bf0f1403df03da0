//! What is wrong with a record.
ghost use Rattle.std.specs.Prelude.{◌≡◌, ◌==◌, not, length, map};
ghost use Rattle.csv.specs.Records.{fields_of};
ghost use Rattle.tab_label.specs.Reading.{label_of};
ghost use Rattle.tab_mutation.specs.Shape.{first_some, when};
ghost use Rattle.tab_csv.specs.Columns.{place};
ghost use Rattle.tab_csv.specs.Meaning.{field, is_name, kind_of, timestamp_of, no_label, table_fault, long_fault, long_checks, said_checks, value_fault, record_checks};
ghost use Rattle.tab_csv.specs.declared.column.CsvColumn.TheVariants as column;
ghost use Rattle.tab_csv.specs.declared.record_fault.RecordFault.TheVariants as fault;

use crate::column::CsvColumn;
use crate::fields::{count_of, field};
use crate::header::Header;
use crate::kind::kind_of;
use crate::number::timestamp_of;
use crate::record_fault::RecordFault;
use csv::ByteRecord;
use tab_key::{Kind, MAX_PART_LEN, Name};
use tab_label::{AuthSet, judge};

/// What is wrong with a record, if anything is. Nobody has the authorizations `none`, under which its label is read.
pub(crate) fn record_fault(
    header: &Header,
    given: &Option<Name>,
    row: &ByteRecord,
    none: &AuthSet,
) -> Option<RecordFault>
    ensures { result ≡ first_some (record_checks header.now given.now (fields_of row.now)) }
{
    if count_of(row) != header.count() {
        return Some(RecordFault::Fields(count_of(row), header.count()));
    }
    if let Some(fault) = table_fault(header, given, row) {
        return Some(fault);
    }
    if let Some(fault) = too_long(header, row) {
        return Some(fault);
    }
    said_fault(
        field(header, row, CsvColumn::Label),
        field(header, row, CsvColumn::Timestamp),
        field(header, row, CsvColumn::Kind),
        field(header, row, CsvColumn::Value),
        none,
    )
}

fn table_fault(header: &Header, given: &Option<Name>, row: &ByteRecord) -> Option<RecordFault>
    ensures { result ≡ table_fault header.now given.now (fields_of row.now) }
{
    match given {
        Some(_) => None,
        None => no_name(field(header, row, CsvColumn::Table)),
    }
}

fn no_name(bytes: &[u8]) -> Option<RecordFault>
    ensures { result ≡ when (not (is_name bytes.now)) fault.Table }
{
    match Name::new(bytes) {
        Some(_) => None,
        None => Some(RecordFault::Table),
    }
}

fn too_long(header: &Header, row: &ByteRecord) -> Option<RecordFault>
    ensures { result ≡ first_some (long_checks header.now (fields_of row.now)) }
{
    if let Some(fault) = long_fault(header, row, CsvColumn::Row) {
        return Some(fault);
    }
    if let Some(fault) = long_fault(header, row, CsvColumn::Family) {
        return Some(fault);
    }
    if let Some(fault) = long_fault(header, row, CsvColumn::Qualifier) {
        return Some(fault);
    }
    if let Some(fault) = long_fault(header, row, CsvColumn::Label) {
        return Some(fault);
    }
    long_fault(header, row, CsvColumn::Value)
}

fn long_fault(header: &Header, row: &ByteRecord, column: CsvColumn) -> Option<RecordFault>
    ensures { result ≡ long_fault header.now (fields_of row.now) column }
{
    if field(header, row, column).len() > MAX_PART_LEN {
        Some(RecordFault::TooLong(column))
    } else {
        None
    }
}

fn said_fault(
    label: &[u8],
    timestamp: &[u8],
    kind: &[u8],
    value: &[u8],
    none: &AuthSet,
) -> Option<RecordFault>
    ensures { result ≡ first_some (said_checks label.now timestamp.now kind.now value.now) }
{
    if let Some(fault) = label_fault(label, none) {
        return Some(fault);
    }
    if timestamp_of(timestamp).is_none() {
        return Some(RecordFault::Timestamp);
    }
    match kind_of(kind) {
        None => Some(RecordFault::Kind),
        Some(Kind::Delete) if !value.is_empty() => Some(RecordFault::Value),
        Some(_) => None,
    }
}

#[tactic(auto, using(crate::proofs::LabelLemmas::judged_says))]
fn label_fault(label: &[u8], none: &AuthSet) -> Option<RecordFault>
    ensures { result ≡ no_label (label_of label.now) }
{
    match judge(label, none) {
        Ok(_) => None,
        Err(offset) => Some(RecordFault::Label(offset)),
    }
}
