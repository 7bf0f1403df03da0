//! An image as a text of CSV.
ghost use Rattle.std.specs.Prelude.{◌≡◌, ◌==◌, ◌&&◌, ◌<◌, ◌≤◌, [], ◌∷◌, cond, map, length, IfOk, OnOk, get_or};
ghost use Rattle.std.specs.List.{flat_map, slice_index_or};
ghost use Rattle.std.specs.Io.KnownBytes.{Appends};
ghost use Rattle.tab_csv.specs.CsvTexts.{csv_row, csv_text, kind_name, names, older_first, record_fields, same_key, table_csv};
ghost use Rattle.tab_csv.specs.Rows.{IsBetweenRows, Writes, goes_on_at, run_of, run_text};

use csv::Writer;
use itoa::Buffer;
use std::io::Write;
use tab_image::{Image, ImageTable, Records};
use tab_io::WriteFault;
use tab_key::{Kind, Name, RecordRef};

/// Writes what the image says as a text of CSV: the names of the columns, and a record for each record that is stored. Gives the writer back,
/// which has all of it.
///
/// It takes no memory, and fails where the writer does.
pub fn write_csv<W: Write + Drop>(writer: W, image: &Image) -> Result<W, WriteFault>
    ensures { IfOk result (λ w. Appends (W.contents writer) (W.contents w) (csv_text image.now)) }
{
    let mut rows = Writer::from_writer(writer);
    write_image(&mut rows, image)?;
    match rows.into_inner() {
        Ok(last) => Ok(last),
        Err(_) => Err(WriteFault),
    }
}

fn write_image<W: Write + Drop>(rows: &mut Writer<W>, image: &Image) -> Result<(), WriteFault>
    requires { IsBetweenRows rows.old }
    ensures { OnOk result (Writes W.contents rows.old rows.new (csv_text image.now)) }
{
    write_names(rows)?;
    write_tables(rows, image.tables.as_slice())
}

// Writes the names of the columns.
fn write_names<W: Write + Drop>(rows: &mut Writer<W>) -> Result<(), WriteFault>
    requires { IsBetweenRows rows.old }
    ensures { OnOk result (Writes W.contents rows.old rows.new (csv_row names)) }
{
    write_row(
        rows,
        &[
            b"table",
            b"row",
            b"family",
            b"qualifier",
            b"label",
            b"timestamp",
            b"kind",
            b"value",
        ],
    )
}

// Writes the records of each of the tables.
fn write_tables<W: Write + Drop>(
    rows: &mut Writer<W>,
    tables: &[ImageTable],
) -> Result<(), WriteFault>
    requires { IsBetweenRows rows.old }
    ensures { OnOk result (Writes W.contents rows.old rows.new (flat_map table_csv tables.now)) }
{
    for table in tables {
        match write_table(rows, &table.head.name, &table.records) {
            Ok(()) => {}
            Err(fault) => return Err(fault),
        }
    }
    Ok(())
}

// Writes the records of a table, those of one key with the older one first.
fn write_table<W: Write + Drop>(
    rows: &mut Writer<W>,
    table: &Name,
    records: &Records,
) -> Result<(), WriteFault>
    requires { IsBetweenRows rows.old }
    ensures { OnOk result (Writes W.contents rows.old rows.new (run_text table.now (older_first [] records.now))) }
{
    let mut begin = 0;
    for index in 0..records.len() {
        match write_before(rows, table, records, begin, index) {
            Ok(next) => begin = next,
            Err(fault) => return Err(fault),
        }
    }
    write_run(rows, table, records, begin, records.len())
}

// Writes the records from the first place to the second one, the last one first, unless the record there goes on with them. Gives the place
// at which those begin that are not written.
fn write_before<W: Write + Drop>(
    rows: &mut Writer<W>,
    table: &Name,
    records: &Records,
    begin: usize,
    index: usize,
) -> Result<usize, WriteFault>
    requires between { IsBetweenRows rows.old }
    requires ordered { begin ≤ index }
    requires within { index < length records.now }
    ensures { IfOk result (λ next. (next ≡ cond (goes_on_at records.now begin index) begin index)
        × Writes W.contents rows.old rows.new (run_text table.now (cond (goes_on_at records.now begin index) [] (run_of records.now begin index)))) }
{
    if goes_on(records, begin, index) {
        return Ok(begin);
    }
    write_run(rows, table, records, begin, index)?;
    Ok(index)
}

// Whether the record at the second place is of one key with those before it, from the first place on.
fn goes_on(records: &Records, begin: usize, index: usize) -> bool
    requires ordered { begin ≤ index }
    requires within { index < length records.now }
    ensures { result ≡ goes_on_at records.now begin index }
{
    if begin == index {
        return false;
    }
    is_of_one_key(&records.get(index - 1), &records.get(index))
}

// Whether both are of one column and have one timestamp.
fn is_of_one_key(one: &RecordRef<'_>, other: &RecordRef<'_>) -> bool
    ensures { result ≡ same_key one.now other.now }
{
    one.key().same_column(other.key()) && one.timestamp() == other.timestamp()
}

// Writes these records, the last one first.
fn write_run<W: Write + Drop>(
    rows: &mut Writer<W>,
    table: &Name,
    records: &Records,
    begin: usize,
    end: usize,
) -> Result<(), WriteFault>
    requires between { IsBetweenRows rows.old }
    requires ordered { begin ≤ end }
    requires within { end ≤ length records.now }
    ensures { OnOk result (Writes W.contents rows.old rows.new (run_text table.now (run_of records.now begin end))) }
{
    for index in 0..end - begin {
        match write_record(rows, table, &records.get(end - 1 - index)) {
            Ok(()) => {}
            Err(fault) => return Err(fault),
        }
    }
    Ok(())
}

// Writes a record.
fn write_record<W: Write + Drop>(
    rows: &mut Writer<W>,
    table: &Name,
    stored: &RecordRef<'_>,
) -> Result<(), WriteFault>
    requires { IsBetweenRows rows.old }
    ensures { OnOk result (Writes W.contents rows.old rows.new (csv_row (record_fields table.now stored.now))) }
{
    let mut buffer = Buffer::new();
    write_parts(
        rows,
        table.as_bytes(),
        stored.row(),
        stored.family(),
        stored.qualifier(),
        stored.label(),
        buffer.format(stored.timestamp()).as_bytes(),
        kind_name(stored.kind()),
        stored.value(),
    )
}

// Writes the fields of a record.
fn write_parts<'a, W: Write + Drop>(
    rows: &mut Writer<W>,
    table: &'a [u8],
    row: &'a [u8],
    family: &'a [u8],
    qualifier: &'a [u8],
    label: &'a [u8],
    timestamp: &'a [u8],
    kind: &'a [u8],
    value: &'a [u8],
) -> Result<(), WriteFault>
    requires { IsBetweenRows rows.old }
    ensures { OnOk result (Writes W.contents rows.old rows.new
        (csv_row (table.now ∷ row.now ∷ family.now ∷ qualifier.now ∷ label.now ∷ timestamp.now ∷ kind.now ∷ value.now ∷ []))) }
{
    write_row(
        rows,
        &[table, row, family, qualifier, label, timestamp, kind, value],
    )
}

fn kind_name(kind: Kind) -> &'static [u8]
    ensures { result.now ≡ kind_name kind }
{
    match kind {
        Kind::Put => b"put",
        Kind::Delete => b"delete",
    }
}

// Writes these fields as one record.
#[tactic(auto, using(crate::proofs::RowLemmas::row_written))]
fn write_row<W: Write + Drop>(rows: &mut Writer<W>, fields: &[&[u8]]) -> Result<(), WriteFault>
    requires { IsBetweenRows rows.old }
    ensures { OnOk result (Writes W.contents rows.old rows.new (csv_row (map (λ f. f.now) fields.now))) }
{
    match rows.write_fields(fields) {
        Ok(()) => Ok(()),
        Err(_) => Err(WriteFault),
    }
}
