//! The fields of a record, by their places and by their columns.
ghost use Rattle.std.specs.Prelude.{◌≡◌, [], length, unwrap_or};
ghost use Rattle.csv.specs.Records.{field_at, fields_of};
ghost use Rattle.tab_csv.specs.Meaning.{field};

use crate::column::CsvColumn;
use crate::header::Header;
use csv::ByteRecord;

/// How many fields there are.
#[tactic(auto, using(crate::proofs::FieldLemmas::counted))]
pub(crate) fn count_of(row: &ByteRecord) -> usize
    ensures { result ≡ length (fields_of row.now) }
{
    row.len()
}

/// The field at this place, empty where there are fewer.
pub(crate) fn field_at(row: &ByteRecord, place: usize) -> &[u8]
    ensures { result.now ≡ unwrap_or (field_at (fields_of row.now) place) [] }
{
    match row.get(place) {
        Some(text) => text,
        None => b"",
    }
}

/// The field of this column, empty where the column isn't there.
pub(crate) fn field<'a>(header: &Header, row: &'a ByteRecord, column: CsvColumn) -> &'a [u8]
    ensures { result.now ≡ field header.now (fields_of row.now) column }
{
    match header.place(column) {
        Some(place) => field_at(row, place),
        None => b"",
    }
}
