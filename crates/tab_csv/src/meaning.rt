//! What a record means.
ghost use Rattle.std.specs.Prelude.{◌≡◌};
ghost use Rattle.csv.specs.Records.{fields_of};
ghost use Rattle.tab_csv.specs.Meaning.{change, meaning};
ghost use Rattle.tab_csv.specs.Parts.{change_in, Finds};

use crate::checks::record_fault;
use crate::column::CsvColumn;
use crate::fields::field;
use crate::header::Header;
use crate::kind::kind_of;
use crate::number::timestamp_of;
use crate::record_fault::RecordFault;
use csv::ByteRecord;
use tab_key::{Kind, Name};
use tab_label::AuthSet;

/// What a record means: an update of a row of a table. Its parts lie in the record.
#[derive(Clone, Copy, Debug)]
pub struct Meant<'a> {
    /// The table's name.
    pub table: &'a [u8],
    /// The row.
    pub row: &'a [u8],
    /// The column family.
    pub family: &'a [u8],
    /// The column qualifier.
    pub qualifier: &'a [u8],
    /// The label.
    pub label: &'a [u8],
    /// The timestamp, if there is one.
    pub timestamp: Option<i64>,
    /// Whether a cell or a marker is written.
    pub kind: Kind,
    /// The value, of a marker an empty one.
    pub value: &'a [u8],
}

/// What the record means, or the first thing that is wrong with it. `given` is the table's name where no column has it; `none` is an empty
/// set, under which labels are read. It takes no memory.
#[tactic(auto, unfolding(crate::specs::Meaning::meaning))]
pub fn meaning_of<'a>(
    header: &Header,
    given: &'a Option<Name>,
    row: &'a ByteRecord,
    none: &AuthSet,
) -> Result<Meant<'a>, RecordFault>
    ensures { Finds result (meaning header.now given.now (fields_of row.now)) }
{
    match record_fault(header, given, row, none) {
        Some(fault) => Err(fault),
        None => Ok(read(header, given, row)),
    }
}

// What the record means, in which nothing is wrong.
fn read<'a>(header: &Header, given: &'a Option<Name>, row: &'a ByteRecord) -> Meant<'a>
    ensures { change_in result ≡ change header.now given.now (fields_of row.now) }
{
    Meant {
        table: table(header, given, row),
        row: field(header, row, CsvColumn::Row),
        family: field(header, row, CsvColumn::Family),
        qualifier: field(header, row, CsvColumn::Qualifier),
        label: field(header, row, CsvColumn::Label),
        timestamp: timestamp_of(field(header, row, CsvColumn::Timestamp)).unwrap_or(None),
        kind: kind_of(field(header, row, CsvColumn::Kind)).unwrap_or(Kind::Put),
        value: field(header, row, CsvColumn::Value),
    }
}

// The name of the record's table.
fn table<'a>(header: &Header, given: &'a Option<Name>, row: &'a ByteRecord) -> &'a [u8]
    ensures { result.now ≡ (change header.now given.now (fields_of row.now)).table }
{
    match given {
        Some(name) => name.as_bytes(),
        None => field(header, row, CsvColumn::Table),
    }
}
