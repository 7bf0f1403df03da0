//! Where the columns that a scan names begin in a row.
ghost use Rattle.std.specs.Prelude.{◌≡◌, ◌&&◌};
ghost use Rattle.std.specs.Ordering.{is_lt};
ghost use Rattle.tab_key.specs.KeyOf.{key_of};
ghost use Rattle.tab_key.specs.Order.{column_cmp};
ghost use Rattle.tab_iter.specs.NamedColumns.{start_in, start_of, start_past, IsFirstAfter};

use tab_key::{Column, Key};

// The first key of the column in the row.
fn start_in<'a>(row: &'a [u8], column: &'a Column) -> Key<'a>
    ensures { key_of result ≡ start_in row.now column.now }
{
    let (family, qualifier) = match column {
        Column::Family(family) => (family.as_bytes(), b"".as_slice()),
        Column::Qualified(family, qualifier) => (family.as_bytes(), qualifier.as_bytes()),
    };
    Key {
        row,
        family,
        qualifier,
        label: b"",
        timestamp: i64::MAX,
    }
}

/// The first key of the column in the row, or of the row where there is no column.
pub fn start_of<'a>(row: &'a [u8], column: Option<&'a Column>) -> Key<'a>
    ensures { key_of result ≡ start_of row.now column.entry }
{
    match column {
        None => Key {
            row,
            family: b"",
            qualifier: b"",
            label: b"",
            timestamp: i64::MAX,
        },
        Some(column) => start_in(row, column),
    }
}

// Whether the column begins after the key in its row, and before the first one so far.
fn is_nearer(column: &Column, first: Option<&Column>, key: Key<'_>) -> bool
    ensures { result ≡ (is_lt (column_cmp (key_of key.entry) (start_in key.entry.row.now column.now)) && is_lt (column_cmp (start_in key.entry.row.now column.now) (start_past key.entry.row.now first.entry))) }
{
    let start = start_in(key.row, column);
    let rival = match first {
        None => return key.column_cmp(start).is_lt(),
        Some(first) => start_in(key.row, first),
    };
    key.column_cmp(start).is_lt() && start.column_cmp(rival).is_lt()
}

/// The column that begins first of those that begin after the key in its row.
pub fn first_after<'a>(columns: &'a [Column], key: Key<'_>) -> Option<&'a Column>
    ensures { IsFirstAfter columns.now (key_of key.entry) result }
{
    let mut first = None;
    for column in columns {
        if is_nearer(column, first, key) {
            first = Some(column);
        }
    }
    first
}
