//! Tables of no record, of one block and of several, with parts and values round the lengths that are copied in one step, and with rows
//! of 1 MiB: read from each record on, and sought at each one and between any two, beside the list of their records.

use std::alloc::Global;
use std::process::Abort;
use tab_iter::{ListSource, Source, is_rising};
use tab_key::{Bound, Bounds, ByteString, Key, Kind, Record};
use tab_table::{Cursor, SortedTable};
use tab_testing::{Update, table_len};

// Parts of 15 bytes to 17, much of them alike.
const ROWS: [&[u8]; 5] = [
    b"a row, 15 bytes",
    b"a row, 15 bytes.",
    b"a row, 15 bytes..",
    b"a row, of 16 byt",
    b"another row 17 by",
];

const FAMILIES: [&[u8]; 3] = [
    b"family 15 bytes",
    b"family 15 bytes.",
    b"family 15 bytes..",
];

const QUALIFIERS: [&[u8]; 3] = [b"", b"qualifier 15 by", b"qualifier 16 byt"];

const LABELS: [&[u8]; 3] = [b"", b"ABCDEFGHIJKLMNO", b"ABCDEFGHIJKLMNOP"];

// Values are its beginnings of 31 bytes to 33.
const VALUE: &[u8] = b"a value of many bytes, of 33 here";

const MIB: usize = 1_048_576;

// The update with this index below 135, in the order of keys. Each fifth one is a marker.
fn update_at(index: usize) -> Update {
    Update {
        row: ROWS[index / 27 % 5],
        family: FAMILIES[index / 9 % 3],
        qualifier: QUALIFIERS[index / 3 % 3],
        label: LABELS[index % 3],
        timestamp: 7,
        is_clocked: false,
        is_put: index % 5 < 4,
        seq: (index % 256) as u8,
        idx: 0,
    }
}

// The record of a key.
fn record_of(rt: &impl Abort, alloc: Global, key: Key<'_>, kind: Kind, value: &[u8]) -> Record {
    let record = Record::new(alloc, key, kind, value, 5, 1);
    record.expect(rt, "memory").expect(rt, "short parts")
}

// The records of the first updates, with long values.
fn long_records(rt: &impl Abort, alloc: Global, count: usize) -> Vec<Record> {
    let mut records = Vec::new(alloc);
    for index in 0..count {
        let key = update_at(index).key();
        let record = record_of(rt, alloc, key, Kind::Put, &VALUE[..31 + index % 3]);
        records.push(record).expect(rt, "memory");
    }
    records
}

// The records of these updates, as these have them.
fn records_of(rt: &impl Abort, alloc: Global, updates: &[Update]) -> Vec<Record> {
    let mut records = Vec::new(alloc);
    for update in updates {
        let record = if update.is_put {
            record_of(rt, alloc, update.key(), Kind::Put, &update.value())
        } else {
            record_of(rt, alloc, update.key(), Kind::Delete, b"")
        };
        records.push(record).expect(rt, "memory");
    }
    records
}

fn updates(rt: &impl Abort, alloc: Global, count: usize) -> Vec<Update> {
    let mut updates = Vec::new(alloc);
    for index in 0..count {
        updates.push(update_at(index)).expect(rt, "memory");
    }
    updates
}

fn table_of(rt: &impl Abort, alloc: Global, records: Vec<Record>) -> SortedTable {
    assert!(rt; is_rising(&records));
    let mut source = ListSource::new(records);
    SortedTable::build(alloc, &mut source, 0, 0).expect(rt, "memory")
}

// The cursor has these records left, and no others.
fn expect_left(rt: &impl Abort, cursor: &mut Cursor<'_>, want: &[Record]) {
    for record in want {
        let top = cursor.top();
        let is_next = top.is_some_and(|top| top.same_record(&record.as_ref()));
        assert!(rt; is_next);
        cursor.advance().expect(rt, "memory");
    }
    assert!(rt; cursor.top().is_none());
}

fn expect_from(rt: &impl Abort, cursor: &mut Cursor<'_>, key: Key<'_>, want: &[Record]) {
    cursor.seek(key).expect(rt, "memory");
    expect_left(rt, cursor, want);
}

fn read_from_each(rt: &impl Abort, alloc: Global, table: &SortedTable, want: &[Record]) {
    let count = table.len();
    assert!(rt; count == want.len());
    for from in 0..count {
        let mut cursor = Cursor::over(alloc, table, from, count).expect(rt, "memory");
        expect_left(rt, &mut cursor, &want[from..]);
    }
}

// At the key of each record, before it and behind it.
fn seek_each(rt: &impl Abort, alloc: Global, table: &SortedTable, want: &[Record]) {
    let mut cursor = Cursor::new(alloc, table).expect(rt, "memory");
    for (index, record) in want.iter().enumerate() {
        let key = record.as_ref().key();
        let before = Key {
            timestamp: 8,
            ..key
        };
        let behind = Key {
            timestamp: 6,
            ..key
        };
        expect_from(rt, &mut cursor, behind, &want[index + 1..]);
        expect_from(rt, &mut cursor, key, &want[index..]);
        expect_from(rt, &mut cursor, before, &want[index..]);
    }
}

// The table is read and sought beside the list.
fn check(rt: &impl Abort, alloc: Global, table: &SortedTable, want: &[Record]) {
    read_from_each(rt, alloc, table, want);
    seek_each(rt, alloc, table, want);
}

// Of so many records.
fn check_count(rt: &impl Abort, alloc: Global, count: usize) {
    let updates = updates(rt, alloc, count);
    let table = table_of(rt, alloc, records_of(rt, alloc, &updates));
    assert!(rt; table.size() == table_len(&updates));
    check(rt, alloc, &table, &records_of(rt, alloc, &updates));
}

fn check_counts(rt: &impl Abort, alloc: Global, counts: &[usize]) {
    for count in counts {
        check_count(rt, alloc, *count);
    }
}

#[test]
fn tables_about_blocks_are_read_and_sought(rt: HostRuntime) {
    let alloc = rt.alloc();
    check_counts(&rt, alloc, &[0, 1, 63, 64, 65, 128, 129]);
}

#[test]
fn long_values_are_read_and_sought(rt: HostRuntime) {
    let alloc = rt.alloc();
    let table = table_of(&rt, alloc, long_records(&rt, alloc, 129));
    check(&rt, alloc, &table, &long_records(&rt, alloc, 129));
}

// Puts three records of a row of 1 MiB that ends in this byte behind the others.
fn add_row(rt: &impl Abort, alloc: Global, records: &mut Vec<Record>, last: u8) {
    let mut row = Vec::new(alloc);
    row.resize(MIB - 1, b'a').expect(rt, "memory");
    row.push(last).expect(rt, "memory");
    for index in 0..3 {
        let key = Key {
            row: &row,
            family: b"f",
            qualifier: QUALIFIERS[index],
            label: b"",
            timestamp: 7,
        };
        let record = record_of(rt, alloc, key, Kind::Put, VALUE);
        records.push(record).expect(rt, "memory");
    }
}

// Records of two rows that differ in their last byte.
fn wide_records(rt: &impl Abort, alloc: Global) -> Vec<Record> {
    let mut records = Vec::new(alloc);
    add_row(rt, alloc, &mut records, b'a');
    add_row(rt, alloc, &mut records, b'b');
    records
}

#[test]
fn rows_of_a_mebibyte_are_read_and_sought(rt: HostRuntime) {
    let alloc = rt.alloc();
    let table = table_of(&rt, alloc, wide_records(&rt, alloc));
    // heads and values; the rows and the family; of the qualifiers what the one before hasn't
    assert!(rt; table.size() == (6 * (57 + 33) + (MIB + 1 + 1) + 2 * (15 + 5)) as u64);
    check(&rt, alloc, &table, &wide_records(&rt, alloc));
}

// Each record is the one with the next index of the other table, whose records share other bytes.
fn compare_shifted(rt: &impl Abort, table: &SortedTable, other: &SortedTable) {
    for index in 0..other.len() {
        assert!(rt; index + 1 < table.len());
        assert!(rt; other.same_at(index, table, index + 1));
        assert!(rt; !other.same_at(index, table, index));
    }
}

#[test]
fn records_of_two_tables_are_compared(rt: HostRuntime) {
    let alloc = rt.alloc();
    let all = updates(&rt, alloc, 129);
    let table = table_of(&rt, alloc, records_of(&rt, alloc, &all));
    let rest = all.get(1..).expect(&rt, "records");
    let later = table_of(&rt, alloc, records_of(&rt, alloc, rest));
    compare_shifted(&rt, &table, &later);
    assert!(rt; table.lies_like(&table_of(&rt, alloc, records_of(&rt, alloc, &all))));
    assert!(rt; !table.lies_like(&later));
}

// Whether the record is before a key, and its row.
fn expect_known(
    rt: &impl Abort,
    alloc: Global,
    table: &SortedTable,
    index: usize,
    record: &Record,
) {
    let key = record.as_ref().key();
    assert!(rt; index < table.len());
    assert!(rt; !table.is_before(index, key));
    assert!(rt;
        table.is_before(
            index,
            Key {
                timestamp: 6,
                ..key
            }
        )
    );
    let row = table.row_of(alloc, index).expect(rt, "memory");
    assert!(rt; row.as_bytes() == key.row);
}

#[test]
fn records_are_looked_up(rt: HostRuntime) {
    let alloc = rt.alloc();
    let want = long_records(&rt, alloc, 129);
    let table = table_of(&rt, alloc, long_records(&rt, alloc, 129));
    for (index, record) in want.iter().enumerate() {
        expect_known(&rt, alloc, &table, index, record);
    }
    assert!(rt; !table.is_empty());
    assert!(rt; table.room(0, 129) as u64 == table.size());
}

// Those with a lower index are before the key of this record.
fn expect_before(rt: &impl Abort, table: &SortedTable, place: usize, key: Key<'_>) {
    for index in 0..table.len() {
        assert!(rt; table.is_before(index, key) == (index < place));
    }
}

#[test]
fn records_stand_before_the_keys_of_later_ones(rt: HostRuntime) {
    let alloc = rt.alloc();
    let want = long_records(&rt, alloc, 129);
    let table = table_of(&rt, alloc, long_records(&rt, alloc, 129));
    for (place, record) in want.iter().enumerate() {
        expect_before(&rt, &table, place, record.as_ref().key());
    }
}

#[test]
fn rows_are_found(rt: HostRuntime) {
    let alloc = rt.alloc();
    let table = table_of(&rt, alloc, long_records(&rt, alloc, 129));
    let low = ByteString::from_slice(alloc, ROWS[1]).expect(&rt, "memory");
    let high = ByteString::from_slice(alloc, ROWS[3]).expect(&rt, "memory");
    let bounds = Bounds {
        low: Bound::Inclusive(low),
        high: Bound::Exclusive(high),
    };
    let count = table.len();
    let rows = table.rows_in(0, count, &bounds);
    assert!(rt; rows.start == 27);
    assert!(rt; rows.end == 81);
}
