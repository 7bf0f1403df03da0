//! An update as plain data, and the order of updates.

use std::alloc::{AllocError, Global};
use std::cmp::Ordering;
use tab_key::{CellRef, Key, RecordRef};

/// An update that a table accepted, or is asked to accept.
#[derive(Clone, Copy)]
pub struct Update {
    /// The row.
    pub row: &'static [u8],
    /// The column family.
    pub family: &'static [u8],
    /// The column qualifier.
    pub qualifier: &'static [u8],
    /// The label.
    pub label: &'static [u8],
    /// The timestamp, by the mutation or by the clock.
    pub timestamp: i64,
    /// Whether the timestamp is the clock's.
    pub is_clocked: bool,
    /// Whether it is a put, and no delete marker.
    pub is_put: bool,
    /// The number of its mutation.
    pub seq: u8,
    /// Its place in the mutation.
    pub idx: u8,
}

impl Update {
    /// The value of a put, which tells it from every other.
    pub fn value(&self) -> [u8; 2] {
        [self.seq, self.idx]
    }

    /// The key.
    pub fn key(&self) -> Key<'static> {
        Key {
            row: self.row,
            family: self.family,
            qualifier: self.qualifier,
            label: self.label,
            timestamp: self.timestamp,
        }
    }

    fn has_key(&self, key: Key<'_>) -> bool {
        self.row == key.row
            && self.family == key.family
            && self.qualifier == key.qualifier
            && self.label == key.label
            && self.timestamp == key.timestamp
    }

    /// Whether the record is the one of this update.
    pub fn is_record(&self, record: &RecordRef<'_>) -> bool {
        let is_valued = if self.is_put {
            record.value() == self.value().as_slice()
        } else {
            record.value().is_empty()
        };
        self.has_key(record.key())
            && self.is_put == record.kind().is_put()
            && (u64::from(self.seq), u32::from(self.idx)) == (record.seq(), record.idx())
            && is_valued
    }

    /// Whether the cell shows this put.
    pub fn is_cell(&self, cell: &CellRef<'_>) -> bool {
        self.is_put && self.has_key(cell.key()) && cell.value() == self.value().as_slice()
    }
}

/// The order of columns: row, family, qualifier and label, each rising.
pub fn column_order(a: &Update, b: &Update) -> Ordering {
    a.row
        .cmp(b.row)
        .then(a.family.cmp(b.family))
        .then(a.qualifier.cmp(b.qualifier))
        .then(a.label.cmp(b.label))
}

/// The order of keys: the column rises, timestamps fall.
pub fn key_order(a: &Update, b: &Update) -> Ordering {
    column_order(a, b).then(b.timestamp.cmp(&a.timestamp))
}

/// The order of updates: at one key a marker comes before a put, the newer before the older.
pub fn order(a: &Update, b: &Update) -> Ordering {
    key_order(a, b)
        .then(a.is_put.cmp(&b.is_put))
        .then(b.seq.cmp(&a.seq))
        .then(b.idx.cmp(&a.idx))
}

/// Puts the updates in their order.
pub fn sort(updates: &mut Vec<Update>) {
    updates.sort_unstable_by(|a, b| order(a, b));
}

/// Those whose keys aren't before that of the one that is sought.
pub fn from_key(
    alloc: Global,
    updates: &[Update],
    sought: &Update,
) -> Result<Vec<Update>, AllocError> {
    let mut left = Vec::new(alloc);
    for update in updates {
        if key_order(update, sought).is_ge() {
            left.push(*update)?;
        }
    }
    Ok(left)
}
