//! How many records there are, and how many bytes they have.
ghost use Rattle.std.specs.Prelude.{◌≡◌};
ghost use Rattle.tab_inspect.specs.Facts.{counted, tallied, tally_of};

use tab_image::Records;
use tab_key::{Kind, RecordRef};

/// Counts of records and of their bytes. Each ends at the greatest number of 64 bits.
#[derive(Clone, Copy, Debug, PartialEq, Eq)]
pub struct RecordCounts {
    /// How many puts there are.
    pub puts: u64,
    /// How many delete markers there are.
    pub deletes: u64,
    /// The bytes of their rows, families, qualifiers and labels.
    pub key_bytes: u64,
    /// The bytes of their values.
    pub value_bytes: u64,
}

impl RecordCounts {
    /// The counts of these records. It reads the head of each, and takes no memory.
    pub fn of(records: &Records) -> RecordCounts
        ensures { result ≡ tally_of records.now }
    {
        let mut tally = RecordCounts {
            puts: 0,
            deletes: 0,
            key_bytes: 0,
            value_bytes: 0,
        };
        for index in 0..records.len() {
            tally = tally.with(&records.get(index));
        }
        tally
    }

    // With one more record.
    fn with(self, record: &RecordRef<'_>) -> RecordCounts
        ensures { result ≡ tallied self record.now }
    {
        let key = record.column().len() as u64;
        let value = record.value().len() as u64;
        let tally = RecordCounts {
            puts: self.puts,
            deletes: self.deletes,
            key_bytes: self.key_bytes.saturating_add(key),
            value_bytes: self.value_bytes.saturating_add(value),
        };
        tally.counting(record.kind())
    }

    // With one more record of this kind.
    fn counting(self, kind: Kind) -> RecordCounts
        ensures { result ≡ counted kind self }
    {
        match kind {
            Kind::Put => RecordCounts {
                puts: self.puts.saturating_add(1),
                deletes: self.deletes,
                key_bytes: self.key_bytes,
                value_bytes: self.value_bytes,
            },
            Kind::Delete => RecordCounts {
                puts: self.puts,
                deletes: self.deletes.saturating_add(1),
                key_bytes: self.key_bytes,
                value_bytes: self.value_bytes,
            },
        }
    }
}
