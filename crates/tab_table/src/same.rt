//! Whether records of two tables are the same, found without memory.
ghost use Rattle.std.specs.Prelude.{◌≡◌, ℕ, suc, ◌&&◌, ◌+◌, ◌*◌, ◌<◌, ◌==◌, length, get_or, bytes_eq};
ghost use Rattle.std.specs.List.{slice_index_or};
ghost use Rattle.tab_key.specs.Encoding.{IsAt};
ghost use Rattle.tab_key.specs.Kept.{same_column};
ghost use Rattle.tab_key.specs.Records.{Key, Record as Fields};
ghost use Rattle.tab_key.specs.Same.{same_record};
ghost use Rattle.tab_table.specs.Blocks.{block_records, entry_at, entry_end, IsEntry};
ghost use Rattle.tab_table.specs.PartBytes.{part_of, IsFound, IsRestOf, same_but_column};

use crate::packed::Packed;
use crate::part_bytes::{KeyPart, byte_at, byte_on};
use crate::restarts::RESTART_LEN;
use tab_key::{RecordRef, end_of};

// Where the entry of a record begins, and a byte of a part of it.
#[derive(Clone, Copy)]
struct Found {
    place: usize,
    byte: u8,
}

impl Packed {
    // The byte with this index of a part of the record at a restart.
    fn first_byte(&self, restart: usize, part: KeyPart, index: usize) -> Found
        requires { RESTART_LEN * restart < self.now.count }
        ensures { IsFound self.now.bytes self.now.count result.byte result.place (RESTART_LEN * restart) part index }
    {
        let blocks = self.bytes.as_slice();
        let start = self.restart_at(restart);
        let shared = byte_at(part.shared_by(start, &self.restarts.shares, blocks), index);
        Found {
            place: start.place,
            byte: byte_on(shared, part, index, blocks, start.place),
        }
    }

    // .. of the record behind one
    fn next_byte(&self, found: Found, part: KeyPart, index: usize) -> Found
        requires here { IsAt self.now.bytes (found.place + 16) }
        requires there { IsAt self.now.bytes (entry_end self.now.bytes found.place + 16) }
        ensures { (n : ℕ) → suc n < self.now.count → IsFound self.now.bytes self.now.count found.byte found.place n part index → IsFound self.now.bytes self.now.count result.byte result.place (suc n) part index }
    {
        let blocks = self.bytes.as_slice();
        let place = end_of(blocks, found.place + 16);
        Found {
            place,
            byte: byte_on(found.byte, part, index, blocks, place),
        }
    }

    // The byte with this index of a part of a record, or 0 behind its end, and where the record's entry begins.
    fn find_byte(&self, mine: usize, part: KeyPart, index: usize) -> Found
        requires { mine < self.now.count }
        ensures { IsFound self.now.bytes self.now.count result.byte result.place mine part index }
    {
        let mut found = self.first_byte(mine / RESTART_LEN, part, index);
        for _step in 0..mine % RESTART_LEN {
            found = self.next_byte(found, part, index);
        }
        found
    }

    // How long a part of a record is.
    fn part_len(&self, mine: usize, part: KeyPart) -> usize
        requires { mine < self.now.count }
        ensures { (u : Fields) → result ≡ length (part_of part (slice_index_or (block_records self.now.bytes self.now.count) mine u).key) }
    {
        let place = self.find_byte(mine, part, 0).place;
        len_at(self.bytes.as_slice(), place, part)
    }

    // Whether a byte of a part of a record, or the 0 behind it, is the same as that of another one.
    fn same_byte(
        &self,
        mine: usize,
        other: &Packed,
        others: usize,
        part: KeyPart,
        index: usize,
    ) -> bool
        requires here { mine < self.now.count }
        requires there { others < other.now.count }
        ensures { (u v : Fields) → result ≡ (get_or (part_of part (slice_index_or (block_records self.now.bytes self.now.count) mine u).key) index 0 == get_or (part_of part (slice_index_or (block_records other.now.bytes other.now.count) others v).key) index 0) }
    {
        let byte = self.find_byte(mine, part, index).byte;
        let another = other.find_byte(others, part, index).byte;
        byte == another
    }

    // Whether a part of a record is the same as that of another one.
    fn same_part(&self, mine: usize, other: &Packed, others: usize, part: KeyPart) -> bool
        requires here { mine < self.now.count }
        requires there { others < other.now.count }
        ensures { (u v : Fields) → result ≡ bytes_eq (part_of part (slice_index_or (block_records self.now.bytes self.now.count) mine u).key) (part_of part (slice_index_or (block_records other.now.bytes other.now.count) others v).key) }
    {
        let len = self.part_len(mine, part);
        if other.part_len(others, part) != len {
            return false;
        }
        for index in 0..len {
            if !self.same_byte(mine, other, others, part, index) {
                return false;
            }
        }
        true
    }

    // Whether the columns of two records are the same.
    fn same_column_at(&self, mine: usize, other: &Packed, others: usize) -> bool
        requires here { mine < self.now.count }
        requires there { others < other.now.count }
        ensures { (u v : Fields) → result ≡ same_column (slice_index_or (block_records self.now.bytes self.now.count) mine u).key (slice_index_or (block_records other.now.bytes other.now.count) others v).key }
    {
        let rows = self.same_part(mine, other, others, KeyPart::Row);
        let families = self.same_part(mine, other, others, KeyPart::Family);
        let qualifiers = self.same_part(mine, other, others, KeyPart::Qualifier);
        let labels = self.same_part(mine, other, others, KeyPart::Label);
        all_four(rows, families, qualifiers, labels)
    }

    // What the entry of a record has of its own.
    fn rest_of(&self, mine: usize) -> RecordRef<'_>
        requires { mine < self.now.count }
        ensures { (u : Fields) → IsRestOf result (slice_index_or (block_records self.now.bytes self.now.count) mine u) }
    {
        let found = self.find_byte(mine, KeyPart::Row, 0);
        RecordRef::at(self.bytes.as_slice(), found.place + 16)
    }

    /// Whether the record with this index is the same as the one with an index of another table: key, kind, value, number and place. It
    /// takes no memory, and for each byte of a part time linear in how far the record lies behind a restart.
    pub(crate) fn same_at(&self, mine: usize, other: &Packed, others: usize) -> bool
        requires here { mine < self.now.count }
        requires there { others < other.now.count }
        ensures { (u v : Fields) → result ≡ same_record (slice_index_or (block_records self.now.bytes self.now.count) mine u) (slice_index_or (block_records other.now.bytes other.now.count) others v) }
    {
        let here = self.rest_of(mine);
        let there = other.rest_of(others);
        let columns = self.same_column_at(mine, other, others);
        are_same(columns, &here, &there)
    }
}

// Whether all four hold.
fn all_four(rows: bool, families: bool, qualifiers: bool, labels: bool) -> bool
    ensures { result ≡ (rows && families && qualifiers && labels) }
{
    rows && families && qualifiers && labels
}

// Whether records of which these are the rests are the same, where it is known whether their columns are.
fn are_same(columns: bool, here: &RecordRef<'_>, there: &RecordRef<'_>) -> bool
    ensures { result ≡ same_but_column columns here.now there.now }
{
    columns
        && here.timestamp() == there.timestamp()
        && here.kind().rank() == there.kind().rank()
        && here.value() == there.value()
        && here.seq() == there.seq()
        && here.idx() == there.idx()
}

// How long a part of the record is whose entry begins at a place.
fn len_at(blocks: &[u8], place: usize, part: KeyPart) -> usize
    requires { IsAt blocks.now (place + 16) }
    ensures { (base : Key) → IsEntry base blocks.now place → result ≡ length (part_of part (entry_at base blocks.now place).key) }
{
    part.shared_at(blocks, place) + part.of(&RecordRef::at(blocks, place + 16)).len()
}
