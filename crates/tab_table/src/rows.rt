//! The row of a record, read of the entries from a restart on, without their values.
ghost use Rattle.std.specs.Prelude.{◌≡◌, ℕ, suc, ◌+◌, ◌*◌, ◌<◌, IfOk, OnOk};
ghost use Rattle.std.specs.List.{slice_index_or};
ghost use Rattle.tab_key.specs.Encoding.{IsAt};
ghost use Rattle.tab_key.specs.Records.{Key, Record as Fields};
ghost use Rattle.tab_table.specs.Blocks.{block_records, entry_at, entry_end, IsEntry};
ghost use Rattle.tab_table.specs.LastRows.{row_at_end};
ghost use Rattle.tab_table.specs.PartBytes.{IsRowFound};

use crate::packed::Packed;
use crate::part_bytes::KeyPart;
use crate::restarts::RESTART_LEN;
use std::alloc::{AllocError, Global};
use tab_key::{ByteString, RecordRef, end_of};

// Makes of a row that of the record behind, whose entry begins at a place.
fn read_row(row: &mut Vec<u8>, blocks: &[u8], place: usize) -> Result<(), AllocError>
    requires { IsAt blocks.now (place + 16) }
    ensures { (base : Key) → IsEntry base blocks.now place → row.old.items ≡ base.row → OnOk result (row.new.items ≡ (entry_at base blocks.now place).key.row) }
{
    row.truncate(KeyPart::Row.shared_at(blocks, place));
    let rest = RecordRef::at(blocks, place + 16);
    row.extend_from_slice(rest.row())
}

impl Packed {
    // The row of the record at a restart.
    fn first_row(&self, alloc: Global, restart: usize) -> Result<Vec<u8>, AllocError>
        requires { RESTART_LEN * restart < self.now.count }
        ensures { (u : Fields) → IfOk result (λ row. row.items ≡ (slice_index_or (block_records self.now.bytes self.now.count) (RESTART_LEN * restart) u).key.row) }
    {
        let blocks = self.bytes.as_slice();
        let start = self.restart_at(restart);
        let shared = KeyPart::Row.shared_by(start, &self.restarts.shares, blocks);
        let mut row = Vec::from_slice(alloc, shared)?;
        read_row(&mut row, blocks, start.place)?;
        Ok(row)
    }

    // Makes of the row of the record whose entry begins at a place that of the one behind it, and says where that one's entry begins.
    fn next_row(&self, row: &mut Vec<u8>, place: usize) -> Result<usize, AllocError>
        requires here { IsAt self.now.bytes (place + 16) }
        requires there { IsAt self.now.bytes (entry_end self.now.bytes place + 16) }
        ensures { (n : ℕ) → suc n < self.now.count → IsRowFound self.now.bytes self.now.count row.old.items place n → IfOk result (λ next. IsRowFound self.now.bytes self.now.count row.new.items next (suc n)) }
    {
        let blocks = self.bytes.as_slice();
        let next = end_of(blocks, place + 16);
        read_row(row, blocks, next)?;
        Ok(next)
    }

    /// A copy of the row of a record: it takes time linear in at most so many keys as are between two restarts.
    pub(crate) fn row_of(&self, alloc: Global, index: usize) -> Result<ByteString, AllocError>
        requires { index < self.now.count }
        ensures { (u : Fields) → IfOk result (λ row. row ≡ (slice_index_or (block_records self.now.bytes self.now.count) index u).key.row) }
    {
        let restart = index / RESTART_LEN;
        let mut place = self.restart_at(restart).place;
        let mut row = self.first_row(alloc, restart)?;
        for _step in 0..index % RESTART_LEN {
            place = self.next_row(&mut row, place)?;
        }
        Ok(ByteString::from_vec(row))
    }

    /// A copy of the last record's row; an empty one where there is no record.
    pub(crate) fn last_row(&self, alloc: Global) -> Result<ByteString, AllocError>
        ensures { IfOk result (λ row. row ≡ row_at_end (block_records self.now.bytes self.now.count)) }
    {
        if self.count == 0 {
            return Ok(ByteString::new(alloc));
        }
        self.row_of(alloc, self.count - 1)
    }
}
