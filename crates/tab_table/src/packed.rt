//! Records in blocks that no longer change.
ghost use Rattle.std.specs.Prelude.{◌≡◌, ℕ, suc, ◌+◌, ◌*◌, ◌<◌, ◌≤◌, not, length};
ghost use Rattle.std.specs.List.{slice_index_or};
ghost use Rattle.tab_key.specs.Bytes.{bytes_cmp};
ghost use Rattle.tab_key.specs.Encoding.{length_at, record_at, IsAt};
ghost use Rattle.tab_key.specs.KeyOf.{key_of};
ghost use Rattle.tab_key.specs.Order.{key_cmp};
ghost use Rattle.tab_key.specs.Ranges.{is_above, is_below};
ghost use Rattle.tab_key.specs.Records.{Record as Fields};
ghost use Rattle.tab_mem.specs.Starts.{is_before};
ghost use Rattle.tab_table.specs.Agreements.{AreInside, IsWalked};
ghost use Rattle.tab_table.specs.Blocks.{no_key, block_records, entry_end, IsLaid, IsLaid-prop};
ghost use Rattle.tab_table.specs.Restarts.{IsRestart, AreRestarts, AreRestarts-prop};

use crate::key_agreement::KeyAgreement;
use crate::restarts::{RESTART_LEN, Restart, Restarts};
use bytes::Bytes;
use std::cmp::Ordering;
use tab_key::{Bound, Key, RecordRef, end_of};
use tab_mem::Start;

/// Records in blocks that no longer change, and where decoding may begin in them.
#[derive(Drop)]
pub(crate) struct Packed {
    pub(crate) bytes: Bytes,
    pub(crate) count: usize,
    pub(crate) restarts: Restarts,
    ghost laid: { IsLaid bytes 0 no_key 0 count } by { IsLaid-prop bytes 0 no_key 0 count },
    ghost restarted: { AreRestarts restarts.each.items bytes restarts.shares.items count } by { AreRestarts-prop restarts.each.items bytes restarts.shares.items count },
}

// Where the entry of a record begins, and how its key compares with one that is sought.
#[derive(Clone, Copy)]
struct Walked {
    place: usize,
    agreement: KeyAgreement,
}

impl Packed {
    /// The restart with this index, at the record with an index 16 times as high.
    pub(crate) fn restart_at(&self, restart: usize) -> Restart
        requires { RESTART_LEN * restart < self.now.count }
        ensures is { (u : Fields) → IsRestart self.now.bytes self.now.restarts.shares.items (RESTART_LEN * restart) (slice_index_or (block_records self.now.bytes self.now.count) (RESTART_LEN * restart) u) result }
        ensures rest { IsAt self.now.bytes (result.place + 16) }
        ensures inside { result.from + length_at self.now.bytes result.place + length_at self.now.bytes (result.place + 4) + length_at self.now.bytes (result.place + 8) + length_at self.now.bytes (result.place + 12) ≤ length self.now.restarts.shares.items }
    {
        self.restarts.each[restart]
    }

    /// How many bytes the records from one index up to another take, about: from the restart at or before the first up to the one behind
    /// the last. Only how often memory is taken hangs on it.
    pub(crate) fn room(&self, from: usize, end: usize) -> usize {
        self.place_near(end.div_ceil(RESTART_LEN))
            .saturating_sub(self.place_near(from / RESTART_LEN))
    }

    // Where the restart with this index lies; behind the last one the end of the blocks.
    fn place_near(&self, restart: usize) -> usize {
        match self.restarts.each.get(restart) {
            Some(start) => start.place,
            None => self.bytes.len(),
        }
    }

    // The record at a restart.
    fn first_of(&self, restart: usize, sought: Key<'_>) -> Walked
        requires { RESTART_LEN * restart < self.now.count }
        ensures walked { IsWalked self.now.bytes self.now.count result.agreement result.place (RESTART_LEN * restart) (key_of sought.entry) }
        ensures inside { AreInside result.agreement (key_of sought.entry) }
    {
        let blocks = self.bytes.as_slice();
        let start = self.restart_at(restart);
        let shared = KeyAgreement::of_shares(start, &self.restarts.shares, blocks, sought);
        Walked {
            place: start.place,
            agreement: shared.onward(blocks, start.place, sought),
        }
    }

    // The record behind one.
    fn next_of(&self, walked: Walked, sought: Key<'_>) -> Walked
        requires here { IsAt self.now.bytes (walked.place + 16) }
        requires there { IsAt self.now.bytes (entry_end self.now.bytes walked.place + 16) }
        requires inside { AreInside walked.agreement (key_of sought) }
        ensures walked { (index : ℕ) → suc index < self.now.count → IsWalked self.now.bytes self.now.count walked.agreement walked.place index (key_of sought.entry) → IsWalked self.now.bytes self.now.count result.agreement result.place (suc index) (key_of sought.entry) }
        ensures inside { AreInside result.agreement (key_of sought.entry) }
    {
        let blocks = self.bytes.as_slice();
        let place = end_of(blocks, walked.place + 16);
        Walked {
            place,
            agreement: walked.agreement.onward(blocks, place, sought),
        }
    }

    // Goes from the restart before a record to that record. It takes no memory.
    fn walk(&self, index: usize, sought: Key<'_>) -> Walked
        requires { index < self.now.count }
        ensures { IsWalked self.now.bytes self.now.count result.agreement result.place index (key_of sought.entry) }
    {
        let mut walked = self.first_of(index / RESTART_LEN, sought);
        for _step in 0..index % RESTART_LEN {
            walked = self.next_of(walked, sought);
        }
        walked
    }

    /// The order of keys, of that of the record with this index and another one. It takes no memory.
    #[tactic(auto, unfolding(tab_key::specs::Order::key_cmp))]
    pub(crate) fn cmp_key(&self, index: usize, key: Key<'_>) -> Ordering
        requires { index < self.now.count }
        ensures { (u : Fields) → result ≡ key_cmp (slice_index_or (block_records self.now.bytes self.now.count) index u).key (key_of key.entry) }
    {
        let walked = self.walk(index, key);
        match walked.agreement.column_order() {
            Ordering::Equal => key
                .timestamp
                .cmp(&timestamp_at(self.bytes.as_slice(), walked.place)),
            decided => decided,
        }
    }

    /// The order of rows, of that of the record with this index and another one. It takes no memory.
    pub(crate) fn cmp_row(&self, index: usize, row: &[u8]) -> Ordering
        requires { index < self.now.count }
        ensures { (u : Fields) → result ≡ bytes_cmp (slice_index_or (block_records self.now.bytes self.now.count) index u).key.row row.now }
    {
        let none = b"".as_slice();
        let sought = Key {
            row,
            family: none,
            qualifier: none,
            label: none,
            timestamp: 0,
        };
        self.walk(index, sought).agreement.row.order
    }

    /// Whether the record with this index stands before the start. It takes no memory.
    #[tactic(auto, unfolding(tab_mem::specs::Starts::is_before))]
    pub(crate) fn precedes(&self, index: usize, start: Start<'_>) -> bool
        requires { index < self.now.count }
        ensures { (u : Fields) → result ≡ is_before start.entry (slice_index_or (block_records self.now.bytes self.now.count) index u) }
    {
        match start {
            Start::AtKey(key) => self.cmp_key(index, key).is_lt(),
            Start::AtLow(low) => self.is_below_low(index, low),
            Start::PastHigh(high) => self.is_below_high(index, high),
        }
    }

    // Whether the row of the record with this index is below this low end.
    fn is_below_low(&self, index: usize, low: &Bound) -> bool
        requires { index < self.now.count }
        ensures { (u : Fields) → result ≡ not (is_above low.now (slice_index_or (block_records self.now.bytes self.now.count) index u).key.row) }
    {
        match low {
            Bound::Unbounded => false,
            Bound::Inclusive(row) => self.cmp_row(index, row.as_bytes()).is_lt(),
            Bound::Exclusive(row) => self.cmp_row(index, row.as_bytes()).is_le(),
        }
    }

    // Whether the row of the record with this index isn't above this high end.
    fn is_below_high(&self, index: usize, high: &Bound) -> bool
        requires { index < self.now.count }
        ensures { (u : Fields) → result ≡ is_below high.now (slice_index_or (block_records self.now.bytes self.now.count) index u).key.row }
    {
        match high {
            Bound::Unbounded => true,
            Bound::Inclusive(row) => self.cmp_row(index, row.as_bytes()).is_le(),
            Bound::Exclusive(row) => self.cmp_row(index, row.as_bytes()).is_lt(),
        }
    }
}

// The timestamp of the record whose entry begins at a place.
fn timestamp_at(blocks: &[u8], place: usize) -> i64
    requires { IsAt blocks.now (place + 16) }
    ensures { result ≡ (record_at blocks.now (place + 16)).key.timestamp }
{
    RecordRef::at(blocks, place + 16).timestamp()
}
