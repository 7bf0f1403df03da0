//! What a freeze sorts.
ghost use Rattle.std.specs.Prelude.{◌≡◌, true, int_le, length, take, IfOk};
ghost use Rattle.tab_key.specs.Bytes.{bytes_cmp};
ghost use Rattle.tab_key.specs.Encoding.{span_at, record_at, IsAt};
ghost use Rattle.tab_key.specs.Order.{record_cmp};
ghost use Rattle.tab_key.specs.RowPrefix.{IsRowPrefix};
ghost use Rattle.tab_iter.specs.Lists.{latest};
ghost use Rattle.tab_mem.specs.Lists.{IsOwn};

use crate::sorting::leading::prefix_of;
use std::alloc::AllocError;
use std::cmp::Ordering;
use std::marker::Model;
use tab_key::RecordRef;

/// A record, lent: its own bytes, with the first 16 bytes of its row as a number. Mostly that number decides which record stands
/// before, and the record's own bytes, which lie elsewhere, aren't read. It takes 32 bytes.
#[derive(Drop)]
pub(crate) struct Item<'a> {
    prefix: u128,
    bytes: &'a [u8],
}

impl<'a> Model for Item<'a> {
    ghost use Rattle.tab_key.specs.Records.{Record as Fields};

    ghost Value = { Fields };

    ghost use Rattle.tab_key.specs.Encoding.{record_at};
    ghost use Rattle.tab_mem.specs.Lists.{IsOwn};

    ghost view = { λ i. record_at i.bytes.now 0 };

    ghost invariant = { λ i. IsOwn i.prefix i.bytes.now };
}

impl<'a> Item<'a> {
    /// The item of the record whose bytes these are.
    pub(crate) fn new(bytes: &'a [u8]) -> Item<'a>
        requires at { IsAt bytes.now 0 }
        requires ends { (span_at bytes.now 0).end ≡ length bytes.now }
        ensures { result ≡ record_at bytes.now 0 }
    {
        let lent = RecordRef::at(bytes, 0);
        let _timestamp = lent.timestamp();
        let prefix = prefix_of(&lent);
        Item { prefix, bytes }
    }

    /// The item of the record whose bytes these are, with the first 16 bytes of its row as a number. The record isn't read.
    pub(crate) fn with_prefix(prefix: u128, bytes: &'a [u8]) -> Item<'a>
        requires { IsOwn prefix bytes.now }
        ensures { result ≡ record_at bytes.now 0 }
    {
        Item { prefix, bytes }
    }

    /// The record.
    pub(crate) fn record(&self) -> RecordRef<'a>
        ensures { result ≡ self.now }
    {
        RecordRef::at(self.bytes, 0)
    }

    /// Puts a copy of the record at the end of the body, in one piece, and says where its head begins. The record's own head isn't
    /// read for that, so the processor may fetch the next records meanwhile.
    ///
    /// After an error, which only want of memory gives, the body may hold more bytes at its end.
    pub(crate) fn append_to(&self, body: &mut Vec<u8>) -> Result<usize, AllocError>
        ensures within { IfOk result (λ p. IsAt body.new.items p) }
        ensures front { take (length body.old.items) body.new.items ≡ body.old.items }
        ensures place { IfOk result (λ p. p ≡ length body.old.items) }
        ensures end { IfOk result (λ p. (span_at body.new.items p).end ≡ length body.new.items) }
        ensures copy { IfOk result (λ p. record_at body.new.items p ≡ self.now) }
        ensures timestamp { int_le self.now.key.timestamp latest ≡ true }
    {
        let place = body.len();
        body.extend_from_slice(self.bytes)?;
        Ok(place)
    }

    /// The first 16 bytes of the row, as a number.
    pub(crate) fn prefix(&self) -> u128
        ensures { IsRowPrefix result self.now.key.row }
    {
        self.prefix
    }

    /// The order of the rows.
    pub(crate) fn cmp_row(&self, other: &Item<'_>) -> Ordering
        ensures { result ≡ bytes_cmp self.now.key.row other.now.key.row }
    {
        match self.prefix.cmp(&other.prefix) {
            Ordering::Equal => self.record().row().cmp(other.record().row()),
            decided => decided,
        }
    }

    /// The order of records.
    pub(crate) fn cmp(&self, other: &Item<'_>) -> Ordering
        ensures { result ≡ record_cmp self.now other.now }
    {
        match self.prefix.cmp(&other.prefix) {
            Ordering::Equal => self.record().cmp(&other.record()),
            decided => decided,
        }
    }
}
