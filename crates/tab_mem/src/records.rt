//! Records in their places in one body of bytes.
ghost use Rattle.std.specs.Prelude.{◌≡◌, ◌<◌, ◌*◌, ◌^◌, ◌++◌, ◌∷◌, ◌==◌, [], IfOk, OnOk, OnErr, IsTrue, length, take};
ghost use Rattle.std.specs.List.{slice_index_or};
ghost use Rattle.tab_key.specs.Encoding.{IsShort};
ghost use Rattle.tab_key.specs.KeyOf.{key_of};
ghost use Rattle.tab_iter.specs.Lists.{HasI64Timestamps};
ghost use Rattle.tab_mem.specs.Lists.{HasShortParts};

use crate::partitions::lending::lend_at;
use crate::sorting::item::Item;
use crate::{Ordered, RowIndex, Target};
use std::alloc::{AllocError, Global};
use std::marker::Model;
use std::ops::Range;
use tab_key::{Key, Kind, RecordRef, append, append_copy};

/// Records, one after another in one body, in the order in which they were put. A record takes there what `tab_key` puts, 8 bytes for
/// its place, and one for a sparse index of their rows. A contract sees their list.
pub struct Records {
    body: Vec<u8>,
    // where the records' heads begin
    places: Vec<usize>,
    row_index: RowIndex,
}

// Each large block shrinks before it is freed: the C library gives back at once what a block shrinks by, and keeps more for later the larger
// the blocks are that it saw freed whole.
impl Drop for Records {
    fn drop(self) {
        let Records {
            mut body,
            mut places,
            mut row_index,
        } = self;
        body.clear();
        body.shrink_to(1);
        places.clear();
        places.shrink_to(1);
        row_index.clear();
    }
}

impl Model for Records {
    ghost use Rattle.std.specs.Prelude.{List};
    ghost use Rattle.tab_key.specs.Records.{Record as Fields};

    ghost Value = { List Fields };

    ghost use Rattle.tab_key.specs.Encoding.{records_at};
    ghost use Rattle.tab_mem.specs.Lists.{IsIndexed};

    ghost view = { λ p. records_at p.body.items p.places.items };

    ghost invariant = { λ p. IsIndexed p.body.items p.places.items p.row_index.numbers.items };
}

impl Records {
    /// No records. It takes no memory.
    pub fn new(alloc: Global) -> Records
        ensures { result ≡ [] }
    {
        Records {
            body: Vec::new(alloc),
            places: Vec::new(alloc),
            row_index: RowIndex::new(alloc),
        }
    }

    /// No records, with memory for this many of them in this many bytes.
    pub(crate) fn with_capacity(
        alloc: Global,
        records: usize,
        bytes: usize,
    ) -> Result<Records, AllocError>
        ensures { IfOk result (λ p. p ≡ []) }
    {
        Ok(Records {
            body: Vec::with_capacity(alloc, bytes)?,
            places: Vec::with_capacity(alloc, records)?,
            row_index: RowIndex::with_capacity(alloc, records)?,
        })
    }

    /// How many records there are.
    pub fn len(&self) -> usize
        ensures len { result ≡ length self.now }
        ensures few { 41 * result < 2 ^ 63 }
        ensures timestamps { HasI64Timestamps self.now }
        ensures short { HasShortParts self.now }
    {
        self.places.len()
    }

    /// Whether there is no record.
    pub fn is_empty(&self) -> bool
        ensures { result ≡ (length self.now == 0) }
    {
        self.places.is_empty()
    }

    /// How much room to ask for, in bytes, where the records from one index up to another are copied: what they take in the body. Only
    /// how often memory is taken hangs on it.
    pub(crate) fn room(&self, from: usize, end: usize) -> usize {
        room_between(&self.places, self.body.len(), from, end)
    }

    /// The record at an index, counted from 0.
    #[inline]
    pub fn get(&self, index: usize) -> RecordRef<'_>
        requires { index < length self.now }
        ensures { result ≡ slice_index_or self.now index result }
    {
        RecordRef::at(self.body.as_slice(), self.places[index])
    }

    /// Whether the others lie as these do, byte for byte and at the same places; then they are the same records. Where they don't, they
    /// may be the same ones all the same. It takes time linear in the bytes that are equal.
    pub(crate) fn lie_like(&self, other: &Records) -> bool
        ensures { IsTrue result → self.now ≡ other.now }
    {
        if self.places.as_slice() != other.places.as_slice() {
            return false;
        }
        self.body.as_slice() == other.body.as_slice()
    }

    /// Puts the records, lent, behind others, in their order. After an error, which only want of memory gives, some may stand there.
    pub(crate) fn lend_to<'a>(&'a self, items: &mut Vec<Item<'a>>) -> Result<(), AllocError>
        ensures { OnOk result (items.new.items ≡ items.old.items ++ self.now) }
    {
        lend_at(items, &self.body, &self.places)
    }

    /// Puts a record at the end. Each of its parts may have at most 1,048,576 bytes. `AllocError` leaves the records as they were.
    pub fn push(
        &mut self,
        key: Key<'_>,
        kind: Kind,
        value: &[u8],
        seq: u64,
        idx: u32,
    ) -> Result<(), AllocError>
        requires { IsShort (record { key = key_of key; kind = kind; value = value.now; seq = seq; idx = idx }) }
        ensures ok { OnOk result (self.new ≡ self.old ++ record { key = key_of key.entry; kind = kind; value = value.now; seq = seq; idx = idx } ∷ []) }
        ensures err { OnErr result (self.new ≡ self.old) }
    {
        self.places.reserve(1)?;
        self.row_index.make_room()?;
        let bytes = self.body.len();
        match append(&mut self.body, key, kind, value, seq, idx) {
            Ok(place) => {
                let lent = RecordRef::at(&self.body, place);
                self.row_index.put(self.places.len(), &lent);
                self.places.push_reserved(place);
                Ok(())
            }
            Err(fault) => {
                self.body.truncate(bytes);
                Err(fault)
            }
        }
    }

    /// Puts a copy of the record at the end. `AllocError` leaves the records as they were.
    pub(crate) fn push_copy(&mut self, source: &RecordRef<'_>) -> Result<(), AllocError>
        ensures ok { OnOk result (self.new ≡ self.old ++ source.now ∷ []) }
        ensures err { OnErr result (self.new ≡ self.old) }
    {
        let _timestamp = source.timestamp();
        self.places.reserve(1)?;
        self.row_index.make_room()?;
        let bytes = self.body.len();
        match append_copy(&mut self.body, source) {
            Ok(place) => {
                self.row_index.put(self.places.len(), source);
                self.places.push_reserved(place);
                Ok(())
            }
            Err(fault) => {
                self.body.truncate(bytes);
                Err(fault)
            }
        }
    }

    /// Puts a copy of an item's record at the end. `AllocError` leaves the records as they were.
    pub(crate) fn push_item(&mut self, item: &Item<'_>) -> Result<(), AllocError>
        ensures ok { OnOk result (self.new ≡ self.old ++ item.now ∷ []) }
        ensures err { OnErr result (self.new ≡ self.old) }
    {
        self.places.reserve(1)?;
        self.row_index.make_room()?;
        let bytes = self.body.len();
        match item.append_to(&mut self.body) {
            Ok(place) => {
                self.row_index.put(self.places.len(), &item.record());
                self.places.push_reserved(place);
                Ok(())
            }
            Err(fault) => {
                self.body.truncate(bytes);
                Err(fault)
            }
        }
    }

    /// Puts copies of the records of several items at the end, in their order. `AllocError` leaves the records as they were; then the
    /// body may hold bytes that belong to none.
    pub(crate) fn push_all(&mut self, items: &[Item<'_>]) -> Result<(), AllocError>
        ensures ok { OnOk result (self.new ≡ self.old ++ items.now) }
        ensures err { OnErr result (self.new ≡ self.old) }
    {
        let count = self.len();
        match self.push_each(items) {
            Ok(()) => Ok(()),
            Err(fault) => {
                self.truncate(count);
                Err(fault)
            }
        }
    }

    // `push_all`, but an error may leave copies of the first items at the end.
    fn push_each(&mut self, items: &[Item<'_>]) -> Result<(), AllocError>
        ensures ok { OnOk result (self.new ≡ self.old ++ items.now) }
        ensures front { take (length self.old) self.new ≡ self.old }
    {
        for item in items {
            self.push_item(item)?;
        }
        Ok(())
    }

    /// Leaves the first so many records. Memory isn't given back.
    pub(crate) fn truncate(&mut self, count: usize)
        ensures { self.new ≡ take count self.old }
    {
        self.places.truncate(count);
        self.row_index.truncate(count);
    }

    /// Gives back the memory that isn't used.
    pub(crate) fn shrink_to_fit(&mut self)
        ensures { self.new ≡ self.old }
    {
        self.body.shrink_to_fit();
        self.places.shrink_to_fit();
        self.row_index.shrink_to_fit();
    }
}

impl Ordered for Records {
    ghost listed = { λ p. p };

    fn precedes(&self, index: usize, target: &Target<'_>) -> bool {
        target.is_after(&self.get(index))
    }

    fn narrowed(&self, low: usize, high: usize, target: &Target<'_>) -> Range<usize> {
        self.row_index.narrow(low, high, target)
    }

    fn is_far(&self, index: usize, target: &Target<'_>) -> bool {
        self.row_index.is_far(index, target)
    }
}

/// How many bytes the records from one index up to another take in a body of this length in which they begin at these places, one behind
/// the other.
pub fn room_between(places: &[usize], length: usize, from: usize, end: usize) -> usize {
    place_of(places, length, end).saturating_sub(place_of(places, length, from))
}

// Where the record at an index begins; behind the last one the end of the body.
fn place_of(places: &[usize], length: usize, index: usize) -> usize {
    match places.get(index) {
        Some(place) => *place,
        None => length,
    }
}
