//! Records of a table that are decoded.
ghost use Rattle.std.specs.Prelude.{◌≡◌, ℕ, ◌+◌, ◌<◌, ◌≤◌, [], OnOk, OnErr, IsTrue, length, take};
ghost use Rattle.std.specs.List.{slice_index_or};
ghost use Rattle.tab_key.specs.Encoding.{length_at, records_at, IsAt, AreAt, AreAt-prop};
ghost use Rattle.tab_key.specs.Records.{Record as Fields};
ghost use Rattle.tab_table.specs.Blocks.{no_key, block_records, IsEntry, IsLaid};
ghost use Rattle.tab_table.specs.Decoding.{key_at, rebuilt_size, IsStanding};
ghost use Rattle.tab_table.specs.Restarts.{IsRestart};

use crate::entry::BLOCK_LEN;
use crate::heads::HEAD_LEN;
use crate::rebuilding::{Entry, keep_record, room_for, write_base, write_record};
use crate::restarts::Restart;
use crate::sharing::counts_at;
use crate::writing::{ROOM, grow};
use std::alloc::{AllocError, Global};
use tab_key::RecordRef;

/// Records of a table, from one index on as far as they are read, in the form in which a record is lent.
///
/// They lie one behind the other in a body that is longer than they are, so that each is written in steps of a fixed length. The last
/// one is at the same time the one that the next entry shares bytes with.
#[derive(Drop)]
pub(crate) struct Decoded {
    pub(crate) body: Vec<u8>,
    // where the records end in it
    pub(crate) end: usize,
    // where their heads begin
    pub(crate) places: Vec<usize>,
    // where the head of the last one begins, or of the one before the first, of which the key alone is read
    pub(crate) base: usize,
    // where the entry behind the last one begins
    pub(crate) at: usize,
    ghost inside: { end ≤ length body.items },
    ghost within: { AreAt (take end body.items) places.items } by { AreAt-prop (take end body.items) places.items },
}

impl Decoded {
    /// No records. It takes no memory.
    pub(crate) fn new(alloc: Global) -> Decoded
        ensures { result.places.items ≡ [] }
    {
        Decoded {
            body: Vec::new(alloc),
            end: 0,
            places: Vec::new(alloc),
            base: 0,
            at: 0,
        }
    }

    /// How many there are.
    #[inline]
    pub(crate) fn len(&self) -> usize
        ensures { result ≡ length self.now.places.items }
    {
        self.places.len()
    }

    /// How many bytes they are.
    #[inline]
    pub(crate) fn size(&self) -> usize {
        self.end
    }

    /// Forgets them, but for the bytes of the last one. Memory isn't given back.
    pub(crate) fn forget(&mut self)
        requires { IsAt (take self.old.end self.old.body.items) self.old.base }
        ensures none { self.new.places.items ≡ [] }
        ensures base { IsAt (take self.new.end self.new.body.items) self.new.base }
        ensures key { key_at (take self.new.end self.new.body.items) self.new.base ≡ key_at (take self.old.end self.old.body.items) self.old.base }
        ensures place { self.new.at ≡ self.old.at }
    {
        self.places.clear();
        self.end = keep_record(&mut self.body, self.base);
        self.base = 0;
    }

    /// The record with this index among them, counted from 0.
    #[inline]
    pub(crate) fn get(&self, index: usize) -> RecordRef<'_>
        requires { index < length self.now.places.items }
        ensures { (u : Fields) → result ≡ slice_index_or (records_at (take self.now.end self.now.body.items) self.now.places.items) index u }
    {
        RecordRef::at(self.body.as_slice(), self.places[index])
    }

    /// Begins anew at a restart: no record is decoded, and the next one is that of the restart. Memory isn't given back.
    ///
    /// After an error, which only want of memory gives, there is no record, and nothing is known of what stands behind.
    pub(crate) fn begin(
        &mut self,
        restart: Restart,
        shares: &[u8],
        blocks: &[u8],
    ) -> Result<(), AllocError>
        requires rest { IsAt blocks.now (restart.place + 16) }
        requires inside { restart.from + length_at blocks.now restart.place + length_at blocks.now (restart.place + 4) + length_at blocks.now (restart.place + 8) + length_at blocks.now (restart.place + 12) ≤ length shares.now }
        ensures decoded { (count index : ℕ) → IsLaid blocks.now 0 no_key 0 count → index < count → ((u : Fields) → IsRestart blocks.now shares.now index (slice_index_or (block_records blocks.now count) index u) restart) → OnOk result (IsStanding (take self.new.end self.new.body.items) self.new.places.items self.new.base self.new.at blocks.now count index) }
        ensures none { self.new.places.items ≡ [] }
    {
        self.places.clear();
        self.end = 0;
        self.base = 0;
        self.at = restart.place;
        let counts = counts_at(blocks, restart.place);
        let size = counts.sum();
        let parts = &shares[restart.from..restart.from + size];
        self.places.reserve(BLOCK_LEN)?;
        grow(&mut self.body, HEAD_LEN + parts.len())?;
        self.end = write_base(&mut self.body, counts, parts);
        Ok(())
    }

    /// Decodes one record more of these blocks: the one whose entry stands behind the last.
    ///
    /// After an error, which only want of memory gives, the records are those from before.
    #[inline(never)]
    pub(crate) fn one_more(&mut self, blocks: &[u8]) -> Result<(), AllocError>
        requires base { IsAt (take self.old.end self.old.body.items) self.old.base }
        requires entry { IsEntry (key_at (take self.old.end self.old.body.items) self.old.base) blocks.now self.old.at }
        ensures decoded { (count first : ℕ) → IsLaid blocks.now 0 no_key 0 count → first + length self.old.places.items < count → IsStanding (take self.old.end self.old.body.items) self.old.places.items self.old.base self.old.at blocks.now count first → OnOk result (IsStanding (take self.new.end self.new.body.items) self.new.places.items self.new.base self.new.at blocks.now count first) }
        ensures longer { OnOk result (length self.new.places.items ≡ length self.old.places.items + 1) }
    {
        let len = room_for(blocks, self.at, self.end);
        grow(&mut self.body, len)?;
        self.write_next(blocks)
    }

    /// Whether the body has room for the record of the next entry: no more is shared with the one before it than that has.
    #[inline(always)]
    pub(crate) fn has_room(&self, blocks: &[u8]) -> bool
        requires base { IsAt (take self.now.end self.now.body.items) self.now.base }
        requires entry { IsEntry (key_at (take self.now.end self.now.body.items) self.now.base) blocks.now self.now.at }
        ensures { IsTrue result → self.now.end + rebuilt_size blocks.now self.now.at + ROOM ≤ length self.now.body.items }
    {
        let own = self.end - self.base;
        let spare = self.body.len() - self.end;
        let room = spare.saturating_sub(own);
        let more = Entry::at(blocks, self.at).size();
        let need = more + ROOM;
        need <= room
    }

    /// Writes the record of the next entry behind the others. After an error, which only want of memory gives, nothing is changed.
    #[inline(always)]
    pub(crate) fn write_next(&mut self, blocks: &[u8]) -> Result<(), AllocError>
        requires base { IsAt (take self.old.end self.old.body.items) self.old.base }
        requires entry { IsEntry (key_at (take self.old.end self.old.body.items) self.old.base) blocks.now self.old.at }
        requires room { self.old.end + rebuilt_size blocks.now self.old.at + ROOM ≤ length self.old.body.items }
        ensures decoded { (count first : ℕ) → IsLaid blocks.now 0 no_key 0 count → first + length self.old.places.items < count → IsStanding (take self.old.end self.old.body.items) self.old.places.items self.old.base self.old.at blocks.now count first → IsStanding (take self.new.end self.new.body.items) self.new.places.items self.new.base self.new.at blocks.now count first }
        ensures longer { OnOk result (length self.new.places.items ≡ length self.old.places.items + 1) }
        ensures err { OnErr result (self.new.places.items ≡ self.old.places.items) }
    {
        let more = Entry::at(blocks, self.at).size();
        let next = self.at + more;
        let place = self.end;
        self.places.push(place)?;
        self.end = write_record(&mut self.body, place, self.base, blocks, self.at);
        self.base = place;
        self.at = next;
        Ok(())
    }
}
