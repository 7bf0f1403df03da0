//! Where decoding may begin.
ghost use Rattle.std.specs.Prelude.{◌≡◌, ◌+◌, ◌≤◌, ◌++◌, ◌∷◌, [], IfOk, OnOk, length, take};
ghost use Rattle.tab_key.specs.Encoding.{length_at};
ghost use Rattle.tab_table.specs.Blocks.{no_key, block_records, place_behind, IsLaid};
ghost use Rattle.tab_table.specs.Restarts.{AreRestarts};

use crate::sharing::count_at;
use std::alloc::{AllocError, Global};
use tab_key::RecordRef;

/// Of so many records that follow on each other decoding may begin at the first one.
pub(crate) const RESTART_LEN: usize = 16;

/// A place at which decoding may begin.
#[derive(Clone, Copy)]
pub(crate) struct Restart {
    /// Where the record's entry begins.
    pub(crate) place: usize,
    /// Where the bytes begin that its four parts share with the record before it.
    pub(crate) from: usize,
}

/// Where decoding may begin: at the first record and each 16th one after it. The bytes that such a record shares with the one before it
/// lie here too, those of its row, family, qualifier and label one behind the other: so the one before it isn't decoded.
#[derive(Drop)]
pub(crate) struct Restarts {
    pub(crate) each: Vec<Restart>,
    pub(crate) shares: Vec<u8>,
}

impl Restarts {
    /// Of no records, with memory for those of this many.
    pub(crate) fn with_capacity(alloc: Global, records: usize) -> Result<Restarts, AllocError>
        ensures each { IfOk result (λ r. r.each.items ≡ []) }
        ensures shares { IfOk result (λ r. r.shares.items ≡ []) }
    {
        Ok(Restarts {
            each: Vec::with_capacity(alloc, records.div_ceil(RESTART_LEN))?,
            shares: Vec::new(alloc),
        })
    }

    /// Takes note of the record with this index, whose entry comes behind all others in these blocks, at this place.
    ///
    /// After an error, which only want of memory gives, nothing is known of what is noted.
    pub(crate) fn put(
        &mut self,
        index: usize,
        record: &RecordRef<'_>,
        blocks: &[u8],
        place: usize,
    ) -> Result<(), AllocError>
        requires head { place + 57 ≤ length blocks.now }
        requires row { length_at blocks.now place ≤ length record.now.key.row }
        requires family { length_at blocks.now (place + 4) ≤ length record.now.key.family }
        requires qualifier { length_at blocks.now (place + 8) ≤ length record.now.key.qualifier }
        requires label { length_at blocks.now (place + 12) ≤ length record.now.key.label }
        requires there { place ≡ place_behind blocks.now 0 index }
        requires more { block_records blocks.now (index + 1) ≡ block_records blocks.now index ++ record.now ∷ [] }
        requires restarts { AreRestarts self.old.each.items blocks.now self.old.shares.items index }
        ensures { OnOk result (AreRestarts self.new.each.items blocks.now self.new.shares.items (index + 1)) }
    {
        if index % RESTART_LEN != 0 {
            return Ok(());
        }
        self.put_restart(record, blocks, place)?;
        Ok(())
    }

    // Puts a restart at this place behind the others.
    fn put_restart(
        &mut self,
        record: &RecordRef<'_>,
        blocks: &[u8],
        place: usize,
    ) -> Result<(), AllocError>
        requires head { place + 57 ≤ length blocks.now }
        requires row { length_at blocks.now place ≤ length record.now.key.row }
        requires family { length_at blocks.now (place + 4) ≤ length record.now.key.family }
        requires qualifier { length_at blocks.now (place + 8) ≤ length record.now.key.qualifier }
        requires label { length_at blocks.now (place + 12) ≤ length record.now.key.label }
        ensures each { OnOk result (self.new.each.items ≡ self.old.each.items ++ record { place = place; from = length self.old.shares.items } ∷ []) }
        ensures shares { OnOk result (self.new.shares.items ≡ self.old.shares.items ++ (take (length_at blocks.now place) record.now.key.row ++ take (length_at blocks.now (place + 4)) record.now.key.family ++ take (length_at blocks.now (place + 8)) record.now.key.qualifier ++ take (length_at blocks.now (place + 12)) record.now.key.label)) }
    {
        let from = self.shares.len();
        let row = count_at(blocks, place);
        let family = count_at(blocks, place + 4);
        let qualifier = count_at(blocks, place + 8);
        let label = count_at(blocks, place + 12);
        self.each.push(Restart { place, from })?;
        self.shares.extend_from_slice(first(record.row(), row))?;
        self.shares
            .extend_from_slice(first(record.family(), family))?;
        self.shares
            .extend_from_slice(first(record.qualifier(), qualifier))?;
        self.shares.extend_from_slice(first(record.label(), label))
    }

    /// Gives back the memory that isn't used.
    pub(crate) fn shrink_to_fit(&mut self)
        ensures each { self.new.each.items ≡ self.old.each.items }
        ensures shares { self.new.shares.items ≡ self.old.shares.items }
    {
        self.each.shrink_to_fit();
        self.shares.shrink_to_fit();
    }
}

// So many first bytes of a part.
fn first(part: &[u8], count: usize) -> &[u8]
    requires { count ≤ length part.now }
    ensures { result.now ≡ take count part.now }
{
    &part[..count]
}
