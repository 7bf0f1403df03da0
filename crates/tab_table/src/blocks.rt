//! Records in blocks, with the indexes of them, as they are built.
ghost use Rattle.std.specs.Prelude.{◌≡◌, ◌+◌, ◌<◌, ◌++◌, ◌∷◌, [], IfOk, OnOk};
ghost use Rattle.tab_key.specs.Encoding.{record_at, IsAt};
ghost use Rattle.tab_table.specs.Blocks.{no_key, last_key};
ghost use Rattle.tab_table.specs.Indexed.{records_of, AreIndexed};

use crate::entry::put_next;
use crate::restarts::Restarts;
use std::alloc::{AllocError, Global};
use std::mem;
use tab_iter::{NoMemory, Source};
use tab_key::{RecordRef, append_copy};
use tab_mem::RowIndex;

// How many bytes an entry has before what is as in a body.
const COUNTS_LEN: usize = 16;

// A copy of a record has room for so many bytes from the start: a short one is copied in one step.
const COPY_ROOM: usize = 256;

/// Records in blocks, where decoding may begin in them, and the sparse index of their rows.
#[derive(Drop)]
pub(crate) struct Blocks {
    pub(crate) body: Vec<u8>,
    pub(crate) count: usize,
    pub(crate) restarts: Restarts,
    pub(crate) row_index: RowIndex,
}

impl Blocks {
    // No records, with memory for this many that take so many bytes in a body; in blocks each may take four counts more.
    fn with_capacity(alloc: Global, count: usize, bytes: usize) -> Result<Blocks, AllocError>
        ensures empty { IfOk result (λ b. AreIndexed b no_key) }
        ensures none { IfOk result (λ b. b.count ≡ 0) }
    {
        let heads = count.saturating_mul(COUNTS_LEN);
        Ok(Blocks {
            body: Vec::with_capacity(alloc, bytes.saturating_add(heads))?,
            count: 0,
            restarts: Restarts::with_capacity(alloc, count)?,
            row_index: RowIndex::with_capacity(alloc, count)?,
        })
    }

    // Puts one record more behind the others, of which there is a copy, as there is of the last one before it. Its entry is made in a room
    // of its own.
    //
    // After an error, which only want of memory gives, nothing is known of them.
    fn push(&mut self, last: &[u8], next: &[u8], entry: &mut Vec<u8>) -> Result<(), AllocError>
        requires last { 0 < self.old.count → IsAt last.now 0 }
        requires next { IsAt next.now 0 }
        requires indexed { AreIndexed self.old (last_key self.old.count last.now) }
        ensures indexed { OnOk result (AreIndexed self.new (record_at next.now 0).key) }
        ensures records { OnOk result (records_of self.new ≡ records_of self.old ++ record_at next.now 0 ∷ []) }
        ensures count { OnOk result (self.new.count ≡ self.old.count + 1) }
    {
        let record = RecordRef::at(next, 0);
        let place = self.body.len();
        self.row_index.make_room()?;
        put_next(&mut self.body, entry, self.count, last, next)?;
        self.restarts.put(self.count, &record, &self.body, place)?;
        self.row_index.put(self.count, &record);
        self.count += 1;
        Ok(())
    }
}

// Puts a copy of the record in the place of the one that lay there.
#[inline]
fn copy_of(copy: &mut Vec<u8>, record: &RecordRef<'_>) -> Result<(), AllocError>
    ensures at { OnOk result (IsAt copy.new.items 0) }
    ensures record { OnOk result (record_at copy.new.items 0 ≡ record.now) }
{
    copy.clear();
    append_copy(copy, record)?;
    Ok(())
}

/// The records that the source has left, in blocks, with room from the start for so many in so many bytes. Each is copied twice: once
/// into a room of one record, since the next one is put behind it, and the source moves on.
pub(crate) fn blocks_of<S: Source>(
    alloc: Global,
    source: &mut S,
    count: usize,
    bytes: usize,
) -> Result<Blocks, NoMemory>
    ensures records { IfOk result (λ b. records_of b ≡ S.rest source.old) }
    ensures indexed { IfOk result (λ b. (last : _) × AreIndexed b last) }
{
    let mut blocks = Blocks::with_capacity(alloc, count, bytes)?;
    let mut last = Vec::with_capacity(alloc, COPY_ROOM)?;
    let mut next = Vec::with_capacity(alloc, COPY_ROOM)?;
    let mut entry = Vec::new(alloc);
    while let Some(top) = source.top() {
        copy_of(&mut next, &top)?;
        blocks.push(&last, &next, &mut entry)?;
        mem::swap(&mut last, &mut next);
        source.advance()?;
    }
    Ok(blocks)
}
