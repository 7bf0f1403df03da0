//! How a record lies in a block: what of it the record before it doesn't have.
ghost use Rattle.std.specs.Prelude.{◌≡◌, ◌<◌, ◌≤◌, ◌+◌, ◌++◌, ◌∷◌, [], IfOk, OnOk, length, take, drop};
ghost use Rattle.tab_key.specs.Encoding.{length_at, record_at, IsAt};
ghost use Rattle.tab_key.specs.Records.{Key as Fields};
ghost use Rattle.tab_table.specs.Blocks.{base_of, block_records, last_key, place_behind, AreBlocks};
ghost use Rattle.tab_table.specs.Counts.{AreShared, HasCounts};
ghost use Rattle.tab_table.specs.EntryBytes.{entry_bytes, rests_of, IsPut};

use crate::heads::{ENTRY_HEAD, HEAD_LEN, LENS_LEN, Places, write_head, write_lens};
use crate::sharing::{Counts, counts_at, shared_part};
use crate::writing::{PART_STEP, PIECE_STEP, ROOM, grow, write_piece, write_span};
use std::alloc::AllocError;
use tab_key::RecordRef;

/// How many records a block has; the last one may have fewer.
pub(crate) const BLOCK_LEN: usize = 64;

/// Puts the entry of the record of which this is a copy at the end of the body, which shares so many bytes with another one, and says
/// where it begins. All but a long value is made in a room of its own first: so the body grows once for most entries, and not for each
/// part.
///
/// What the body held before stays as it was. After an error, which only want of memory gives, it may hold more bytes at its end.
pub(crate) fn put_entry(
    body: &mut Vec<u8>,
    entry: &mut Vec<u8>,
    counts: Counts,
    record: &[u8],
) -> Result<usize, AllocError>
    requires record { IsAt record.now 0 }
    requires row { counts.row ≤ length (record_at record.now 0).key.row }
    requires family { counts.family ≤ length (record_at record.now 0).key.family }
    requires qualifier { counts.qualifier ≤ length (record_at record.now 0).key.qualifier }
    requires label { counts.label ≤ length (record_at record.now 0).key.label }
    ensures place { IfOk result (λ p. p ≡ length body.old.items) }
    ensures put { (base : Fields) → AreShared counts base (record_at record.now 0) → IfOk result (λ p. IsPut base body.old.items body.new.items p (record_at record.now 0)) }
    ensures front { take (length body.old.items) body.new.items ≡ body.old.items }
{
    let place = body.len();
    let end = make_entry(entry, counts, record)?;
    let whole = RecordRef::at(record, 0);
    let value = whole.value_piece();
    let is_short = value.len() <= ROOM;
    if is_short {
        let all = write_piece(entry, end, &value);
        body.extend_from_slice(&entry[..all])?;
        return Ok(place);
    }
    body.extend_from_slice(&entry[..end])?;
    body.extend_from_slice(value.as_slice())?;
    Ok(place)
}

// Makes the entry of the record of which this is a copy, but for its value, in a room of its own, and says where it ends. A short value has
// room behind it.
fn make_entry(entry: &mut Vec<u8>, counts: Counts, record: &[u8]) -> Result<usize, AllocError>
    requires record { IsAt record.now 0 }
    requires row { counts.row ≤ length (record_at record.now 0).key.row }
    requires family { counts.family ≤ length (record_at record.now 0).key.family }
    requires qualifier { counts.qualifier ≤ length (record_at record.now 0).key.qualifier }
    requires label { counts.label ≤ length (record_at record.now 0).key.label }
    ensures room { IfOk result (λ end. end + ROOM + ROOM ≤ length entry.new.items) }
    ensures bytes { IfOk result (λ end. take end entry.new.items ≡ entry_bytes counts.row counts.family counts.qualifier counts.label record.now) }
{
    let lens = counts_at(record, 0);
    let room = ENTRY_HEAD + lens.sum() + ROOM + ROOM;
    grow(entry, room)?;
    Ok(write_entry(entry, counts, record))
}

// What the record with an index shares with the one before it, of both of which these are copies: nothing where a block begins.
#[inline]
fn counts_behind(index: usize, last: &[u8], next: &[u8]) -> Counts
    requires last { 0 < index → IsAt last.now 0 }
    requires next { IsAt next.now 0 }
    ensures { AreShared result (base_of index (last_key index last.now)) (record_at next.now 0) }
{
    if index % BLOCK_LEN == 0 {
        return Counts::none();
    }
    counts_of(last, next)
}

// The greatest such counts of two records of which these are copies.
#[inline]
fn counts_of(last: &[u8], next: &[u8]) -> Counts
    requires last { IsAt last.now 0 }
    requires next { IsAt next.now 0 }
    ensures { AreShared result (record_at last.now 0).key (record_at next.now 0) }
{
    let lens = counts_at(last, 0);
    let others = counts_at(next, 0);
    let from = Places::from_row(HEAD_LEN, lens);
    let place = Places::from_row(HEAD_LEN, others);
    let are_short = lens.are_few()
        && others.are_few()
        && from.label + PART_STEP <= last.len()
        && place.label + PART_STEP <= next.len();
    let row = shared_part(
        last, from.row, lens.row, next, place.row, others.row, are_short,
    );
    let family = shared_part(
        last,
        from.family,
        lens.family,
        next,
        place.family,
        others.family,
        are_short,
    );
    let qualifier = shared_part(
        last,
        from.qualifier,
        lens.qualifier,
        next,
        place.qualifier,
        others.qualifier,
        are_short,
    );
    let label = shared_part(
        last,
        from.label,
        lens.label,
        next,
        place.label,
        others.label,
        are_short,
    );
    Counts {
        row,
        family,
        qualifier,
        label,
    }
}

/// Puts the entry of one more record behind so many that fill the body, of the last of which this is a copy, as of the one more.
///
/// After an error, which only want of memory gives, the body may hold more bytes at its end.
pub(crate) fn put_next(
    body: &mut Vec<u8>,
    entry: &mut Vec<u8>,
    count: usize,
    last: &[u8],
    next: &[u8],
) -> Result<(), AllocError>
    requires last { 0 < count → IsAt last.now 0 }
    requires blocks { AreBlocks body.old.items count (last_key count last.now) }
    requires next { IsAt next.now 0 }
    ensures blocks { OnOk result (AreBlocks body.new.items (count + 1) (record_at next.now 0).key) }
    ensures records { OnOk result (block_records body.new.items (count + 1) ≡ block_records body.old.items count ++ (record_at next.now 0) ∷ []) }
    ensures there { OnOk result (place_behind body.new.items 0 count ≡ length body.old.items) }
    ensures counts { OnOk result (HasCounts body.new.items (length body.old.items) (record_at next.now 0)) }
    ensures front { take (length body.old.items) body.new.items ≡ body.old.items }
{
    let counts = counts_behind(count, last, next);
    put_entry(body, entry, counts, next)?;
    Ok(())
}

// Writes the entry of the record of which this is a copy over the first bytes, but for its value, and says where it ends: the counts, the
// head of what the parts have beyond them, and these rests.
#[inline]
fn write_entry(out: &mut [u8], counts: Counts, record: &[u8]) -> usize
    requires record { IsAt record.now 0 }
    requires row { counts.row ≤ length (record_at record.now 0).key.row }
    requires family { counts.family ≤ length (record_at record.now 0).key.family }
    requires qualifier { counts.qualifier ≤ length (record_at record.now 0).key.qualifier }
    requires label { counts.label ≤ length (record_at record.now 0).key.label }
    requires room { 57 + length (record_at record.now 0).key.row + length (record_at record.now 0).key.family + length (record_at record.now 0).key.qualifier + length (record_at record.now 0).key.label + ROOM + ROOM ≤ length out.old }
    ensures inside { result + ROOM + ROOM ≤ length out.new }
    ensures bytes { take result out.new ≡ entry_bytes counts.row counts.family counts.qualifier counts.label record.now }
    ensures length { length out.new ≡ length out.old }
{
    let lens = counts_at(record, 0);
    let rests = lens.minus(counts);
    write_lens(out, 0, counts);
    let is_ahead = LENS_LEN + PIECE_STEP <= record.len();
    write_head(out, LENS_LEN, rests, record, 0, is_ahead);
    write_rests(out, ENTRY_HEAD, counts, record)
}

// Writes what the parts of the record of which this is a copy have behind so many bytes over the bytes from a place on, and says where they
// end.
#[inline]
fn write_rests(out: &mut [u8], place: usize, counts: Counts, record: &[u8]) -> usize
    requires record { IsAt record.now 0 }
    requires row { counts.row ≤ length_at record.now 0 }
    requires family { counts.family ≤ length_at record.now 4 }
    requires qualifier { counts.qualifier ≤ length_at record.now 8 }
    requires label { counts.label ≤ length_at record.now 12 }
    requires room { place + length_at record.now 0 + length_at record.now 4 + length_at record.now 8 + length_at record.now 12 + ROOM ≤ length out.old }
    ensures inside { result ≤ place + length_at record.now 0 + length_at record.now 4 + length_at record.now 8 + length_at record.now 12 }
    ensures bytes { take result out.new ≡ take place out.old ++ rests_of counts.row counts.family counts.qualifier counts.label record.now }
    ensures length { length out.new ≡ length out.old }
{
    let lens = counts_at(record, 0);
    let from = Places::from_row(HEAD_LEN, lens);
    let rests = lens.minus(counts);
    let label = from.label + counts.label;
    let are_short = rests.are_few() && label + PART_STEP <= record.len();
    let family = write_span(
        out,
        place,
        record,
        from.row + counts.row,
        rests.row,
        are_short,
    );
    let qualifier = write_span(
        out,
        family,
        record,
        from.family + counts.family,
        rests.family,
        are_short,
    );
    let end = write_span(
        out,
        qualifier,
        record,
        from.qualifier + counts.qualifier,
        rests.qualifier,
        are_short,
    );
    write_span(out, end, record, label, rests.label, are_short)
}

/// What a part has behind so many bytes.
#[inline]
pub(crate) fn behind(part: &[u8], count: usize) -> &[u8]
    requires { count ≤ length part.now }
    ensures { result.now ≡ drop count part.now }
{
    &part[count..]
}
