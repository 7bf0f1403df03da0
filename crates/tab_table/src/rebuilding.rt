//! Records that are rebuilt of their entries, in the form in which a record lies in a body.
ghost use Rattle.std.specs.Prelude.{◌≡◌, ◌<◌, ◌≤◌, ◌+◌, ◌^◌, ◌++◌, IsTrue, length, take, replicate};
ghost use Rattle.tab_key.specs.Encoding.{length_at, four_bytes, record_at, IsAt};
ghost use Rattle.tab_table.specs.Blocks.{entry_at, IsEntry};
ghost use Rattle.tab_table.specs.Counts.{AreFew};
ghost use Rattle.tab_table.specs.Reading.{IsRead, MayStep};
ghost use Rattle.tab_table.specs.Decoding.{key_at, rebuilt_size, parts_size, parts_in};

use crate::heads::{ENTRY_HEAD, HEAD_LEN, LENS_LEN, Places, REST_LEN, write_head, write_lens};
use crate::sharing::{Counts, count_at, counts_at};
use crate::writing::{PART_STEP, PIECE_STEP, ROOM, splice, write_all, write_longer};
use tab_key::end_of;

// A record is written in steps where so many bytes lie from the entry's beginning on: its head, four steps, and the one of the value.
const AHEAD: usize = ENTRY_HEAD + 4 * PART_STEP + PIECE_STEP;

/// What an entry says of lengths: how many first bytes of each part are those of the record before it, how many more there are, and how
/// long the value is.
#[derive(Clone, Copy)]
pub(crate) struct Entry {
    pub(crate) counts: Counts,
    pub(crate) rests: Counts,
    pub(crate) value: usize,
}

impl Entry {
    /// Of the entry at a place.
    #[inline(always)]
    pub(crate) fn at(blocks: &[u8], at: usize) -> Entry
        requires { at + 57 ≤ length blocks.now }
        ensures { IsRead result blocks.now at }
    {
        let counts = counts_at(blocks, at);
        let rests = counts_at(blocks, at + LENS_LEN);
        let value = count_at(blocks, at + LENS_LEN + LENS_LEN);
        Entry {
            counts,
            rests,
            value,
        }
    }

    /// How many bytes it is.
    #[inline(always)]
    pub(crate) fn size(self) -> usize
        requires { 57 + self.rests.row + self.rests.family + self.rests.qualifier + self.rests.label + self.value ≤ usize.MAX }
        ensures { result ≡ 57 + self.rests.row + self.rests.family + self.rests.qualifier + self.rests.label + self.value }
    {
        ENTRY_HEAD + self.rests.sum() + self.value
    }
}

/// How long a body has to be, for the record of an entry to be written there from a place on.
#[cold]
#[inline(never)]
pub(crate) fn room_for(blocks: &[u8], at: usize, place: usize) -> usize
    requires rest { IsAt blocks.now (at + 16) }
    requires place { place + rebuilt_size blocks.now at + ROOM ≤ usize.MAX }
    ensures { result ≡ place + rebuilt_size blocks.now at + ROOM }
{
    let rest = end_of(blocks, at + LENS_LEN) - (at + LENS_LEN);
    place + counts_at(blocks, at).sum() + rest + ROOM
}

/// Writes the record of the entry at a place of these blocks into a body, where the record before it lies at `base`. What lies before
/// `place` stays. The answer is where the record ends.
#[inline(always)]
pub(crate) fn write_record(
    out: &mut [u8],
    place: usize,
    base: usize,
    blocks: &[u8],
    at: usize,
) -> usize
    requires base { IsAt (take place out.old) base }
    requires entry { IsEntry (key_at (take place out.old) base) blocks.now at }
    requires room { place + rebuilt_size blocks.now at + ROOM ≤ length out.old }
    ensures inside { result ≤ length out.new }
    ensures front { take place out.new ≡ take place out.old }
    ensures within { IsAt (take result out.new) place }
    ensures record { record_at (take result out.new) place ≡ entry_at (key_at (take place out.old) base) blocks.now at }
    ensures length { length out.new ≡ length out.old }
{
    let entry = Entry::at(blocks, at);
    let lens = entry.counts.plus(entry.rests);
    let onward = blocks.len() - at;
    let is_short = may_step(lens, entry.value, onward);
    if is_short {
        return put_record(out, place, base, blocks, at, is_short);
    }
    write_long_record(out, place, base, blocks, at)
}

// Whether a record with parts and a value of these lengths may be written in steps, where so many bytes lie from its entry's beginning on.
#[inline(always)]
fn may_step(lens: Counts, value: usize, onward: usize) -> bool
    ensures lens { IsTrue result → AreFew lens PART_STEP }
    ensures value { IsTrue result → value ≤ PIECE_STEP }
    ensures ahead { IsTrue result → AHEAD ≤ onward }
{
    lens.are_few() && value <= PIECE_STEP && AHEAD <= onward
}

// What `write_record` does where steps don't serve. It is a call, so that the ways by length lie apart from the steps.
#[inline(never)]
fn write_long_record(out: &mut [u8], place: usize, base: usize, blocks: &[u8], at: usize) -> usize
    requires base { IsAt (take place out.old) base }
    requires entry { IsEntry (key_at (take place out.old) base) blocks.now at }
    requires room { place + rebuilt_size blocks.now at + ROOM ≤ length out.old }
    ensures inside { result ≤ length out.new }
    ensures front { take place out.new ≡ take place out.old }
    ensures within { IsAt (take result out.new) place }
    ensures record { record_at (take result out.new) place ≡ entry_at (key_at (take place out.old) base) blocks.now at }
    ensures length { length out.new ≡ length out.old }
{
    put_record(out, place, base, blocks, at, false)
}

// Writes the record in steps or by length. The head is the entry's own but for the lengths of the parts: these have the shared bytes too.
#[inline(always)]
fn put_record(
    out: &mut [u8],
    place: usize,
    base: usize,
    blocks: &[u8],
    at: usize,
    is_short: bool,
) -> usize
    requires steps { IsTrue is_short → MayStep blocks.now at PART_STEP PIECE_STEP AHEAD }
    requires base { IsAt (take place out.old) base }
    requires entry { IsEntry (key_at (take place out.old) base) blocks.now at }
    requires room { place + rebuilt_size blocks.now at + ROOM ≤ length out.old }
    ensures inside { result ≤ length out.new }
    ensures front { take place out.new ≡ take place out.old }
    ensures within { IsAt (take result out.new) place }
    ensures record { record_at (take result out.new) place ≡ entry_at (key_at (take place out.old) base) blocks.now at }
    ensures length { length out.new ≡ length out.old }
{
    let entry = Entry::at(blocks, at);
    let lens = entry.counts.plus(entry.rests);
    write_head(out, place, lens, blocks, at + LENS_LEN, is_short);
    let end = write_parts(out, place + HEAD_LEN, base, blocks, at, entry, is_short);
    let rests = entry.rests.sum();
    let value = at + ENTRY_HEAD + rests;
    write_longer(out, end, blocks, value, entry.value, is_short)
}

// Writes the four parts of the entry's record over the bytes from a place on, and says where they end: of each the bytes that the record
// at `base` has too, and behind them the rest.
#[inline(always)]
fn write_parts(
    out: &mut [u8],
    place: usize,
    base: usize,
    blocks: &[u8],
    at: usize,
    entry: Entry,
    are_short: bool,
) -> usize
    requires read { IsRead entry blocks.now at }
    requires steps { IsTrue are_short → MayStep blocks.now at PART_STEP PIECE_STEP AHEAD }
    requires base { base + 41 + length_at out.old base + length_at out.old (base + 4) + length_at out.old (base + 8) + length_at out.old (base + 12) ≤ place }
    requires row { length_at blocks.now at ≤ length_at out.old base }
    requires family { length_at blocks.now (at + 4) ≤ length_at out.old (base + 4) }
    requires qualifier { length_at blocks.now (at + 8) ≤ length_at out.old (base + 8) }
    requires label { length_at blocks.now (at + 12) ≤ length_at out.old (base + 12) }
    requires rests { at + 57 + length_at blocks.now (at + 16) + length_at blocks.now (at + 16 + 4) + length_at blocks.now (at + 16 + 8) + length_at blocks.now (at + 16 + 12) ≤ length blocks.now }
    requires room { place + parts_size blocks.now at + ROOM ≤ length out.old }
    ensures end { result ≡ place + parts_size blocks.now at }
    ensures bytes { take result out.new ≡ take place out.old ++ parts_in out.old base blocks.now at }
    ensures length { length out.new ≡ length out.old }
{
    let lens = counts_at(out, base);
    let from = Places::from_row(base + HEAD_LEN, lens);
    let rest = Places::from_row(at + ENTRY_HEAD, entry.rests);
    let family = splice(
        out,
        place,
        from.row,
        entry.counts.row,
        blocks,
        rest.row,
        entry.rests.row,
        are_short,
    );
    let qualifier = splice(
        out,
        family,
        from.family,
        entry.counts.family,
        blocks,
        rest.family,
        entry.rests.family,
        are_short,
    );
    let label = splice(
        out,
        qualifier,
        from.qualifier,
        entry.counts.qualifier,
        blocks,
        rest.qualifier,
        entry.rests.qualifier,
        are_short,
    );
    splice(
        out,
        label,
        from.label,
        entry.counts.label,
        blocks,
        rest.label,
        entry.rests.label,
        are_short,
    )
}

/// Writes a record without a value at the body's beginning, whose parts are so long and lie one behind the other; says where it ends.
pub(crate) fn write_base(out: &mut [u8], lens: Counts, parts: &[u8]) -> usize
    requires row { lens.row < 2 ^ 32 }
    requires family { lens.family < 2 ^ 32 }
    requires qualifier { lens.qualifier < 2 ^ 32 }
    requires label { lens.label < 2 ^ 32 }
    requires parts { length parts.now ≡ lens.row + lens.family + lens.qualifier + lens.label }
    requires room { 41 + length parts.now ≤ length out.old }
    ensures end { result ≡ 41 + length parts.now }
    ensures bytes { take result out.new ≡ four_bytes lens.row ++ four_bytes lens.family ++ four_bytes lens.qualifier ++ four_bytes lens.label ++ replicate 25 0 ++ parts.now }
    ensures length { length out.new ≡ length out.old }
{
    write_lens(out, 0, lens);
    write_all(out, LENS_LEN, &[0; REST_LEN]);
    write_all(out, HEAD_LEN, parts);
    HEAD_LEN + parts.len()
}

/// Makes the record at a place the one at the body's beginning, and says where it ends.
pub(crate) fn keep_record(out: &mut [u8], place: usize) -> usize
    requires { IsAt out.old place }
    ensures inside { result ≤ length out.new }
    ensures within { IsAt (take result out.new) 0 }
    ensures record { record_at (take result out.new) 0 ≡ record_at out.old place }
    ensures length { length out.new ≡ length out.old }
{
    let end = end_of(out, place);
    out.copy_within(place..end, 0);
    end - place
}
