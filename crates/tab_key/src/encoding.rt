//! How a record lies in a body of bytes: a head of 41 bytes, and then its five byte strings in one piece.
ghost use Rattle.std.specs.Prelude.{◌≡◌, ◌≤◌, ◌+◌, ◌++◌, ◌∷◌, [], IfOk, OnOk, length, nat_le, ◌&&◌, take};
ghost use Rattle.std.specs.Int.{w64, cast_unsigned};
ghost use Rattle.tab_key.specs.Encoding.{length_at, number_at, kind_of, span_at, record_at, record_size, IsAt, IsShort, FitsNumbers, four_bytes, eight_bytes, head_bytes, encoded};
ghost use Rattle.tab_key.specs.KeyOf.{key_of};
ghost use Rattle.tab_key.specs.RecordSpans.{record_in, IsWithin};
ghost use Rattle.tab_key.specs.declared.limited_part.TheConstants.{MAX_PART_LEN};

use crate::record_span::RecordSpan;
use crate::{Key, Kind, MAX_PART_LEN, Piece, RecordRef};
use bytes::Buf;
use std::alloc::AllocError;

// How many bytes a record has before its row.
const HEAD_LEN: usize = 41;

// How many bytes are copied at once of a record that has no more, where as many lie behind its beginning and there is memory for them: a
// copy of a fixed length needs neither a call nor a branch by length.
const STEP: usize = 128;

// How many bytes a record takes in a body, as a room to ask for at once.
pub(crate) fn byte_count(key: Key<'_>, value: &[u8]) -> usize {
    HEAD_LEN
        .saturating_add(key.row.len())
        .saturating_add(key.family.len())
        .saturating_add(key.qualifier.len())
        .saturating_add(key.label.len())
        .saturating_add(value.len())
}

/// Whether each part has at most `MAX_PART_LEN` bytes.
pub(crate) fn are_short(key: Key<'_>, value: &[u8]) -> bool
    ensures { result ≡ (nat_le (length key.entry.row.now) MAX_PART_LEN && nat_le (length key.entry.family.now) MAX_PART_LEN && nat_le (length key.entry.qualifier.now) MAX_PART_LEN && nat_le (length key.entry.label.now) MAX_PART_LEN && nat_le (length value.now) MAX_PART_LEN) }
{
    key.row.len() <= MAX_PART_LEN
        && key.family.len() <= MAX_PART_LEN
        && key.qualifier.len() <= MAX_PART_LEN
        && key.label.len() <= MAX_PART_LEN
        && value.len() <= MAX_PART_LEN
}

// The length of a part, in four bytes.
#[inline]
#[tactic(auto, unfolding(crate::specs::Encoding::four_bytes))]
fn length_of(part: &[u8]) -> [u8; 4]
    requires { length part.now ≤ MAX_PART_LEN }
    ensures { result ≡ four_bytes (length part.now) }
{
    (part.len() as u32).to_be_bytes()
}

// The five lengths.
#[inline]
#[tactic(auto, unfolding(crate::specs::Encoding::four_bytes))]
fn lengths_of(key: Key<'_>, value: &[u8]) -> [u8; 20]
    requires row { length key.row.now ≤ MAX_PART_LEN }
    requires family { length key.family.now ≤ MAX_PART_LEN }
    requires qualifier { length key.qualifier.now ≤ MAX_PART_LEN }
    requires label { length key.label.now ≤ MAX_PART_LEN }
    requires value { length value.now ≤ MAX_PART_LEN }
    ensures { result ≡ four_bytes (length key.entry.row.now) ++ four_bytes (length key.entry.family.now) ++ four_bytes (length key.entry.qualifier.now) ++ four_bytes (length key.entry.label.now) ++ four_bytes (length value.now) }
{
    let [a, b, c, d] = length_of(key.row);
    let [e, f, g, h] = length_of(key.family);
    let [i, j, k, l] = length_of(key.qualifier);
    let [m, n, o, p] = length_of(key.label);
    let [q, r, s, t] = length_of(value);
    [a, b, c, d, e, f, g, h, i, j, k, l, m, n, o, p, q, r, s, t]
}

// What isn't bytes of a record.
#[inline]
#[tactic(auto, unfolding(crate::specs::Encoding::four_bytes, crate::specs::Encoding::eight_bytes))]
fn numbers_of(timestamp: i64, mark: u8, seq: u64, idx: u32) -> [u8; 21]
    ensures bytes { result ≡ eight_bytes (cast_unsigned w64 timestamp) ++ (mark ∷ []) ++ eight_bytes seq ++ four_bytes idx }
    ensures fits { FitsNumbers timestamp seq idx }
{
    let [a, b, c, d, e, f, g, h] = timestamp.cast_unsigned().to_be_bytes();
    let [i, j, k, l, m, n, o, p] = seq.to_be_bytes();
    let [q, r, s, t] = idx.to_be_bytes();
    [
        a, b, c, d, e, f, g, h, mark, i, j, k, l, m, n, o, p, q, r, s, t,
    ]
}

// Puts the five byte strings at the end.
fn put_parts(body: &mut Vec<u8>, key: Key<'_>, value: &[u8]) -> Result<(), AllocError>
    ensures ok { OnOk result (body.new.items ≡ body.old.items ++ (key.entry.row.now ++ key.entry.family.now ++ key.entry.qualifier.now ++ key.entry.label.now ++ value.now)) }
    ensures front { take (length body.old.items) body.new.items ≡ body.old.items }
{
    body.extend_from_slice(key.row)?;
    body.extend_from_slice(key.family)?;
    body.extend_from_slice(key.qualifier)?;
    body.extend_from_slice(key.label)?;
    body.extend_from_slice(value)
}

// Puts the head of a record at the end, with this byte for its kind. Memory is asked for once, for the five byte strings too.
fn put_head(
    body: &mut Vec<u8>,
    key: Key<'_>,
    mark: u8,
    value: &[u8],
    seq: u64,
    idx: u32,
) -> Result<(), AllocError>
    requires { IsShort (record { key = key_of key; kind = kind_of mark; value = value.now; seq = seq; idx = idx }) }
    ensures ok { OnOk result (body.new.items ≡ body.old.items ++ head_bytes mark (record { key = key_of key.entry; kind = kind_of mark; value = value.now; seq = seq; idx = idx })) }
    ensures fits { OnOk result (FitsNumbers key.entry.timestamp seq idx) }
    ensures front { take (length body.old.items) body.new.items ≡ body.old.items }
{
    body.reserve(byte_count(key, value))?;
    body.extend_from_slice(&lengths_of(key, value))?;
    body.extend_from_slice(&numbers_of(key.timestamp, mark, seq, idx))
}

// Puts a record at the end, with this byte for its kind.
fn put_record(
    body: &mut Vec<u8>,
    key: Key<'_>,
    mark: u8,
    value: &[u8],
    seq: u64,
    idx: u32,
) -> Result<(), AllocError>
    requires { IsShort (record { key = key_of key; kind = kind_of mark; value = value.now; seq = seq; idx = idx }) }
    ensures ok { OnOk result (body.new.items ≡ body.old.items ++ encoded mark (record { key = key_of key.entry; kind = kind_of mark; value = value.now; seq = seq; idx = idx })) }
    ensures fits { OnOk result (FitsNumbers key.entry.timestamp seq idx) }
    ensures front { take (length body.old.items) body.new.items ≡ body.old.items }
{
    put_head(body, key, mark, value, seq, idx)?;
    put_parts(body, key, value)
}

// Puts a record at the end, all but its row in one piece.
fn put_joined(
    body: &mut Vec<u8>,
    key: Key<'_>,
    mark: u8,
    value: &[u8],
    joined: &[u8],
    seq: u64,
    idx: u32,
) -> Result<(), AllocError>
    requires short { IsShort (record { key = key_of key; kind = kind_of mark; value = value.now; seq = seq; idx = idx }) }
    requires joined { joined.now ≡ key.family.now ++ key.qualifier.now ++ key.label.now ++ value.now }
    ensures ok { OnOk result (body.new.items ≡ body.old.items ++ encoded mark (record { key = key_of key.entry; kind = kind_of mark; value = value.now; seq = seq; idx = idx })) }
    ensures fits { OnOk result (FitsNumbers key.entry.timestamp seq idx) }
    ensures front { take (length body.old.items) body.new.items ≡ body.old.items }
{
    put_head(body, key, mark, value, seq, idx)?;
    put_both(body, key.row, joined)
}

// Puts two byte strings at the end.
fn put_both(body: &mut Vec<u8>, row: &[u8], joined: &[u8]) -> Result<(), AllocError>
    ensures ok { OnOk result (body.new.items ≡ body.old.items ++ (row.now ++ joined.now)) }
    ensures front { take (length body.old.items) body.new.items ≡ body.old.items }
{
    body.extend_from_slice(row)?;
    body.extend_from_slice(joined)
}

/// Puts a record at the end of the body, and says where its head begins. Each part may have at most 1,048,576 bytes. Memory is asked for
/// once.
///
/// What the body held before stays as it was. After an error, which only want of memory gives, it may hold more bytes at its end.
pub fn append(
    body: &mut Vec<u8>,
    key: Key<'_>,
    kind: Kind,
    value: &[u8],
    seq: u64,
    idx: u32,
) -> Result<usize, AllocError>
    requires { IsShort (record { key = key_of key; kind = kind; value = value.now; seq = seq; idx = idx }) }
    ensures place { IfOk result (λ p. p ≡ length body.old.items) }
    ensures within { IfOk result (λ p. IsAt body.new.items p) }
    ensures front { take (length body.old.items) body.new.items ≡ body.old.items }
    ensures record { IfOk result (λ p. record_at body.new.items p ≡ record { key = key_of key.entry; kind = kind; value = value.now; seq = seq; idx = idx }) }
    ensures end { IfOk result (λ p. (span_at body.new.items p).end ≡ length body.new.items) }
{
    let place = body.len();
    let mark = mark_of(kind, key.label);
    put_record(body, key, mark, value, seq, idx)?;
    Ok(place)
}

/// Puts a record at the end as [`append`] does, whose family, qualifier, label and value lie one after another already, in `joined`: they
/// are copied in one piece.
pub fn append_joined(
    body: &mut Vec<u8>,
    key: Key<'_>,
    kind: Kind,
    value: &[u8],
    joined: &[u8],
    seq: u64,
    idx: u32,
) -> Result<usize, AllocError>
    requires short { IsShort (record { key = key_of key; kind = kind; value = value.now; seq = seq; idx = idx }) }
    requires joined { joined.now ≡ key.family.now ++ key.qualifier.now ++ key.label.now ++ value.now }
    ensures place { IfOk result (λ p. p ≡ length body.old.items) }
    ensures within { IfOk result (λ p. IsAt body.new.items p) }
    ensures front { take (length body.old.items) body.new.items ≡ body.old.items }
    ensures record { IfOk result (λ p. record_at body.new.items p ≡ record { key = key_of key.entry; kind = kind; value = value.now; seq = seq; idx = idx }) }
    ensures end { IfOk result (λ p. (span_at body.new.items p).end ≡ length body.new.items) }
{
    let place = body.len();
    let mark = mark_of(kind, key.label);
    put_joined(body, key, mark, value, joined, seq, idx)?;
    Ok(place)
}

// The byte for the kind of a record: 0 for a marker, and for a put one of 255 that its label chooses. Whoever reads the head so has a
// guess at the label at once; nothing but speed hangs on it.
fn mark_of(kind: Kind, label: &[u8]) -> u8
    ensures { kind_of result ≡ kind }
{
    match kind {
        Kind::Delete => 0,
        Kind::Put => 1 + (label_number(label) % 255) as u8,
    }
}

// A number for a label of any length: of its length and of its first byte, the one in its middle and its last.
fn label_number(label: &[u8]) -> u64 {
    let length = label.len();
    let number = (length as u64)
        ^ byte_at(label, 0) << 16
        ^ byte_at(label, length / 2) << 32
        ^ byte_at(label, length.saturating_sub(1)) << 48;
    number.wrapping_mul(0xBF58_476D_1CE4_E5B9) >> 32
}

// The byte at an index, or 0 behind the end.
fn byte_at(bytes: &[u8], index: usize) -> u64 {
    match bytes.get(index) {
        Some(byte) => u64::from(*byte),
        None => 0,
    }
}

/// The byte that stands for the kind of the record whose head begins at a place.
#[inline]
pub(crate) fn mark_at(body: &[u8], place: usize) -> u8
    requires { IsAt body.now place }
{
    mark_in(body, place)
}

#[inline]
fn mark_in(body: &[u8], place: usize) -> u8
    requires { place + 41 ≤ length body.now }
{
    body[place + 28]
}

/// Puts a copy of the record at the end of the body, in one piece, and says where its head begins.
///
/// After an error, which only want of memory gives, the body may hold more bytes at its end.
#[inline]
pub fn append_copy(body: &mut Vec<u8>, source: &RecordRef<'_>) -> Result<usize, AllocError>
    ensures place { IfOk result (λ p. p ≡ length body.old.items) }
    ensures within { IfOk result (λ p. IsAt body.new.items p) }
    ensures front { take (length body.old.items) body.new.items ≡ body.old.items }
    ensures copy { IfOk result (λ p. record_at body.new.items p ≡ source.now) }
    ensures size { OnOk result (length body.new.items ≡ length body.old.items + record_size source.now) }
{
    let place = body.len();
    append_piece(body, &source.encoded_piece())?;
    Ok(place)
}

// Puts the bytes at the end.
#[inline]
fn append_piece(body: &mut Vec<u8>, bytes: &Piece<'_>) -> Result<(), AllocError>
    ensures ok { OnOk result (body.new.items ≡ body.old.items ++ bytes.now) }
    ensures front { take (length body.old.items) body.new.items ≡ body.old.items }
{
    let onward = bytes.onward();
    let room = body.capacity().saturating_sub(body.len());
    if bytes.len() <= STEP && STEP <= onward.len() && STEP <= room {
        return append_step(body, onward, bytes.len());
    }
    body.extend_from_slice(bytes.as_slice())
}

// Puts one step at the end, and takes back of it what isn't one of the first `count` bytes.
#[inline]
fn append_step(body: &mut Vec<u8>, bytes: &[u8], count: usize) -> Result<(), AllocError>
    requires count { count ≤ 128 }
    requires bytes { 128 ≤ length bytes.now }
    ensures ok { OnOk result (body.new.items ≡ body.old.items ++ take count bytes.now) }
    ensures front { take (length body.old.items) body.new.items ≡ body.old.items }
{
    body.extend_from_slice(&first_step(bytes))?;
    let kept = body.len() - (STEP - count);
    body.truncate(kept);
    Ok(())
}

// The first bytes by themselves: that they lie apart from the body needn't be asked when they are copied on.
#[inline]
fn first_step(bytes: &[u8]) -> [u8; STEP]
    requires { 128 ≤ length bytes.now }
    ensures { result ≡ take 128 bytes.now }
{
    let mut step = [0; STEP];
    step.copy_from_slice(&bytes[..STEP]);
    step
}

// The number that the four bytes at a place spell.
#[inline]
#[tactic(auto, unfolding(crate::specs::Encoding::length_at))]
fn length_at(body: &[u8], place: usize) -> u32
    requires { place + 4 ≤ length body.now }
    ensures { result ≡ length_at body.now place }
{
    let mut bytes = &body[place..place + 4];
    bytes.get_u32()
}

/// The number that the eight bytes at a place spell.
#[inline]
#[tactic(auto, unfolding(crate::specs::Encoding::number_at))]
pub(crate) fn number_at(body: &[u8], place: usize) -> u64
    requires { place + 8 ≤ length body.now }
    ensures { result ≡ number_at body.now place }
{
    let mut bytes = &body[place..place + 8];
    bytes.get_u64()
}

// The kind that a byte stands for.
#[inline]
fn kind_of(byte: u8) -> Kind
    ensures { result ≡ kind_of byte }
{
    match byte {
        0 => Kind::Delete,
        _ => Kind::Put,
    }
}

/// Where the parts of the record lie whose head begins at a place, and what the head says.
#[inline]
#[tactic(auto, unfolding(crate::specs::Encoding::span_at))]
fn span_at(body: &[u8], place: usize) -> RecordSpan
    requires head { place + 41 ≤ length body.now }
    requires whole { (span_at body.now place).end ≤ length body.now }
    ensures { result ≡ span_at body.now place }
{
    let start = place + HEAD_LEN;
    let row_end = start + length_at(body, place) as usize;
    let family_end = row_end + length_at(body, place + 4) as usize;
    let qualifier_end = family_end + length_at(body, place + 8) as usize;
    let label_end = qualifier_end + length_at(body, place + 12) as usize;
    RecordSpan {
        start,
        row_end,
        family_end,
        qualifier_end,
        label_end,
        end: label_end + length_at(body, place + 16) as usize,
        timestamp: number_at(body, place + 20).cast_signed(),
        seq: number_at(body, place + 29),
        idx: length_at(body, place + 37),
        kind: kind_of(body[place + 28]),
    }
}

/// Where the parts of the record lie that lies in the body at a place.
#[inline]
pub(crate) fn span_of(body: &[u8], place: usize) -> RecordSpan
    requires { IsAt body.now place }
    ensures within { IsWithin body.now result }
    ensures is { record_in body.now result ≡ record_at body.now place }
{
    span_at(body, place)
}

/// Where the record ends that lies in the body at a place.
#[inline]
pub fn end_of(body: &[u8], place: usize) -> usize
    requires { IsAt body.now place }
    ensures { result ≡ (span_at body.now place).end }
{
    span_at(body, place).end
}

/// The bytes of the record that lies in the body at a place, as a piece of it: its head and its parts.
#[inline]
pub(crate) fn piece_of(body: &[u8], place: usize) -> Piece<'_>
    requires { IsAt body.now place }
    ensures at { IsAt result 0 }
    ensures record { record_at result 0 ≡ record_at body.now place }
    ensures size { length result ≡ record_size (record_at body.now place) }
{
    let end = end_of(body, place);
    Piece::between(body, place, end)
}
