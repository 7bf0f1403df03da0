//! Bytes that are written over others, in steps of a fixed length where as many lie ahead.
ghost use Rattle.std.specs.Prelude.{◌≡◌, ◌≤◌, ◌+◌, ◌++◌, OnOk, IsTrue, length, take};
ghost use Rattle.std.specs.List.{slice_range};

use std::alloc::AllocError;
use tab_key::Piece;

/// How many bytes of a part are copied at once where it has no more. So many lie behind what is written.
pub(crate) const PART_STEP: usize = 16;

/// How many bytes of a value, or of what a head has behind the lengths of the parts, are copied at once where it has no more.
pub(crate) const PIECE_STEP: usize = 32;

/// So many bytes have to lie behind what is written: what a step copies too much goes over them.
pub(crate) const ROOM: usize = 32;

// A body has at least so many bytes once it has any, and is made twice as long where it is shorter than the most.
const LEAST: usize = 2_048;

const MOST: usize = 65_536;

/// Writes the piece over the bytes from a place on, and says where it ends. Up to 32 bytes behind it may be written over too.
#[inline]
pub(crate) fn write_piece(out: &mut [u8], place: usize, piece: &Piece<'_>) -> usize
    requires room { place + length piece.now + ROOM ≤ length out.old }
    ensures end { result ≡ place + length piece.now }
    ensures bytes { take result out.new ≡ take place out.old ++ piece.now }
    ensures length { length out.new ≡ length out.old }
{
    let onward = piece.onward();
    let len = piece.len();
    if len <= PIECE_STEP && PIECE_STEP <= onward.len() {
        let step = first_step(onward);
        write_all(out, place, &step);
        return place + len;
    }
    write_long(out, place, piece.as_slice());
    place + len
}

/// Writes so many bytes that lie before a place once more over those from that place on, and behind them so many others; says where they
/// end. Where both are said to be short, up to 16 bytes behind them may be written over too.
#[inline(always)]
pub(crate) fn splice(
    out: &mut [u8],
    place: usize,
    from: usize,
    count: usize,
    others: &[u8],
    rest: usize,
    len: usize,
    are_short: bool,
) -> usize
    requires before { from + count ≤ place }
    requires inside { rest + len ≤ length others.now }
    requires room { place + count + len + PART_STEP ≤ length out.old }
    requires count { IsTrue are_short → count ≤ PART_STEP }
    requires len { IsTrue are_short → len ≤ PART_STEP }
    requires ahead { IsTrue are_short → rest + PART_STEP ≤ length others.now }
    ensures end { result ≡ place + count + len }
    ensures bytes { take result out.new ≡ take place out.old ++ (slice_range out.old from (from + count) ++ slice_range others.now rest (rest + len)) }
    ensures length { length out.new ≡ length out.old }
{
    let middle = repeat_span(out, place, from, count, are_short);
    write_span(out, middle, others, rest, len, are_short)
}

/// Writes so many of these bytes over those from a place on, and says where they end. Where they are said to be short, up to 16 bytes
/// behind them may be written over too.
#[inline(always)]
pub(crate) fn write_span(
    out: &mut [u8],
    place: usize,
    bytes: &[u8],
    from: usize,
    len: usize,
    is_short: bool,
) -> usize
    requires inside { from + len ≤ length bytes.now }
    requires room { place + len + PART_STEP ≤ length out.old }
    requires few { IsTrue is_short → len ≤ PART_STEP }
    requires ahead { IsTrue is_short → from + PART_STEP ≤ length bytes.now }
    ensures end { result ≡ place + len }
    ensures bytes { take result out.new ≡ take place out.old ++ slice_range bytes.now from (from + len) }
    ensures length { length out.new ≡ length out.old }
{
    if is_short {
        let step = step_at(bytes, from);
        write_all(out, place, &step);
        return place + len;
    }
    write_long(out, place, &bytes[from..from + len]);
    place + len
}

/// [`write_span`] in a longer step: where they are said to be short, up to 32 bytes behind them may be written over too.
#[inline(always)]
pub(crate) fn write_longer(
    out: &mut [u8],
    place: usize,
    bytes: &[u8],
    from: usize,
    len: usize,
    is_short: bool,
) -> usize
    requires inside { from + len ≤ length bytes.now }
    requires room { place + len + ROOM ≤ length out.old }
    requires few { IsTrue is_short → len ≤ PIECE_STEP }
    requires ahead { IsTrue is_short → from + PIECE_STEP ≤ length bytes.now }
    ensures end { result ≡ place + len }
    ensures bytes { take result out.new ≡ take place out.old ++ slice_range bytes.now from (from + len) }
    ensures length { length out.new ≡ length out.old }
{
    if is_short {
        let step = long_step_at(bytes, from);
        write_all(out, place, &step);
        return place + len;
    }
    write_long(out, place, &bytes[from..from + len]);
    place + len
}

// `write_span` of bytes that lie before the place.
#[inline(always)]
fn repeat_span(out: &mut [u8], place: usize, from: usize, len: usize, is_short: bool) -> usize
    requires before { from + len ≤ place }
    requires room { place + len + PART_STEP ≤ length out.old }
    requires few { IsTrue is_short → len ≤ PART_STEP }
    ensures end { result ≡ place + len }
    ensures bytes { take result out.new ≡ take place out.old ++ slice_range out.old from (from + len) }
    ensures length { length out.new ≡ length out.old }
{
    if is_short {
        let step = step_at(out, from);
        write_all(out, place, &step);
        return place + len;
    }
    repeat_long(out, place, from, len);
    place + len
}

// What `repeat_span` does where a step doesn't serve.
#[inline(never)]
fn repeat_long(out: &mut [u8], place: usize, from: usize, len: usize)
    requires before { from + len ≤ place }
    requires room { place + len ≤ length out.old }
    ensures bytes { take (place + len) out.new ≡ take place out.old ++ slice_range out.old from (from + len) }
    ensures length { length out.new ≡ length out.old }
{
    out.copy_within(from..from + len, place);
}

// What is done where a step doesn't serve. It is a call, so that this way lies apart from the steps.
#[inline(never)]
fn write_long(out: &mut [u8], place: usize, bytes: &[u8])
    requires { place + length bytes.now ≤ length out.old }
    ensures bytes { take (place + length bytes.now) out.new ≡ take place out.old ++ bytes.now }
    ensures length { length out.new ≡ length out.old }
{
    write_all(out, place, bytes);
}

/// Writes these bytes over those from a place on.
#[inline]
pub(crate) fn write_all(out: &mut [u8], place: usize, bytes: &[u8])
    requires { place + length bytes.now ≤ length out.old }
    ensures bytes { take (place + length bytes.now) out.new ≡ take place out.old ++ bytes.now }
    ensures length { length out.new ≡ length out.old }
{
    out[place..place + bytes.len()].copy_from_slice(bytes);
}

// A step from a place on by itself: that it lies apart from what is written needn't be asked when it is copied on.
#[inline(always)]
fn step_at(bytes: &[u8], place: usize) -> [u8; PART_STEP]
    requires { place + PART_STEP ≤ length bytes.now }
    ensures { result ≡ slice_range bytes.now place (place + PART_STEP) }
{
    let mut step = [0; PART_STEP];
    step.copy_from_slice(&bytes[place..place + PART_STEP]);
    step
}

// A longer step of the first bytes.
#[inline(always)]
fn first_step(bytes: &[u8]) -> [u8; PIECE_STEP]
    requires { PIECE_STEP ≤ length bytes.now }
    ensures { result ≡ take PIECE_STEP bytes.now }
{
    let mut step = [0; PIECE_STEP];
    step.copy_from_slice(&bytes[..PIECE_STEP]);
    step
}

// A longer step of those from a place on.
#[inline(always)]
fn long_step_at(bytes: &[u8], place: usize) -> [u8; PIECE_STEP]
    requires { place + PIECE_STEP ≤ length bytes.now }
    ensures { result ≡ slice_range bytes.now place (place + PIECE_STEP) }
{
    let mut step = [0; PIECE_STEP];
    step.copy_from_slice(&bytes[place..place + PIECE_STEP]);
    step
}

/// Sees that a body has so many bytes; what it has stays.
#[inline(never)]
pub(crate) fn grow(body: &mut Vec<u8>, len: usize) -> Result<(), AllocError>
    ensures front { take (length body.old.items) body.new.items ≡ body.old.items }
    ensures long { OnOk result (len ≤ length body.new.items) }
{
    if len <= body.len() {
        return Ok(());
    }
    let twice = body.len().saturating_mul(2).min(MOST);
    body.resize(len.max(twice).max(LEAST), 0)
}
