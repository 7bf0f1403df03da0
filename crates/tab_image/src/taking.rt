//! Bytes and numbers, read from the front of an input.
#![tactic(auto, using(crate::proofs::Streams::reading, crate::proofs::NumberLemmas::numbers))]

ghost use Rattle.std.specs.Prelude.{◌≡◌, ◌<◌, ◌≤◌, ◌+◌, IfOk, OnOk, length, MatchResult};
ghost use Rattle.std.specs.Io.KnownBytes.{Keeps};
ghost use Rattle.tab_io.specs.Streams.{FailsByFault};
ghost use Rattle.tab_image.specs.Streams.{Reads, HasRead, Stops, Appended, text_of};
ghost use Rattle.tab_image.specs.Takes.{IsAhead, AppendsSome, Appends};
ghost use Rattle.tab_codec.specs.Reading.{u8_at, u16_at, u32_at, u64_at, i64_at};

use crate::unread::Unread;
use tab_io::{Input, ReadFault};

/// Whether a byte is to come; the front has one then. Nothing is taken.
pub(crate) fn is_ahead<R: Input>(input: &mut R) -> Result<bool, ReadFault>
    ensures { IsAhead R.Input input.old input.new result }
{
    if input.front().is_empty() && !input.fill()? {
        return Ok(false);
    }
    Ok(!input.front().is_empty())
}

/// Takes one byte.
pub(crate) fn read_byte<R: Input>(input: &mut R) -> Result<u8, Unread>
    ensures { Reads R.Input input.old input.new u8_at result }
{
    if !is_ahead(input)? {
        return Err(Unread::Bad);
    }
    let byte = input.front()[0];
    input.consume(1);
    Ok(byte)
}

/// Takes four bytes.
pub(crate) fn read_four<R: Input>(input: &mut R) -> Result<[u8; 4], Unread>
    ensures { Reads R.Input input.old input.new (text_of 4) result }
{
    let front = input.front();
    if front.len() >= 4 {
        let four = [front[0], front[1], front[2], front[3]];
        input.consume(4);
        return Ok(four);
    }
    read_each_of_four(input)
}

// Takes four bytes one by one: where two reads give them.
fn read_each_of_four<R: Input>(input: &mut R) -> Result<[u8; 4], Unread>
    ensures { Reads R.Input input.old input.new (text_of 4) result }
{
    let first = read_byte(input)?;
    let second = read_byte(input)?;
    let third = read_byte(input)?;
    let fourth = read_byte(input)?;
    Ok([first, second, third, fourth])
}

/// Takes a number of two bytes.
pub(crate) fn read_u16<R: Input>(input: &mut R) -> Result<u16, Unread>
    ensures { Reads R.Input input.old input.new u16_at result }
{
    let high = read_byte(input)?;
    let low = read_byte(input)?;
    Ok(u16::from_be_bytes([high, low]))
}

/// Takes a number of four bytes.
pub(crate) fn read_u32<R: Input>(input: &mut R) -> Result<u32, Unread>
    ensures { Reads R.Input input.old input.new u32_at result }
{
    let bytes = read_four(input)?;
    Ok(u32::from_be_bytes(bytes))
}

/// Takes a number of eight bytes.
pub(crate) fn read_u64<R: Input>(input: &mut R) -> Result<u64, Unread>
    ensures { Reads R.Input input.old input.new u64_at result }
{
    let high = read_four(input)?;
    let low = read_four(input)?;
    Ok(u64::from_be_bytes([
        high[0], high[1], high[2], high[3], low[0], low[1], low[2], low[3],
    ]))
}

/// Takes a number of eight bytes with a sign.
pub(crate) fn read_i64<R: Input>(input: &mut R) -> Result<i64, Unread>
    ensures { Reads R.Input input.old input.new i64_at result }
{
    let bits = read_u64(input)?;
    Ok(bits.cast_signed())
}

/// Takes so many bytes, and puts them behind those that are there. No memory is taken for bytes that aren't there yet.
///
/// After an error some of them may have been taken.
pub(crate) fn read_text<R: Input>(
    input: &mut R,
    text: &mut Vec<u8>,
    count: usize,
) -> Result<(), Unread>
    ensures bytes { Appends R.Input input.old input.new (text_of count) text.old.items text.new.items result }
    ensures count { OnOk result (length text.new.items ≡ length text.old.items + count) }
{
    let mut left = count;
    while left > 0 {
        match read_some(input, text, left) {
            Ok(taken) => left -= taken,
            Err(unread) => return Err(unread),
        }
    }
    Ok(())
}

// Takes some bytes, at most so many, and tells how many they were.
fn read_some<R: Input>(input: &mut R, text: &mut Vec<u8>, most: usize) -> Result<usize, Unread>
    requires { 0 < most }
    ensures bytes { AppendsSome R.Input input.old input.new most text.old.items text.new.items result }
    ensures count { IfOk result (λ n. length text.new.items ≡ length text.old.items + n) }
{
    if !is_ahead(input)? {
        return Err(Unread::Bad);
    }
    let front = input.front();
    let count = lesser(front.len(), most);
    text.extend_from_slice(&front[..count])?;
    input.consume(count);
    Ok(count)
}

// The lesser of two numbers that aren't 0.
fn lesser(a: usize, b: usize) -> usize
    requires { (0 < a) × (0 < b) }
    ensures some { 0 < result }
    ensures first { result ≤ a }
    ensures second { result ≤ b }
{
    if a < b { a } else { b }
}
