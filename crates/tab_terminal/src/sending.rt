//! The line that is sent for a typed one.
ghost use Rattle.std.specs.Prelude.{◌≡◌, ◌++◌};
ghost use Rattle.tab_terminal.specs.Typing.{Sends, PutsTyped, PutsOn, line_sent, sent, typed, outside_byte, inside, behind_slash};

use crate::hex::hex_form;
use crate::misquote::{Misquote, Unsent};
use crate::place::LinePosition;
use std::alloc::Global;
use tab_text::is_plain;

/// The line that is sent for this one, which a person typed. Neither has a line feed.
///
/// A word that begins with `"` goes on to the next `"`, behind which stands a space or the end: its spaces are part of it, and so are all
/// bytes that a script would have escaped. In it `\"` is a quote, and another `\` begins an escape as in a script. In all other words a `"`
/// stands for itself, and bytes that aren't ASCII are escaped. A line that begins with `#` is sent as it is. It takes memory for the line
/// that is sent, at most four times as long.
pub fn sent_line(alloc: Global, line: &[u8]) -> Result<Vec<u8>, Unsent>
    ensures { Sends (λ x. x.items) result (line_sent line.now) }
{
    if let [b'#', ..] = line {
        return Ok(Vec::from_slice(alloc, line)?);
    }
    sent_words(alloc, line)
}

// The line that is sent for a line that is no comment.
fn sent_words(alloc: Global, line: &[u8]) -> Result<Vec<u8>, Unsent>
    ensures { Sends (λ x. x.items) result (sent LinePosition.Between line.now) }
{
    let mut text = Vec::new(alloc);
    let mut place = LinePosition::Between;
    for byte in line {
        match put_typed(&mut text, place, *byte) {
            Ok(next) => place = next,
            Err(why) => return Err(why),
        }
    }
    match place {
        LinePosition::Between | LinePosition::Word | LinePosition::Closed => Ok(text),
        LinePosition::Opened | LinePosition::Quoted | LinePosition::Slash => Err(Unsent::Misquoted(
            Misquote::Open,
        )),
    }
}

// Puts what is sent for a byte that stands there. Gives where the next one stands.
fn put_typed(text: &mut Vec<u8>, place: LinePosition, byte: u8) -> Result<LinePosition, Unsent>
    ensures { PutsTyped text.old.items text.new.items result (typed place byte) }
{
    match place {
        LinePosition::Between if byte == b'"' => Ok(LinePosition::Opened),
        LinePosition::Between | LinePosition::Word if byte == b' ' => put(
            text,
            b" ",
            LinePosition::Between,
        ),
        LinePosition::Between | LinePosition::Word => put_outside(text, byte),
        LinePosition::Opened if byte == b'"' => put(text, b"\\e", LinePosition::Closed),
        LinePosition::Quoted if byte == b'"' => Ok(LinePosition::Closed),
        LinePosition::Opened | LinePosition::Quoted => put_inside(text, byte),
        LinePosition::Slash => put_behind_slash(text, byte),
        LinePosition::Closed if byte == b' ' => put(text, b" ", LinePosition::Between),
        LinePosition::Closed => Err(Unsent::Misquoted(Misquote::Follows)),
    }
}

// Puts a byte of a word that isn't quoted: one that isn't ASCII is escaped.
fn put_outside(text: &mut Vec<u8>, byte: u8) -> Result<LinePosition, Unsent>
    ensures { PutsOn text.old.items text.new.items (outside_byte byte) LinePosition.Word result }
{
    if byte < 128 {
        return put(text, &[byte], LinePosition::Word);
    }
    put(text, &hex_form(byte), LinePosition::Word)
}

// Puts a byte of a quoted word that is no quote: what isn't plain is escaped.
fn put_inside(text: &mut Vec<u8>, byte: u8) -> Result<LinePosition, Unsent>
    ensures { PutsTyped text.old.items text.new.items result (inside byte) }
{
    if byte == b'\\' {
        return Ok(LinePosition::Slash);
    }
    if is_plain(byte) {
        return put(text, &[byte], LinePosition::Quoted);
    }
    put(text, &hex_form(byte), LinePosition::Quoted)
}

// Puts the byte behind a backslash in a quoted word.
fn put_behind_slash(text: &mut Vec<u8>, byte: u8) -> Result<LinePosition, Unsent>
    ensures { PutsTyped text.old.items text.new.items result (behind_slash byte) }
{
    if byte == b'"' {
        return put(text, b"\"", LinePosition::Quoted);
    }
    if is_plain(byte) || byte == b'\\' {
        return put(text, &[b'\\', byte], LinePosition::Quoted);
    }
    Err(Unsent::Misquoted(Misquote::Escape))
}

// Puts these bytes. Gives this place.
fn put(text: &mut Vec<u8>, bytes: &[u8], place: LinePosition) -> Result<LinePosition, Unsent>
    ensures { PutsOn text.old.items text.new.items bytes.now place result }
{
    text.extend_from_slice(bytes)?;
    Ok(place)
}
