//! What is shown of a word.
ghost use Rattle.std.specs.Prelude.{◌≡◌, ◌==◌, ◌++◌, IfOk, OnOk};
ghost use Rattle.std.specs.List.{list_any};
ghost use Rattle.tab_text.specs.Reading.{bytes_of, unescaped};
ghost use Rattle.tab_terminal.specs.Showing.{IsShown, IsShownFor, Spells, shown, shown_byte, shown_bytes, needs_quotes};

use crate::hex::hex_form;
use crate::printable::is_printable;
use std::alloc::{AllocError, Global};
use tab_text::{Escape, is_plain, step};

/// What is shown at a terminal of a byte word: itself, with printable characters that aren't ASCII in the place of their escapes, if all of its
/// bytes are a text of printable characters; and in quotes, where there is a space in it or a quote in front. What is no byte word is shown
/// as it is. It takes memory for what the word spells and what is shown.
pub fn shown_word(alloc: Global, word: &[u8]) -> Result<Vec<u8>, AllocError>
    ensures { IfOk result (λ text. IsShownFor text.items word.now (bytes_of word.now)) }
{
    match spelled(alloc, word)? {
        Some(bytes) => shown(alloc, bytes.as_slice()),
        None => Vec::from_slice(alloc, word),
    }
}

// The bytes that a word spells, if it is a byte word.
#[tactic(auto, unfolding(tab_text::specs::Reading::bytes_of))]
fn spelled(alloc: Global, word: &[u8]) -> Result<Option<Vec<u8>>, AllocError>
    ensures { Spells (λ x. x.items) result (bytes_of word.now) }
{
    if word.is_empty() {
        return Ok(None);
    }
    if word == b"\\e".as_slice() {
        return Ok(Some(Vec::new(alloc)));
    }
    unescaped(alloc, word)
}

// The bytes of a word that may have escapes.
fn unescaped(alloc: Global, word: &[u8]) -> Result<Option<Vec<u8>>, AllocError>
    ensures { Spells (λ x. x.items) result (unescaped Escape.Outside word.now) }
{
    let mut bytes = Vec::new(alloc);
    let mut state = Escape::Outside;
    for byte in word {
        let Some((whole, next)) = step(state, *byte) else {
            return Ok(None);
        };
        if let Some(whole) = whole {
            bytes.push(whole)?;
        }
        state = next;
    }
    match state {
        Escape::Outside => Ok(Some(bytes)),
        _ => Ok(None),
    }
}

// What is shown of these bytes.
fn shown(alloc: Global, bytes: &[u8]) -> Result<Vec<u8>, AllocError>
    ensures { IfOk result (λ text. IsShown text.items bytes.now) }
{
    shown_so(alloc, bytes, is_printable(bytes))
}

// What is shown of these bytes, where they are a text of printable characters or not.
fn shown_so(alloc: Global, bytes: &[u8], drawn: bool) -> Result<Vec<u8>, AllocError>
    ensures { IfOk result (λ text. text.items ≡ shown drawn bytes.now) }
{
    if bytes.is_empty() {
        return Vec::from_slice(alloc, b"\\e");
    }
    let quoted = needs_quotes(bytes);
    let mut text = Vec::new(alloc);
    if quoted {
        text.push(b'"')?;
    }
    put_bytes(&mut text, bytes, quoted, drawn)?;
    if quoted {
        text.push(b'"')?;
    }
    Ok(text)
}

// Whether quotes stand around these bytes.
fn needs_quotes(bytes: &[u8]) -> bool
    ensures { result ≡ needs_quotes bytes.now }
{
    match bytes.split_first() {
        Some((first, _)) => *first == b'"' || has_space(bytes),
        None => false,
    }
}

// Whether one of these is a space.
fn has_space(bytes: &[u8]) -> bool
    ensures { result ≡ list_any (λ b. b == 32) bytes.now }
{
    bytes.iter().any(|byte| *byte == b' ')
}

// Puts what is shown of each byte.
fn put_bytes(text: &mut Vec<u8>, bytes: &[u8], quoted: bool, drawn: bool) -> Result<(), AllocError>
    ensures { OnOk result (text.new.items ≡ text.old.items ++ shown_bytes quoted drawn bytes.now) }
{
    for byte in bytes {
        match put_byte(text, *byte, quoted, drawn) {
            Ok(()) => {}
            Err(fault) => return Err(fault),
        }
    }
    Ok(())
}

// Puts what is shown of a byte.
fn put_byte(text: &mut Vec<u8>, byte: u8, quoted: bool, drawn: bool) -> Result<(), AllocError>
    ensures { OnOk result (text.new.items ≡ text.old.items ++ shown_byte quoted drawn byte) }
{
    if quoted && byte == b' ' {
        return text.extend_from_slice(b" ");
    }
    if quoted && byte == b'"' {
        return text.extend_from_slice(b"\\\"");
    }
    if byte == b'\\' {
        return text.extend_from_slice(b"\\\\");
    }
    if is_plain(byte) || (drawn && byte >= 128) {
        return text.extend_from_slice(&[byte]);
    }
    text.extend_from_slice(&hex_form(byte))
}
