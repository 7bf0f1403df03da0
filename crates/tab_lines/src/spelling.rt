//! The bytes that a word spells.
ghost use Rattle.std.specs.Prelude.{◌≡◌};
ghost use Rattle.std.specs.List.{list_all};
ghost use Rattle.tab_text.specs.Gives.{Gives};
ghost use Rattle.tab_text.specs.Words.{is_plain};
ghost use Rattle.tab_text.specs.Reading.{bytes_of, unescaped};
ghost use Rattle.tab_lines.specs.Spelling.{bytes_spelled};

use std::alloc::Global;
use tab_text::{Escape, ParseError, is_plain, step};

/// The bytes that a word spells: the word itself where nothing in it is escaped, else a string of their own.
#[derive(Drop)]
pub enum Spelled<'a> {
    /// The word stands for itself.
    Plain(&'a [u8]),
    /// The bytes that its escapes stand for, among the others.
    Decoded(Vec<u8>),
}

impl Spelled<'_> {
    /// The bytes.
    pub fn as_bytes(&self) -> &[u8]
        ensures { result.now ≡ bytes_spelled self.now }
    {
        match self {
            Spelled::Plain(text) => text,
            Spelled::Decoded(bytes) => bytes.as_slice(),
        }
    }
}

/// The bytes that a word spells. A word without escapes takes no memory.
#[tactic(auto, unfolding(tab_text::specs::Reading::bytes_of), using(crate::proofs::SpellingLemmas::plain_spells))]
pub fn spelling_of<'a>(alloc: Global, text: &'a [u8]) -> Result<Spelled<'a>, ParseError>
    ensures { Gives bytes_spelled result (bytes_of text.now) }
{
    if text.is_empty() {
        return Err(ParseError::Malformed);
    }
    if text == b"\\e".as_slice() {
        return Ok(Spelled::Decoded(Vec::new(alloc)));
    }
    if are_plain(text) {
        return Ok(Spelled::Plain(text));
    }
    Ok(Spelled::Decoded(unescaped(alloc, text)?))
}

/// The bytes that a word spells, in a string of their own.
pub fn bytes_of(alloc: Global, text: &[u8]) -> Result<Vec<u8>, ParseError>
    ensures { Gives (λ x. x.items) result (bytes_of text.now) }
{
    match spelling_of(alloc, text)? {
        Spelled::Plain(text) => Ok(Vec::from_slice(alloc, text)?),
        Spelled::Decoded(bytes) => Ok(bytes),
    }
}

// The bytes of a word that may have escapes.
fn unescaped(alloc: Global, text: &[u8]) -> Result<Vec<u8>, ParseError>
    ensures { Gives (λ x. x.items) result (unescaped Escape.Outside text.now) }
{
    let mut bytes = Vec::new(alloc);
    let mut state = Escape::Outside;
    for byte in text {
        let Some((whole, next)) = step(state, *byte) else {
            return Err(ParseError::Malformed);
        };
        if let Some(whole) = whole {
            bytes.push(whole)?;
        }
        state = next;
    }
    match state {
        Escape::Outside => Ok(bytes),
        _ => Err(ParseError::Malformed),
    }
}

// Whether no byte of the text is escaped.
fn are_plain(text: &[u8]) -> bool
    ensures { result ≡ list_all is_plain text.now }
{
    text.iter().all(|b| is_plain(*b))
}
