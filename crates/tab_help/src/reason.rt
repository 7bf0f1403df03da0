//! Why a line is a fault.
ghost use Rattle.std.specs.Prelude.{◌≡◌, None, IfOk, MatchOption};
ghost use Rattle.tab_lines.specs.Lines.{line_of};
ghost use Rattle.tab_help.specs.Explaining.{IsLine};

use crate::asks::Asks;
use crate::fitting::{Misfit, furthest_misfit};
use crate::forms::{LINES, behind};
use crate::near::near_command;
use std::alloc::{AllocError, Global};
use tab_lines::{ParseError, Words, read_line};

/// Why a line is a fault, with the word that shows it and its place, counted from 1.
#[derive(Clone, Copy)]
pub enum LineReason<'a> {
    /// The script begins with a byte order mark.
    Mark(&'a [u8]),
    /// The line ends in a carriage return.
    Return(u64, &'a [u8]),
    /// The first word is none of the commands of these lines.
    Command(Asks, &'a [u8]),
    /// No line begins with its first word, but it is near to this one.
    Near(&'a [u8], &'static str),
    /// A word doesn't fit, or is missing.
    Word(Misfit<'a>),
    /// The line is of no form.
    Form,
}

// The last word of the line, and its place.
fn last_word(line: &[u8]) -> (u64, &[u8]) {
    let mut words = Words::of(line);
    let mut last = (0, b"".as_slice());
    for place in 1..u64::MAX {
        let Some(word) = words.next() else {
            break;
        };
        last = (place, word);
    }
    last
}

// Whether a line begins with this word.
fn is_command(word: &[u8]) -> bool {
    LINES.lines().any(|row| behind(row, word).is_some())
}

// That the word is no command.
fn unknown_command(alloc: Global, asks: Asks, word: &[u8]) -> Result<LineReason<'_>, AllocError> {
    Ok(match near_command(alloc, asks, word)? {
        Some(command) => LineReason::Near(word, command),
        None => LineReason::Command(asks, word),
    })
}

// Why the line is a fault, which it is. A mark and a carriage return come first: they are in the way of all else.
fn reason_for<'a>(
    alloc: Global,
    asks: Asks,
    line: &'a [u8],
    is_first: bool,
) -> Result<LineReason<'a>, AllocError> {
    let mut words = Words::of(line);
    let Some(command) = words.next() else {
        return Ok(LineReason::Form);
    };
    if is_first && command.starts_with(b"\xef\xbb\xbf") {
        return Ok(LineReason::Mark(command));
    }
    if line.ends_with(b"\r") {
        let (place, word) = last_word(line);
        return Ok(LineReason::Return(place, word));
    }
    if !is_command(command) {
        return unknown_command(alloc, asks, command);
    }
    match furthest_misfit(alloc, command, words)? {
        Some(found) => Ok(LineReason::Word(found)),
        None => Ok(LineReason::Form),
    }
}

/// Why the line is a fault: none exactly where it is a line of a script. What is expected in its place is one of these lines. An error says
/// only that memory lacked.
pub fn fault<'a>(
    alloc: Global,
    asks: Asks,
    line: &'a [u8],
    is_first: bool,
) -> Result<Option<LineReason<'a>>, AllocError>
    ensures { IfOk result (λ found. MatchOption found (IsLine line.now) (λ _. line_of line.now ≡ None)) }
{
    match read_line(alloc, line) {
        Ok(_) => Ok(None),
        Err(ParseError::Malformed) => Ok(Some(reason_for(alloc, asks, line, is_first)?)),
        Err(ParseError::NoMemory) => Err(AllocError),
    }
}
