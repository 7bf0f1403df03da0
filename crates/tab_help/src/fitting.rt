//! The word at which a line stops to fit a form.
use crate::forms::{LINES, UPDATES, behind, row_of};
use crate::kinds::is_of_kind;
use std::alloc::{AllocError, Global};
use tab_lines::Words;

/// A word that doesn't fit, or is missing, and what fits there: one kind or two, or the end of the line.
#[derive(Clone, Copy)]
pub struct Misfit<'a> {
    pub place: u64,
    pub word: Option<&'a [u8]>,
    pub kind: Option<&'a str>,
    pub other: Option<&'a str>,
    pub end: bool,
}

impl<'a> Misfit<'a> {
    /// The one that is further on; of two at one place, both.
    pub fn or(self, other: Misfit<'a>) -> Misfit<'a> {
        if self.place > other.place {
            return self;
        }
        if self.place < other.place {
            return other;
        }
        let second = match (self.kind, other.kind) {
            (Some(a), Some(b)) if a == b => None,
            (None, _) => None,
            (_, b) => b,
        };
        Misfit {
            place: self.place,
            word: self.word,
            kind: self.kind.or(other.kind),
            other: second,
            end: self.end || other.end,
        }
    }
}

// Why the words don't fit a form; or there was no memory to tell.
#[derive(Drop)]
enum Stop<'a> {
    Misfit(Misfit<'a>),
    NoMemory,
}

impl<'a> From<AllocError> for Stop<'a> {
    fn from(_error: AllocError) -> Stop<'a> {
        Stop::NoMemory
    }
}

// The words of a line that are left, and the place of the first one in the line, counted from 1.
#[derive(Clone, Copy)]
struct Rest<'a> {
    words: Words<'a>,
    place: u64,
}

// Whether the word may be missing, and the name of its kind without the brackets.
fn named(kind: &str) -> (bool, &str) {
    let name = kind.trim_start_matches('[').trim_end_matches(']');
    (kind.starts_with('['), name)
}

// Takes a word of each of these kinds, as far as there are words.
fn fit_words<'a>(alloc: Global, kinds: &'a str, start: Rest<'a>) -> Result<Rest<'a>, Stop<'a>> {
    let mut rest = start;
    for kind in kinds.split(' ') {
        let (end, name) = named(kind);
        let place = rest.place;
        let word = rest.words.next();
        let fits = match word {
            Some(word) => is_of_kind(alloc, name, word)?,
            None if end => return Ok(rest),
            None => false,
        };
        if !fits {
            return Err(Stop::Misfit(Misfit {
                place,
                word,
                kind: Some(name),
                other: None,
                end,
            }));
        }
        rest.place = place.saturating_add(1);
    }
    Ok(rest)
}

// Sees that no word is left, or else only such a word.
fn fit_end<'a>(rest: Rest<'a>, kind: Option<&'a str>) -> Result<(), Stop<'a>> {
    let mut words = rest.words;
    match words.next() {
        None => Ok(()),
        word => Err(Stop::Misfit(Misfit {
            place: rest.place,
            word,
            kind,
            other: None,
            end: true,
        })),
    }
}

// Takes the words of one update.
fn fit_update<'a>(alloc: Global, start: Rest<'a>) -> Result<Rest<'a>, Stop<'a>> {
    let mut rest = start;
    let word = rest.words.next();
    rest.place = start.place.saturating_add(1);
    if let Some(verb) = word {
        if let Some(kinds) = row_of(UPDATES, verb) {
            return fit_words(alloc, kinds, rest);
        }
    }
    Err(Stop::Misfit(Misfit {
        place: start.place,
        word,
        kind: Some("UPDATE"),
        other: None,
        end: false,
    }))
}

// Takes updates with the word `;` between them, to the end of the line. Each takes words, so they end.
fn fit_updates<'a>(alloc: Global, start: Rest<'a>) -> Result<(), Stop<'a>> {
    let mut rest = start;
    for _ in 0..u64::MAX {
        rest = fit_update(alloc, rest)?;
        let mut behind = rest;
        if behind.words.next() != Some(b";".as_slice()) {
            return fit_end(rest, Some(";"));
        }
        behind.place = rest.place.saturating_add(1);
        rest = behind;
    }
    Ok(())
}

// Takes words of these kinds again and again, to the end of the line. Each time takes words, so they end.
fn fit_repeated<'a>(alloc: Global, kinds: &'a str, start: Rest<'a>) -> Result<(), Stop<'a>> {
    let mut rest = start;
    for _ in 0..u64::MAX {
        if fit_end(rest, None).is_ok() {
            return Ok(());
        }
        rest = fit_words(alloc, kinds, rest)?;
    }
    Ok(())
}

// Takes updates, or no word at all.
fn fit_any_updates<'a>(alloc: Global, start: Rest<'a>) -> Result<(), Stop<'a>> {
    if fit_end(start, None).is_ok() {
        return Ok(());
    }
    fit_updates(alloc, start)
}

// Sees whether the words behind the command fit a form.
fn fit_form<'a>(alloc: Global, kinds: &'a str, words: Words<'a>) -> Result<(), Stop<'a>> {
    let start = Rest { words, place: 2 };
    if kinds.is_empty() {
        return fit_end(start, None);
    }
    if let Some((front, _)) = kinds.split_once(" [UPDATE") {
        let rest = fit_words(alloc, front, start)?;
        return fit_any_updates(alloc, rest);
    }
    if let Some((front, _)) = kinds.split_once(" [LOW HIGH]..") {
        let rest = fit_words(alloc, front, start)?;
        return fit_repeated(alloc, "[LOW HIGH]", rest);
    }
    let rest = fit_words(alloc, kinds, start)?;
    fit_end(rest, None)
}

/// The furthest word of a line to which its words fit a form of its command, if they fit none to the end. A command that has no
/// form gives none.
pub fn furthest_misfit<'a>(
    alloc: Global,
    command: &[u8],
    words: Words<'a>,
) -> Result<Option<Misfit<'a>>, AllocError> {
    let mut furthest: Option<Misfit<'a>> = None;
    for row in LINES.lines() {
        let Some(kinds) = behind(row, command) else {
            continue;
        };
        match fit_form(alloc, kinds, words) {
            Ok(()) => return Ok(None),
            Err(Stop::NoMemory) => return Err(AllocError),
            Err(Stop::Misfit(next)) => {
                furthest = match furthest {
                    Some(first) => Some(first.or(next)),
                    None => Some(next),
                };
            }
        }
    }
    Ok(furthest)
}
