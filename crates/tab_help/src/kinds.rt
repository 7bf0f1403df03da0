//! Whether a word is of a kind.
use crate::forms::row_of;
use std::alloc::{AllocError, Global};
use tab_lines::{ParseError, read_line};

// For each kind but those of the bytes of a cell a line in which a word of that kind alone fits, with `_` in its place.
const PLACES: &str = "  U droptable _
  T droptable _
  MOMENT at _
  TS delete t r f q \\e _
  STAMP mutate t r del f q \\e _
  TIME createtable t _ versions=1
  VERSIONS createtable t time=any _
  N versions t _
  AUTHS setauths u _
  RULES constraints t _
  SYSTEM_PERMISSION grant u _
  TABLE_PERMISSION grant u _ t
  LOW scan t \\0 _ \\0
  HIGH scan t \\0 _ \\0
  COLS scan t \\0 \\0 \\0 _
  SESSION close _
  COUNT close _
  EXTENT compact t _
  KIND begin t r _
  JOB merge _
  LIMIT splitsize t r _
  FILE save _";

// What stands before a word of this kind in its line, and behind it.
fn place_of(kind: &str) -> (&'static str, &'static str) {
    let line = row_of(PLACES, kind.as_bytes()).unwrap_or("insert t _ f q \\e v");
    line.split_once('_').unwrap_or((line, ""))
}

/// Whether the word is of this kind: whether a line is read in which it stands where only such a word fits.
pub fn is_of_kind(alloc: Global, kind: &str, word: &[u8]) -> Result<bool, AllocError> {
    let (front, rest) = place_of(kind);
    let mut line = Vec::new(alloc);
    line.extend_from_slice(front.as_bytes())?;
    line.extend_from_slice(word)?;
    line.extend_from_slice(rest.as_bytes())?;
    match read_line(alloc, line.as_slice()) {
        Ok(_) => Ok(true),
        Err(ParseError::Malformed) => Ok(false),
        Err(ParseError::NoMemory) => Err(AllocError),
    }
}
