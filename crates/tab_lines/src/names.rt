//! The names that words spell.
ghost use Rattle.std.specs.Prelude.{◌≡◌};
ghost use Rattle.tab_text.specs.Gives.{Gives};
ghost use Rattle.tab_lines.specs.Fields.{name_of, is_name, only_if, time_word, extent_word, compaction_word, file_name_of, constraint_of};

use crate::file_line::FileName;
use crate::spelling::{bytes_of, spelling_of};
use std::alloc::Global;
use tab_cells::Compaction;
use tab_history::{Extent, TimeMode};
use tab_key::Name;
use tab_rules::Constraint;
use tab_text::ParseError;

/// The name of a user or a table that a word spells.
#[inline(always)]
pub fn name_of(alloc: Global, word: &[u8]) -> Result<Name, ParseError>
    ensures { Gives (λ x. x) result (name_of word.now) }
{
    let bytes = spelling_of(alloc, word)?;
    let Some(name) = checked_name(bytes.as_bytes()) else {
        return Err(ParseError::Malformed);
    };
    Ok(name)
}

/// The bytes as a name, if they are one.
#[inline(always)]
#[tactic(auto, using(crate::proofs::NameLemmas::named))]
pub fn checked_name(bytes: &[u8]) -> Option<Name>
    ensures { result ≡ only_if is_name bytes.now }
{
    Name::new(bytes)
}

/// Who gives the timestamps of a table: the words `time=any` and `time=server`.
pub fn time_word(word: &[u8]) -> Option<TimeMode>
    ensures { result ≡ time_word word.now }
{
    if word == b"time=any".as_slice() {
        Some(TimeMode::Any)
    } else if word == b"time=server".as_slice() {
        Some(TimeMode::Server)
    } else {
        None
    }
}

/// What a compaction of a whole table merges: the words `partial` and `full`.
pub fn extent_word(word: &[u8]) -> Option<Extent>
    ensures { result ≡ extent_word word.now }
{
    if word == b"partial".as_slice() {
        Some(Extent::Partial)
    } else if word == b"full".as_slice() {
        Some(Extent::Full)
    } else {
        None
    }
}

/// What a compaction of a tablet merges: the words `minor`, `partial` and `full`.
pub fn compaction_word(word: &[u8]) -> Option<Compaction>
    ensures { result ≡ compaction_word word.now }
{
    if word == b"minor".as_slice() {
        Some(Compaction::Minor)
    } else if word == b"partial".as_slice() {
        Some(Compaction::Partial)
    } else if word == b"full".as_slice() {
        Some(Compaction::Full)
    } else {
        None
    }
}

/// The name of a file that a word spells.
pub fn file_name_of(alloc: Global, word: &[u8]) -> Result<FileName, ParseError>
    ensures { Gives (λ x. x) result (file_name_of word.now) }
{
    let bytes = bytes_of(alloc, word)?;
    let Some(name) = FileName::new(bytes) else {
        return Err(ParseError::Malformed);
    };
    Ok(name)
}

/// The constraint whose name a word spells.
pub fn constraint_of(alloc: Global, word: &[u8]) -> Result<Constraint, ParseError>
    ensures { Gives (λ x. x) result (constraint_of word.now) }
{
    let name = spelling_of(alloc, word)?;
    let Some(constraint) = Constraint::from_name(name.as_bytes()) else {
        return Err(ParseError::Malformed);
    };
    Ok(constraint)
}
