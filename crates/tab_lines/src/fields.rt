//! One word of a line after another, each with what it must say.
ghost use Rattle.std.specs.Prelude.{[]};
ghost use Rattle.tab_label.specs.Sets.{byte_lists};
ghost use Rattle.tab_text.specs.Gives.{Gives};
ghost use Rattle.tab_lines.specs.Gives.{field, ends};
ghost use Rattle.tab_lines.specs.Words.{words_left};
ghost use Rattle.tab_text.specs.Reading.{bytes_of};
ghost use Rattle.tab_lines.specs.Spelling.{bytes_spelled};
ghost use Rattle.tab_lines.specs.Fields.{name_of, unsigned_of, small_of, signed_of, version_count, list_of, bound_of, extent_word, compaction_word, file_name_of};
ghost use Rattle.tab_lines.specs.Lines.{name_alone};

use crate::bounds::bound_of;
use crate::file_line::FileName;
use crate::lists::list_of;
use crate::names::{compaction_word, extent_word, file_name_of, name_of};
use crate::numbers::{signed_of, small_of, unsigned_of, version_count};
use crate::spelling::{Spelled, bytes_of, spelling_of};
use crate::words::Words;
use std::alloc::Global;
use tab_cells::Compaction;
use tab_history::{Extent, Versions};
use tab_key::{Bound, ByteString, Name};
use tab_text::ParseError;

/// Takes a word that spells a name.
#[inline(always)]
pub fn a_name(alloc: Global, words: &mut Words) -> Result<Name, ParseError>
    ensures { Gives (λ x. (x, words_left words.new)) result (field name_of (words_left words.old)) }
{
    let Some(word) = words.next() else {
        return Err(ParseError::Malformed);
    };
    name_of(alloc, word)
}

/// Takes a byte word.
pub fn a_word<'a>(alloc: Global, words: &mut Words<'a>) -> Result<Spelled<'a>, ParseError>
    ensures { Gives (λ x. (bytes_spelled x, words_left words.new)) result (field bytes_of (words_left words.old)) }
{
    let Some(word) = words.next() else {
        return Err(ParseError::Malformed);
    };
    spelling_of(alloc, word)
}

/// Takes a byte word, as a string of its own.
pub fn a_byte_string(alloc: Global, words: &mut Words) -> Result<ByteString, ParseError>
    ensures { Gives (λ x. (x, words_left words.new)) result (field bytes_of (words_left words.old)) }
{
    let Some(word) = words.next() else {
        return Err(ParseError::Malformed);
    };
    Ok(ByteString::from_vec(bytes_of(alloc, word)?))
}

/// Takes a word that lists byte strings.
pub fn a_list(alloc: Global, words: &mut Words) -> Result<Vec<Vec<u8>>, ParseError>
    ensures { Gives (λ x. (byte_lists x.items, words_left words.new)) result (field list_of (words_left words.old)) }
{
    let Some(word) = words.next() else {
        return Err(ParseError::Malformed);
    };
    list_of(alloc, word)
}

/// Takes a word that spells a signed number.
pub fn a_number(words: &mut Words) -> Result<i64, ParseError>
    ensures { Gives (λ x. (x, words_left words.new)) result (field signed_of (words_left words.old)) }
{
    let Some(word) = words.next() else {
        return Err(ParseError::Malformed);
    };
    signed_of(word)
}

/// Takes a word that spells a number without a sign.
pub fn an_unsigned(words: &mut Words) -> Result<u64, ParseError>
    ensures { Gives (λ x. (x, words_left words.new)) result (field unsigned_of (words_left words.old)) }
{
    let Some(word) = words.next() else {
        return Err(ParseError::Malformed);
    };
    unsigned_of(word)
}

/// Takes a word that spells a number below 2^32 without a sign.
pub fn a_small(words: &mut Words) -> Result<u32, ParseError>
    ensures { Gives (λ x. (x, words_left words.new)) result (field small_of (words_left words.old)) }
{
    let Some(word) = words.next() else {
        return Err(ParseError::Malformed);
    };
    small_of(word)
}

/// Takes a word that spells a number of versions.
pub fn a_version_count(words: &mut Words) -> Result<Versions, ParseError>
    ensures { Gives (λ x. (x, words_left words.new)) result (field version_count (words_left words.old)) }
{
    let Some(word) = words.next() else {
        return Err(ParseError::Malformed);
    };
    version_count(word)
}

/// Takes a word that spells an end of a range.
pub fn a_bound(alloc: Global, words: &mut Words) -> Result<Bound, ParseError>
    ensures { Gives (λ x. (x, words_left words.new)) result (field bound_of (words_left words.old)) }
{
    let Some(word) = words.next() else {
        return Err(ParseError::Malformed);
    };
    bound_of(alloc, word)
}

/// Takes a word that says what a compaction of a whole table merges.
pub fn an_extent(words: &mut Words) -> Result<Extent, ParseError>
    ensures { Gives (λ x. (x, words_left words.new)) result (field extent_word (words_left words.old)) }
{
    let Some(word) = words.next() else {
        return Err(ParseError::Malformed);
    };
    let Some(extent) = extent_word(word) else {
        return Err(ParseError::Malformed);
    };
    Ok(extent)
}

/// Takes a word that says what a compaction of a tablet merges.
pub fn a_compaction(words: &mut Words) -> Result<Compaction, ParseError>
    ensures { Gives (λ x. (x, words_left words.new)) result (field compaction_word (words_left words.old)) }
{
    let Some(word) = words.next() else {
        return Err(ParseError::Malformed);
    };
    let Some(kind) = compaction_word(word) else {
        return Err(ParseError::Malformed);
    };
    Ok(kind)
}

/// Takes a word that spells the name of a file.
pub fn a_file_name(alloc: Global, words: &mut Words) -> Result<FileName, ParseError>
    ensures { Gives (λ x. (x, words_left words.new)) result (field file_name_of (words_left words.old)) }
{
    let Some(word) = words.next() else {
        return Err(ParseError::Malformed);
    };
    file_name_of(alloc, word)
}

/// Takes the last word, which spells a name.
#[tactic(auto, unfolding(crate::specs::Lines::name_alone))]
pub fn name_alone(alloc: Global, words: &mut Words) -> Result<Name, ParseError>
    ensures { Gives (λ x. x) result (name_alone (words_left words.old)) }
{
    let name = a_name(alloc, words)?;
    ends(words)?;
    Ok(name)
}

/// No word may be left.
#[inline]
pub fn ends(words: &mut Words) -> Result<(), ParseError>
    ensures { Gives (λ x. []) result (ends (words_left words.old)) }
{
    match words.next() {
        None => Ok(()),
        Some(_) => Err(ParseError::Malformed),
    }
}
