//! The updates of a mutation, read from their words.
ghost use Rattle.std.specs.Prelude.{◌≡◌, codes};
ghost use Rattle.std.specs.Str.{bytes_eq};
ghost use Rattle.std.specs.Option.{option_map};
ghost use Rattle.tab_text.specs.Gives.{Gives};
ghost use Rattle.tab_lines.specs.Gives.{field};
ghost use Rattle.tab_lines.specs.Words.{words_left};
ghost use Rattle.tab_lines.specs.Updates.{row_of, updated, with_updates, timestamp_of, put_of, delete_of, update_of, updates_from, updates_of};

use crate::fields::a_word;
use crate::numbers::{given_timestamp, timestamp_or_dash};
use crate::words::Words;
use std::alloc::Global;
use tab_mutation::Mutation;
use tab_text::ParseError;

/// How an update says its timestamp.
#[derive(Clone, Copy)]
pub enum TimestampForm {
    /// A number, or no word at all at the end of the line.
    Optional,
    /// A number, or the word `-` for none.
    Dashed,
}

/// Takes the word of a row, for a mutation without updates.
pub fn a_row(alloc: Global, words: &mut Words) -> Result<Mutation, ParseError>
    ensures { Gives (λ x. (x, words_left words.new)) result (field row_of (words_left words.old)) }
{
    let row = a_word(alloc, words)?;
    Ok(Mutation::new(alloc, row.as_bytes())?)
}

// Takes the timestamp, in the form in which it is said here.
fn a_timestamp(form: TimestampForm, words: &mut Words) -> Result<Option<i64>, ParseError>
    ensures { Gives (λ x. (x, words_left words.new)) result (timestamp_of form (words_left words.old)) }
{
    match (form, words.next()) {
        (TimestampForm::Optional, None) => Ok(None),
        (TimestampForm::Optional, Some(word)) => given_timestamp(word),
        (TimestampForm::Dashed, None) => Err(ParseError::Malformed),
        (TimestampForm::Dashed, Some(word)) => timestamp_or_dash(word),
    }
}

/// Adds the put whose words come next.
#[tactic(auto, unfolding(crate::specs::Updates::put_of))]
pub fn add_put(
    alloc: Global,
    form: TimestampForm,
    words: &mut Words,
    mutation: &mut Mutation,
) -> Result<(), ParseError>
    ensures { Gives (λ x. (mutation.new, words_left words.new)) result (updated mutation.old (put_of form (words_left words.old))) }
{
    let family = a_word(alloc, words)?;
    let qualifier = a_word(alloc, words)?;
    let label = a_word(alloc, words)?;
    let value = a_word(alloc, words)?;
    let timestamp = a_timestamp(form, words)?;
    mutation.put(
        family.as_bytes(),
        qualifier.as_bytes(),
        label.as_bytes(),
        timestamp,
        value.as_bytes(),
    )?;
    Ok(())
}

/// Adds the delete marker whose words come next.
#[tactic(auto, unfolding(crate::specs::Updates::delete_of))]
pub fn add_delete(
    alloc: Global,
    form: TimestampForm,
    words: &mut Words,
    mutation: &mut Mutation,
) -> Result<(), ParseError>
    ensures { Gives (λ x. (mutation.new, words_left words.new)) result (updated mutation.old (delete_of form (words_left words.old))) }
{
    let family = a_word(alloc, words)?;
    let qualifier = a_word(alloc, words)?;
    let label = a_word(alloc, words)?;
    let timestamp = a_timestamp(form, words)?;
    mutation.delete(
        family.as_bytes(),
        qualifier.as_bytes(),
        label.as_bytes(),
        timestamp,
    )?;
    Ok(())
}

// Adds the update whose words come next.
fn add_update(alloc: Global, words: &mut Words, mutation: &mut Mutation) -> Result<(), ParseError>
    ensures { Gives (λ x. (mutation.new, words_left words.new)) result (updated mutation.old (update_of (words_left words.old))) }
{
    let Some(verb) = words.next() else {
        return Err(ParseError::Malformed);
    };
    if verb == b"put".as_slice() {
        add_put(alloc, TimestampForm::Dashed, words, mutation)
    } else if verb == b"del".as_slice() {
        add_delete(alloc, TimestampForm::Dashed, words, mutation)
    } else {
        Err(ParseError::Malformed)
    }
}

// Whether the word stands between two updates.
fn parts(word: &[u8]) -> bool
    ensures { result ≡ bytes_eq word.now (codes ";") }
{
    word == b";".as_slice()
}

// Adds at least one update.
fn add_some(alloc: Global, words: &mut Words, mutation: &mut Mutation) -> Result<(), ParseError>
    ensures { Gives (λ x. mutation.new) result (option_map (with_updates mutation.old) (updates_from (words_left words.old))) }
{
    'updates: loop {
        match add_update(alloc, words, mutation) {
            Ok(()) => {}
            Err(error) => return Err(error),
        }
        let Some(word) = words.next() else {
            return Ok(());
        };
        if !parts(word) {
            return Err(ParseError::Malformed);
        }
    }
}

/// Adds all updates of the line: none, or several parted by the word `;`.
pub fn add_updates(
    alloc: Global,
    words: &mut Words,
    mutation: &mut Mutation,
) -> Result<(), ParseError>
    ensures { Gives (λ x. mutation.new) result (option_map (with_updates mutation.old) (updates_of (words_left words.old))) }
{
    let mut ahead = *words;
    if ahead.next().is_none() {
        return Ok(());
    }
    add_some(alloc, words, mutation)
}
