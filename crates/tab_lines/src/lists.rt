//! The lists that words spell: members parted by commas, or `\0` for the list without members.
ghost use Rattle.std.specs.Prelude.{◌≡◌, ◌<◌, [], ◌∷◌, MatchOption, length, map};
ghost use Rattle.tab_label.specs.Sets.{byte_lists};
ghost use Rattle.tab_text.specs.Gives.{Gives};
ghost use Rattle.tab_lines.specs.Words.{parts_at};
ghost use Rattle.tab_text.specs.Reading.{bytes_of};
ghost use Rattle.tab_lines.specs.Fields.{list_of, listed, each_of, constraint_of, constraints_of, column_of, columns_of};

use crate::columns::column_of;
use crate::names::constraint_of;
use crate::spelling::bytes_of;
use std::alloc::Global;
use tab_io::length_before;
use tab_key::Column;
use tab_rules::Constraint;
use tab_text::ParseError;

// The part before the first comma, and what stands behind it.
#[tactic(auto, using(crate::proofs::Cutting::one_part, crate::proofs::Cutting::more_parts))]
fn cut(word: &[u8]) -> (&[u8], Option<&[u8]>)
    ensures { MatchOption result.1 (parts_at 44 word.now ≡ result.0.now ∷ []) (λ rest. (parts_at 44 word.now ≡ result.0.now ∷ parts_at 44 rest.now) × (length rest.now < length word.now)) }
{
    let at = length_before(b',', word);
    if at == word.len() {
        return (word, None);
    }
    (word.split_at(at).0, Some(word.split_at(at + 1).1))
}

/// What the part of a word between two commas can spell.
pub trait ListMember: Drop {
    ghost use Rattle.std.specs.Prelude.{ℕ, List, Option};

    // What contracts see of a member.
    ghost Meaning: { Type 0 };

    ghost meaning_of: { Self → Meaning };

    // What is read of a part.
    ghost reads: { List ℕ → Option Meaning };

    /// The member that the part spells. A part that spells none is a fault.
    fn read(alloc: Global, part: &[u8]) -> Result<Self, ParseError>
        ensures { Gives meaning_of result (reads part.now) };
}

impl ListMember for Vec<u8> {
    ghost use Rattle.std.specs.Prelude.{ℕ, List};

    ghost Meaning = { List ℕ };

    ghost meaning_of = { λ v. v.items };

    ghost reads = { bytes_of };

    fn read(alloc: Global, part: &[u8]) -> Result<Vec<u8>, ParseError> {
        bytes_of(alloc, part)
    }
}

impl ListMember for Constraint {
    ghost use Rattle.tab_rules.specs.declared.constraint.Constraint.{Constraint as Named};

    ghost Meaning = { Named };

    ghost meaning_of = { λ c. c };

    ghost reads = { constraint_of };

    fn read(alloc: Global, part: &[u8]) -> Result<Constraint, ParseError> {
        constraint_of(alloc, part)
    }
}

impl ListMember for Column {
    ghost use Rattle.tab_key.specs.declared.column.Column.{Column as Named};

    ghost Meaning = { Named };

    ghost meaning_of = { λ c. c };

    ghost reads = { column_of };

    fn read(alloc: Global, part: &[u8]) -> Result<Column, ParseError> {
        column_of(alloc, part)
    }
}

/// The members that a word lists.
fn listed<T: ListMember>(alloc: Global, word: &[u8]) -> Result<Vec<T>, ParseError>
    ensures { Gives (λ x. map T.meaning_of x.items) result (listed T.reads word.now) }
{
    if word == b"\\0".as_slice() {
        return Ok(Vec::new(alloc));
    }
    members(alloc, word)
}

// What each part between commas spells.
fn members<T: ListMember>(alloc: Global, word: &[u8]) -> Result<Vec<T>, ParseError>
    ensures { Gives (λ x. map T.meaning_of x.items) result (each_of T.reads (parts_at 44 word.now)) }
{
    let mut members = Vec::new(alloc);
    let mut left = word;
    loop {
        let (part, rest) = cut(left);
        members.push(T::read(alloc, part)?)?;
        let Some(rest) = rest else {
            return Ok(members);
        };
        left = rest;
    }
}

/// The byte strings that a word lists.
#[tactic(auto, unfolding(crate::specs::Fields::list_of))]
pub fn list_of(alloc: Global, word: &[u8]) -> Result<Vec<Vec<u8>>, ParseError>
    ensures { Gives (λ x. byte_lists x.items) result (list_of word.now) }
{
    listed(alloc, word)
}

/// The constraints whose names a word lists, in its order.
#[tactic(auto, unfolding(crate::specs::Fields::constraints_of), using(crate::proofs::Listed::seen_whole))]
pub fn constraints_of(alloc: Global, word: &[u8]) -> Result<Vec<Constraint>, ParseError>
    ensures { Gives (λ x. x.items) result (constraints_of word.now) }
{
    listed(alloc, word)
}

/// The columns that a word lists: a family, or a family and a qualifier parted by the first colon.
#[tactic(auto, unfolding(crate::specs::Fields::columns_of), using(crate::proofs::Listed::seen_whole))]
pub fn columns_of(alloc: Global, word: &[u8]) -> Result<Vec<Column>, ParseError>
    ensures { Gives (λ x. x.items) result (columns_of word.now) }
{
    listed(alloc, word)
}
