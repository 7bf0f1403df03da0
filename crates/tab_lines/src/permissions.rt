//! Which permission of which user the words of a line name.
ghost use Rattle.tab_text.specs.Gives.{Gives};
ghost use Rattle.tab_lines.specs.Words.{words_left};
ghost use Rattle.tab_lines.specs.Fields.{system_permission, table_permission};
ghost use Rattle.tab_lines.specs.Lines.{permission_of, grant_of};

use crate::fields::a_name;
use crate::names::name_of;
use crate::words::Words;
use std::alloc::Global;
use tab_key::Name;
use tab_policy::{Permission, SystemPermission, TablePermission};
use tab_text::ParseError;

// The system permission of this name.
#[tactic(auto, unfolding(crate::specs::Fields::system_permission))]
fn system_permission(word: &[u8]) -> Result<Permission, ParseError>
    ensures { Gives (λ x. x) result (system_permission word.now) }
{
    let Some(permission) = SystemPermission::from_name(word) else {
        return Err(ParseError::Malformed);
    };
    Ok(Permission::OfSystem(permission))
}

// The table permission of this name, on the table that the next word spells.
#[tactic(auto, unfolding(crate::specs::Fields::table_permission))]
fn table_permission(alloc: Global, word: &[u8], table_word: &[u8]) -> Result<Permission, ParseError>
    ensures { Gives (λ x. x) result (table_permission word.now table_word.now) }
{
    let Some(permission) = TablePermission::from_name(word) else {
        return Err(ParseError::Malformed);
    };
    let table = name_of(alloc, table_word)?;
    Ok(Permission::OfTable(permission, table))
}

// The permission that all words left name: one word a system permission, two a table permission and its table.
fn permission_of(alloc: Global, words: &mut Words) -> Result<Permission, ParseError>
    ensures { Gives (λ x. x) result (permission_of (words_left words.old)) }
{
    match (words.next(), words.next(), words.next()) {
        (Some(word), None, _) => system_permission(word),
        (Some(word), Some(table), None) => table_permission(alloc, word, table),
        _ => Err(ParseError::Malformed),
    }
}

/// Takes all words left: a user, and a permission that he is to have or to have no more. The name of the permission is
/// literal: nothing in it may be escaped.
#[tactic(auto, unfolding(crate::specs::Lines::grant_of))]
pub fn a_grant(alloc: Global, words: &mut Words) -> Result<(Name, Permission), ParseError>
    ensures { Gives (λ x. x) result (grant_of (words_left words.old)) }
{
    let user = a_name(alloc, words)?;
    let permission = permission_of(alloc, words)?;
    Ok((user, permission))
}
