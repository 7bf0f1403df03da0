//! The columns that words spell.
ghost use Rattle.std.specs.Prelude.{◌≡◌, ◌<◌, IfSome, length, position};
ghost use Rattle.tab_text.specs.Gives.{Gives};
ghost use Rattle.tab_lines.specs.Fields.{column_of, column_at, is_colon};

use crate::spelling::bytes_of;
use std::alloc::Global;
use tab_key::{ByteString, Column};
use tab_text::ParseError;

// Where the first colon is.
fn colon(part: &[u8]) -> Option<usize>
    ensures value { result ≡ position is_colon part.now }
    ensures fits { IfSome result (λ at. at < length part.now) }
{
    part.iter().position(|b| *b == b':')
}

/// The column that a word spells: a family, or a family and a qualifier parted by the first colon.
#[tactic(auto, unfolding(crate::specs::Fields::column_of))]
pub fn column_of(alloc: Global, part: &[u8]) -> Result<Column, ParseError>
    ensures { Gives (λ x. x) result (column_of part.now) }
{
    column_at(alloc, colon(part), part)
}

// The column of a part whose first colon is there.
fn column_at(alloc: Global, colon: Option<usize>, part: &[u8]) -> Result<Column, ParseError>
    requires { IfSome colon (λ at. at < length part.now) }
    ensures { Gives (λ x. x) result (column_at colon part.now) }
{
    match colon {
        None => {
            let family = bytes_of(alloc, part)?;
            Ok(Column::Family(ByteString::from_vec(family)))
        }
        Some(at) => {
            let family = bytes_of(alloc, &part[..at])?;
            let qualifier = bytes_of(alloc, &part[at + 1..])?;
            Ok(Column::Qualified(
                ByteString::from_vec(family),
                ByteString::from_vec(qualifier),
            ))
        }
    }
}
