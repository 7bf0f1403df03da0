//! The ends of a range of rows that words spell.
ghost use Rattle.tab_text.specs.Gives.{Gives};
ghost use Rattle.tab_lines.specs.Fields.{bound_of, bound_begun};

use crate::spelling::bytes_of;
use std::alloc::Global;
use tab_key::{Bound, ByteString};
use tab_text::ParseError;

/// The bound that a word spells: `\0` for none, `[` and a byte word for an end that is in the range,
/// `(` and a byte word for one that isn't.
#[tactic(auto, unfolding(crate::specs::Fields::bound_of))]
pub fn bound_of(alloc: Global, word: &[u8]) -> Result<Bound, ParseError>
    ensures { Gives (λ x. x) result (bound_of word.now) }
{
    if word == b"\\0".as_slice() {
        return Ok(Bound::Unbounded);
    }
    bound_begun(alloc, word)
}

// The bound by its first byte.
fn bound_begun(alloc: Global, word: &[u8]) -> Result<Bound, ParseError>
    ensures { Gives (λ x. x) result (bound_begun word.now) }
{
    match word {
        [b'[', end @ ..] => Ok(Bound::Inclusive(ByteString::from_vec(bytes_of(alloc, end)?))),
        [b'(', end @ ..] => Ok(Bound::Exclusive(ByteString::from_vec(bytes_of(alloc, end)?))),
        _ => Err(ParseError::Malformed),
    }
}
