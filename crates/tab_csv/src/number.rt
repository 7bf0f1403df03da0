//! A timestamp.
ghost use Rattle.std.specs.Prelude.{◌≡◌};
ghost use Rattle.tab_csv.specs.Meaning.{whole_number, timestamp_of};

use std::str;

/// The timestamp that a field says, or that it says none. Nothing where it says neither.
pub(crate) fn timestamp_of(field: &[u8]) -> Option<Option<i64>>
    ensures { result ≡ timestamp_of field.now }
{
    if field.is_empty() {
        return Some(None);
    }
    match whole_number(field) {
        Some(number) => Some(Some(number)),
        None => None,
    }
}

// The whole number of 64 bits that a field says.
#[tactic(auto, using(crate::proofs::NumberLemmas::parsed, crate::proofs::NumberLemmas::no_text))]
fn whole_number(field: &[u8]) -> Option<i64>
    ensures { result ≡ whole_number field.now }
{
    let Ok(text) = str::from_utf8(field) else {
        return None;
    };
    text.parse::<i64>().ok()
}
