//! Whether bytes are a text of printable characters.
ghost use Rattle.std.specs.Prelude.{◌≡◌, ◌↔◌, IsTrue, chars};
ghost use Rattle.std.specs.List.{list_all};
ghost use Rattle.tab_terminal.specs.Showing.{IsDrawn, is_drawn};

use std::str;
use ucd_category::GeneralCategory;

/// Whether the bytes are UTF-8 of characters that a terminal draws: letters, marks, digits, punctuation, symbols and the space. So none
/// controls the terminal, turns the direction of writing, or isn't seen.
pub(crate) fn is_printable(bytes: &[u8]) -> bool
    ensures { IsTrue result ↔ IsDrawn bytes.now }
{
    match str::from_utf8(bytes) {
        Ok(text) => are_drawn(text),
        Err(_) => false,
    }
}

// Whether a terminal draws all of these characters.
fn are_drawn(text: &str) -> bool
    ensures { result ≡ list_all is_drawn (chars text.now) }
{
    text.chars().all(is_drawn)
}

// Whether a terminal draws this character.
fn is_drawn(character: char) -> bool
    ensures { result ≡ is_drawn character }
{
    match GeneralCategory::for_char(character) {
        GeneralCategory::SpaceSeparator => character == ' ',
        GeneralCategory::Control
        | GeneralCategory::Format
        | GeneralCategory::LineSeparator
        | GeneralCategory::ParagraphSeparator
        | GeneralCategory::PrivateUse
        | GeneralCategory::Surrogate
        | GeneralCategory::Unassigned => false,
        _ => true,
    }
}
