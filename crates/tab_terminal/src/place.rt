//! Where in a typed line a byte stands.

/// Where in a typed line a byte stands.
#[derive(Clone, Copy, Debug, PartialEq, Eq)]
pub enum LinePosition {
    /// Between two words, or in front of the first.
    Between,
    /// In a word that begins without a quote.
    Word,
    /// Just behind the quote that begins a word.
    Opened,
    /// In a quoted word, of which there is a byte already.
    Quoted,
    /// Behind a backslash in a quoted word.
    Slash,
    /// Behind the quote that closes a word.
    Closed,
}
