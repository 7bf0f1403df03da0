//! What holds of words: laws, each proved as what a function with an empty body ensures.
ghost use Rattle.std.specs.Prelude.{◌≡◌, ◌↔◌, Some};
ghost use Rattle.tab_text.specs.Words.{word, escaped, IsWord};
ghost use Rattle.tab_text.specs.Reading.{bytes_of, unescaped};
ghost use Rattle.tab_text.specs.declared.escape.Escape.TheVariants.{Outside};

/// The word that is written for some bytes is a word that spells them, and reading it gives them back. So each string
/// of bytes has one written word, and no two have the same.
pub fn written_word(bytes: &[u8])
    ensures spells { IsWord (word bytes.now) bytes.now }
    ensures reads { bytes_of (word bytes.now) ≡ Some bytes.now }
    ensures escapes { unescaped Outside (escaped bytes.now) ≡ Some bytes.now }
{}

/// Reading is exactly the spelling: a text reads as some bytes where it is a word that spells them, and only there.
pub fn read_word(text: &[u8], bytes: &[u8])
    ensures { (bytes_of text.now ≡ Some bytes.now) ↔ IsWord text.now bytes.now }
{}
