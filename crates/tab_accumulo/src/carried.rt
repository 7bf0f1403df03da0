//! Which words Accumulo's shell takes exactly as they are written.
ghost use Rattle.std.specs.Prelude.{◌≡◌, ◌==◌, not, nat_lt, slice_index};
ghost use Rattle.std.specs.List.{list_all};
ghost use Rattle.tab_accumulo.specs.Carried.{first, last, is_option_word, is_term_word, is_user_name, is_table_name};

/// Whether an option's word goes over: bytes of ASCII, no `-` before it that may make it an option, and no quote at an end of it that may
/// be taken off.
pub(crate) fn is_option_word(word: &[u8]) -> bool
    ensures { result ≡ is_option_word word.now }
{
    is_ascii(word) && first(word) != b'-' && first(word) != b'"' && last(word) != b'"'
}

/// Whether an authorization goes over: an option's word that no comma parts, and of which nothing is cut off.
pub(crate) fn is_term_word(term: &[u8]) -> bool
    ensures { result ≡ is_term_word term.now }
{
    is_option_word(term) && is_whole(term) && b' ' < first(term) && b' ' < last(term)
}

/// Whether a user can have this name.
pub(crate) fn is_user_name(name: &[u8]) -> bool
    ensures { result ≡ is_user_name name.now }
{
    !(first(name) == b'-' || first(name) == b'.')
}

/// Whether a table can have this name.
pub(crate) fn is_table_name(name: &[u8]) -> bool
    ensures { result ≡ is_table_name name.now }
{
    name.iter()
        .all(|byte| byte.is_ascii_alphanumeric() || *byte == b'_')
}

// Whether all bytes are of ASCII.
fn is_ascii(word: &[u8]) -> bool
    ensures { result ≡ list_all (λ b. nat_lt b 128) word.now }
{
    word.iter().all(|byte| *byte < 128)
}

// Whether none is a comma.
fn is_whole(term: &[u8]) -> bool
    ensures { result ≡ list_all (λ b. not (b == 44)) term.now }
{
    term.iter().all(|byte| *byte != b',')
}

// The first byte, 0 where there is none.
fn first(word: &[u8]) -> u8
    ensures { result ≡ first word.now }
{
    if word.is_empty() { 0 } else { word[0] }
}

// The last byte, 0 where there is none.
fn last(word: &[u8]) -> u8
    ensures { result ≡ last word.now }
{
    if word.is_empty() {
        0
    } else {
        word[word.len() - 1]
    }
}
