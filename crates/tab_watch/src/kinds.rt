//! What a line of a reply says.

/// What a line of a reply says, without its line feed.
#[derive(Clone, Copy, Debug, PartialEq, Eq)]
pub(crate) enum ReplyKind {
    /// A cell: six words, of which the fifth is its timestamp.
    Cell,
    /// A refusal.
    Refusal,
    /// A fault of the line or of its file.
    Fault,
    /// Anything else.
    Other,
}

/// What the line says. A cell may begin as a refusal does.
pub(crate) fn kind_of(line: &[u8]) -> ReplyKind {
    if is_cell(line) {
        return ReplyKind::Cell;
    }
    if line.starts_with(b"refused ") {
        return ReplyKind::Refusal;
    }
    if line == b"line fault".as_slice() || line.starts_with(b"fault ") {
        return ReplyKind::Fault;
    }
    ReplyKind::Other
}

// Whether it has six words, of which the fifth is a number.
fn is_cell(line: &[u8]) -> bool {
    let mut count = 0u64;
    let mut numbered = false;
    for word in line.split(|byte| *byte == b' ') {
        count = count.saturating_add(1);
        if count == 5 {
            numbered = is_number(word);
        }
    }
    count == 6 && numbered
}

// Whether these are digits, maybe behind a sign.
fn is_number(word: &[u8]) -> bool {
    let digits = word.strip_prefix(b"-").unwrap_or(word);
    !digits.is_empty() && digits.iter().all(|byte| byte.is_ascii_digit())
}
