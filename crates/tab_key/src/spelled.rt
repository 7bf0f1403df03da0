//! Byte strings for a reader's eye.
use std::{fmt, str};

// The bytes as text where they are one, else as numbers.
pub(crate) fn write_bytes<W: fmt::Write>(bytes: &[u8], f: &mut fmt::Formatter<W>) -> fmt::Result {
    match str::from_utf8(bytes) {
        Ok(text) => write!(f, "{text:?}"),
        Err(_) => write!(f, "{bytes:?}"),
    }
}
