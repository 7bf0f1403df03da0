//! Words as a person types them at a terminal, and as they are shown there.
//!
//! What is typed: a word that begins with a double quote goes on to the next one, spaces and all; and bytes that aren't ASCII stand for
//! themselves. What is sent in its place is a line as scripts have it, of byte words. What is shown of a byte word is itself, with
//! printable characters in the place of their escapes, and in quotes where there is a space in it: so what is shown can be typed.
//!
//! | File | What |
//! |---|---|
//! | `place` | where in a typed line a byte stands |
//! | `misquote` | why a typed line isn't sent |
//! | `sending` | the line that is sent |
//! | `showing` | what is shown of a word |
//! | `printable` | whether bytes are a text of printable characters |
//! | `hex` | a byte as an escape |
//! | `laws` | what is shown of a word, typed, is that word |
//!
//! `specs/Typing` says which line is sent, `specs/Showing` what is shown.
#![tactic(auto)]

mod hex;
pub mod laws;
mod misquote;
mod place;
mod printable;
mod sending;
mod showing;

pub use misquote::{Misquote, Unsent};
pub use place::LinePosition;
pub use sending::sent_line;
pub use showing::shown_word;
