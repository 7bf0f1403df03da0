//! Why a typed line isn't sent.
use std::alloc::{AllocError, AllocFailed};

/// Why the quotes of a typed line say nothing.
#[derive(Clone, Copy, Debug, PartialEq, Eq, thiserror::Error)]
pub enum Misquote {
    /// A word begins with a quote, and no other one closes it.
    #[error("a quote isn't closed")]
    Open,
    /// Something else than a space stands behind the quote that closes a word.
    #[error("behind the quote that closes a word stands a space; a quote inside of quotes is written \\\"")]
    Follows,
    /// In quotes, a backslash stands before what can't be escaped.
    #[error("in quotes a backslash stands before a quote, another backslash, or an escape as \\x2c")]
    Escape,
}

/// Why a typed line isn't sent.
#[derive(Clone, Copy, Debug, PartialEq, Eq)]
pub enum Unsent {
    /// Its quotes say nothing.
    Misquoted(Misquote),
    /// An allocation failed. Nothing is said of the line.
    NoMemory,
}

impl From<AllocError> for Unsent {
    ghost use Rattle.std.specs.Prelude.{◌≡◌};
    ghost use Rattle.tab_terminal.specs.declared.misquote.Unsent.TheVariants.{NoMemory};

    ghost from_gives = { λ _ e. e ≡ NoMemory };

    fn from(_e: AllocError) -> Unsent {
        Unsent::NoMemory
    }
}

impl<T: Drop> From<AllocFailed<T>> for Unsent {
    ghost use Rattle.std.specs.Prelude.{◌≡◌};
    ghost use Rattle.tab_terminal.specs.declared.misquote.Unsent.TheVariants.{NoMemory};

    ghost from_gives = { λ _ e. e ≡ NoMemory };

    fn from(_e: AllocFailed<T>) -> Unsent {
        Unsent::NoMemory
    }
}
