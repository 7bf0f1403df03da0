//! Why a part wasn't read.

use std::alloc::{AllocError, AllocFailed};
use tab_io::ReadFault;

/// Why a part of an image wasn't read.
#[derive(Clone, Copy, Debug, PartialEq, Eq)]
pub enum Unread {
    /// The input doesn't begin with such a part.
    Bad,
    /// A read failed, or 2^64 - 1 reads were made. Nothing is said of the bytes.
    Io,
    /// An allocation failed. Nothing is said of the bytes.
    NoMemory,
}

impl From<ReadFault> for Unread {
    ghost use Rattle.std.specs.Prelude.{◌≡◌};
    ghost use Rattle.tab_image.specs.declared.unread.Unread.TheVariants.{Io};

    ghost from_gives = { λ _ e. e ≡ Io };

    fn from(_fault: ReadFault) -> Unread {
        Unread::Io
    }
}

impl From<AllocError> for Unread {
    ghost use Rattle.std.specs.Prelude.{◌≡◌};
    ghost use Rattle.tab_image.specs.declared.unread.Unread.TheVariants.{NoMemory};

    ghost from_gives = { λ _ e. e ≡ NoMemory };

    fn from(_error: AllocError) -> Unread {
        Unread::NoMemory
    }
}

impl<T: Drop> From<AllocFailed<T>> for Unread {
    ghost use Rattle.std.specs.Prelude.{◌≡◌};
    ghost use Rattle.tab_image.specs.declared.unread.Unread.TheVariants.{NoMemory};

    ghost from_gives = { λ _ e. e ≡ NoMemory };

    fn from(_error: AllocFailed<T>) -> Unread {
        Unread::NoMemory
    }
}
