//! What is wrong with an image, and why none was loaded.
ghost use Rattle.std.specs.Prelude.{◌≡◌};

use crate::unread::Unread;
use thiserror::Error;

/// Why bytes are no image.
#[derive(Clone, Copy, Debug, PartialEq, Eq)]
pub enum ImageFault {
    /// They begin as an image does, and then stands a version that isn't known.
    Version(u16),
    /// They are no image.
    Bad,
}

/// Why no image was loaded.
#[derive(Clone, Copy, Debug, PartialEq, Eq, Error)]
pub enum LoadFault {
    /// A read failed, or 2^64 - 1 reads were made. Nothing is said of the bytes.
    #[error("the image can't be read")]
    Io,
    /// An allocation failed. Nothing is said of the bytes.
    #[error("there is no memory for the image")]
    NoMemory,
    /// The bytes begin as an image does, and then stands a version that isn't known.
    #[error("the image has the unknown version {0}")]
    Version(u16),
    /// The bytes are no image.
    #[error("this is no image")]
    Bad,
}

impl From<Unread> for LoadFault {
    ghost use Rattle.tab_image.specs.Loading.{told};

    ghost from_gives = { λ unread e. e ≡ told unread };

    fn from(unread: Unread) -> LoadFault {
        match unread {
            Unread::Bad => LoadFault::Bad,
            Unread::Io => LoadFault::Io,
            Unread::NoMemory => LoadFault::NoMemory,
        }
    }
}
