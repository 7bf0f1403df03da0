//! The versions of images.
ghost use Rattle.std.specs.Prelude.{◌≡◌};
ghost use Rattle.tab_image.specs.Reading.{is_known};

/// The version that is written. Both versions are read.
pub const VERSION: u16 = 2;

/// The version in which no table has a horizon.
pub(crate) const FIRST_VERSION: u16 = 1;

/// Whether images of this version are read.
pub(crate) fn is_known(version: u16) -> bool
    ensures { result ≡ is_known version }
{
    version == FIRST_VERSION || version == VERSION
}
