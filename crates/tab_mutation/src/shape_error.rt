//! What can be wrong with the shape of a mutation.
ghost use Rattle.std.specs.Prelude.{◌≡◌};
ghost use Rattle.tab_mutation.specs.Shape.{is_too_long};

use tab_key::{LimitedPart, MAX_PART_LEN};

/// Why a mutation is refused for its shape.
#[derive(Clone, Copy, Debug, PartialEq, Eq)]
pub enum ShapeError {
    /// It has no update.
    Empty,
    /// It has over `MAX_UPDATES` updates, or the named part of it has over `MAX_PART_LEN` bytes.
    TooLarge(LimitedPart),
}

/// Whether a part of a mutation has over `MAX_PART_LEN` bytes.
pub fn is_too_long(bytes: &[u8]) -> bool
    ensures { result ≡ is_too_long bytes.now }
{
    bytes.len() > MAX_PART_LEN
}
