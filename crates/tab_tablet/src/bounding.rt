//! The rows below one row, those up to it, and those above it.
ghost use Rattle.std.specs.Prelude.{◌≡◌, IfOk};
ghost use Rattle.std.specs.Ordering.{is_lt, is_le, is_gt};
ghost use Rattle.tab_key.specs.Bytes.{bytes_cmp};
ghost use Rattle.tab_key.specs.Ranges.{is_in_range};

use std::alloc::AllocError;
use tab_key::{Bound, Bounds, ByteString};

/// The rows below this one.
pub(crate) fn rows_below(row: &ByteString) -> Result<Bounds, AllocError>
    ensures { IfOk result (λ b. is_in_range b ≡ (λ r. is_lt (bytes_cmp r row.now))) }
{
    Ok(Bounds {
        low: Bound::Unbounded,
        high: Bound::Exclusive(row.clone()?),
    })
}

/// This row and those below it. It takes memory for a copy of the row; `AllocError` says that it lacked.
pub fn rows_up_to(row: &ByteString) -> Result<Bounds, AllocError>
    ensures { IfOk result (λ b. is_in_range b ≡ (λ r. is_le (bytes_cmp r row.now))) }
{
    Ok(Bounds {
        low: Bound::Unbounded,
        high: Bound::Inclusive(row.clone()?),
    })
}

/// The rows above this one. It takes memory for a copy of the row; `AllocError` says that it lacked.
pub fn rows_above(row: &ByteString) -> Result<Bounds, AllocError>
    ensures { IfOk result (λ b. is_in_range b ≡ (λ r. is_gt (bytes_cmp r row.now))) }
{
    Ok(Bounds {
        low: Bound::Exclusive(row.clone()?),
        high: Bound::Unbounded,
    })
}
