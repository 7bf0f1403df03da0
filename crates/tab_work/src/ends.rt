//! End rows of tablets, as the reply to a Splits tells them.
ghost use Rattle.std.specs.Prelude.{◌≡◌, ◌∷◌, [], ◌++◌, IfOk, IfSome, Some};
ghost use Rattle.tab_work.specs.Ends.{rows_told, end_of};

use std::alloc::{AllocError, Global};
use tab_history::Reply;
use tab_key::ByteString;

/// Of the end rows that are told, that of the tablet that holds the row. None of the last tablet, and where memory lacks for a copy.
pub(crate) fn end_in(reply: &Reply, row: &ByteString) -> Option<ByteString>
    ensures { IfSome result (λ end. end_of row.now (rows_told reply.now) ≡ Some end) }
{
    match reply {
        Reply::Rows(ends) => end_among(ends.as_slice(), row),
        _ => None,
    }
}

// The first of the end rows that isn't below the row.
fn end_among(ends: &[ByteString], row: &ByteString) -> Option<ByteString>
    ensures { IfSome result (λ end. end_of row.now ends.now ≡ Some end) }
{
    for end in ends {
        if row.as_bytes().cmp(end.as_bytes()).is_le() {
            return end.clone().ok();
        }
    }
    None
}

/// The least row above this one: it and a zero byte.
pub(crate) fn row_above(row: ByteString) -> Result<ByteString, AllocError>
    ensures { IfOk result (λ above. above ≡ row ++ 0 ∷ []) }
{
    let mut bytes = row.into_vec();
    bytes.push(0)?;
    Ok(ByteString::from_vec(bytes))
}
