//! Whether a record writes a cell or a marker.
ghost use Rattle.std.specs.Prelude.{◌≡◌};
ghost use Rattle.tab_csv.specs.Meaning.{kind_of};

use tab_key::Kind;

/// The kind that a field says: nothing or `put`, or `delete`.
pub(crate) fn kind_of(text: &[u8]) -> Option<Kind>
    ensures { result ≡ kind_of text.now }
{
    if text.is_empty() {
        Some(Kind::Put)
    } else if text == b"put".as_slice() {
        Some(Kind::Put)
    } else if text == b"delete".as_slice() {
        Some(Kind::Delete)
    } else {
        None
    }
}
