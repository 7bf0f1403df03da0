//! Where the parts of an update lie in a body of bytes.
ghost use Rattle.std.specs.Prelude.{◌≡◌, IfOk, length, take};
ghost use Rattle.tab_mutation.specs.UpdateSpans.{update_in, IsWithin};

use std::alloc::AllocError;
use tab_key::Kind;

/// Where an update's parts lie in a body of bytes that holds others too, and what of it is not bytes.
///
/// Family, qualifier, label and value follow one another; each begins where the one before it ends.
#[derive(Clone, Copy)]
pub struct UpdateSpan {
    /// Where the column family begins.
    pub start: usize,
    /// Where the column family ends.
    pub family_end: usize,
    /// Where the column qualifier ends.
    pub qualifier_end: usize,
    /// Where the label ends.
    pub label_end: usize,
    /// Where the value ends.
    pub end: usize,
    /// The timestamp, where the client gave one.
    pub timestamp: Option<i64>,
    /// Whether it is a put or a delete marker.
    pub kind: Kind,
}

/// What stands in a place that holds no span.
impl Default for UpdateSpan {
    fn default() -> UpdateSpan {
        UpdateSpan {
            start: 0,
            family_end: 0,
            qualifier_end: 0,
            label_end: 0,
            end: 0,
            timestamp: None,
            kind: Kind::Put,
        }
    }
}

// How many bytes the parts take in a body, as a room to ask for at once.
fn byte_count(family: &[u8], qualifier: &[u8], label: &[u8], value: &[u8]) -> usize {
    family
        .len()
        .saturating_add(qualifier.len())
        .saturating_add(label.len())
        .saturating_add(value.len())
}

/// Puts the parts of an update at the end of the body, and says where they are. Memory is asked for once.
///
/// What the body held before stays as it was. After an error, which only want of memory gives, it may hold more bytes at its end.
pub fn append(
    body: &mut Vec<u8>,
    kind: Kind,
    family: &[u8],
    qualifier: &[u8],
    label: &[u8],
    timestamp: Option<i64>,
    value: &[u8],
) -> Result<UpdateSpan, AllocError>
    ensures within { IfOk result (λ p. IsWithin body.new.items p) }
    ensures front { take (length body.old.items) body.new.items ≡ body.old.items }
    ensures update { IfOk result (λ p. update_in body.new.items p ≡ record {
      kind = kind;
      family = family.now;
      qualifier = qualifier.now;
      label = label.now;
      timestamp = timestamp;
      value = value.now;
    }) }
{
    body.reserve(byte_count(family, qualifier, label, value))?;
    let start = body.len();
    body.extend_from_slice(family)?;
    let family_end = body.len();
    body.extend_from_slice(qualifier)?;
    let qualifier_end = body.len();
    body.extend_from_slice(label)?;
    let label_end = body.len();
    body.extend_from_slice(value)?;
    let end = body.len();
    Ok(UpdateSpan {
        start,
        family_end,
        qualifier_end,
        label_end,
        end,
        timestamp,
        kind,
    })
}
