//! A record, read where it lies whole in bytes that are lent.
ghost use Rattle.std.specs.Prelude.{◌≡◌, ◌≤◌, Some, IfSome, length};
ghost use Rattle.tab_key.specs.Encoding.{IsShort};
ghost use Rattle.tab_key.specs.declared.limited_part.TheConstants.{MAX_PART_LEN};
ghost use Rattle.tab_image.specs.Laying.{lent_record, Begins};
ghost use Rattle.tab_image.specs.Reading.{part_at};
ghost use Rattle.tab_codec.specs.Reading.{u32_at, u64_at, i64_at, kind_at};

use crate::fields::kind_of;
use tab_key::{Key, Kind, MAX_PART_LEN};

/// A record whose parts are lent.
#[derive(Clone, Copy)]
pub(crate) struct LentRecord<'a> {
    pub(crate) key: Key<'a>,
    pub(crate) kind: Kind,
    pub(crate) value: &'a [u8],
    pub(crate) seq: u64,
    pub(crate) idx: u32,
}

/// The record with which the bytes begin, and the bytes behind it. None is told where they don't hold one whole, and no clause relies on
/// that: what stands there is then read piece by piece, which decides whether it is a record.
pub(crate) fn record_in(bytes: &[u8]) -> Option<(LentRecord<'_>, &[u8])>
    ensures record { IfSome result (λ x. Begins bytes.now (lent_record x.0) x.1.now) }
    ensures short { IfSome result (λ x. IsShort (lent_record x.0)) }
{
    let (row, rest) = part_in(bytes)?;
    let (family, rest) = part_in(rest)?;
    let (qualifier, rest) = part_in(rest)?;
    let (label, rest) = part_in(rest)?;
    let (timestamp, rest) = signed_number_in(rest)?;
    let (kind, rest) = kind_in(rest)?;
    let (seq, rest) = long_number_in(rest)?;
    let (idx, rest) = number_in(rest)?;
    let (value, rest) = part_in(rest)?;
    let key = Key {
        row,
        family,
        qualifier,
        label,
        timestamp,
    };
    let record = LentRecord {
        key,
        kind,
        value,
        seq,
        idx,
    };
    Some((record, rest))
}

// Each of these gives what stands at the front of the bytes, and the bytes behind it; None where it doesn't stand there whole.

#[inline]
#[tactic(auto, unfolding(tab_codec::specs::Reading::u32_at))]
fn number_in(bytes: &[u8]) -> Option<(u32, &[u8])>
    ensures { IfSome result (λ x. u32_at bytes.now ≡ Some (x.0, x.1.now)) }
{
    if bytes.len() < 4 {
        return None;
    }
    let (front, rest) = bytes.split_at(4);
    let number = u32::from_be_bytes([front[0], front[1], front[2], front[3]]);
    Some((number, rest))
}

#[inline]
#[tactic(auto, unfolding(tab_codec::specs::Reading::u64_at))]
fn long_number_in(bytes: &[u8]) -> Option<(u64, &[u8])>
    ensures { IfSome result (λ x. u64_at bytes.now ≡ Some (x.0, x.1.now)) }
{
    if bytes.len() < 8 {
        return None;
    }
    let (front, rest) = bytes.split_at(8);
    let number = u64::from_be_bytes([
        front[0], front[1], front[2], front[3], front[4], front[5], front[6], front[7],
    ]);
    Some((number, rest))
}

#[inline]
#[tactic(auto, unfolding(tab_codec::specs::Reading::i64_at))]
fn signed_number_in(bytes: &[u8]) -> Option<(i64, &[u8])>
    ensures { IfSome result (λ x. i64_at bytes.now ≡ Some (x.0, x.1.now)) }
{
    let (bits, rest) = long_number_in(bytes)?;
    Some((bits.cast_signed(), rest))
}

#[inline]
#[tactic(auto, unfolding(tab_codec::specs::Reading::kind_at))]
fn kind_in(bytes: &[u8]) -> Option<(Kind, &[u8])>
    ensures { IfSome result (λ x. kind_at bytes.now ≡ Some (x.0, x.1.now)) }
{
    match bytes {
        [] => None,
        [first, rest @ ..] => Some((kind_of(*first)?, rest)),
    }
}

#[inline]
#[tactic(auto, unfolding(crate::specs::Reading::part_at, crate::specs::Reading::picked_by, tab_codec::specs::Reading::field_at))]
fn part_in(bytes: &[u8]) -> Option<(&[u8], &[u8])>
    ensures part { IfSome result (λ x. part_at bytes.now ≡ Some (x.0.now, x.1.now)) }
    ensures short { IfSome result (λ x. length x.0.now ≤ MAX_PART_LEN) }
{
    let (count, rest) = number_in(bytes)?;
    let count = count as usize;
    if MAX_PART_LEN < count || rest.len() < count {
        return None;
    }
    Some(rest.split_at(count))
}
