//! Short byte strings as numbers.
ghost use Rattle.std.specs.Prelude.{◌≡◌, ◌≤◌, ℕ, List, ◌<◌, IfSome, is_some, nat_le, length, take, drop};
ghost use Rattle.std.specs.Int.{w64, from_be_bytes};
ghost use Rattle.std.specs.List.{AllByRecursion, slice_range};
ghost use Rattle.tab_key.specs.RowPrefix.{padded};
ghost use Rattle.tab_key.specs.Words.{IsWord, word_of, mark_of};

use crate::encoding::number_at;
use crate::prefix::write_over;

// The most bytes that a number has room for behind its one.
const MOST_BYTES: usize = 7;

// A one before seven bytes.
const LEADING_ONE: u64 = 1 << 56;

/// The number that the bytes between two places of the body spell behind a one. None says that they are more than seven. It is read
/// without a loop, and without a test of how many they are but that one, unless the body ends close behind them.
#[inline]
pub fn word_between(body: &[u8], start: usize, end: usize) -> Option<u64>
    requires order { start ≤ end }
    requires within { end ≤ length body.now }
    ensures word { IfSome result (λ w. IsWord w (slice_range body.now start end)) }
    ensures short { is_some result ≡ nat_le (length (slice_range body.now start end)) 7 }
{
    let count = end - start;
    if MOST_BYTES < count {
        return None;
    }
    Some(first_word(eight_at(body, start), count))
}

// The number that the eight bytes at a place spell, with zeros behind the body's end.
#[inline]
fn eight_at(body: &[u8], place: usize) -> u64
    requires { place ≤ length body.now }
    ensures { result ≡ from_be_bytes w64 (padded 8 (drop place body.now)) }
{
    if body.len() - place < 8 {
        return last_eight(&body[place..]);
    }
    number_at(body, place)
}

// The number that the bytes spell with zeros behind them.
#[cold]
#[inline(never)]
fn last_eight(bytes: &[u8]) -> u64
    requires { length bytes.now ≤ 8 }
    ensures { result ≡ from_be_bytes w64 (padded 8 bytes.now) }
{
    let mut eight = [0u8; 8];
    write_over(&mut eight, bytes);
    u64::from_be_bytes(eight)
}

/// The number that the last eight of the bytes between two places of the body spell, or 0 where there are fewer.
#[inline]
pub(crate) fn mark_between(body: &[u8], start: usize, end: usize) -> u64
    requires order { start ≤ end }
    requires within { end ≤ length body.now }
    ensures { result ≡ mark_of (slice_range body.now start end) }
{
    if end - start < 8 {
        return 0;
    }
    number_at(body, end - 8)
}

// Of eight bytes that spell this number, what the first ones spell behind a one.
#[inline]
fn first_word(number: u64, count: usize) -> u64
    requires { count ≤ 7 }
    ensures { (bytes : List ℕ) → length bytes ≡ 8 → AllByRecursion (λ b. b < 256) bytes → number ≡ from_be_bytes w64 bytes → result ≡ word_of (take count bytes) }
{
    (LEADING_ONE + number / 256) >> (56 - 8 * count)
}
