//! What a record shares with the one before it.
ghost use Rattle.std.specs.Prelude.{◌≡◌, ◌≤◌, ◌<◌, ◌+◌, ◌-◌, ◌*◌, ◌^◌, ◌==◌, IsTrue, cond, length, drop};
ghost use Rattle.std.specs.Int.{w64, to_be_bytes, trailing_zeros};
ghost use Rattle.std.specs.List.{slice_range};
ghost use Rattle.tab_key.specs.Encoding.{length_at};
ghost use Rattle.tab_key.specs.Records.{Record as Fields};
ghost use Rattle.tab_table.specs.Counts.{AreShared, AreFew};
ghost use Rattle.tab_table.specs.Sizes.{no_key, shared};

use crate::writing::PART_STEP;
use bytes::Buf;
use std::simd::prelude::*;

// How many bytes are compared at once.
const WORD_LEN: usize = 8;

/// How many first bytes each part of a key shares with the same part of another one; or how many it has.
#[derive(Clone, Copy)]
pub(crate) struct Counts {
    pub(crate) row: usize,
    pub(crate) family: usize,
    pub(crate) qualifier: usize,
    pub(crate) label: usize,
}

impl Counts {
    /// None of any part.
    #[inline]
    pub(crate) fn none() -> Counts
        ensures { (r : Fields) → AreShared result no_key r }
    {
        Counts {
            row: 0,
            family: 0,
            qualifier: 0,
            label: 0,
        }
    }

    /// Each with the same of others.
    #[inline]
    pub(crate) fn plus(self, other: Counts) -> Counts
        requires row { self.row + other.row ≤ usize.MAX }
        requires family { self.family + other.family ≤ usize.MAX }
        requires qualifier { self.qualifier + other.qualifier ≤ usize.MAX }
        requires label { self.label + other.label ≤ usize.MAX }
        ensures row { result.row ≡ self.row + other.row }
        ensures family { result.family ≡ self.family + other.family }
        ensures qualifier { result.qualifier ≡ self.qualifier + other.qualifier }
        ensures label { result.label ≡ self.label + other.label }
    {
        Counts {
            row: self.row + other.row,
            family: self.family + other.family,
            qualifier: self.qualifier + other.qualifier,
            label: self.label + other.label,
        }
    }

    /// Each without the same of others.
    #[inline]
    pub(crate) fn minus(self, other: Counts) -> Counts
        requires row { other.row ≤ self.row }
        requires family { other.family ≤ self.family }
        requires qualifier { other.qualifier ≤ self.qualifier }
        requires label { other.label ≤ self.label }
        ensures row { result.row ≡ self.row - other.row }
        ensures family { result.family ≡ self.family - other.family }
        ensures qualifier { result.qualifier ≡ self.qualifier - other.qualifier }
        ensures label { result.label ≡ self.label - other.label }
    {
        Counts {
            row: self.row - other.row,
            family: self.family - other.family,
            qualifier: self.qualifier - other.qualifier,
            label: self.label - other.label,
        }
    }

    /// Whether none is above 16.
    #[inline(always)]
    pub(crate) fn are_few(self) -> bool
        ensures { IsTrue result → AreFew self PART_STEP }
    {
        self.row <= PART_STEP
            && self.family <= PART_STEP
            && self.qualifier <= PART_STEP
            && self.label <= PART_STEP
    }

    /// All of them.
    #[inline]
    pub(crate) fn sum(self) -> usize
        requires { self.row + self.family + self.qualifier + self.label ≤ usize.MAX }
        ensures { result ≡ self.row + self.family + self.qualifier + self.label }
    {
        self.row + self.family + self.qualifier + self.label
    }
}

/// The four numbers that the bytes from a place on spell.
#[inline]
pub(crate) fn counts_at(body: &[u8], place: usize) -> Counts
    requires { place + 16 ≤ length body.now }
    ensures row { result.row ≡ length_at body.now place }
    ensures family { result.family ≡ length_at body.now (place + 4) }
    ensures qualifier { result.qualifier ≡ length_at body.now (place + 8) }
    ensures label { result.label ≡ length_at body.now (place + 12) }
    ensures small_row { result.row < 2 ^ 32 }
    ensures small_family { result.family < 2 ^ 32 }
    ensures small_qualifier { result.qualifier < 2 ^ 32 }
    ensures small_label { result.label < 2 ^ 32 }
{
    Counts {
        row: count_at(body, place),
        family: count_at(body, place + 4),
        qualifier: count_at(body, place + 8),
        label: count_at(body, place + 12),
    }
}

/// The number that the four bytes at a place spell.
#[inline]
#[tactic(auto, unfolding(tab_key::specs::Encoding::length_at))]
pub(crate) fn count_at(body: &[u8], place: usize) -> usize
    requires { place + 4 ≤ length body.now }
    ensures value { result ≡ length_at body.now place }
    ensures small { result < 2 ^ 32 }
{
    let mut bytes = &body[place..place + 4];
    bytes.get_u32() as usize
}

/// How many first bytes two parts share, which begin at these places and are so long. Where both are said to be short, 16 bytes of each
/// are compared at once.
#[inline(always)]
pub(crate) fn shared_part(
    first: &[u8],
    from: usize,
    len: usize,
    second: &[u8],
    place: usize,
    other: usize,
    are_short: bool,
) -> usize
    requires first { from + len ≤ length first.now }
    requires second { place + other ≤ length second.now }
    requires len { IsTrue are_short → len ≤ PART_STEP }
    requires other { IsTrue are_short → other ≤ PART_STEP }
    requires onward { IsTrue are_short → from + PART_STEP ≤ length first.now }
    requires ahead { IsTrue are_short → place + PART_STEP ≤ length second.now }
    ensures { result ≡ shared (slice_range first.now from (from + len)) (slice_range second.now place (place + other)) }
{
    if are_short {
        let step = shared_step(first, from, second, place);
        let few = step.min(len);
        return few.min(other);
    }
    shared_long(&first[from..from + len], &second[place..place + other])
}

// What is done where a step doesn't serve. It is a call, so that this way lies apart from the steps.
#[inline(never)]
fn shared_long(first: &[u8], second: &[u8]) -> usize
    ensures { result ≡ shared first.now second.now }
{
    shared(first, second)
}

// How many of the 16 bytes from a place on are the same in both, from the first on.
#[inline(always)]
fn shared_step(first: &[u8], from: usize, second: &[u8], place: usize) -> usize
    requires first { from + PART_STEP ≤ length first.now }
    requires second { place + PART_STEP ≤ length second.now }
    ensures { result ≡ shared (slice_range first.now from (from + PART_STEP)) (slice_range second.now place (place + PART_STEP)) }
{
    let one = u8x16::from_slice(&first[from..]);
    let other = u8x16::from_slice(&second[place..]);
    let others = one.simd_ne(other);
    lowest(others.to_bitmask())
}

// The place of the lowest bit that is set, of 16.
#[inline(always)]
fn lowest(bits: u64) -> usize
    ensures { result ≡ cond (bits == 0) PART_STEP (trailing_zeros w64 bits) }
{
    if bits == 0 {
        PART_STEP
    } else {
        bits.trailing_zeros() as usize
    }
}

/// How many first bytes they share. Eight are compared at once, and one by one only those from the last such step on.
#[inline]
#[tactic(auto, using(crate::proofs::Shares::shared_on, crate::proofs::Shares::shared_broken))]
pub(crate) fn shared(first: &[u8], second: &[u8]) -> usize
    ensures shared { result ≡ shared first.now second.now }
    ensures inside { result ≤ length second.now }
{
    let most = first.len().min(second.len());
    for index in WORD_LEN * shared_words(first, second, most / WORD_LEN)..most {
        if first[index] != second[index] {
            return index;
        }
    }
    most
}

// How many of so many first words are the same.
#[inline]
fn shared_words(first: &[u8], second: &[u8], words: usize) -> usize
    requires first { WORD_LEN * words ≤ length first.now }
    requires second { WORD_LEN * words ≤ length second.now }
    ensures few { result ≤ words }
    ensures shared { shared first.now second.now ≡ WORD_LEN * result + shared (drop (WORD_LEN * result) first.now) (drop (WORD_LEN * result) second.now) }
{
    for word in 0..words {
        let place = WORD_LEN * word;
        let one = word_at(first, place);
        let other = word_at(second, place);
        if one != other {
            return word;
        }
    }
    words
}

// The number whose eight bytes lie at a place.
#[inline]
fn word_at(bytes: &[u8], place: usize) -> u64
    requires { place + 8 ≤ length bytes.now }
    ensures { to_be_bytes w64 result ≡ slice_range bytes.now place (place + 8) }
{
    let mut word = &bytes[place..place + 8];
    word.get_u64()
}
