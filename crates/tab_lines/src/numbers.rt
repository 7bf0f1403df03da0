//! The numbers that words spell.
ghost use Rattle.std.specs.Prelude.{◌≡◌, ◌<◌, ◌^◌, nat_lt};
ghost use Rattle.std.specs.Option.{option_and_then};
ghost use Rattle.tab_text.specs.Gives.{Gives};
ghost use Rattle.tab_lines.specs.Fields.{only_if, with_digit, digits_on, unsigned_of, small_of, signed_of, given_timestamp, timestamp_or_dash, positive, negative, version_count, versions_word};

use tab_history::Versions;
use tab_text::ParseError;

/// The signed number that a word spells: decimal digits, with a minus before them for a negative one.
/// Leading zeros are accepted; `-0` is a fault, and so is a number outside an i64.
pub fn signed_of(word: &[u8]) -> Result<i64, ParseError>
    ensures { Gives (λ x. x) result (signed_of word.now) }
{
    match word {
        [] => Err(ParseError::Malformed),
        [b'-', digits @ ..] => negative(unsigned_of(digits)?),
        _ => positive(unsigned_of(word)?),
    }
}

/// The number without a sign that a word spells: decimal digits. Leading zeros are accepted; a number of 2^64 or more is a fault.
#[tactic(auto, unfolding(crate::specs::Fields::magnitude_of))]
pub fn unsigned_of(digits: &[u8]) -> Result<u64, ParseError>
    ensures { Gives (λ x. x) result (unsigned_of digits.now) }
{
    if digits.is_empty() {
        return Err(ParseError::Malformed);
    }
    digits_on(digits)
}

/// The number below 2^32 that a word spells without a sign. A greater one is a fault.
pub fn small_of(word: &[u8]) -> Result<u32, ParseError>
    ensures { Gives (λ x. x) result (small_of word.now) }
{
    let n = unsigned_of(word)?;
    if n < 1 << 32 {
        Ok(n as u32)
    } else {
        Err(ParseError::Malformed)
    }
}

/// The timestamp that a word spells.
pub fn given_timestamp(word: &[u8]) -> Result<Option<i64>, ParseError>
    ensures { Gives (λ x. x) result (given_timestamp word.now) }
{
    Ok(Some(signed_of(word)?))
}

/// The timestamp that a word spells, or none for `-`.
pub fn timestamp_or_dash(word: &[u8]) -> Result<Option<i64>, ParseError>
    ensures { Gives (λ x. x) result (timestamp_or_dash word.now) }
{
    if word == b"-".as_slice() {
        return Ok(None);
    }
    given_timestamp(word)
}

/// The number of versions that a word spells without a sign, 1 to 1,000.
pub fn version_count(word: &[u8]) -> Result<Versions, ParseError>
    ensures { Gives (λ x. x) result (version_count word.now) }
{
    match Versions::new(unsigned_of(word)?) {
        Some(versions) => Ok(versions),
        None => Err(ParseError::Malformed),
    }
}

/// The number of versions that a word `versions=N` gives, 1 to 1,000.
pub fn versions_word(word: &[u8]) -> Result<Versions, ParseError>
    ensures { Gives (λ x. x) result (versions_word word.now) }
{
    if word.len() < 9 {
        return Err(ParseError::Malformed);
    }
    let (front, digits) = word.split_at(9);
    if front != b"versions=".as_slice() {
        return Err(ParseError::Malformed);
    }
    version_count(digits)
}

// The number, if it fits without a minus.
fn positive(n: u64) -> Result<i64, ParseError>
    ensures { Gives (λ x. x) result (positive n) }
{
    if n < 1 << 63 {
        Ok(n as i64)
    } else {
        Err(ParseError::Malformed)
    }
}

// The number behind a minus, if it fits and is not 0.
fn negative(n: u64) -> Result<i64, ParseError>
    ensures { Gives (λ x. x) result (negative n) }
{
    if 0 < n && n <= 1 << 63 {
        Ok(-1 - ((n - 1) as i64))
    } else {
        Err(ParseError::Malformed)
    }
}

// The number that decimal digits spell, if it is below 2^64.
fn digits_on(digits: &[u8]) -> Result<u64, ParseError>
    ensures { Gives (λ x. x) result (option_and_then (only_if (λ n. nat_lt n (2 ^ 64))) (digits_on 0 digits.now)) }
{
    let mut n = 0u64;
    for digit in digits {
        let Some(next) = with_digit(n, *digit) else {
            return Err(ParseError::Malformed);
        };
        n = next;
    }
    Ok(n)
}

// The number with one more digit.
fn with_digit(n: u64, digit: u8) -> Option<u64>
    ensures { result ≡ with_digit n digit }
{
    if digit < b'0' || b'9' < digit {
        return None;
    }
    let ones = (digit - b'0') as u64;
    if n > (u64::MAX - ones) / 10 {
        return None;
    }
    Some(10 * n + ones)
}
