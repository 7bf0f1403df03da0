//! The forms that constraints ask of byte strings.
ghost use Rattle.std.specs.Prelude.{◌≡◌};
ghost use Rattle.std.specs.Char.{is_ascii_digit, is_ascii_alphanumeric};
ghost use Rattle.std.specs.List.{list_all};
ghost use Rattle.tab_rules.specs.Verdict.{is_digits, is_numeral};

/// Whether all bytes are ASCII letters and digits.
pub fn is_all_alphanumeric(bytes: &[u8]) -> bool
    ensures { result ≡ list_all is_ascii_alphanumeric bytes.now }
{
    bytes.iter().all(|byte| byte.is_ascii_alphanumeric())
}

// Whether all bytes are ASCII digits.
fn is_all_digits(bytes: &[u8]) -> bool
    ensures { result ≡ list_all is_ascii_digit bytes.now }
{
    bytes.iter().all(|byte| byte.is_ascii_digit())
}

// Whether there are one or more bytes, all of them ASCII digits.
#[tactic(auto, using(crate::proofs::Digits::digits_are))]
fn is_digits(bytes: &[u8]) -> bool
    ensures { result ≡ is_digits bytes.now }
{
    !bytes.is_empty() && is_all_digits(bytes)
}

/// Whether the bytes are an optional `-` and then one or more ASCII digits.
pub fn is_numeral(bytes: &[u8]) -> bool
    ensures { result ≡ is_numeral bytes.now }
{
    match bytes {
        [] => false,
        [b'-', digits @ ..] => is_digits(digits),
        digits => is_digits(digits),
    }
}
