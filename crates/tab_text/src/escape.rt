//! The steps by which a word is read, byte by byte.
ghost use Rattle.std.specs.Prelude.{◌≡◌, ◌<◌, true, IfSome};
ghost use Rattle.tab_text.specs.Reading.{hex_value, step, digit_fits};

use crate::is_plain;

/// How much of an escape has been read.
#[derive(Clone, Copy, Debug, PartialEq, Eq)]
pub enum Escape {
    /// Nothing: the next byte stands for itself or begins an escape.
    Outside,
    /// The backslash.
    Backslash,
    /// The backslash and the `x`.
    Hex,
    /// All but the last digit; the first one has this value, below 16.
    High(u8),
}

/// The value of a lower-case hexadecimal digit, if it is one.
pub fn hex_value(digit: u8) -> Option<u8>
    ensures value { result ≡ hex_value digit }
    ensures fits { IfSome result (λ value. value < 16) }
{
    match digit {
        b'0'..=b'9' => Some(digit - b'0'),
        b'a'..=b'f' => Some(digit - b'a' + 10),
        _ => None,
    }
}

/// Reads one more byte of a word: the byte of the string that is whole with it, if one is, and how much of an escape
/// has been read then. `None`: no word goes on so.
pub fn step(state: Escape, byte: u8) -> Option<(Option<u8>, Escape)>
    requires { digit_fits state ≡ true }
    ensures value { result ≡ step state byte }
    ensures fits { IfSome result (λ next. digit_fits next.1 ≡ true) }
{
    match state {
        Escape::Outside if is_plain(byte) => Some((Some(byte), Escape::Outside)),
        Escape::Outside if byte == b'\\' => Some((None, Escape::Backslash)),
        Escape::Outside => None,
        Escape::Backslash if byte == b'\\' => Some((Some(byte), Escape::Outside)),
        Escape::Backslash if byte == b'x' => Some((None, Escape::Hex)),
        Escape::Backslash => None,
        Escape::Hex => {
            let high = hex_value(byte)?;
            Some((None, Escape::High(high)))
        }
        Escape::High(high) => {
            let low = hex_value(byte)?;
            Some((Some(16 * high + low), Escape::Outside))
        }
    }
}
