//! A byte as an escape.
ghost use Rattle.std.specs.Prelude.{◌≡◌, ◌<◌, [], ◌∷◌};
ghost use Rattle.tab_text.specs.Words.{hex_digit, hex_form};

/// The escape `\x` and two digits of a byte.
pub(crate) fn hex_form(byte: u8) -> [u8; 4]
    ensures { result ≡ hex_form byte }
{
    [b'\\', b'x', hex_digit(byte / 16), hex_digit(byte % 16)]
}

fn hex_digit(value: u8) -> u8
    requires { value < 16 }
    ensures { result ≡ hex_digit value }
{
    if value < 10 {
        b'0' + value
    } else {
        b'a' - 10 + value
    }
}
