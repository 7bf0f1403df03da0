//! One byte or number, put.
//!
//! A function that puts several texts ends each step in a call whose clause is `Puts`, and the text in its own clause is
//! grouped to the right, as `a ++ (b ++ c)`. With `#![tactic(auto, using(tab_io::proofs::Putting::putting))]` atop its
//! file the clause then needs no proof: `puts_more` joins the last text to those before it, and `part_longer` says that
//! a beginning of a text, which a step leaves at an error, is also one of a longer text.
#![tactic(auto, using(crate::proofs::Putting::putting))]

ghost use Rattle.std.specs.Prelude.{[], ◌∷◌, decimal};
ghost use Rattle.std.specs.Fmt.{signed_decimal};
ghost use Rattle.tab_io.specs.Writing.{Puts};

use crate::{Output, WriteFault};
use itoa::Buffer;

/// Puts one byte.
pub fn put_byte<W: Output>(output: &mut W, byte: u8) -> Result<(), WriteFault>
    ensures { Puts W.Output output.old output.new (byte ∷ []) result }
{
    output.put(&[byte])
}

/// Puts the number in decimal, with no leading zero. A `u32` goes by `u64::from`.
pub fn put_decimal<W: Output>(output: &mut W, number: u64) -> Result<(), WriteFault>
    ensures { Puts W.Output output.old output.new (decimal number) result }
{
    let mut buffer = Buffer::new();
    output.put(buffer.format(number).as_bytes())
}

/// Puts the number in decimal, with no leading zero, a negative one with a `-` before it.
pub fn put_signed_decimal<W: Output>(output: &mut W, number: i64) -> Result<(), WriteFault>
    ensures { Puts W.Output output.old output.new (signed_decimal number) result }
{
    let mut buffer = Buffer::new();
    let text = buffer.format(number);
    output.put(text.as_bytes())
}
