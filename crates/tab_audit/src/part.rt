//! One part of a list or a column.
#![tactic(auto, using(tab_io::proofs::Putting::putting))]

ghost use Rattle.std.specs.List.{flat_map};
ghost use Rattle.tab_io.specs.Writing.{Puts};
ghost use Rattle.tab_audit.specs.Words.{part_byte, part_word};

use tab_io::{Output, WriteFault};
use tab_text::{PutItem, put_each, put_word};

/// Puts the bytes as a part of a list or a column: a byte word in which commas and colons are escaped too.
#[tactic(auto, using(tab_io::proofs::Putting::putting, crate::proofs::Writing::part_some, crate::proofs::Writing::part_none))]
pub fn put_part<W: Output>(output: &mut W, bytes: &[u8]) -> Result<(), WriteFault>
    ensures { Puts W.Output output.old output.new (part_word bytes.now) result }
{
    if bytes.is_empty() {
        return output.put(b"\\e");
    }
    put_bytes(output, bytes)
}

fn put_bytes<W: Output>(output: &mut W, bytes: &[u8]) -> Result<(), WriteFault>
    ensures { Puts W.Output output.old output.new (flat_map part_byte bytes.now) result }
{
    put_each(output, bytes, &PartByte)
}

// A byte of a part.
struct PartByte;

impl PutItem<u8> for PartByte {
    ghost use Rattle.tab_audit.specs.Words.{part_byte};

    ghost text = { λ _ byte. part_byte byte };

    fn put_item<W: Output>(&self, output: &mut W, byte: &u8) -> Result<(), WriteFault> {
        put_part_byte(output, *byte)
    }
}

fn put_part_byte<W: Output>(output: &mut W, byte: u8) -> Result<(), WriteFault>
    ensures { Puts W.Output output.old output.new (part_byte byte) result }
{
    if byte == b',' {
        output.put(b"\\x2c")
    } else if byte == b':' {
        output.put(b"\\x3a")
    } else {
        put_word(output, &[byte])
    }
}
