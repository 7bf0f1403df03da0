//! One byte word.
ghost use Rattle.std.specs.Prelude.{◌≡◌, ◌<◌, ◌≤◌, false, length};
ghost use Rattle.std.specs.List.{prefix_len};
ghost use Rattle.tab_io.specs.Writing.{Puts};
ghost use Rattle.tab_text.specs.Words.{is_plain, hex_digit, escaped_byte, escaped, word};
ghost use Rattle.tab_text.specs.Parts.{PutsSome};

use tab_io::{Output, WriteFault};

/// Whether the byte stands for itself in a word.
pub fn is_plain(byte: u8) -> bool
    ensures { result ≡ is_plain byte }
{
    b'!' <= byte && byte <= b'~' && byte != b'\\'
}

/// Puts the one word that is written for these bytes.
#[tactic(auto, using(tab_io::proofs::Putting::putting, crate::proofs::Writing::word_some, crate::proofs::Writing::word_none))]
pub fn put_word<W: Output>(output: &mut W, bytes: &[u8]) -> Result<(), WriteFault>
    ensures { Puts W.Output output.old output.new (word bytes.now) result }
{
    if bytes.is_empty() {
        return output.put(b"\\e");
    }
    put_escaped_bytes(output, bytes)
}

fn put_escaped_bytes<W: Output>(output: &mut W, bytes: &[u8]) -> Result<(), WriteFault>
    ensures { Puts W.Output output.old output.new (escaped bytes.now) result }
{
    let mut done = 0;
    while done < bytes.len() {
        match put_some(output, bytes.split_at(done).1) {
            Ok(count) => done += count,
            Err(fault) => return Err(fault),
        }
    }
    Ok(())
}

// Puts the first bytes of these, of which there are some, and tells how many: a run of plain ones, or one other.
#[tactic(auto, using(crate::proofs::Writing::plain_put, crate::proofs::Writing::plain_part, crate::proofs::Writing::first_put, crate::proofs::Writing::first_part, crate::proofs::Writing::plain_some))]
fn put_some<W: Output>(output: &mut W, bytes: &[u8]) -> Result<usize, WriteFault>
    requires { 0 < length bytes.now }
    ensures { PutsSome W.Output output.old output.new bytes.now result }
{
    let first = bytes[0];
    if !is_plain(first) {
        put_escaped(output, first)?;
        return Ok(1);
    }
    let count = plain_len(bytes);
    output.put(bytes.split_at(count).0)?;
    Ok(count)
}

fn plain_len(bytes: &[u8]) -> usize
    ensures value { result ≡ prefix_len is_plain bytes.now }
    ensures fits { result ≤ length bytes.now }
{
    bytes.iter().take_while(|byte| is_plain(**byte)).count()
}

#[tactic(auto, using(tab_io::proofs::Putting::putting))]
fn put_escaped<W: Output>(output: &mut W, byte: u8) -> Result<(), WriteFault>
    requires { is_plain byte ≡ false }
    ensures { Puts W.Output output.old output.new (escaped_byte byte) result }
{
    if byte == b'\\' {
        return output.put(b"\\\\");
    }
    output.put(&[b'\\', b'x', hex_digit(byte / 16), hex_digit(byte % 16)])
}

fn hex_digit(value: u8) -> u8
    requires { value < 16 }
    ensures { result ≡ hex_digit value }
{
    if value < 10 {
        b'0' + value
    } else {
        b'a' - 10 + value
    }
}
