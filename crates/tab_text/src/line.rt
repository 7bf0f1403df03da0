//! Words on a line.
#![tactic(auto, using(tab_io::proofs::Putting::putting))]

ghost use Rattle.std.specs.Prelude.{◌++◌, [], ◌∷◌, map};
ghost use Rattle.tab_io.specs.Writing.{Puts};
ghost use Rattle.tab_text.specs.Lines.{line_text, after_spaces, word_text};

use crate::items::{PutItem, put_each};
use crate::put_word;
use tab_io::{Output, WriteFault, put_byte, put_decimal, put_signed_decimal};

/// One word of a line.
#[derive(Clone, Copy, Debug)]
pub enum Word<'a> {
    /// A word that stands as it is, as a name of the line's own language.
    Text(&'a [u8]),
    /// A name of the line's own language with its kind, parted by a dot: `Table.READ`.
    Qualified(&'a [u8], &'a [u8]),
    /// The byte word of these bytes.
    Bytes(&'a [u8]),
    /// A number in decimal.
    Number(u64),
    /// A number in decimal, with a `-` before it if it is negative.
    Signed(i64),
}

/// Puts the words, parted by one space, and a line feed.
pub fn put_line<W: Output>(output: &mut W, words: &[Word<'_>]) -> Result<(), WriteFault>
    ensures { Puts W.Output output.old output.new (line_text (map word_text words.now)) result }
{
    if words.is_empty() {
        return put_byte(output, b'\n');
    }
    put_words(output, &words[0], words.split_at(1).1)
}

// Puts the first word, the others, and a line feed.
fn put_words<W: Output>(
    output: &mut W,
    first: &Word<'_>,
    others: &[Word<'_>],
) -> Result<(), WriteFault>
    ensures { Puts W.Output output.old output.new (word_text first.now ++ (after_spaces (map word_text others.now) ++ 10 ∷ [])) result }
{
    put_one(output, first)?;
    put_end(output, others)
}

fn put_end<W: Output>(output: &mut W, others: &[Word<'_>]) -> Result<(), WriteFault>
    ensures { Puts W.Output output.old output.new (after_spaces (map word_text others.now) ++ 10 ∷ []) result }
{
    put_others(output, others)?;
    put_byte(output, b'\n')
}

fn put_others<W: Output>(output: &mut W, others: &[Word<'_>]) -> Result<(), WriteFault>
    ensures { Puts W.Output output.old output.new (after_spaces (map word_text others.now)) result }
{
    put_each(output, others, &AfterSpace)
}

// A word behind a space.
struct AfterSpace;

impl<'a> PutItem<Word<'a>> for AfterSpace {
    ghost use Rattle.std.specs.Prelude.{◌∷◌};
    ghost use Rattle.tab_text.specs.Lines.{word_text};

    ghost text = { λ _ word. 32 ∷ word_text word };

    fn put_item<W: Output>(&self, output: &mut W, word: &Word<'a>) -> Result<(), WriteFault> {
        put_byte(output, b' ')?;
        put_one(output, word)
    }
}

fn put_one<W: Output>(output: &mut W, word: &Word<'_>) -> Result<(), WriteFault>
    ensures { Puts W.Output output.old output.new (word_text word.now) result }
{
    match *word {
        Word::Text(text) => output.put(text),
        Word::Qualified(kind, name) => put_qualified(output, kind, name),
        Word::Bytes(bytes) => put_word(output, bytes),
        Word::Number(number) => put_decimal(output, number),
        Word::Signed(number) => put_signed_decimal(output, number),
    }
}

fn put_qualified<W: Output>(output: &mut W, kind: &[u8], name: &[u8]) -> Result<(), WriteFault>
    ensures { Puts W.Output output.old output.new (kind.now ++ (46 ∷ name.now)) result }
{
    output.put(kind)?;
    put_after_dot(output, name)
}

fn put_after_dot<W: Output>(output: &mut W, name: &[u8]) -> Result<(), WriteFault>
    ensures { Puts W.Output output.old output.new (46 ∷ name.now) result }
{
    put_byte(output, b'.')?;
    output.put(name)
}
