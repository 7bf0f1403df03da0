//! Words on a line of the shell.
#![tactic(auto, using(tab_io::proofs::Putting::putting))]

ghost use Rattle.std.specs.Prelude.{◌++◌, [], ◌∷◌, map};
ghost use Rattle.tab_io.specs.Writing.{Puts};
ghost use Rattle.tab_text.specs.Lines.{line_text, after_spaces};
ghost use Rattle.tab_accumulo.specs.Words.{shell_word};

use crate::quoting::{put_authorizations, put_quoted};
use crate::versions::put_versions;
use tab_io::{Output, WriteFault, put_byte, put_signed_decimal};
use tab_label::AuthSet;
use tab_text::{PutItem, put_each};

/// One word of a line.
#[derive(Clone, Copy)]
pub(crate) enum ShellWord<'a> {
    /// A word that stands as it is.
    Text(&'a [u8]),
    /// A name with its kind, separated by a dot: `Table.READ`.
    Qualified(&'a [u8], &'a [u8]),
    /// Bytes between double quotes.
    Quoted(&'a [u8]),
    /// The settings by which a new table shows this many versions.
    Versions(u64),
    /// A number in decimal, with a `-` before it if it is negative.
    Signed(i64),
    /// The option that says which authorizations there are.
    Authorizations(&'a AuthSet),
}

/// Puts the command and the words, separated by one space, and a line feed.
pub(crate) fn put_words<W: Output>(
    output: &mut W,
    command: &[u8],
    words: &[ShellWord<'_>],
) -> Result<(), WriteFault>
    ensures { Puts W.Output output.old output.new (line_text (command.now ∷ map shell_word words.now)) result }
{
    output.put(command)?;
    put_end(output, words)
}

fn put_end<W: Output>(output: &mut W, words: &[ShellWord<'_>]) -> Result<(), WriteFault>
    ensures { Puts W.Output output.old output.new (after_spaces (map shell_word words.now) ++ 10 ∷ []) result }
{
    put_spaced(output, words)?;
    put_byte(output, b'\n')
}

fn put_spaced<W: Output>(output: &mut W, words: &[ShellWord<'_>]) -> Result<(), WriteFault>
    ensures { Puts W.Output output.old output.new (after_spaces (map shell_word words.now)) result }
{
    put_each(output, words, &AfterSpace)
}

// A word behind a space.
struct AfterSpace;

impl<'a> PutItem<ShellWord<'a>> for AfterSpace {
    ghost use Rattle.std.specs.Prelude.{◌∷◌};
    ghost use Rattle.tab_accumulo.specs.Words.{shell_word};

    ghost text = { λ _ word. 32 ∷ shell_word word };

    fn put_item<W: Output>(&self, output: &mut W, word: &ShellWord<'a>) -> Result<(), WriteFault> {
        put_byte(output, b' ')?;
        put_one(output, word)
    }
}

fn put_one<W: Output>(output: &mut W, word: &ShellWord<'_>) -> Result<(), WriteFault>
    ensures { Puts W.Output output.old output.new (shell_word word.now) result }
{
    match *word {
        ShellWord::Text(text) => output.put(text),
        ShellWord::Qualified(kind, name) => put_qualified(output, kind, name),
        ShellWord::Quoted(bytes) => put_quoted(output, bytes),
        ShellWord::Versions(number) => put_versions(output, number),
        ShellWord::Signed(number) => put_signed_decimal(output, number),
        ShellWord::Authorizations(auths) => put_authorizations(output, auths),
    }
}

fn put_qualified<W: Output>(output: &mut W, kind: &[u8], name: &[u8]) -> Result<(), WriteFault>
    ensures { Puts W.Output output.old output.new (kind.now ++ 46 ∷ name.now) result }
{
    output.put(kind)?;
    put_after_dot(output, name)
}

fn put_after_dot<W: Output>(output: &mut W, name: &[u8]) -> Result<(), WriteFault>
    ensures { Puts W.Output output.old output.new (46 ∷ name.now) result }
{
    put_byte(output, b'.')?;
    output.put(name)
}
