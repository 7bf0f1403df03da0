//! A line, or a comment in its place.
#![tactic(auto, using(tab_io::proofs::Putting::putting))]

ghost use Rattle.std.specs.Prelude.{◌++◌, ◌∷◌, map};
ghost use Rattle.tab_io.specs.Writing.{Puts};
ghost use Rattle.tab_text.specs.Lines.{line_text};
ghost use Rattle.tab_accumulo.specs.Words.{shell_word};
ghost use Rattle.tab_accumulo.specs.Carried.{lead};
ghost use Rattle.tab_accumulo.specs.Lines.{told};

use crate::obstacle::Obstacle;
use crate::word::{ShellWord, put_words};
use tab_io::{Output, WriteFault};

/// Puts the line of the command and the words; where something keeps it from going over, a comment that says what, and the line behind it.
pub(crate) fn put_told<W: Output>(
    output: &mut W,
    obstacle: Option<Obstacle>,
    command: &[u8],
    words: &[ShellWord<'_>],
) -> Result<(), WriteFault>
    ensures { Puts W.Output output.old output.new (told obstacle (command.now ∷ map shell_word words.now)) result }
{
    match obstacle {
        None => put_words(output, command, words),
        Some(obstacle) => put_comment(output, obstacle, command, words),
    }
}

fn put_comment<W: Output>(
    output: &mut W,
    obstacle: Obstacle,
    command: &[u8],
    words: &[ShellWord<'_>],
) -> Result<(), WriteFault>
    ensures { Puts W.Output output.old output.new (lead obstacle ++ line_text (command.now ∷ map shell_word words.now)) result }
{
    output.put(obstacle.lead())?;
    put_words(output, command, words)
}
