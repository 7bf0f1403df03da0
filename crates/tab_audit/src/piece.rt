//! One word of a line, and words on a line.
#![tactic(auto, using(tab_io::proofs::Putting::putting))]

ghost use Rattle.std.specs.Prelude.{◌++◌, [], ◌∷◌, map};
ghost use Rattle.tab_io.specs.Writing.{Puts};
ghost use Rattle.tab_text.specs.Words.{word};
ghost use Rattle.tab_text.specs.Lines.{line_text, after_spaces};
ghost use Rattle.tab_audit.specs.Words.{timestamp_word, versions_word, bound_word};
ghost use Rattle.tab_audit.specs.Pieces.{piece_text};

use crate::list::{put_columns, put_constraints, put_terms};
use tab_io::{Output, WriteFault, put_byte, put_decimal, put_signed_decimal};
use tab_key::{Bound, Column, Items};
use tab_label::AuthSet;
use tab_rules::ConstraintSet;
use tab_text::{PutItem, put_each, put_word};

/// One word of a line.
#[derive(Clone, Copy)]
pub enum Piece<'a> {
    /// A word that stands as it is.
    Text(&'a [u8]),
    /// The byte word of these bytes.
    Bytes(&'a [u8]),
    /// A number in decimal.
    Number(u64),
    /// A number in decimal, with a `-` before it if it is negative.
    Signed(i64),
    /// A timestamp, or `-` for none.
    Timestamp(Option<i64>),
    /// How many versions a new table shows.
    Versions(u32),
    /// A list of authorizations.
    Terms(&'a AuthSet),
    /// A list of constraints.
    Constraints(&'a ConstraintSet),
    /// A list of columns.
    Columns(&'a Items<Column>),
    /// An end of a range.
    End(&'a Bound),
}

/// Puts the command and the words, parted by one space, and a line feed.
pub fn put_line<W: Output>(
    output: &mut W,
    command: &[u8],
    words: &[Piece<'_>],
) -> Result<(), WriteFault>
    ensures { Puts W.Output output.old output.new (line_text (command.now ∷ map piece_text words.now)) result }
{
    output.put(command)?;
    put_end(output, words)
}

fn put_end<W: Output>(output: &mut W, words: &[Piece<'_>]) -> Result<(), WriteFault>
    ensures { Puts W.Output output.old output.new (after_spaces (map piece_text words.now) ++ 10 ∷ []) result }
{
    put_spaced(output, words)?;
    put_byte(output, b'\n')
}

/// Puts the words, each behind a space.
pub fn put_spaced<W: Output>(output: &mut W, words: &[Piece<'_>]) -> Result<(), WriteFault>
    ensures { Puts W.Output output.old output.new (after_spaces (map piece_text words.now)) result }
{
    put_each(output, words, &AfterSpace)
}

// A word behind a space.
struct AfterSpace;

impl<'a> PutItem<Piece<'a>> for AfterSpace {
    ghost use Rattle.std.specs.Prelude.{◌∷◌};
    ghost use Rattle.tab_audit.specs.Pieces.{piece_text};

    ghost text = { λ _ piece. 32 ∷ piece_text piece };

    fn put_item<W: Output>(&self, output: &mut W, piece: &Piece<'a>) -> Result<(), WriteFault> {
        put_byte(output, b' ')?;
        put_one(output, piece)
    }
}

fn put_one<W: Output>(output: &mut W, piece: &Piece<'_>) -> Result<(), WriteFault>
    ensures { Puts W.Output output.old output.new (piece_text piece.now) result }
{
    match *piece {
        Piece::Text(text) => output.put(text),
        Piece::Bytes(bytes) => put_word(output, bytes),
        Piece::Number(number) => put_decimal(output, number),
        Piece::Signed(number) => put_signed_decimal(output, number),
        Piece::Timestamp(timestamp) => put_timestamp(output, timestamp),
        Piece::Versions(many) => put_versions(output, many),
        Piece::Terms(auths) => put_terms(output, auths),
        Piece::Constraints(set) => put_constraints(output, set),
        Piece::Columns(columns) => put_columns(output, columns),
        Piece::End(bound) => put_bound(output, bound),
    }
}

fn put_timestamp<W: Output>(output: &mut W, timestamp: Option<i64>) -> Result<(), WriteFault>
    ensures { Puts W.Output output.old output.new (timestamp_word timestamp) result }
{
    match timestamp {
        Some(number) => put_signed_decimal(output, number),
        None => output.put(b"-"),
    }
}

fn put_versions<W: Output>(output: &mut W, many: u32) -> Result<(), WriteFault>
    ensures { Puts W.Output output.old output.new (versions_word many) result }
{
    output.put(b"versions=")?;
    put_decimal(output, many as u64)
}

fn put_bound<W: Output>(output: &mut W, bound: &Bound) -> Result<(), WriteFault>
    ensures { Puts W.Output output.old output.new (bound_word bound.now) result }
{
    match bound {
        Bound::Unbounded => output.put(b"\\0"),
        Bound::Inclusive(row) => put_marked(output, b'[', row.as_bytes()),
        Bound::Exclusive(row) => put_marked(output, b'(', row.as_bytes()),
    }
}

fn put_marked<W: Output>(output: &mut W, mark: u8, row: &[u8]) -> Result<(), WriteFault>
    ensures { Puts W.Output output.old output.new (mark ∷ word row.now) result }
{
    put_byte(output, mark)?;
    put_word(output, row)
}
