//! The updates of a mutation on a line.
#![tactic(auto, using(tab_io::proofs::Putting::putting))]

ghost use Rattle.std.specs.Prelude.{◌<◌, ◌∷◌, ◌++◌, [], codes, length, drop};
ghost use Rattle.std.specs.List.{flat_map};
ghost use Rattle.tab_io.specs.Writing.{Puts};
ghost use Rattle.tab_text.specs.Words.{word};
ghost use Rattle.tab_text.specs.Lines.{line_text, after_spaces};
ghost use Rattle.tab_key.specs.declared.key.Kind.TheVariants.{Put, Delete};
ghost use Rattle.tab_audit.specs.Words.{kind_words, update_words, updates_words};
ghost use Rattle.tab_audit.specs.Lists.{later_update};

use crate::piece::{Piece, put_spaced};
use tab_io::{Output, WriteFault, put_byte};
use tab_key::{Kind, Name};
use tab_mutation::{Mutation, UpdateRef};

/// Puts the line of a mutation of the table.
pub fn put_mutation<W: Output>(
    output: &mut W,
    table: &Name,
    mutation: &Mutation,
) -> Result<(), WriteFault>
    ensures { Puts W.Output output.old output.new (line_text (codes "mutate" ∷ word table.now ∷ word mutation.now.row ∷ updates_words mutation.now.updates)) result }
{
    output.put(b"mutate")?;
    put_from_table(output, table, mutation)
}

fn put_from_table<W: Output>(
    output: &mut W,
    table: &Name,
    mutation: &Mutation,
) -> Result<(), WriteFault>
    ensures { Puts W.Output output.old output.new (after_spaces (word table.now ∷ word mutation.now.row ∷ updates_words mutation.now.updates) ++ 10 ∷ []) result }
{
    put_spaced(
        output,
        &[Piece::Bytes(table.as_bytes()), Piece::Bytes(mutation.row())],
    )?;
    put_end(output, mutation)
}

fn put_end<W: Output>(output: &mut W, mutation: &Mutation) -> Result<(), WriteFault>
    ensures { Puts W.Output output.old output.new (after_spaces (updates_words mutation.now.updates) ++ 10 ∷ []) result }
{
    put_updates(output, mutation)?;
    put_byte(output, b'\n')
}

fn put_updates<W: Output>(output: &mut W, mutation: &Mutation) -> Result<(), WriteFault>
    ensures { Puts W.Output output.old output.new (after_spaces (updates_words mutation.now.updates)) result }
{
    if mutation.is_empty() {
        return output.put(b"");
    }
    put_some(output, mutation)
}

fn put_some<W: Output>(output: &mut W, mutation: &Mutation) -> Result<(), WriteFault>
    requires { 0 < length mutation.now.updates }
    ensures { Puts W.Output output.old output.new (after_spaces (updates_words mutation.now.updates)) result }
{
    put_update(output, &mutation.update(0))?;
    put_later(output, mutation)
}

fn put_later<W: Output>(output: &mut W, mutation: &Mutation) -> Result<(), WriteFault>
    requires { 0 < length mutation.now.updates }
    ensures { Puts W.Output output.old output.new (flat_map later_update (drop 1 mutation.now.updates)) result }
{
    for index in 0..mutation.len() - 1 {
        match put_after_mark(output, &mutation.update(index + 1)) {
            Ok(()) => {}
            Err(fault) => return Err(fault),
        }
    }
    Ok(())
}

fn put_after_mark<W: Output>(output: &mut W, update: &UpdateRef<'_>) -> Result<(), WriteFault>
    ensures { Puts W.Output output.old output.new (later_update update.now) result }
{
    output.put(b" ;")?;
    put_update(output, update)
}

fn put_update<W: Output>(output: &mut W, update: &UpdateRef<'_>) -> Result<(), WriteFault>
    ensures { Puts W.Output output.old output.new (after_spaces (update_words update.now)) result }
{
    match update.kind() {
        Kind::Put => put_put(output, update),
        Kind::Delete => put_delete(output, update),
    }
}

fn put_put<W: Output>(output: &mut W, update: &UpdateRef<'_>) -> Result<(), WriteFault>
    ensures { Puts W.Output output.old output.new (after_spaces (kind_words Put update.now)) result }
{
    put_spaced(
        output,
        &[
            Piece::Text(b"put"),
            Piece::Bytes(update.family()),
            Piece::Bytes(update.qualifier()),
            Piece::Bytes(update.label()),
            Piece::Bytes(update.value()),
            Piece::Timestamp(update.timestamp()),
        ],
    )
}

fn put_delete<W: Output>(output: &mut W, update: &UpdateRef<'_>) -> Result<(), WriteFault>
    ensures { Puts W.Output output.old output.new (after_spaces (kind_words Delete update.now)) result }
{
    put_spaced(
        output,
        &[
            Piece::Text(b"del"),
            Piece::Bytes(update.family()),
            Piece::Bytes(update.qualifier()),
            Piece::Bytes(update.label()),
            Piece::Timestamp(update.timestamp()),
        ],
    )
}
