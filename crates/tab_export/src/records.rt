//! The lines of records.
#![tactic(auto, using(tab_io::proofs::Putting::putting))]

ghost use Rattle.std.specs.Prelude.{◌++◌, ◌∷◌, codes, Some, None};
ghost use Rattle.tab_io.specs.Writing.{Puts};
ghost use Rattle.tab_key.specs.declared.key.Kind.TheVariants.{Put, Delete};
ghost use Rattle.tab_text.specs.Words.{word};
ghost use Rattle.tab_text.specs.Lines.{line_text};
ghost use Rattle.tab_audit.specs.Words.{kind_words};
ghost use Rattle.tab_export.specs.Script.{at_text, given_text, records_text, record_text, placed_text, update_of};

use crate::placed::Placed;
use tab_audit::{Piece, put_line};
use tab_history::TimeMode;
use tab_image::ImageTable;
use tab_io::{Output, WriteFault};
use tab_key::{Kind, Name, RecordRef};
use tab_text::PutItem;
use tab_walk::{PutRecord, put_last_first};

/// Puts the records of a table that takes timestamps, the last one first; of another one none.
pub(crate) fn put_own<W: Output>(output: &mut W, table: &ImageTable) -> Result<(), WriteFault>
    ensures { Puts W.Output output.old output.new (records_text table.now.head.time table.now.head.name table.now.records) result }
{
    match table.head.time {
        TimeMode::Any => put_last_first(
            output,
            &table.records,
            &Given {
                table: &table.head.name,
            },
        ),
        TimeMode::Server => output.put(b""),
    }
}

// A record of the table of this name, with its timestamp.
#[derive(Clone, Copy)]
struct Given<'a> {
    table: &'a Name,
}

impl<'a> PutRecord for Given<'a> {
    ghost use Rattle.tab_export.specs.Script.{given_text};

    ghost text = { λ given r. given_text given.table.now r };

    fn put_record<W: Output>(
        &self,
        output: &mut W,
        record: &RecordRef<'_>,
    ) -> Result<(), WriteFault> {
        put_given(output, self.table, record)
    }
}

fn put_given<'a, W: Output>(
    output: &mut W,
    table: &'a Name,
    written: &RecordRef<'a>,
) -> Result<(), WriteFault>
    ensures { Puts W.Output output.old output.new (given_text table.now written.now) result }
{
    put_record(output, table, Some(written.timestamp()), written)
}

/// A record in its place, as an item of a list.
pub(crate) struct InPlace;

impl<'a> PutItem<Placed<'a>> for InPlace {
    ghost use Rattle.tab_export.specs.Script.{placed_text};

    ghost text = { λ _ placed. placed_text placed };

    fn put_item<W: Output>(&self, output: &mut W, placed: &Placed<'a>) -> Result<(), WriteFault> {
        put_placed(output, placed)
    }
}

#[tactic(auto, using(tab_io::proofs::Putting::putting), unfolding(crate::specs::Script::placed_text))]
fn put_placed<'a, W: Output>(output: &mut W, placed: &Placed<'a>) -> Result<(), WriteFault>
    ensures { Puts W.Output output.old output.new (placed_text placed.now) result }
{
    put_timed(output, placed.table(), placed.held())
}

fn put_timed<'a, W: Output>(
    output: &mut W,
    table: &'a Name,
    written: &RecordRef<'a>,
) -> Result<(), WriteFault>
    ensures { Puts W.Output output.old output.new (at_text written.now.key.timestamp ++ record_text table.now None written.now) result }
{
    put_at_moment(output, written.timestamp(), table, written)
}

fn put_at_moment<'a, W: Output>(
    output: &mut W,
    moment: i64,
    table: &'a Name,
    written: &RecordRef<'a>,
) -> Result<(), WriteFault>
    ensures { Puts W.Output output.old output.new (at_text moment ++ record_text table.now None written.now) result }
{
    put_at(output, moment)?;
    put_record(output, table, None, written)
}

/// Puts the line that gives later ones their moment.
#[tactic(auto, using(tab_io::proofs::Putting::putting), unfolding(crate::specs::Script::at_text))]
pub(crate) fn put_at<W: Output>(output: &mut W, moment: i64) -> Result<(), WriteFault>
    ensures { Puts W.Output output.old output.new (at_text moment) result }
{
    put_line(output, b"at", &[Piece::Signed(moment)])
}

#[tactic(auto, using(tab_io::proofs::Putting::putting), unfolding(crate::specs::Script::record_text))]
fn put_record<'a, W: Output>(
    output: &mut W,
    table: &'a Name,
    timestamp: Option<i64>,
    written: &RecordRef<'a>,
) -> Result<(), WriteFault>
    ensures { Puts W.Output output.old output.new (record_text table.now timestamp written.now) result }
{
    match written.kind() {
        Kind::Put => put_put(output, table, timestamp, written),
        Kind::Delete => put_delete(output, table, timestamp, written),
    }
}

fn put_put<'a, W: Output>(
    output: &mut W,
    table: &'a Name,
    timestamp: Option<i64>,
    written: &RecordRef<'a>,
) -> Result<(), WriteFault>
    ensures { Puts W.Output output.old output.new (line_text (codes "mutate" ∷ word table.now ∷ word written.now.key.row ∷ kind_words Put (update_of timestamp written.now))) result }
{
    put_line(
        output,
        b"mutate",
        &[
            Piece::Bytes(table.as_bytes()),
            Piece::Bytes(written.row()),
            Piece::Text(b"put"),
            Piece::Bytes(written.family()),
            Piece::Bytes(written.qualifier()),
            Piece::Bytes(written.label()),
            Piece::Bytes(written.value()),
            Piece::Timestamp(timestamp),
        ],
    )
}

fn put_delete<'a, W: Output>(
    output: &mut W,
    table: &'a Name,
    timestamp: Option<i64>,
    written: &RecordRef<'a>,
) -> Result<(), WriteFault>
    ensures { Puts W.Output output.old output.new (line_text (codes "mutate" ∷ word table.now ∷ word written.now.key.row ∷ kind_words Delete (update_of timestamp written.now))) result }
{
    put_line(
        output,
        b"mutate",
        &[
            Piece::Bytes(table.as_bytes()),
            Piece::Bytes(written.row()),
            Piece::Text(b"del"),
            Piece::Bytes(written.family()),
            Piece::Bytes(written.qualifier()),
            Piece::Bytes(written.label()),
            Piece::Timestamp(timestamp),
        ],
    )
}
