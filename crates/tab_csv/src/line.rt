//! The line of a script that does what a record means.
#![tactic(auto, using(tab_io::proofs::Putting::putting))]

ghost use Rattle.tab_io.specs.Writing.{Puts};
ghost use Rattle.std.specs.Prelude.{Some, None};
ghost use Rattle.tab_key.specs.declared.key.Kind.TheVariants.{Put, Delete};
ghost use Rattle.tab_text.specs.Lines.{line_text};
ghost use Rattle.tab_csv.specs.CsvLines.{change_line, change_words};
ghost use Rattle.tab_csv.specs.Parts.{change_in};

use crate::meaning::Meant;
use tab_io::{Output, WriteFault};
use tab_key::Kind;
use tab_text::{Word, put_line};

/// Puts the line that does what is meant: `insert T ROW FAM QUAL LABEL VALUE [TS]` or `delete T ROW FAM QUAL LABEL [TS]`. It takes no memory,
/// and fails where the output does, and has put a beginning of the line then.
pub fn put_line_of<W: Output>(output: &mut W, meant: &Meant<'_>) -> Result<(), WriteFault>
    ensures { Puts W.Output output.old output.new (change_line (change_in meant.now)) result }
{
    match (meant.kind, meant.timestamp) {
        (Kind::Put, None) => put_insert(output, meant),
        (Kind::Put, Some(timestamp)) => put_insert_at(output, meant, timestamp),
        (Kind::Delete, None) => put_delete(output, meant),
        (Kind::Delete, Some(timestamp)) => put_delete_at(output, meant, timestamp),
    }
}

fn put_insert<W: Output>(output: &mut W, meant: &Meant<'_>) -> Result<(), WriteFault>
    ensures { Puts W.Output output.old output.new (line_text (change_words Put meant.now.table.now meant.now.row.now (record (change_in meant.now).update { timestamp = None }))) result }
{
    put_line(
        output,
        &[
            Word::Text(b"insert"),
            Word::Bytes(meant.table),
            Word::Bytes(meant.row),
            Word::Bytes(meant.family),
            Word::Bytes(meant.qualifier),
            Word::Bytes(meant.label),
            Word::Bytes(meant.value),
        ],
    )
}

fn put_insert_at<W: Output>(
    output: &mut W,
    meant: &Meant<'_>,
    timestamp: i64,
) -> Result<(), WriteFault>
    ensures { Puts W.Output output.old output.new (line_text (change_words Put meant.now.table.now meant.now.row.now (record (change_in meant.now).update { timestamp = Some timestamp }))) result }
{
    put_line(
        output,
        &[
            Word::Text(b"insert"),
            Word::Bytes(meant.table),
            Word::Bytes(meant.row),
            Word::Bytes(meant.family),
            Word::Bytes(meant.qualifier),
            Word::Bytes(meant.label),
            Word::Bytes(meant.value),
            Word::Signed(timestamp),
        ],
    )
}

fn put_delete<W: Output>(output: &mut W, meant: &Meant<'_>) -> Result<(), WriteFault>
    ensures { Puts W.Output output.old output.new (line_text (change_words Delete meant.now.table.now meant.now.row.now (record (change_in meant.now).update { timestamp = None }))) result }
{
    put_line(
        output,
        &[
            Word::Text(b"delete"),
            Word::Bytes(meant.table),
            Word::Bytes(meant.row),
            Word::Bytes(meant.family),
            Word::Bytes(meant.qualifier),
            Word::Bytes(meant.label),
        ],
    )
}

fn put_delete_at<W: Output>(
    output: &mut W,
    meant: &Meant<'_>,
    timestamp: i64,
) -> Result<(), WriteFault>
    ensures { Puts W.Output output.old output.new (line_text (change_words Delete meant.now.table.now meant.now.row.now (record (change_in meant.now).update { timestamp = Some timestamp }))) result }
{
    put_line(
        output,
        &[
            Word::Text(b"delete"),
            Word::Bytes(meant.table),
            Word::Bytes(meant.row),
            Word::Bytes(meant.family),
            Word::Bytes(meant.qualifier),
            Word::Bytes(meant.label),
            Word::Signed(timestamp),
        ],
    )
}
