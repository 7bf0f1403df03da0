//! The lines of records.
#![tactic(auto, using(tab_io::proofs::Putting::putting))]

ghost use Rattle.std.specs.Prelude.{Option};
ghost use Rattle.tab_io.specs.Writing.{Puts};
ghost use Rattle.tab_key.specs.declared.key.Kind.TheVariants.{Put, Delete};
ghost use Rattle.tab_accumulo.specs.Carried.{in_table, label_obstacle};
ghost use Rattle.tab_accumulo.specs.Lines.{told, kind_words, record_text};

use crate::obstacle::{Obstacle, in_table, label_obstacle};
use crate::telling::put_told;
use crate::word::ShellWord;
use tab_io::{Output, WriteFault};
use tab_key::{Kind, RecordRef};
use tab_walk::PutRecord;

/// A record as a line that writes it into its table, where that is made.
#[derive(Clone, Copy)]
pub(crate) struct Written {
    pub(crate) is_made: bool,
}

impl PutRecord for Written {
    ghost use Rattle.tab_accumulo.specs.Lines.{record_text};

    ghost text = { λ written r. record_text written.is_made r };

    fn put_record<W: Output>(
        &self,
        output: &mut W,
        record: &RecordRef<'_>,
    ) -> Result<(), WriteFault> {
        put_written(output, self.is_made, record)
    }
}

#[tactic(auto, using(tab_io::proofs::Putting::putting), unfolding(crate::specs::Lines::record_text))]
fn put_written<W: Output>(
    output: &mut W,
    is_made: bool,
    written: &RecordRef<'_>,
) -> Result<(), WriteFault>
    ensures { Puts W.Output output.old output.new (record_text is_made written.now) result }
{
    let obstacle = in_table(is_made, label_obstacle(written.label()));
    match written.kind() {
        Kind::Put => put_put(output, obstacle, written),
        Kind::Delete => put_delete(output, obstacle, written),
    }
}

fn put_put<W: Output>(
    output: &mut W,
    obstacle: Option<Obstacle>,
    written: &RecordRef<'_>,
) -> Result<(), WriteFault>
    ensures { Puts W.Output output.old output.new (told obstacle (kind_words Put written.now)) result }
{
    put_told(
        output,
        obstacle,
        b"insert",
        &[
            ShellWord::Text(b"-l"),
            ShellWord::Quoted(written.label()),
            ShellWord::Text(b"-ts"),
            ShellWord::Signed(written.timestamp()),
            ShellWord::Text(b"--"),
            ShellWord::Quoted(written.row()),
            ShellWord::Quoted(written.family()),
            ShellWord::Quoted(written.qualifier()),
            ShellWord::Quoted(written.value()),
        ],
    )
}

fn put_delete<W: Output>(
    output: &mut W,
    obstacle: Option<Obstacle>,
    written: &RecordRef<'_>,
) -> Result<(), WriteFault>
    ensures { Puts W.Output output.old output.new (told obstacle (kind_words Delete written.now)) result }
{
    put_told(
        output,
        obstacle,
        b"delete",
        &[
            ShellWord::Text(b"-l"),
            ShellWord::Quoted(written.label()),
            ShellWord::Text(b"-ts"),
            ShellWord::Signed(written.timestamp()),
            ShellWord::Text(b"--"),
            ShellWord::Quoted(written.row()),
            ShellWord::Quoted(written.family()),
            ShellWord::Quoted(written.qualifier()),
        ],
    )
}
