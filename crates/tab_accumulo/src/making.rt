//! A new table: what its making and its settings are.
#![tactic(auto, using(tab_io::proofs::Putting::putting))]

ghost use Rattle.std.specs.Prelude.{◌++◌, [], ◌∷◌, Some, codes};
ghost use Rattle.tab_io.specs.Writing.{Puts};
ghost use Rattle.tab_accumulo.specs.Carried.{in_table};
ghost use Rattle.tab_accumulo.specs.declared.obstacle.Obstacle.TheVariants.{Setting};
ghost use Rattle.tab_accumulo.specs.Lines.{told, leaving_text, creating_text, bare_text, time_text};

use crate::carried::is_table_name;
use crate::obstacle::{Obstacle, in_table, table_obstacle};
use crate::telling::put_told;
use crate::word::ShellWord;
use tab_history::TimeMode;
use tab_image::TableHead;
use tab_io::{Output, WriteFault};

/// Leaves the table before, makes this one, in which the shell is then, and sets it.
pub(crate) fn put_new<W: Output>(output: &mut W, head: &TableHead) -> Result<(), WriteFault>
    ensures { Puts W.Output output.old output.new
        (leaving_text ++ (creating_text head.now ++ (bare_text head.now ++ time_text head.now))) result }
{
    put_leaving(output)?;
    put_made(output, head)
}

fn put_leaving<W: Output>(output: &mut W) -> Result<(), WriteFault>
    ensures { Puts W.Output output.old output.new leaving_text result }
{
    put_told(output, None, b"notable", &[])
}

fn put_made<W: Output>(output: &mut W, head: &TableHead) -> Result<(), WriteFault>
    ensures { Puts W.Output output.old output.new (creating_text head.now ++ (bare_text head.now ++ time_text head.now)) result }
{
    put_created(output, head)?;
    put_settled(output, head)
}

fn put_created<W: Output>(output: &mut W, head: &TableHead) -> Result<(), WriteFault>
    ensures { Puts W.Output output.old output.new (creating_text head.now) result }
{
    put_told(
        output,
        table_obstacle(is_table_name(head.name.as_bytes())),
        b"createtable",
        &[
            ShellWord::Text(head.name.as_bytes()),
            ShellWord::Text(b"-prop"),
            ShellWord::Versions(head.versions.get() as u64),
        ],
    )
}

fn put_settled<W: Output>(output: &mut W, head: &TableHead) -> Result<(), WriteFault>
    ensures { Puts W.Output output.old output.new (bare_text head.now ++ time_text head.now) result }
{
    put_bare(output, head)?;
    put_time(output, head)
}

// Takes the constraint that a new table has.
fn put_bare<W: Output>(output: &mut W, head: &TableHead) -> Result<(), WriteFault>
    ensures { Puts W.Output output.old output.new (bare_text head.now) result }
{
    let is_made = is_table_name(head.name.as_bytes());
    put_told(
        output,
        in_table(is_made, None),
        b"constraint",
        &[ShellWord::Text(b"-d"), ShellWord::Text(b"1")],
    )
}

fn put_time<W: Output>(output: &mut W, head: &TableHead) -> Result<(), WriteFault>
    ensures { Puts W.Output output.old output.new (time_text head.now) result }
{
    match head.time {
        TimeMode::Any => output.put(b""),
        TimeMode::Server => put_server_time(output, is_table_name(head.name.as_bytes())),
    }
}

fn put_server_time<W: Output>(output: &mut W, is_made: bool) -> Result<(), WriteFault>
    ensures { Puts W.Output output.old output.new (told (in_table is_made (Some Setting)) (codes "time" ∷ codes "server" ∷ [])) result }
{
    put_told(
        output,
        in_table(is_made, Some(Obstacle::Setting)),
        b"time",
        &[ShellWord::Text(b"server")],
    )
}
