//! A whole script.
#![tactic(auto, using(tab_io::proofs::Putting::putting))]

ghost use Rattle.std.specs.Prelude.{[], ◌∷◌};
ghost use Rattle.std.specs.List.{flat_map};
ghost use Rattle.tab_io.specs.Writing.{Puts};
ghost use Rattle.tab_history.specs.declared.event.Act.TheVariants.{Rotate};
ghost use Rattle.tab_walk.specs.Walks.{user_text, table_text};
ghost use Rattle.tab_export.specs.Script.{act_text, script, user_parts, table_parts, setting_parts, script_text};
ghost use Rattle.tab_export.specs.Parts.{script_part};

use crate::lines::Script;
use crate::placed::Placed;
use crate::records::{InPlace, put_at};
use tab_audit::put_line;
use tab_image::Image;
use tab_io::{Output, WriteFault};
use tab_text::{PutItem, put_each};
use tab_walk::{TablePart, ToldRights, UserPart, put_tables, put_users};

/// What the lines of a script do, one part behind the other.
#[derive(Clone, Copy)]
pub(crate) enum ScriptPart<'a> {
    /// Give a moment.
    At(i64),
    /// Make the users.
    Users(&'a Image),
    /// Make the tables, and fill those that take timestamps.
    Tables(&'a Image),
    /// Fill the tables that give the timestamps.
    Placed(&'a [Placed<'a>]),
    /// Set what goes behind the records.
    Settings(&'a Image),
    /// Move the clock, and nothing else.
    Last,
}

/// Puts the lines of a script that make what the image says. `order` has the records of the tables that give the timestamps, in the order
/// in which they are written: that of [`server_records`](crate::server_records).
///
/// It takes no memory, and fails where the output does; then it has put a beginning of the lines.
#[tactic(auto, using(tab_io::proofs::Putting::putting), unfolding(crate::specs::Script::script_text))]
pub fn put_script<'a, W: Output>(
    output: &mut W,
    image: &'a Image,
    order: &'a [Placed<'a>],
) -> Result<(), WriteFault>
    ensures { Puts W.Output output.old output.new (script_text order.now image.now) result }
{
    let parts = [
        ScriptPart::At(i64::MIN),
        ScriptPart::Users(image),
        ScriptPart::Tables(image),
        ScriptPart::Placed(order),
        ScriptPart::Settings(image),
        ScriptPart::At(image.clock),
        ScriptPart::Last,
    ];
    put_each(output, &parts, &ScriptParts)
}

struct ScriptParts;

impl<'a> PutItem<ScriptPart<'a>> for ScriptParts {
    ghost use Rattle.tab_export.specs.Parts.{script_part};

    ghost text = { λ _ part. script_part part };

    fn put_item<W: Output>(&self, output: &mut W, part: &ScriptPart<'a>) -> Result<(), WriteFault> {
        put_part(output, part)
    }
}

fn put_part<W: Output>(output: &mut W, part: &ScriptPart<'_>) -> Result<(), WriteFault>
    ensures { Puts W.Output output.old output.new (script_part part.now) result }
{
    match *part {
        ScriptPart::At(moment) => put_at(output, moment),
        ScriptPart::Users(image) => put_made_users(output, image),
        ScriptPart::Tables(image) => put_made_tables(output, image),
        ScriptPart::Placed(order) => put_each(output, order, &InPlace),
        ScriptPart::Settings(image) => put_settings(output, image),
        ScriptPart::Last => put_last(output),
    }
}

fn put_made_users<W: Output>(output: &mut W, image: &Image) -> Result<(), WriteFault>
    ensures { Puts W.Output output.old output.new (flat_map (user_text script user_parts) image.now.users) result }
{
    let parts = [UserPart::Created, UserPart::Authorized, UserPart::Granted];
    put_users(output, image.users.as_slice(), &parts, &Script)
}

fn put_made_tables<W: Output>(output: &mut W, image: &Image) -> Result<(), WriteFault>
    ensures { Puts W.Output output.old output.new (flat_map (table_text script table_parts) image.now.tables) result }
{
    let parts = [TablePart::Created, TablePart::Split, TablePart::Filled];
    put_tables(output, image.tables.as_slice(), &parts, &Script)
}

fn put_settings<W: Output>(output: &mut W, image: &Image) -> Result<(), WriteFault>
    ensures { Puts W.Output output.old output.new (flat_map (table_text script setting_parts) image.now.tables) result }
{
    let parts = [
        TablePart::Constrained,
        TablePart::Bounded,
        TablePart::Unheld,
        TablePart::Held(ToldRights::Changed),
    ];
    put_tables(output, image.tables.as_slice(), &parts, &Script)
}

fn put_last<W: Output>(output: &mut W) -> Result<(), WriteFault>
    ensures { Puts W.Output output.old output.new (act_text Rotate) result }
{
    put_line(output, b"rotate", &[])
}
