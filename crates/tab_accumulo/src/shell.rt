//! The whole.
#![tactic(auto, using(tab_io::proofs::Putting::putting))]

ghost use Rattle.std.specs.List.{flat_map};
ghost use Rattle.tab_io.specs.Writing.{Puts};
ghost use Rattle.tab_walk.specs.Walks.{user_text, table_text};
ghost use Rattle.tab_accumulo.specs.Lines.{shell, user_parts, table_parts, shell_text};

use crate::lines::Shell;
use tab_image::Image;
use tab_io::{Output, WriteFault};
use tab_walk::{TablePart, ToldRights, UserPart, put_tables, put_users};

/// Puts lines of Accumulo's shell that make what the image says, as far as there is the like: `specs/Lines` says which. What isn't carried
/// over exactly is a comment; `left_out` says how many things are.
///
/// It takes no memory, and fails where the output does; then it has put a beginning of the lines.
#[tactic(auto, using(tab_io::proofs::Putting::putting), unfolding(crate::specs::Lines::shell_text))]
pub fn put_shell_lines<W: Output>(output: &mut W, image: &Image) -> Result<(), WriteFault>
    ensures { Puts W.Output output.old output.new (shell_text image.now) result }
{
    put_made_users(output, image)?;
    put_made_tables(output, image)
}

fn put_made_users<W: Output>(output: &mut W, image: &Image) -> Result<(), WriteFault>
    ensures { Puts W.Output output.old output.new (flat_map (user_text shell user_parts) image.now.users) result }
{
    let parts = [UserPart::Created, UserPart::Authorized, UserPart::Granted];
    put_users(output, image.users.as_slice(), &parts, &Shell)
}

fn put_made_tables<W: Output>(output: &mut W, image: &Image) -> Result<(), WriteFault>
    ensures { Puts W.Output output.old output.new (flat_map (table_text shell table_parts) image.now.tables) result }
{
    let parts = [
        TablePart::Created,
        TablePart::Split,
        TablePart::Filled,
        TablePart::Constrained,
        TablePart::Bounded,
        TablePart::Unheld,
        TablePart::Held(ToldRights::Changed),
    ];
    put_tables(output, image.tables.as_slice(), &parts, &Shell)
}
