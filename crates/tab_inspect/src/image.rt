//! What is shown of an image.
#![tactic(auto, using(tab_io::proofs::Putting::putting))]

ghost use Rattle.std.specs.Prelude.{[], ◌∷◌, codes};
ghost use Rattle.std.specs.List.{flat_map};
ghost use Rattle.std.specs.Fmt.{decimal, signed_decimal};
ghost use Rattle.tab_io.specs.Writing.{Puts};
ghost use Rattle.tab_text.specs.Lines.{line_text};
ghost use Rattle.tab_walk.specs.Walks.{user_text, table_text};
ghost use Rattle.tab_inspect.specs.Facts.{facts, user_parts, table_parts, image_facts};
ghost use Rattle.tab_inspect.specs.Parts.{image_part};

use crate::facts::Facts;
use tab_audit::{Piece, put_line};
use tab_image::Image;
use tab_io::{Output, WriteFault};
use tab_text::{PutItem, put_each};
use tab_walk::{TablePart, ToldRights, UserPart, put_tables, put_users};

/// What is shown of an image.
#[derive(Clone, Copy)]
pub(crate) enum ImagePart<'a> {
    /// Its clock.
    Clock(&'a Image),
    /// The number that its next mutation gets.
    Next(&'a Image),
    /// How many users there are.
    UserCount(&'a Image),
    /// Each of them.
    Users(&'a Image),
    /// How many tables there are.
    TableCount(&'a Image),
    /// Each of them.
    Tables(&'a Image),
}

/// Puts what the image says, one fact a line, as `specs/Facts` says: its clock, the number of its next mutation, and what each user and each
/// table is and holds. Records are counted, not shown.
///
/// It takes no memory, and time for each record. It fails where the output does; then it has put a beginning of the lines.
#[tactic(auto, using(tab_io::proofs::Putting::putting), unfolding(crate::specs::Facts::image_facts))]
pub fn put_facts<W: Output>(output: &mut W, image: &Image) -> Result<(), WriteFault>
    ensures { Puts W.Output output.old output.new (image_facts image.now) result }
{
    let parts = [
        ImagePart::Clock(image),
        ImagePart::Next(image),
        ImagePart::UserCount(image),
        ImagePart::Users(image),
        ImagePart::TableCount(image),
        ImagePart::Tables(image),
    ];
    put_each(output, &parts, &ImageParts)
}

struct ImageParts;

impl<'a> PutItem<ImagePart<'a>> for ImageParts {
    ghost use Rattle.tab_inspect.specs.Parts.{image_part};

    ghost text = { λ _ part. image_part part };

    fn put_item<W: Output>(&self, output: &mut W, part: &ImagePart<'a>) -> Result<(), WriteFault> {
        put_part(output, part)
    }
}

fn put_part<W: Output>(output: &mut W, part: &ImagePart<'_>) -> Result<(), WriteFault>
    ensures { Puts W.Output output.old output.new (image_part part.now) result }
{
    match *part {
        ImagePart::Clock(image) => put_clock(output, image.clock),
        ImagePart::Next(image) => put_count(output, b"next", image.next),
        ImagePart::UserCount(image) => put_count(output, b"users", image.users.len() as u64),
        ImagePart::Users(image) => put_each_user(output, image),
        ImagePart::TableCount(image) => put_count(output, b"tables", image.tables.len() as u64),
        ImagePart::Tables(image) => put_each_table(output, image),
    }
}

fn put_clock<W: Output>(output: &mut W, clock: i64) -> Result<(), WriteFault>
    ensures { Puts W.Output output.old output.new (line_text (codes "clock" ∷ signed_decimal clock ∷ [])) result }
{
    put_line(output, b"clock", &[Piece::Signed(clock)])
}

fn put_count<W: Output>(output: &mut W, what: &[u8], count: u64) -> Result<(), WriteFault>
    ensures { Puts W.Output output.old output.new (line_text (what.now ∷ decimal count ∷ [])) result }
{
    put_line(output, what, &[Piece::Number(count)])
}

fn put_each_user<W: Output>(output: &mut W, image: &Image) -> Result<(), WriteFault>
    ensures { Puts W.Output output.old output.new (flat_map (user_text facts user_parts) image.now.users) result }
{
    let parts = [UserPart::Named, UserPart::System, UserPart::Authorized];
    put_users(output, image.users.as_slice(), &parts, &Facts)
}

fn put_each_table<W: Output>(output: &mut W, image: &Image) -> Result<(), WriteFault>
    ensures { Puts W.Output output.old output.new (flat_map (table_text facts table_parts) image.now.tables) result }
{
    let parts = [
        TablePart::Created,
        TablePart::Constrained,
        TablePart::Bounded,
        TablePart::Held(ToldRights::All),
        TablePart::Split,
        TablePart::Filled,
    ];
    put_tables(output, image.tables.as_slice(), &parts, &Facts)
}
