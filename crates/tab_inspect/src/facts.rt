//! The fact for each thing that an image says.
#![tactic(auto, using(tab_io::proofs::Putting::putting))]

ghost use Rattle.std.specs.Prelude.{◌≡◌, [], ◌∷◌, codes, length};
ghost use Rattle.std.specs.Fmt.{decimal};
ghost use Rattle.tab_io.specs.Writing.{Puts};
ghost use Rattle.tab_policy.specs.Permissions.{table_name};
ghost use Rattle.tab_text.specs.Words.{word};
ghost use Rattle.tab_text.specs.Lines.{line_text};
ghost use Rattle.tab_lines.specs.Forms.{time_name};
ghost use Rattle.tab_inspect.specs.Facts.{tally_fact, tally_of};

use crate::tally::RecordCounts;
use tab_audit::{Piece, put_line};
use tab_history::TimeMode;
use tab_image::{ImageTable, ImageUser, TableHead};
use tab_io::{Output, WriteFault};
use tab_key::Name;
use tab_policy::{SystemPermission, TablePermission};
use tab_walk::Visitor;

/// Each thing as a line that tells it.
pub(crate) struct Facts;

impl Visitor for Facts {
    ghost use Rattle.tab_inspect.specs.Facts.{facts};

    ghost texts = { λ _. facts };

    fn put_user<W: Output>(&self, output: &mut W, name: &Name) -> Result<(), WriteFault> {
        put_line(output, b"user", &[Piece::Bytes(name.as_bytes())])
    }

    fn put_authorizations<W: Output>(
        &self,
        output: &mut W,
        user: &ImageUser,
    ) -> Result<(), WriteFault> {
        put_line(
            output,
            b"user",
            &[
                Piece::Bytes(user.name.as_bytes()),
                Piece::Text(b"authorizations"),
                Piece::Terms(&user.authorizations),
            ],
        )
    }

    fn put_system<W: Output>(
        &self,
        output: &mut W,
        name: &Name,
        permission: &SystemPermission,
    ) -> Result<(), WriteFault> {
        put_line(
            output,
            b"user",
            &[
                Piece::Bytes(name.as_bytes()),
                Piece::Text(b"system"),
                Piece::Text(permission.name()),
            ],
        )
    }

    fn put_table<W: Output>(&self, output: &mut W, head: &TableHead) -> Result<(), WriteFault> {
        put_line(
            output,
            b"table",
            &[
                Piece::Bytes(head.name.as_bytes()),
                Piece::Text(time_word(head.time)),
                Piece::Versions(head.versions.get()),
            ],
        )
    }

    fn put_constraints<W: Output>(
        &self,
        output: &mut W,
        head: &TableHead,
    ) -> Result<(), WriteFault> {
        put_line(
            output,
            b"table",
            &[
                Piece::Bytes(head.name.as_bytes()),
                Piece::Text(b"constraints"),
                Piece::Constraints(&head.constraints),
            ],
        )
    }

    fn put_horizon<W: Output>(
        &self,
        output: &mut W,
        table: &Name,
        horizon: i64,
    ) -> Result<(), WriteFault> {
        put_line(
            output,
            b"table",
            &[
                Piece::Bytes(table.as_bytes()),
                Piece::Text(b"horizon"),
                Piece::Signed(horizon),
            ],
        )
    }

    fn put_split<'a, W: Output>(
        &self,
        output: &mut W,
        table: &'a Name,
        row: &'a [u8],
    ) -> Result<(), WriteFault> {
        put_line(
            output,
            b"table",
            &[
                Piece::Bytes(table.as_bytes()),
                Piece::Text(b"split"),
                Piece::Bytes(row),
            ],
        )
    }

    fn put_right<'a, W: Output>(
        &self,
        output: &mut W,
        table: &'a Name,
        user: &'a [u8],
        permission: &TablePermission,
        is_held: bool,
    ) -> Result<(), WriteFault> {
        if is_held {
            put_held(output, table, user, permission)
        } else {
            output.put(b"")
        }
    }

    fn put_records<W: Output>(&self, output: &mut W, table: &ImageTable) -> Result<(), WriteFault> {
        put_tally(output, table)
    }
}

fn time_word(time: TimeMode) -> &'static [u8]
    ensures { result.now ≡ time_name time }
{
    match time {
        TimeMode::Any => b"time=any",
        TimeMode::Server => b"time=server",
    }
}

fn put_held<'a, W: Output>(
    output: &mut W,
    table: &'a Name,
    user: &'a [u8],
    permission: &TablePermission,
) -> Result<(), WriteFault>
    ensures { Puts W.Output output.old output.new (line_text (codes "table" ∷ word table.now ∷ codes "right" ∷ word user.now ∷ table_name permission.now ∷ [])) result }
{
    put_line(
        output,
        b"table",
        &[
            Piece::Bytes(table.as_bytes()),
            Piece::Text(b"right"),
            Piece::Bytes(user),
            Piece::Text(permission.name()),
        ],
    )
}

fn put_tally<W: Output>(output: &mut W, table: &ImageTable) -> Result<(), WriteFault>
    ensures { Puts W.Output output.old output.new (tally_fact table.now.head.name (length table.now.records) (tally_of table.now.records)) result }
{
    let many = table.records.len() as u64;
    put_counts(
        output,
        &table.head.name,
        many,
        RecordCounts::of(&table.records),
    )
}

fn put_counts<W: Output>(
    output: &mut W,
    name: &Name,
    many: u64,
    tally: RecordCounts,
) -> Result<(), WriteFault>
    ensures { Puts W.Output output.old output.new (tally_fact name.now many tally) result }
{
    put_line(
        output,
        b"table",
        &[
            Piece::Bytes(name.as_bytes()),
            Piece::Text(b"records"),
            Piece::Number(many),
            Piece::Text(b"puts"),
            Piece::Number(tally.puts),
            Piece::Text(b"deletes"),
            Piece::Number(tally.deletes),
            Piece::Text(b"key-bytes"),
            Piece::Number(tally.key_bytes),
            Piece::Text(b"value-bytes"),
            Piece::Number(tally.value_bytes),
        ],
    )
}
