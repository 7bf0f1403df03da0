//! The line for each thing that an image says.
#![tactic(auto, using(tab_io::proofs::Putting::putting))]

ghost use Rattle.std.specs.Prelude.{[], ◌∷◌};
ghost use Rattle.tab_io.specs.Writing.{Puts};
ghost use Rattle.tab_policy.specs.Permissions.{table_name};
ghost use Rattle.tab_text.specs.Words.{word};
ghost use Rattle.tab_text.specs.Lines.{line_text};

use crate::records::put_own;
use tab_audit::{Piece, put_act, put_line};
use tab_history::Act;
use tab_image::{ImageTable, ImageUser, TableHead};
use tab_io::{Output, WriteFault};
use tab_key::Name;
use tab_policy::{SystemPermission, TablePermission};
use tab_walk::Visitor;

/// Each thing as a line that makes it.
pub(crate) struct Script;

impl Visitor for Script {
    ghost use Rattle.tab_export.specs.Script.{script};

    ghost texts = { λ _. script };

    fn put_user<W: Output>(&self, output: &mut W, name: &Name) -> Result<(), WriteFault> {
        put_line(output, b"createuser", &[Piece::Bytes(name.as_bytes())])
    }

    fn put_authorizations<W: Output>(
        &self,
        output: &mut W,
        user: &ImageUser,
    ) -> Result<(), WriteFault> {
        put_line(
            output,
            b"setauths",
            &[
                Piece::Bytes(user.name.as_bytes()),
                Piece::Terms(&user.authorizations),
            ],
        )
    }

    fn put_system<W: Output>(
        &self,
        output: &mut W,
        name: &Name,
        permission: &SystemPermission,
    ) -> Result<(), WriteFault> {
        put_line(
            output,
            b"grant",
            &[
                Piece::Bytes(name.as_bytes()),
                Piece::Text(permission.name()),
            ],
        )
    }

    fn put_table<W: Output>(&self, output: &mut W, head: &TableHead) -> Result<(), WriteFault> {
        put_act(
            output,
            &Act::CreateTable(head.name, head.time, head.versions),
        )
    }

    fn put_constraints<W: Output>(
        &self,
        output: &mut W,
        head: &TableHead,
    ) -> Result<(), WriteFault> {
        put_line(
            output,
            b"constraints",
            &[
                Piece::Bytes(head.name.as_bytes()),
                Piece::Constraints(&head.constraints),
            ],
        )
    }

    fn put_horizon<W: Output>(
        &self,
        output: &mut W,
        table: &Name,
        horizon: i64,
    ) -> Result<(), WriteFault> {
        put_line(
            output,
            b"horizon",
            &[Piece::Bytes(table.as_bytes()), Piece::Signed(horizon)],
        )
    }

    fn put_split<'a, W: Output>(
        &self,
        output: &mut W,
        table: &'a Name,
        row: &'a [u8],
    ) -> Result<(), WriteFault> {
        put_line(
            output,
            b"addsplit",
            &[Piece::Bytes(table.as_bytes()), Piece::Bytes(row)],
        )
    }

    fn put_right<'a, W: Output>(
        &self,
        output: &mut W,
        table: &'a Name,
        user: &'a [u8],
        permission: &TablePermission,
        is_held: bool,
    ) -> Result<(), WriteFault> {
        if is_held {
            put_permission(output, b"grant", user, permission, table)
        } else {
            put_permission(output, b"revoke", user, permission, table)
        }
    }

    fn put_records<W: Output>(&self, output: &mut W, table: &ImageTable) -> Result<(), WriteFault> {
        put_own(output, table)
    }
}

// A command, a user, a permission and a table.
fn put_permission<'a, W: Output>(
    output: &mut W,
    command: &[u8],
    user: &'a [u8],
    permission: &TablePermission,
    table: &'a Name,
) -> Result<(), WriteFault>
    ensures { Puts W.Output output.old output.new (line_text (command.now ∷ word user.now ∷ table_name permission.now ∷ word table.now ∷ [])) result }
{
    put_line(
        output,
        command,
        &[
            Piece::Bytes(user),
            Piece::Text(permission.name()),
            Piece::Bytes(table.as_bytes()),
        ],
    )
}
