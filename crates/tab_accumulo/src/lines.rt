//! The lines for each thing that an image says.
#![tactic(auto, using(tab_io::proofs::Putting::putting))]

ghost use Rattle.tab_io.specs.Writing.{Puts};
ghost use Rattle.tab_accumulo.specs.Lines.{permission_text};

use crate::authorizations::put_authorized;
use crate::carried::is_table_name;
use crate::constraints::put_each_constraint;
use crate::making::put_new;
use crate::obstacle::{Obstacle, in_table, name_obstacle, user_obstacle};
use crate::records::Written;
use crate::telling::put_told;
use crate::word::ShellWord;
use tab_image::{ImageTable, ImageUser, TableHead};
use tab_io::{Output, WriteFault};
use tab_key::Name;
use tab_policy::{SystemPermission, TablePermission};
use tab_walk::{Visitor, put_last_first};

/// Each thing as lines that make it.
pub(crate) struct Shell;

impl Visitor for Shell {
    ghost use Rattle.tab_accumulo.specs.Lines.{shell};

    ghost texts = { λ _. shell };

    fn put_user<W: Output>(&self, output: &mut W, name: &Name) -> Result<(), WriteFault> {
        put_told(
            output,
            name_obstacle(name.as_bytes()),
            b"createuser",
            &[ShellWord::Text(name.as_bytes())],
        )
    }

    fn put_authorizations<W: Output>(
        &self,
        output: &mut W,
        user: &ImageUser,
    ) -> Result<(), WriteFault> {
        put_authorized(output, user)
    }

    fn put_system<W: Output>(
        &self,
        output: &mut W,
        name: &Name,
        permission: &SystemPermission,
    ) -> Result<(), WriteFault> {
        put_told(
            output,
            user_obstacle(name.as_bytes()),
            b"grant",
            &[
                ShellWord::Qualified(b"System", permission.name()),
                ShellWord::Text(b"-s"),
                ShellWord::Text(b"-u"),
                ShellWord::Text(name.as_bytes()),
            ],
        )
    }

    fn put_table<W: Output>(&self, output: &mut W, head: &TableHead) -> Result<(), WriteFault> {
        put_new(output, head)
    }

    fn put_constraints<W: Output>(
        &self,
        output: &mut W,
        head: &TableHead,
    ) -> Result<(), WriteFault> {
        put_each_constraint(output, head)
    }

    fn put_horizon<W: Output>(
        &self,
        output: &mut W,
        table: &Name,
        horizon: i64,
    ) -> Result<(), WriteFault> {
        put_told(
            output,
            in_table(is_table_name(table.as_bytes()), Some(Obstacle::Setting)),
            b"horizon",
            &[ShellWord::Signed(horizon)],
        )
    }

    fn put_split<'a, W: Output>(
        &self,
        output: &mut W,
        table: &'a Name,
        row: &'a [u8],
    ) -> Result<(), WriteFault> {
        put_told(
            output,
            in_table(is_table_name(table.as_bytes()), None),
            b"addsplits",
            &[ShellWord::Text(b"--"), ShellWord::Quoted(row)],
        )
    }

    fn put_right<'a, W: Output>(
        &self,
        output: &mut W,
        table: &'a Name,
        user: &'a [u8],
        permission: &TablePermission,
        is_held: bool,
    ) -> Result<(), WriteFault> {
        if is_held {
            put_permission(output, b"grant", table, user, permission)
        } else {
            put_permission(output, b"revoke", table, user, permission)
        }
    }

    fn put_records<W: Output>(&self, output: &mut W, table: &ImageTable) -> Result<(), WriteFault> {
        let is_made = is_table_name(table.head.name.as_bytes());
        put_last_first(output, &table.records, &Written { is_made })
    }
}

// A command, a permission on the table and a user.
fn put_permission<'a, W: Output>(
    output: &mut W,
    command: &[u8],
    table: &'a Name,
    user: &'a [u8],
    permission: &TablePermission,
) -> Result<(), WriteFault>
    ensures { Puts W.Output output.old output.new (permission_text command.now table.now user.now permission.now) result }
{
    let is_made = is_table_name(table.as_bytes());
    put_told(
        output,
        in_table(is_made, user_obstacle(user)),
        command,
        &[
            ShellWord::Qualified(b"Table", permission.name()),
            ShellWord::Text(b"-u"),
            ShellWord::Text(user),
        ],
    )
}
