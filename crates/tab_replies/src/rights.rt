//! The text of one's own rights.
#![tactic(auto, using(tab_io::proofs::Putting::putting))]

ghost use Rattle.std.specs.Prelude.{◌++◌, [], ◌∷◌, codes};
ghost use Rattle.std.specs.List.{flat_map};
ghost use Rattle.tab_io.specs.Writing.{Puts};
ghost use Rattle.tab_replies.specs.Texts.{auth_text, held_word, system_text, table_text, rights_text};

use tab_history::Rights;
use tab_io::{Output, WriteFault, put_byte};
use tab_label::AuthSet;
use tab_policy::{SystemPermission, SystemPermissions, TablePermission, TablePermissions};
use tab_text::{PutItem, Word, put_each, put_line};

/// What a user may do and holds: his system permissions, those on the table, his authorizations, and an end.
pub fn put_rights<W: Output>(output: &mut W, rights: &Rights) -> Result<(), WriteFault>
    ensures { Puts W.Output output.old output.new (rights_text rights.now) result }
{
    put_system(output, rights.system)?;
    put_behind_system(output, rights)
}

fn put_behind_system<W: Output>(output: &mut W, rights: &Rights) -> Result<(), WriteFault>
    ensures { Puts W.Output output.old output.new (table_text rights.now.table ++ (flat_map auth_text rights.now.authorizations ++ codes "end\n")) result }
{
    put_table(output, rights.table)?;
    put_behind_table(output, &rights.authorizations)
}

fn put_behind_table<W: Output>(output: &mut W, auths: &AuthSet) -> Result<(), WriteFault>
    ensures { Puts W.Output output.old output.new (flat_map auth_text auths.now ++ codes "end\n") result }
{
    put_auths(output, auths)?;
    output.put(b"end\n")
}

// `system` and the permissions of the set in their order.
fn put_system<W: Output>(output: &mut W, held: SystemPermissions) -> Result<(), WriteFault>
    ensures { Puts W.Output output.old output.new (system_text held) result }
{
    put_held(output, b"system", &SystemPermission::ALL, &HeldSystem(held))
}

// `table` and the permissions of the set in their order.
fn put_table<W: Output>(output: &mut W, held: TablePermissions) -> Result<(), WriteFault>
    ensures { Puts W.Output output.old output.new (table_text held) result }
{
    put_held(output, b"table", &TablePermission::ALL, &HeldTable(held))
}

// A line of its kind and of what is held among all.
fn put_held<T, P: PutItem<T>, W: Output>(
    output: &mut W,
    kind: &[u8],
    all: &[T],
    held: &P,
) -> Result<(), WriteFault>
    ensures { Puts W.Output output.old output.new (kind.now ++ (flat_map (P.text held.now) all.now ++ 10 ∷ [])) result }
{
    output.put(kind)?;
    put_end_of_held(output, all, held)
}

fn put_end_of_held<T, P: PutItem<T>, W: Output>(
    output: &mut W,
    all: &[T],
    held: &P,
) -> Result<(), WriteFault>
    ensures { Puts W.Output output.old output.new (flat_map (P.text held.now) all.now ++ 10 ∷ []) result }
{
    put_each(output, all, held)?;
    put_byte(output, b'\n')
}

// A system permission's name behind a space, where it is a member.
#[derive(Clone, Copy)]
struct HeldSystem(SystemPermissions);

impl PutItem<SystemPermission> for HeldSystem {
    ghost use Rattle.tab_policy.specs.Sets.{system_contains};
    ghost use Rattle.tab_policy.specs.Permissions.{system_name};
    ghost use Rattle.tab_replies.specs.Texts.{held_word};

    ghost text = { λ held permission. held_word (system_contains held.0 permission) (system_name permission) };

    fn put_item<W: Output>(
        &self,
        output: &mut W,
        permission: &SystemPermission,
    ) -> Result<(), WriteFault> {
        put_if(output, self.0.contains(*permission), permission.name())
    }
}

// A table permission's name behind a space, where it is a member.
#[derive(Clone, Copy)]
struct HeldTable(TablePermissions);

impl PutItem<TablePermission> for HeldTable {
    ghost use Rattle.tab_policy.specs.Sets.{table_contains};
    ghost use Rattle.tab_policy.specs.Permissions.{table_name};
    ghost use Rattle.tab_replies.specs.Texts.{held_word};

    ghost text = { λ held permission. held_word (table_contains held.0 permission) (table_name permission) };

    fn put_item<W: Output>(
        &self,
        output: &mut W,
        permission: &TablePermission,
    ) -> Result<(), WriteFault> {
        put_if(output, self.0.contains(*permission), permission.name())
    }
}

// The name behind a space, where the permission is held.
fn put_if<W: Output>(output: &mut W, held: bool, name: &[u8]) -> Result<(), WriteFault>
    ensures { Puts W.Output output.old output.new (held_word held name.now) result }
{
    if held {
        put_after_space(output, name)
    } else {
        output.put(b"")
    }
}

fn put_after_space<W: Output>(output: &mut W, name: &[u8]) -> Result<(), WriteFault>
    ensures { Puts W.Output output.old output.new (32 ∷ name.now) result }
{
    put_byte(output, b' ')?;
    output.put(name)
}

// The authorizations, each on a line.
fn put_auths<W: Output>(output: &mut W, auths: &AuthSet) -> Result<(), WriteFault>
    ensures { Puts W.Output output.old output.new (flat_map auth_text auths.now) result }
{
    put_each(output, auths.terms(), &AuthLine)
}

struct AuthLine;

impl PutItem<Vec<u8>> for AuthLine {
    ghost use Rattle.tab_replies.specs.Texts.{auth_text};

    ghost text = { λ _ term. auth_text term.items };

    fn put_item<W: Output>(&self, output: &mut W, term: &Vec<u8>) -> Result<(), WriteFault> {
        put_auth(output, term.as_slice())
    }
}

fn put_auth<W: Output>(output: &mut W, term: &[u8]) -> Result<(), WriteFault>
    ensures { Puts W.Output output.old output.new (auth_text term.now) result }
{
    put_line(output, &[Word::Text(b"auth"), Word::Bytes(term)])
}
