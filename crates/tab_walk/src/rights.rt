//! The permissions on a table.
#![tactic(auto, using(tab_io::proofs::Putting::putting))]

ghost use Rattle.std.specs.Prelude.{◌≡◌, bytes_eq};
ghost use Rattle.std.specs.List.{flat_map, list_any};
ghost use Rattle.tab_io.specs.Writing.{Puts};
ghost use Rattle.tab_policy.specs.Roots.{root};
ghost use Rattle.tab_walk.specs.Walks.{right_text, rights_text, unheld_text};

use crate::visitor::Visitor;
use tab_image::{ImageRight, TableHead};
use tab_io::{Output, WriteFault};
use tab_key::Name;
use tab_policy::{TablePermission, is_root};
use tab_text::{PutItem, put_each};

/// Which permissions of those that hold one are told.
#[derive(Clone, Copy, Debug, PartialEq, Eq)]
pub enum ToldRights {
    /// All, and whether they are held.
    All,
    /// Those that root, who made the table, doesn't hold, and those that another one holds.
    Changed,
}

/// Puts all permissions on the table as such that root doesn't hold, where he holds none.
pub(crate) fn put_unheld<V: Visitor, W: Output>(
    output: &mut W,
    head: &TableHead,
    visitor: &V,
) -> Result<(), WriteFault>
    ensures { Puts W.Output output.old output.new (unheld_text (V.texts visitor.now) head.now) result }
{
    if has_root(head.rights.as_slice()) {
        return output.put(b"");
    }
    put_each(
        output,
        &TablePermission::ALL,
        &Rights {
            table: &head.name,
            told: ToldRights::Changed,
            visitor,
        },
    )
}

fn has_root(rights: &[ImageRight]) -> bool
    ensures { result ≡ list_any (λ r. bytes_eq r.user root) rights.now }
{
    rights.iter().any(|right| is_root(&right.user))
}

/// Puts the permissions of those that hold one on the table.
pub(crate) fn put_rights<V: Visitor, W: Output>(
    output: &mut W,
    head: &TableHead,
    told: ToldRights,
    visitor: &V,
) -> Result<(), WriteFault>
    ensures { Puts W.Output output.old output.new (flat_map (rights_text (V.texts visitor.now) told head.now.name) head.now.rights) result }
{
    put_each(
        output,
        head.rights.as_slice(),
        &Rights {
            table: &head.name,
            told,
            visitor,
        },
    )
}

// The permissions on a table.
#[derive(Drop)]
struct Rights<'a, V> {
    table: &'a Name,
    told: ToldRights,
    visitor: &'a V,
}

// One that root doesn't hold.
impl<'a, V: Visitor> PutItem<TablePermission> for Rights<'a, V> {
    ghost use Rattle.std.specs.Prelude.{false};
    ghost use Rattle.tab_policy.specs.Roots.{root};

    ghost text = { λ rights permission. (V.texts rights.visitor.now).right rights.table.now root permission false };

    fn put_item<W: Output>(
        &self,
        output: &mut W,
        permission: &TablePermission,
    ) -> Result<(), WriteFault> {
        self.visitor
            .put_right(output, self.table, b"root", permission, false)
    }
}

// Those of one user.
impl<'a, V: Visitor> PutItem<ImageRight> for Rights<'a, V> {
    ghost use Rattle.tab_walk.specs.Walks.{rights_text};

    ghost text = { λ rights right. rights_text (V.texts rights.visitor.now) rights.told rights.table.now right };

    fn put_item<W: Output>(&self, output: &mut W, right: &ImageRight) -> Result<(), WriteFault> {
        put_of_user(output, self.table, right, self.told, self.visitor)
    }
}

fn put_of_user<V: Visitor, W: Output>(
    output: &mut W,
    table: &Name,
    right: &ImageRight,
    told: ToldRights,
    visitor: &V,
) -> Result<(), WriteFault>
    ensures { Puts W.Output output.old output.new (rights_text (V.texts visitor.now) told table.now right.now) result }
{
    put_each(
        output,
        &TablePermission::ALL,
        &Right {
            table,
            right,
            told,
            visitor,
        },
    )
}

// A user's permissions on a table.
#[derive(Drop)]
struct Right<'a, V> {
    table: &'a Name,
    right: &'a ImageRight,
    told: ToldRights,
    visitor: &'a V,
}

impl<'a, V: Visitor> PutItem<TablePermission> for Right<'a, V> {
    ghost use Rattle.tab_walk.specs.Walks.{right_text};

    ghost text = { λ right permission. right_text (V.texts right.visitor.now) right.told right.table.now right.right.now permission };

    fn put_item<W: Output>(
        &self,
        output: &mut W,
        permission: &TablePermission,
    ) -> Result<(), WriteFault> {
        match self.told {
            ToldRights::All => self.put(output, permission),
            ToldRights::Changed => self.put_changed(output, permission),
        }
    }
}

impl<'a, V: Visitor> Right<'a, V> {
    ghost use Rattle.tab_walk.specs.Walks.{right_text};
    ghost use Rattle.tab_walk.specs.declared.rights.ToldRights.TheVariants.{All, Changed};

    fn put<W: Output>(&self, output: &mut W, permission: &TablePermission) -> Result<(), WriteFault>
        ensures { Puts W.Output output.old output.new (right_text (V.texts self.now.visitor.now) All self.now.table.now self.now.right.now permission.now) result }
    {
        let is_held = self.right.held.contains(*permission);
        let user = self.right.user.as_bytes();
        self.visitor
            .put_right(output, self.table, user, permission, is_held)
    }

    fn put_changed<W: Output>(
        &self,
        output: &mut W,
        permission: &TablePermission,
    ) -> Result<(), WriteFault>
        ensures { Puts W.Output output.old output.new (right_text (V.texts self.now.visitor.now) Changed self.now.table.now self.now.right.now permission.now) result }
    {
        let user = &self.right.user;
        match (is_root(user), self.right.held.contains(*permission)) {
            (true, false) => self
                .visitor
                .put_right(output, self.table, b"root", permission, false),
            (false, true) => self
                .visitor
                .put_right(output, self.table, user.as_bytes(), permission, true),
            _ => output.put(b""),
        }
    }
}
