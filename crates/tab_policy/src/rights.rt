//! What is kept of a table.
ghost use Rattle.std.specs.Prelude.{◌≡◌, ◌++◌, ℕ, List, IfOk, OnOk, OnErr, None, Some, is_some, true, false, bytes_eq, ◌&&◌, if◌then◌else◌};
ghost use Rattle.std.specs.Option.{option_to_list};
ghost use Rattle.std.specs.List.{IsDistinct};
ghost use Rattle.std.specs.Map.{keys_of};
ghost use Rattle.tab_policy.specs.Entries.{at_name, at_life, same_life};
ghost use Rattle.tab_policy.specs.Sets.{table_contains};
ghost use Rattle.tab_policy.specs.Permissions.{same_table};
ghost use Rattle.tab_policy.specs.State.{some_contains, table_gives};
ghost use Rattle.tab_policy.specs.Lives.{is_life, is_among, name_among, Weeds};
ghost use Rattle.tab_policy.specs.Holders.{holders_in};

use crate::entries::{put_at, replace_at, take_away_at};
use crate::holder::Holder;
use crate::lives::Lives;
use crate::name_key::NameKey;
use crate::permission::TablePermission;
use crate::sets::TablePermissions;
use std::alloc::{AllocError, Global};
use std::collections::BTreeMap;
use std::marker::Model;
use tab_key::Name;

// With so many rights of others a table doesn't look for those of ended lives.
const FEW: usize = 15;

// The rights on one table, by the lives of those who have them. Rights of lives that ended may be among them: nobody reads them.
pub struct TableRights {
    // The life of the table's creator, and his rights.
    maker: u64,
    own: TablePermissions,
    others: BTreeMap<u64, TablePermissions>,
    // With more rights of others than this, those of ended lives are taken away.
    room: usize,
}

// Written out, so that a crate above needn't prove anew how the parts are dropped.
impl Drop for TableRights {
    #[inline(always)]
    fn drop(self) {
        let TableRights {
            maker: _,
            own: _,
            others: _,
            room: _,
        } = self;
    }
}

impl Model for TableRights {
    ghost use Rattle.std.specs.Prelude.{ℕ, List, ◌∷◌, ◌≡◌, None};
    ghost use Rattle.tab_policy.specs.declared.sets.TablePermissions.{TablePermissions};
    ghost use Rattle.tab_policy.specs.Entries.{at_life};

    ghost Value = { List (ℕ × TablePermissions) };

    ghost view = { λ r. (r.maker, r.own) ∷ r.others.entries };

    ghost invariant = { λ r. at_life r.maker r.others.entries ≡ None };
}

impl TableRights {
    // All rights for whoever is in the creator's life, and none for others; for nobody where there is no such life. It takes no memory.
    pub fn new(alloc: Global, creator: Option<u64>) -> TableRights
        ensures { (l : ℕ) (p : _) → some_contains (at_life l result) p ≡ is_life creator l }
    {
        let (maker, own) = match creator {
            Some(life) => (life, TablePermissions::all()),
            None => (0, TablePermissions::none()),
        };
        TableRights {
            maker,
            own,
            others: BTreeMap::new(alloc),
            room: FEW,
        }
    }

    // The rights of whoever is in the life.
    pub fn of(&self, life: u64) -> TablePermissions
        ensures { (p : _) → table_contains result p ≡ some_contains (at_life life self.now) p }
    {
        if life == self.maker {
            return self.own;
        }
        match self.others.get(&life) {
            Some(rights) => *rights,
            None => TablePermissions::none(),
        }
    }

    // Gives the permission to whoever is in the life. Rights of ended lives may go. An error leaves the rights as they were.
    pub fn give(
        &mut self,
        life: u64,
        permission: TablePermission,
        lives: &Lives,
    ) -> Result<(), AllocError>
        ensures living { OnOk result ((l : ℕ) (p : _) → is_among lives.now.living.entries l ≡ true → some_contains (at_life l self.new) p ≡ (if same_life life l && same_table permission p then true else some_contains (at_life l self.old) p)) }
        ensures bare { (l : ℕ) (p : _) → same_life life l ≡ false → some_contains (at_life l self.old) p ≡ false → some_contains (at_life l self.new) p ≡ false }
        ensures err { OnErr result (self.new ≡ self.old) }
    {
        let given = self.of(life).with(permission);
        if life == self.maker {
            self.own = given;
            return Ok(());
        }
        put_at(&mut self.others, life, given)?;
        self.weed(lives);
        Ok(())
    }

    // Takes the permission from whoever is in the life.
    pub fn take(&mut self, life: u64, permission: TablePermission)
        ensures { (l : ℕ) (p : _) → some_contains (at_life l self.new) p ≡ (if same_life life l && same_table permission p then false else some_contains (at_life l self.old) p) }
    {
        let left = self.of(life).without(permission);
        if life == self.maker {
            self.own = left;
        } else if left.is_empty() {
            take_away_at(&mut self.others, life);
        } else {
            replace_at(&mut self.others, life, left);
        }
    }

    // All users who are living and have a permission, in no order that counts.
    pub fn holders(&self, alloc: Global, lives: &Lives) -> Result<Vec<Holder>, AllocError>
        ensures all { IfOk result (λ holders. holders.items ≡ holders_in (name_among lives.now.living.entries) self.now) }
        ensures apart { OnOk result (IsDistinct same_life (keys_of self.now)) }
    {
        let mut holders = Vec::new(alloc);
        add(&mut holders, Holder::new(self.maker, self.own, lives))?;
        for (life, held) in &self.others {
            add(&mut holders, Holder::new(*life, *held, lives))?;
        }
        Ok(holders)
    }

    // Takes the rights of ended lives away, if there are many rights. Before the next time more come than were left now.
    fn weed(&mut self, lives: &Lives)
        ensures { Weeds (is_among lives.now.living.entries) self.old self.new }
    {
        if self.others.len() > self.room {
            weed(&mut self.others, lives);
            self.room = self.others.len().saturating_mul(2).saturating_add(FEW);
        }
    }
}

impl Clone for TableRights {
    ghost is_clone = { λ source copy. copy ≡ source };

    fn clone(&self) -> Result<TableRights, AllocError> {
        Ok(TableRights {
            maker: self.maker,
            own: self.own,
            others: self.others.clone()?,
            room: self.room,
        })
    }
}

// Puts him behind the others, if there is one.
fn add(holders: &mut Vec<Holder>, holder: Option<Holder>) -> Result<(), AllocError>
    ensures { OnOk result (holders.new.items ≡ holders.old.items ++ option_to_list holder) }
{
    if let Some(holder) = holder {
        holders.push(holder)?;
    }
    Ok(())
}

// Takes the rights of ended lives away, and no others.
fn weed(others: &mut BTreeMap<u64, TablePermissions>, lives: &Lives)
    ensures weeds { Weeds (is_among lives.now.living.entries) others.old.entries others.new.entries }
    ensures none { (l : ℕ) → at_life l others.old.entries ≡ None → at_life l others.new.entries ≡ None }
{
    others.retain(|life, _| lives.is_living(*life));
}

// Gives the permission on the table to whoever is in the life, if there is such a table. An error leaves everything as it was.
pub fn give(
    tables: &mut BTreeMap<NameKey, TableRights>,
    table: &Name,
    life: u64,
    permission: TablePermission,
    lives: &Lives,
) -> Result<(), AllocError>
    ensures tables { (t : List ℕ) → is_some (at_name t tables.new.entries) ≡ is_some (at_name t tables.old.entries) }
    ensures living { OnOk result ((t : List ℕ) (l : ℕ) (p : _) → is_among lives.now.living.entries l ≡ true → table_gives (at_name t tables.new.entries) (Some l) p
        ≡ (if is_some (at_name table.now tables.old.entries) && (same_life life l && (same_table permission p && bytes_eq table.now t)) then true else table_gives (at_name t tables.old.entries) (Some l) p)) }
    ensures bare { (t : List ℕ) (l : ℕ) (p : _) → same_life life l ≡ false → table_gives (at_name t tables.old.entries) (Some l) p ≡ false → table_gives (at_name t tables.new.entries) (Some l) p ≡ false }
    ensures err { OnErr result (tables.new.entries ≡ tables.old.entries) }
{
    match tables.get_mut(table) {
        Some(rights) => rights.give(life, permission, lives),
        None => Ok(()),
    }
}

// Takes the permission on the table from whoever is in the life.
pub fn take(
    tables: &mut BTreeMap<NameKey, TableRights>,
    table: &Name,
    life: u64,
    permission: TablePermission,
)
    ensures tables { (t : List ℕ) → is_some (at_name t tables.new.entries) ≡ is_some (at_name t tables.old.entries) }
    ensures rights { (t : List ℕ) (l : ℕ) (p : _) → table_gives (at_name t tables.new.entries) (Some l) p ≡ (if same_life life l && (same_table permission p && bytes_eq table.now t) then false else table_gives (at_name t tables.old.entries) (Some l) p) }
{
    if let Some(rights) = tables.get_mut(table) {
        rights.take(life, permission);
    }
}
