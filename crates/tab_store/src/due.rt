//! Work that is due, and where it is to be done.
ghost use Rattle.std.specs.Prelude.{◌≡◌, ◌<◌, ◌≤◌, ◌+◌, [], ◌==◌, ◌∷◌, ◌++◌, ℕ, List, length, IfOk, OnOk};
ghost use Rattle.std.specs.List.{list_any};
ghost use Rattle.std.specs.Option.{option_or};
ghost use Rattle.tab_tablets.specs.Places.{tablet_at};
ghost use Rattle.tab_store.specs.Due.{all_due, due_among, due_as, due_in, due_listed, listed_on, target_at, target_of};
ghost use Rattle.tab_store.specs.declared.due.Due.{Due as Work};
ghost use Rattle.tab_store.specs.Tables.{named_table};

use crate::{Table, Tables};
use std::alloc::{AllocError, Global};
use tab_iter::NoMemory;
use tab_key::{ByteString, Name};
use tab_policy::NameKey;
use tab_tablets::{DueKind, Tablets};

/// Work that is due on a tablet. (Accumulo user manual: minor and major compactions, tablets)
#[derive(Clone, Copy, Debug, PartialEq, Eq)]
pub struct Due {
    /// What is to be done.
    pub kind: DueKind,
    /// The tablet's number.
    pub tablet: u64,
}

impl Tables {
    /// The first work that is due: all minor compactions before partial ones before splits, tables by name, tablets by their end rows. It
    /// takes no memory, and for each kind time linear in the tablets and their sources.
    #[tactic(auto, unfolding(crate::specs::Due::due_in))]
    pub fn due(&self) -> Option<Due>
        ensures { result ≡ due_in self.now }
    {
        match due_as(self, DueKind::Minor) {
            Some(due) => Some(due),
            None => due_later(self),
        }
    }

    /// The first works that are due, in the order in which [`due`](Tables::due) looks for one: so many at most, and at most one for each
    /// tablet, the first. It takes time linear in the tablets and their sources for each kind that it comes to, and for each work that it
    /// finds linear in those found before.
    ///
    /// It takes memory for the list. `AllocError` says that it lacked.
    pub fn due_list(&self, alloc: Global, max: usize) -> Result<Vec<Due>, AllocError>
        ensures { IfOk result (λ list. list.items ≡ due_listed max self.now) }
    {
        let mut list = Vec::new(alloc);
        list_as(self, DueKind::Minor, max, &mut list)?;
        list_as(self, DueKind::Partial, max, &mut list)?;
        list_as(self, DueKind::Split, max, &mut list)?;
        Ok(list)
    }

    /// Where work that was due is to be done: the name of the table that has its tablet, and the least row of that one. None where the
    /// tablet is gone, as after a split.
    ///
    /// It takes time linear in the tablets, and memory for the row. NoMemory says that it lacked.
    pub fn target(&self, alloc: Global, due: &Due) -> Result<Option<(Name, ByteString)>, NoMemory>
        ensures { IfOk result (λ found. found ≡ target_of due.now self.now) }
    {
        for (name, table) in self.iter() {
            match target_at(alloc, name, table, due.tablet) {
                Ok(Some(target)) => return Ok(Some(target)),
                Ok(None) => {}
                Err(fault) => return Err(fault),
            }
        }
        Ok(None)
    }
}

// The first work but minor compactions.
fn due_later(tables: &Tables) -> Option<Due>
    ensures { result ≡ option_or (due_as DueKind.Partial tables.now) (due_as DueKind.Split tables.now) }
{
    match due_as(tables, DueKind::Partial) {
        Some(due) => Some(due),
        None => due_as(tables, DueKind::Split),
    }
}

// The first work of this kind.
fn due_as(tables: &Tables, kind: DueKind) -> Option<Due>
    ensures { result ≡ due_as kind tables.now }
{
    for (_, table) in tables.iter() {
        if let Some(tablet) = table.due(kind) {
            return Some(Due { kind, tablet });
        }
    }
    None
}

// Puts the works of this kind behind those of the list, each on a tablet of its own, until there are so many.
fn list_as(
    tables: &Tables,
    kind: DueKind,
    max: usize,
    list: &mut Vec<Due>,
) -> Result<(), AllocError>
    requires { length list.old.items ≤ max }
    ensures few { OnOk result (length list.new.items ≤ max) }
    ensures listed { (rest : List Work) → OnOk result (listed_on max list.new.items rest ≡ listed_on max list.old.items (all_due kind tables.now ++ rest)) }
{
    for (_, table) in tables.iter() {
        list_among(table.tablets(), kind, max, list)?;
    }
    Ok(())
}

// `list_as` of the tablets of one table.
fn list_among(
    tablets: &Tablets,
    kind: DueKind,
    max: usize,
    list: &mut Vec<Due>,
) -> Result<(), AllocError>
    requires { length list.old.items ≤ max }
    ensures few { OnOk result (length list.new.items ≤ max) }
    ensures listed { (rest : List Work) → OnOk result (listed_on max list.new.items rest ≡ listed_on max list.old.items (due_among kind tablets.now ++ rest)) }
{
    for place in 0..tablets.places() {
        list_at(tablets, kind, place, max, list)?;
    }
    Ok(())
}

// `list_as` of the tablet at a place.
fn list_at(
    tablets: &Tablets,
    kind: DueKind,
    place: usize,
    max: usize,
    list: &mut Vec<Due>,
) -> Result<(), AllocError>
    requires inside { place < length tablets.now }
    requires few { length list.old.items ≤ max }
    ensures few { OnOk result (length list.new.items ≤ max) }
    ensures listed { (rest : List Work) → OnOk result (listed_on max list.new.items rest ≡ listed_on max list.old.items (due_among kind (tablet_at tablets.now place ∷ []) ++ rest)) }
{
    if list.len() == max {
        return Ok(());
    }
    match tablets.due_at(kind, place) {
        Some(tablet) => add(list, Due { kind, tablet }),
        None => Ok(()),
    }
}

// Puts the work behind the others, unless one of them is on its tablet.
fn add(list: &mut Vec<Due>, work: Due) -> Result<(), AllocError>
    ensures few { OnOk result (length list.new.items ≤ length list.old.items + 1) }
    ensures listed { (max : ℕ) (rest : List Work) → OnOk result (listed_on max list.new.items rest ≡ listed_on max list.old.items (work ∷ rest)) }
{
    if has_on(list, work.tablet) {
        return Ok(());
    }
    list.push(work)?;
    Ok(())
}

// Whether one of these works is on the tablet with this number.
fn has_on(list: &[Due], tablet: u64) -> bool
    ensures { result ≡ list_any (λ e. e.tablet == tablet) list.now }
{
    list.iter().any(|work| work.tablet == tablet)
}

// The name of the table, and the least row of its tablet with this number, if it has one.
fn target_at(
    alloc: Global,
    name: &NameKey,
    table: &Table,
    number: u64,
) -> Result<Option<(Name, ByteString)>, NoMemory>
    ensures { IfOk result (λ found. found ≡ target_at number (named_table (name.now, table.now))) }
{
    match table.start_of(alloc, number)? {
        Some(row) => Ok(Some((name.to_name(), row))),
        None => Ok(None),
    }
}
