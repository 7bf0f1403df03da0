//! Tables by name.
ghost use Rattle.std.specs.Prelude.{◌≡◌, ◌+◌, ◌-◌, ℕ, List, [], Some, None, cond, map, length, is_some, bytes_eq, option_copied, OnOk, OnErr};
ghost use Rattle.std.specs.Option.{option_copied_mut};
ghost use Rattle.std.specs.Borrow.{sem};
ghost use Rattle.std.specs.BTreeMap.{IsOrdered};
ghost use Rattle.std.specs.Map.Iter.{ShowsInOrder, deref_pair};
ghost use Rattle.tab_key.specs.Bytes.{bytes_cmp};
ghost use Rattle.tab_store.specs.Stores.{RiseByName};
ghost use Rattle.tab_store.specs.Tables.{TableState, named_table, made_table, table_at};
ghost use Rattle.tab_store.specs.Lending.{LendsTable};

use crate::Table;
use std::alloc::{AllocError, Global};
use std::collections::BTreeMap;
use std::collections::btree_map::Iter;
use std::marker::Model;
use tab_history::{TimeMode, Versions};
use tab_key::Name;
use tab_policy::NameKey;

/// The tables that there are, in the order of their names. A contract sees them as definitions have them, with their tablets.
pub struct Tables {
    alloc: Global,
    by_name: BTreeMap<NameKey, Table>,
}

// Written out, so that a crate above needn't prove anew how the parts are dropped.
impl Drop for Tables {
    fn drop(self) {
        let Tables {
            alloc: _,
            by_name: _,
        } = self;
    }
}

impl Model for Tables {
    ghost use Rattle.std.specs.Prelude.{List, map};
    ghost use Rattle.std.specs.BTreeMap.{IsOrdered};
    ghost use Rattle.tab_key.specs.Bytes.{bytes_cmp};
    ghost use Rattle.tab_tablets.specs.ByRow.{};
    ghost use Rattle.tab_store.specs.Stores.{TableContents};
    ghost use Rattle.tab_store.specs.Tables.{named_table};

    ghost Value = { List TableContents };

    ghost view = { λ t. map named_table t.by_name.entries };

    ghost invariant = { λ t. IsOrdered bytes_cmp t.by_name };
}

/// A copy with the same tables, each copied as [`Table`] says. What is done to one of the two later doesn't change the other.
impl Clone for Tables {
    ghost is_clone = { λ source copy. copy ≡ source };

    fn clone(&self) -> Result<Tables, AllocError> {
        Ok(Tables {
            alloc: self.alloc,
            by_name: self.by_name.clone()?,
        })
    }
}

impl Tables {
    /// No table. It takes no memory.
    pub fn new(alloc: Global) -> Tables
        ensures { result ≡ [] }
    {
        Tables {
            alloc,
            by_name: BTreeMap::new(alloc),
        }
    }

    /// How many tables there are.
    pub fn len(&self) -> usize
        ensures { result ≡ length self.now }
    {
        self.by_name.len()
    }

    /// The tables in the order of their names, each with its name. None is looked up.
    pub fn iter(&self) -> Iter<'_, NameKey, Table>
        ensures tables { map named_table result ≡ self.now }
        ensures names { RiseByName self.now }
        ensures runs { ShowsInOrder (deref_pair {K = List ℕ} {X = TableState}) }
    {
        self.by_name.iter()
    }

    /// The table of this name.
    pub fn get(&self, name: &Name) -> Option<&Table>
        ensures { option_copied result ≡ table_at self.now name.now }
    {
        self.by_name.get(name)
    }

    /// The table of this name, to be changed.
    pub fn get_mut(&mut self, name: &Name) -> Option<&mut Table>
        ensures* lends { sem 𝓛 (LendsTable self.entry name.now result) }
        ensures value { option_copied_mut result ≡ table_at self.old name.now }
    {
        self.by_name.get_mut(name)
    }

    /// Makes a table of this name, whose one tablet has this number, in the place of one that there is. An error leaves the tables as they
    /// were.
    pub fn insert(
        &mut self,
        name: Name,
        time: TimeMode,
        versions: Versions,
        number: u64,
    ) -> Result<(), AllocError>
        ensures tables { OnOk result ((q : List ℕ) → table_at self.new q ≡ cond (bytes_eq name q) (Some (made_table time versions number)) (table_at self.old q)) }
        ensures count { OnOk result (length self.new ≡ cond (is_some (table_at self.old name)) (length self.old) (length self.old + 1)) }
        ensures names { RiseByName self.new }
        ensures err { OnErr result (self.new ≡ self.old) }
    {
        let table = Table::new(self.alloc, time, versions, number)?;
        self.put_table(name, table)
    }

    /// Puts a table under this name, in the place of one that there is. An error leaves the tables as they were.
    pub fn put_table(&mut self, name: Name, table: Table) -> Result<(), AllocError>
        ensures tables { OnOk result ((q : List ℕ) → table_at self.new q ≡ cond (bytes_eq name q) (Some table) (table_at self.old q)) }
        ensures count { OnOk result (length self.new ≡ cond (is_some (table_at self.old name)) (length self.old) (length self.old + 1)) }
        ensures names { RiseByName self.new }
        ensures err { OnErr result (self.new ≡ self.old) }
    {
        let key = NameKey::new(self.alloc, &name)?;
        self.by_name.insert(key, table)?;
        Ok(())
    }

    /// Takes the table of this name away, if there is one.
    pub fn remove(&mut self, name: &Name)
        ensures tables { (q : List ℕ) → table_at self.new q ≡ cond (bytes_eq name.now q) None (table_at self.old q) }
        ensures count { length self.new ≡ cond (is_some (table_at self.old name.now)) (length self.old - 1) (length self.old) }
        ensures names { RiseByName self.new }
    {
        let _ = self.by_name.remove(name);
    }
}
