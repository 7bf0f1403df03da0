//! Which records are of the columns that a scan names.
ghost use Rattle.std.specs.Prelude.{◌≡◌, Bool, ⊤};
ghost use Rattle.tab_key.specs.Columns.{is_selected};

use crate::named_column::{first_after, start_of};
use crate::{NoMemory, Rule};
use std::alloc::Global;
use tab_key::{Column, Key, RecordRef, is_selected};

/// Lets the records of the named columns through, and all where none is named.
pub struct FetchingRule<'a> {
    columns: &'a [Column],
    // where the rule aims: a row, and a named column in it, or the row's start
    row: Vec<u8>,
    column: Option<&'a Column>,
}

// Written out, so that a crate above needn't prove anew how the parts are dropped.
impl<'a> Drop for FetchingRule<'a> {
    #[inline(always)]
    fn drop(self) {
        let FetchingRule {
            columns: _,
            row: _,
            column: _,
        } = self;
    }
}

impl<'a> FetchingRule<'a> {
    /// The records of these columns pass.
    pub fn new(alloc: Global, columns: &'a [Column]) -> FetchingRule<'a>
        ensures { result.columns.now ≡ columns.now }
    {
        FetchingRule {
            columns,
            row: Vec::new(alloc),
            column: None,
        }
    }
}

impl<'a> Rule for FetchingRule<'a> {
    ghost use Rattle.tab_key.specs.Columns.{is_selected};
    ghost use Rattle.tab_iter.specs.NamedColumns.{start_of};

    ghost admits = { λ c w u. is_selected c.columns.now u.key };

    ghost HasObserved = { λ c w rs. ⊤ };

    ghost aims_at = { λ c. start_of c.row.items c.column };

    fn reset(&mut self) {}

    #[inline]
    fn observe(&mut self, next: &RecordRef<'_>) -> Result<bool, NoMemory> {
        Ok(self.columns.is_empty() || is_named(self.columns, next))
    }

    // The first named column that begins after the record in its row, or else the next row.
    fn aim(&mut self, held: &RecordRef<'_>) -> Result<bool, NoMemory> {
        self.row.clear();
        self.row.extend_from_slice(held.row())?;
        self.column = first_after(self.columns, held.key());
        if self.column.is_none() {
            self.row.push(0)?;
        }
        Ok(true)
    }

    fn target(&self) -> Key<'_> {
        start_of(&self.row, self.column)
    }
}

// Whether the record is of one of the columns.
#[inline(never)]
fn is_named(columns: &[Column], next: &RecordRef<'_>) -> bool
    ensures { result ≡ is_selected columns.now next.now.key }
{
    is_selected(columns, next.key())
}
