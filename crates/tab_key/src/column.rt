//! The columns that a scan names.
ghost use Rattle.std.specs.Prelude.{◌≡◌};
ghost use Rattle.std.specs.List.{list_any};
ghost use Rattle.tab_key.specs.KeyOf.{key_of};
ghost use Rattle.tab_key.specs.Columns.{selects, is_selected};

use crate::{ByteString, Key};
use std::alloc::AllocError;

/// A column that a scan names: a family, or a family and a qualifier.
#[derive(Debug, PartialEq, Eq, Drop)]
pub enum Column {
    /// A family with all its qualifiers.
    Family(ByteString),
    /// A family and a qualifier.
    Qualified(ByteString, ByteString),
}

impl Column {
    /// Whether the key is of this column.
    pub fn selects(&self, key: Key<'_>) -> bool
        ensures { result ≡ selects self.now (key_of key.entry) }
    {
        match self {
            Column::Family(family) => family.as_bytes() == key.family,
            Column::Qualified(family, qualifier) => {
                family.as_bytes() == key.family && qualifier.as_bytes() == key.qualifier
            }
        }
    }
}

impl Clone for Column {
    ghost is_clone = { λ source copy. copy ≡ source };

    fn clone(&self) -> Result<Column, AllocError> {
        Ok(match self {
            Column::Family(family) => Column::Family(family.clone()?),
            Column::Qualified(family, qualifier) => {
                Column::Qualified(family.clone()?, qualifier.clone()?)
            }
        })
    }
}

/// Whether the key is of one of the columns. No columns name all keys.
#[inline]
#[tactic(auto, using(crate::proofs::Selecting::selected_of_some))]
pub fn is_selected(columns: &[Column], key: Key<'_>) -> bool
    ensures { result ≡ is_selected columns.now (key_of key.entry) }
{
    columns.is_empty() || is_any(columns, key)
}

// Whether one of the columns takes the key.
fn is_any(columns: &[Column], key: Key<'_>) -> bool
    ensures { result ≡ list_any (λ c. selects c (key_of key.entry)) columns.now }
{
    columns.iter().any(|column| column.selects(key))
}
