//! What a scan asks for, as plain data.

use crate::building::{auths_of, family, qualified};
use std::alloc::{AllocError, Global};
use tab_key::{Bound, Bounds, ByteString, Column};
use tab_label::AuthSet;

/// An end of a range of rows: none, this row in, or this row out.
#[derive(Clone, Copy)]
pub enum End {
    /// No end.
    Open,
    /// The row, which is in range.
    In(&'static [u8]),
    /// The row, which isn't in range.
    Out(&'static [u8]),
}

impl End {
    fn bound(self, alloc: Global) -> Result<Bound, AllocError> {
        match self {
            End::Open => Ok(Bound::Unbounded),
            End::In(row) => Ok(Bound::Inclusive(ByteString::from_slice(alloc, row)?)),
            End::Out(row) => Ok(Bound::Exclusive(ByteString::from_slice(alloc, row)?)),
        }
    }
}

/// The columns that are asked for.
#[derive(Clone, Copy)]
pub enum Columns {
    /// All.
    All,
    /// Those of a family.
    Family(&'static [u8]),
    /// The one of a family and a qualifier.
    Qualified(&'static [u8], &'static [u8]),
}

/// What a scan asks for, by one who may hold the authorizations `A` and `B`.
#[derive(Clone, Copy)]
pub struct Query {
    /// The low end of the rows.
    pub low: End,
    /// The high end of the rows.
    pub high: End,
    /// The columns.
    pub columns: Columns,
    /// How many versions of a column are shown.
    pub versions: u32,
    /// Whether `A` is held.
    pub has_a: bool,
    /// Whether `B` is held.
    pub has_b: bool,
}

impl Query {
    /// The range of rows.
    pub fn bounds(&self, alloc: Global) -> Result<Bounds, AllocError> {
        let low = self.low.bound(alloc)?;
        let high = self.high.bound(alloc)?;
        Ok(Bounds { low, high })
    }

    /// The columns, none of which stands for all.
    pub fn columns(&self, alloc: Global) -> Result<Vec<Column>, AllocError> {
        let mut columns = Vec::new(alloc);
        match self.columns {
            Columns::All => {}
            Columns::Family(name) => columns.push(family(alloc, name)?)?,
            Columns::Qualified(name, qualifier) => {
                columns.push(qualified(alloc, name, qualifier)?)?
            }
        }
        Ok(columns)
    }

    /// The authorizations.
    pub fn auths(&self, alloc: Global) -> Result<AuthSet, AllocError> {
        match (self.has_a, self.has_b) {
            (false, false) => Ok(AuthSet::empty(alloc)),
            (true, false) => auths_of(alloc, &[b"A"]),
            (false, true) => auths_of(alloc, &[b"B"]),
            (true, true) => auths_of(alloc, &[b"A", b"B"]),
        }
    }
}

/// Whether the row lies between the ends.
pub fn is_in_rows(row: &[u8], low: End, high: End) -> bool {
    let is_above = match low {
        End::Open => true,
        End::In(end) => end.cmp(row).is_le(),
        End::Out(end) => end.cmp(row).is_lt(),
    };
    let is_below = match high {
        End::Open => true,
        End::In(end) => row.cmp(end).is_le(),
        End::Out(end) => row.cmp(end).is_lt(),
    };
    is_above && is_below
}
