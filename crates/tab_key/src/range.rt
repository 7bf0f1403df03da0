//! Ranges of rows.
ghost use Rattle.std.specs.Prelude.{◌≡◌, ◌↔◌, true, false, IsErr, IfOk};
ghost use Rattle.tab_key.specs.Ranges.{is_bad_range, is_above, is_below, is_in_range};

use crate::ByteString;
use std::alloc::AllocError;
use std::error::Error;
use std::fmt;
use std::marker::Model;

/// An end of a range of rows.
#[derive(Debug, PartialEq, Eq, Drop)]
pub enum Bound {
    /// No end: the range goes on to the first or the last row.
    Unbounded,
    /// The end's row is in the range.
    Inclusive(ByteString),
    /// The end's row is not in the range.
    Exclusive(ByteString),
}

/// Two ends of a range, as someone asks for them: they may leave no range.
#[derive(Debug, PartialEq, Eq)]
pub struct Bounds {
    /// The low end.
    pub low: Bound,
    /// The high end.
    pub high: Bound,
}

// Written out, so that a crate above needn't prove anew how the parts are dropped.
impl Drop for Bounds {
    #[inline(always)]
    fn drop(self) {
        let Bounds { low: _, high: _ } = self;
    }
}

/// A range of rows whose low end isn't above its high one.
#[derive(Debug)]
pub struct Range {
    bounds: Bounds,
}

// Written out, so that a crate above needn't prove anew how the parts are dropped.
impl Drop for Range {
    #[inline(always)]
    fn drop(self) {
        let Range { bounds: _ } = self;
    }
}

impl Model for Range {
    ghost use Rattle.tab_key.specs.declared.range.Bounds.{Bounds as Ends};

    ghost Value = { Ends };

    ghost use Rattle.std.specs.Prelude.{◌≡◌, false};
    ghost use Rattle.tab_key.specs.Ranges.{is_bad_range};

    ghost view = { λ r. r.bounds };

    ghost invariant = { λ r. is_bad_range r.bounds.low r.bounds.high ≡ false };
}

/// The bounds leave no range: the low row is above the high one, or equal to it with an exclusive end.
#[derive(Clone, Copy, Debug, PartialEq, Eq)]
pub struct BadRange;

impl fmt::Display for BadRange {
    fn fmt<W: fmt::Write>(&self, f: &mut fmt::Formatter<W>) -> fmt::Result {
        write!(f, "the bounds leave no range")
    }
}

impl Error for BadRange {}

impl Bound {
    /// Whether the row isn't below this low end.
    pub fn is_above(&self, row: &[u8]) -> bool
        ensures { result ≡ is_above self.now row.now }
    {
        match self {
            Bound::Unbounded => true,
            Bound::Inclusive(low) => low.as_bytes().cmp(row).is_le(),
            Bound::Exclusive(low) => low.as_bytes().cmp(row).is_lt(),
        }
    }

    /// Whether the row isn't above this high end.
    pub fn is_below(&self, row: &[u8]) -> bool
        ensures { result ≡ is_below self.now row.now }
    {
        match self {
            Bound::Unbounded => true,
            Bound::Inclusive(high) => row.cmp(high.as_bytes()).is_le(),
            Bound::Exclusive(high) => row.cmp(high.as_bytes()).is_lt(),
        }
    }
}

impl Clone for Bound {
    ghost is_clone = { λ source copy. copy ≡ source };

    fn clone(&self) -> Result<Bound, AllocError> {
        Ok(match self {
            Bound::Unbounded => Bound::Unbounded,
            Bound::Inclusive(row) => Bound::Inclusive(row.clone()?),
            Bound::Exclusive(row) => Bound::Exclusive(row.clone()?),
        })
    }
}

impl Bounds {
    /// Whether they leave no range. It is the test that [`Range::new`] makes.
    pub fn is_bad(&self) -> bool
        ensures { result ≡ is_bad_range self.now.low self.now.high }
    {
        is_bad_range(&self.low, &self.high)
    }
}

impl Clone for Bounds {
    ghost is_clone = { λ source copy. copy ≡ source };

    fn clone(&self) -> Result<Bounds, AllocError> {
        Ok(Bounds {
            low: self.low.clone()?,
            high: self.high.clone()?,
        })
    }
}

impl Range {
    /// The range between two ends. It takes no memory.
    pub fn new(low: Bound, high: Bound) -> Result<Range, BadRange>
        ensures bad { IsErr result ↔ (is_bad_range low high ≡ true) }
        ensures value { IfOk result (λ r. r ≡ record { low = low; high = high }) }
    {
        if is_bad_range(&low, &high) {
            return Err(BadRange);
        }
        Ok(Range {
            bounds: Bounds { low, high },
        })
    }

    /// The ends.
    pub fn bounds(&self) -> &Bounds
        ensures value { result.now ≡ self.now }
        ensures good { is_bad_range self.now.low self.now.high ≡ false }
    {
        &self.bounds
    }

    /// Whether the row is in the range.
    pub fn contains(&self, row: &[u8]) -> bool
        ensures { result ≡ is_in_range self.now row.now }
    {
        self.bounds.low.is_above(row) && self.bounds.high.is_below(row)
    }
}

impl Clone for Range {
    ghost is_clone = { λ source copy. copy ≡ source };

    fn clone(&self) -> Result<Range, AllocError> {
        Ok(Range {
            bounds: self.bounds.clone()?,
        })
    }
}

/// Whether the bounds leave no range.
pub fn is_bad_range(low: &Bound, high: &Bound) -> bool
    ensures { result ≡ is_bad_range low.now high.now }
{
    match (low, high) {
        (Bound::Inclusive(a), Bound::Inclusive(b)) => a > b,
        (Bound::Inclusive(a), Bound::Exclusive(b)) => a >= b,
        (Bound::Exclusive(a), Bound::Inclusive(b)) => a >= b,
        (Bound::Exclusive(a), Bound::Exclusive(b)) => a >= b,
        _ => false,
    }
}
