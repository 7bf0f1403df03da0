//! The newest puts of each column.
ghost use Rattle.std.specs.Prelude.{◌≡◌};

use crate::last_column::LastColumn;
use crate::{NoMemory, Rule};
use std::alloc::Global;
use tab_key::{Key, Kind, RecordRef};

/// Lets the newest puts of each column through, and holds the markers back unless they are kept.
pub struct VersioningRule {
    most: u32,
    keeps: bool,
    // the column of the last put that was passed, and how many more of it pass
    column: LastColumn,
    left: u32,
}

// Written out, so that a crate above needn't prove anew how the parts are dropped.
impl Drop for VersioningRule {
    #[inline(always)]
    fn drop(self) {
        let VersioningRule {
            most: _,
            keeps: _,
            column: _,
            left: _,
        } = self;
    }
}

impl VersioningRule {
    /// So many puts of each column pass. Markers are kept, or held back.
    pub fn new(alloc: Global, most: u32, keeps: bool) -> VersioningRule
        ensures most { result.most ≡ most }
        ensures keeps { result.keeps ≡ keeps }
    {
        VersioningRule {
            most,
            keeps,
            column: LastColumn::none(alloc),
            left: most,
        }
    }
}

impl Rule for VersioningRule {
    ghost use Rattle.tab_iter.specs.Layers.{is_among};
    ghost use Rattle.tab_iter.specs.Columns.{KnowsCount, next_of};

    ghost admits = { λ v. is_among v.keeps v.most };

    ghost HasObserved = { λ v. KnowsCount v.most v.column v.left };

    ghost aims_at = { λ v. next_of v.column };

    fn reset(&mut self) {
        self.column.forget();
    }

    #[inline]
    fn observe(&mut self, next: &RecordRef<'_>) -> Result<bool, NoMemory> {
        match next.kind() {
            Kind::Delete => Ok(self.keeps),
            Kind::Put => {
                let left = if self.column.remember(next)? {
                    self.left
                } else {
                    self.most
                };
                self.left = left.saturating_sub(1);
                Ok(0 < left)
            }
        }
    }

    // Once as many have passed as may, nothing of the column passes.
    fn aim(&mut self, held: &RecordRef<'_>) -> Result<bool, NoMemory> {
        if self.keeps {
            return Ok(false);
        }
        if 0 < self.left {
            return Ok(false);
        }
        Ok(self.column.is_of(held))
    }

    fn target(&self) -> Key<'_> {
        self.column.next()
    }
}
