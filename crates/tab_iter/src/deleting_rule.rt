//! Which records the markers leave.
ghost use Rattle.std.specs.Prelude.{◌≡◌, Bool};

use crate::last_column::LastColumn;
use crate::{NoMemory, Rule};
use std::alloc::Global;
use tab_key::{Key, Kind, RecordRef};

/// Holds back the puts that a marker of their column hides, and the markers unless they are kept.
pub struct DeletingRule {
    keeps: bool,
    // the column of the last marker that was passed
    column: LastColumn,
}

// Written out, so that a crate above needn't prove anew how the parts are dropped.
impl Drop for DeletingRule {
    #[inline(always)]
    fn drop(self) {
        let DeletingRule {
            keeps: _,
            column: _,
        } = self;
    }
}

impl DeletingRule {
    /// Markers are kept, or held back too.
    pub fn new(alloc: Global, keeps: bool) -> DeletingRule
        ensures { result.keeps ≡ keeps }
    {
        DeletingRule {
            keeps,
            column: LastColumn::none(alloc),
        }
    }
}

impl Rule for DeletingRule {
    ghost use Rattle.tab_iter.specs.Layers.{is_left};
    ghost use Rattle.tab_iter.specs.Columns.{KnowsDeleted, next_of};

    ghost admits = { λ d. is_left d.keeps };

    ghost HasObserved = { λ d. KnowsDeleted d.column };

    ghost aims_at = { λ d. next_of d.column };

    fn reset(&mut self) {
        self.column.forget();
    }

    #[inline]
    fn observe(&mut self, next: &RecordRef<'_>) -> Result<bool, NoMemory> {
        match next.kind() {
            Kind::Put => Ok(!self.column.is_of(next)),
            Kind::Delete => {
                let _ = self.column.remember(next)?;
                Ok(self.keeps)
            }
        }
    }

    // Behind a marker nothing of its column passes.
    fn aim(&mut self, held: &RecordRef<'_>) -> Result<bool, NoMemory> {
        if self.keeps {
            return Ok(false);
        }
        Ok(self.column.is_of(held))
    }

    fn target(&self) -> Key<'_> {
        self.column.next()
    }
}
