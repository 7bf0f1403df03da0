//! Which markers a merge keeps.
ghost use Rattle.std.specs.Prelude.{◌≡◌, ◌&&◌, int_lt};

use crate::last_column::LastColumn;
use crate::rule::nowhere;
use crate::{NoMemory, Rule};
use std::alloc::Global;
use tab_key::{Key, Kind, RecordRef};

/// Lets puts through, and of each column the first marker: what the others hide, that one hides too.
pub struct FirstMarkersRule {
    full: bool,
    floor: i64,
    // the column of the last marker that was passed
    column: LastColumn,
}

// Written out, so that a crate above needn't prove anew how the parts are dropped.
impl Drop for FirstMarkersRule {
    #[inline(always)]
    fn drop(self) {
        let FirstMarkersRule {
            full: _,
            floor: _,
            column: _,
        } = self;
    }
}

impl FirstMarkersRule {
    /// In a full merge a first marker is held back too where its timestamp lies below the floor.
    pub fn new(alloc: Global, full: bool, floor: i64) -> FirstMarkersRule
        ensures full { result.full ≡ full }
        ensures floor { result.floor ≡ floor }
    {
        FirstMarkersRule {
            full,
            floor,
            column: LastColumn::none(alloc),
        }
    }

    // Whether a first marker goes too.
    fn drops(&self, marker: &RecordRef<'_>) -> bool
        ensures { result ≡ (self.now.full && int_lt marker.now.key.timestamp self.now.floor) }
    {
        self.full && marker.timestamp() < self.floor
    }
}

impl Rule for FirstMarkersRule {
    ghost use Rattle.tab_iter.specs.Layers.{is_needed};
    ghost use Rattle.tab_iter.specs.Columns.{KnowsLed, nowhere};

    ghost admits = { λ f. is_needed f.full f.floor };

    ghost HasObserved = { λ f. KnowsLed f.column };

    ghost aims_at = { λ f. nowhere };

    fn reset(&mut self) {
        self.column.forget();
    }

    #[inline]
    fn observe(&mut self, next: &RecordRef<'_>) -> Result<bool, NoMemory> {
        match next.kind() {
            Kind::Put => Ok(true),
            Kind::Delete => {
                if self.column.remember(next)? {
                    return Ok(false);
                }
                Ok(!self.drops(next))
            }
        }
    }

    // Behind a marker there may be puts, which pass.
    fn aim(&mut self, _held: &RecordRef<'_>) -> Result<bool, NoMemory> {
        Ok(false)
    }

    fn target(&self) -> Key<'_> {
        nowhere()
    }
}
