//! Records in their order, each found by its index.
ghost use Rattle.std.specs.Prelude.{◌≡◌, ◌<◌, ◌≤◌, List, length, max, min};
ghost use Rattle.std.specs.List.{slice_index_or, prefix_len};
ghost use Rattle.tab_key.specs.Records.{Record};
ghost use Rattle.tab_iter.specs.Lists.{IsRising};
ghost use Rattle.tab_mem.specs.Starts.{is_before};

use crate::Target;
use std::ops::Range;

/// A list of records that a search goes over. Whoever searches it has to know that it rises.
pub trait Ordered {
    ghost use Rattle.std.specs.Prelude.{List};
    ghost use Rattle.tab_key.specs.Records.{Record};

    ghost listed: { Self → List Record };

    /// Whether the record at an index stands before the start.
    fn precedes(&self, index: usize, target: &Target<'_>) -> bool
        requires { index < length (listed self.now) }
        ensures { (u : Record) → result ≡ is_before target.now.start (slice_index_or (listed self.now) index u) };

    /// A smaller part of the records in which a search for the start finds what it would find in this one. No record is read for it.
    fn narrowed(&self, low: usize, high: usize, target: &Target<'_>) -> Range<usize>
        requires rising { IsRising (listed self.now) }
        requires ends { low ≤ high }
        requires inside { high ≤ length (listed self.now) }
        ensures low { low ≤ result.start }
        ensures order { result.start ≤ result.end }
        ensures high { result.end ≤ high }
        ensures count { max low (min (prefix_len (is_before target.now.start) (listed self.now)) high) ≡ max result.start (min (prefix_len (is_before target.now.start) (listed self.now)) result.end) };

    /// A guess whether the start lies far behind the record at an index, so that a search needn't look for it near there. No record is
    /// read for it. Only speed hangs on it, so no contract speaks of it.
    fn is_far(&self, index: usize, target: &Target<'_>) -> bool;
}
