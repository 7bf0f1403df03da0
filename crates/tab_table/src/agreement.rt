//! How a part compares with one that is sought, found from what each record has beyond the one before it.
ghost use Rattle.std.specs.Prelude.{◌≡◌, ◌≤◌, ◌++◌, ℕ, List, length, take};
ghost use Rattle.tab_table.specs.Agreements.{IsAgreement};

use crate::entry::behind;
use crate::sharing::shared;
use std::cmp::Ordering;

/// How a part compares with one that is sought, and how many first bytes both share.
#[derive(Clone, Copy)]
pub(crate) struct Agreement {
    pub(crate) count: usize,
    pub(crate) order: Ordering,
}

impl Agreement {
    /// Of this part.
    pub(crate) fn of(part: &[u8], sought: &[u8]) -> Agreement
        ensures agrees { IsAgreement result part.now sought.now }
        ensures inside { result.count ≤ length sought.now }
    {
        Agreement {
            count: shared(part, sought),
            order: part.cmp(sought),
        }
    }

    /// Of the part that has so many first bytes of this one, and then the rest. The part itself isn't read.
    pub(crate) fn onward(self, count: usize, rest: &[u8], sought: &[u8]) -> Agreement
        requires { self.count ≤ length sought.now }
        ensures agrees { (part : List ℕ) → count ≤ length part → IsAgreement self part sought.now → IsAgreement result (take count part ++ rest.now) sought.now }
        ensures inside { result.count ≤ length sought.now }
    {
        if count > self.count {
            return self;
        }
        let later = behind(sought, count);
        Agreement {
            count: count + shared(rest, later),
            order: rest.cmp(later),
        }
    }
}
