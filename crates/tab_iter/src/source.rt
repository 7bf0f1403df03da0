//! What every source of records does.
ghost use Rattle.std.specs.Prelude.{◌≡◌, List, [], Bool, true, OnOk, IsErr};
ghost use Rattle.std.specs.Result.{is_err};
ghost use Rattle.tab_key.specs.KeyOf.{key_of};

use std::alloc::AllocError;
use tab_key::{Key, RecordRef, row_prefix};

/// Memory was refused.
pub type NoMemory = AllocError;

/// A rising list of records, and how much of it is left.
///
/// After an error it is unpositioned: it has no top, and each advance answers NoMemory, until a seek succeeds. An error comes only
/// from want of memory.
pub trait Source {
    ghost use Rattle.tab_key.specs.Records.{Record};
    ghost use Rattle.tab_iter.specs.Lists.{first_of, tail, from_key, IsRising, HasI64Timestamps, IsEnd};
    ghost use Rattle.tab_iter.specs.TopPrefix.{IsTopPrefix};

    ghost whole: { Self → List Record };

    ghost rest: { Self → List Record };

    ghost is_unpositioned: { Self → Bool };

    /// The first record that is left.
    fn top(&self) -> Option<RecordRef<'_>>
        ensures { result ≡ first_of (rest self.now) };

    /// The row prefix of the first record that is left, and `u128::MAX` where none is left.
    fn top_prefix(&self) -> u128
        ensures { IsTopPrefix result (first_of (rest self.now)) }
    {
        match self.top() {
            None => u128::MAX,
            Some(record) => row_prefix(record.row()),
        }
    }

    /// Drops the first record. At the end it changes nothing.
    fn advance(&mut self) -> Result<(), NoMemory>
        ensures whole { whole self.new ≡ whole self.old }
        ensures rest { OnOk result (rest self.new ≡ tail (rest self.old)) }
        ensures unpositioned { is_unpositioned self.new ≡ is_err result }
        ensures stays_unpositioned { is_unpositioned self.old ≡ true → IsErr result };

    /// Goes to the first record whose key isn't before this one.
    fn seek(&mut self, key: Key<'_>) -> Result<(), NoMemory>
        ensures whole { whole self.new ≡ whole self.old }
        ensures rest { OnOk result (rest self.new ≡ from_key (key_of key.entry) (whole self.old)) }
        ensures unpositioned { is_unpositioned self.new ≡ is_err result };

    // The whole list is in the order of records.
    ghost whole_rises: { (s : Self) → IsRising (whole s) };

    // Each timestamp is one that an `i64` can be.
    ghost has_i64_timestamps: { (s : Self) → HasI64Timestamps (whole s) };

    // What is left is an end of the whole list.
    ghost rest_is_suffix: { (s : Self) → IsEnd (rest s) (whole s) };

    // An unpositioned source has nothing left.
    ghost unpositioned_is_empty: { (s : Self) → is_unpositioned s ≡ true → rest s ≡ [] };
}
