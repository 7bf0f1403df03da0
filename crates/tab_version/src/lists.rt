//! Lists of records, one behind the other.
ghost use Rattle.std.specs.Prelude.{◌≡◌, ◌+◌, ◌<◌, ℕ, [], true, false, length, IfOk, slice_index_or};
ghost use Rattle.tab_key.specs.KeyOf.{key_of};
ghost use Rattle.tab_version.specs.InTurn.{AreInTurn, reaches};

use std::alloc::Global;
use tab_iter::{NoMemory, Source};
use tab_key::Key;

/// Lists of records, each of which a source can be made over. Each record of one stands before those of the next, and none is
/// empty.
pub trait Lists<S: Source> {
    ghost use Rattle.std.specs.Prelude.{List};
    ghost use Rattle.tab_key.specs.Records.{Record};

    ghost listed: { Self → List (List Record) };

    /// How many lists there are.
    fn count(&self) -> usize
        ensures { result ≡ length (listed self.now) };

    /// The first list that has a record at the key or behind it; the last one, where none has.
    fn find(&self, key: Key<'_>) -> usize
        requires in_turn { AreInTurn (listed self.now) }
        requires some { 0 < length (listed self.now) }
        ensures inside { result < length (listed self.now) }
        ensures passed { (i : ℕ) → i < result → reaches (key_of key.entry) (slice_index_or (listed self.now) i []) ≡ false }
        ensures found { result + 1 < length (listed self.now) → reaches (key_of key.entry) (slice_index_or (listed self.now) result []) ≡ true };

    /// A source over the list with this index, at its first record. The error comes only from want of memory.
    fn source_at(&mut self, alloc: Global, index: usize) -> Result<S, NoMemory>
        requires in_turn { AreInTurn (listed self.old) }
        requires inside { index < length (listed self.old) }
        ensures whole { IfOk result (λ s. S.whole s ≡ slice_index_or (listed self.old) index []) }
        ensures rest { IfOk result (λ s. S.rest s ≡ S.whole s) }
        ensures same { listed self.new ≡ listed self.old };

    /// A source over the list with this index, unpositioned: nothing is read before a seek.
    fn unpositioned_at(&mut self, alloc: Global, index: usize) -> Result<S, NoMemory>
        requires in_turn { AreInTurn (listed self.old) }
        requires inside { index < length (listed self.old) }
        ensures whole { IfOk result (λ s. S.whole s ≡ slice_index_or (listed self.old) index []) }
        ensures same { listed self.new ≡ listed self.old };

    /// Takes back a source over the list with this index, which is read no more: what it has ready may serve the next one over that list.
    fn leave(&mut self, index: usize, source: S)
        ensures { listed self.new ≡ listed self.old };
}
