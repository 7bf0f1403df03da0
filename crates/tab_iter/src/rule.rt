//! What a layer lets through.
ghost use Rattle.std.specs.Prelude.{◌≡◌, ◌∷◌, List, Bool, true, false, IfOk, OnOk};
ghost use Rattle.tab_key.specs.KeyOf.{key_of};
ghost use Rattle.tab_iter.specs.Columns.{nowhere};

use crate::NoMemory;
use tab_key::{Key, RecordRef};

/// Which records of a list pass, told while the list is gone through from the start of a column on.
///
/// An error comes only from want of memory. The rule has to be reset after one.
pub trait Rule {
    ghost use Rattle.std.specs.declared.cmp.Ordering.TheVariants.{Less};
    ghost use Rattle.tab_key.specs.Order.{column_cmp};
    ghost use Rattle.tab_key.specs.Records.{Record, Key as KeyParts};
    ghost use Rattle.tab_key.specs.Sorted.{IsIn};
    ghost use Rattle.tab_iter.specs.Lists.{IsRising, IsEnd, BeginsColumn};

    // Whether a record of a whole list passes.
    ghost admits: { Self → List Record → Record → Bool };

    // The rule has observed what it needs of the records of a whole list before these, which are left.
    ghost HasObserved: { Self → List Record → List Record → Type 0 };

    // The column that the rule aims at, by any key of it.
    ghost aims_at: { Self → KeyParts };

    /// Forgets what was observed: the next record is the first of its column.
    fn reset(&mut self)
        ensures same { admits self.new ≡ admits self.old }
        ensures observed { (w rs : List Record) → IsRising w → BeginsColumn rs w → ∥ HasObserved self.new w rs ∥₁ };

    /// Whether the next record passes. It counts as observed from now on.
    fn observe(&mut self, next: &RecordRef<'_>) -> Result<bool, NoMemory>
        ensures same { admits self.new ≡ admits self.old }
        ensures judged { IfOk result (λ b. (w rs : List Record) → IsRising w → IsEnd (next.now ∷ rs) w → ∥ HasObserved self.old w (next.now ∷ rs) ∥₁ → b ≡ admits self.old w next.now) }
        ensures observed { OnOk result ((w rs : List Record) → IsRising w → IsEnd (next.now ∷ rs) w → ∥ HasObserved self.old w (next.now ∷ rs) ∥₁ → ∥ HasObserved self.new w rs ∥₁) };

    /// Aims at a column after that of this record, which was observed last and held back: nothing that is left before the column
    /// passes. The answer is false where an advance does as well.
    fn aim(&mut self, held: &RecordRef<'_>) -> Result<bool, NoMemory>
        ensures same { admits self.new ≡ admits self.old }
        ensures observed { OnOk result ((w rs : List Record) → ∥ HasObserved self.old w rs ∥₁ → ∥ HasObserved self.new w rs ∥₁) }
        ensures ahead { IfOk result (λ b. b ≡ true → column_cmp held.now.key (aims_at self.new) ≡ Less) }
        ensures idle { IfOk result (λ b. b ≡ true → (w rs : List Record) → IsRising w → IsEnd (held.now ∷ rs) w → ∥ HasObserved self.old w rs ∥₁ → admits self.old w held.now ≡ false → (u : Record) → IsIn rs u → column_cmp u.key (aims_at self.new) ≡ Less → admits self.old w u ≡ false) };

    /// A key of the column that the rule aims at. It has no meaning unless the last call was an aim and its answer true, and its
    /// timestamp never has one.
    fn target(&self) -> Key<'_>
        ensures { key_of result ≡ aims_at self.now };
}

// A key for a target that has no meaning.
pub(crate) fn nowhere<'a>() -> Key<'a>
    ensures { key_of result ≡ nowhere }
{
    Key {
        row: b"",
        family: b"",
        qualifier: b"",
        label: b"",
        timestamp: i64::MAX,
    }
}
