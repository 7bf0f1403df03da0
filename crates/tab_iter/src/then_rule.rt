//! Two rules, one behind the other.
ghost use Rattle.std.specs.Prelude.{◌≡◌};
ghost use Rattle.tab_iter.specs.Both.{admits_both};

use crate::{NoMemory, Rule};
use tab_key::{Key, RecordRef};

/// Lets through what the second rule lets through of what the first one does, as a layer of the second over one of the first.
///
/// The second rule doesn't observe what the first one holds back. The one that holds a record back is the one that aims.
pub struct ThenRule<A: Rule, B: Rule> {
    first: A,
    second: B,
    // whether the first rule let the last record observed through, if any was since the reset
    passed: Option<bool>,
}

// Written out, so that a crate above needn't prove anew how the parts are dropped.
impl<A: Rule + Drop, B: Rule + Drop> Drop for ThenRule<A, B> {
    #[inline(always)]
    fn drop(self) {
        let ThenRule {
            first: _,
            second: _,
            passed: _,
        } = self;
    }
}

impl<A: Rule, B: Rule> ThenRule<A, B> {
    /// The second rule behind the first.
    pub fn new(first: A, second: B) -> ThenRule<A, B>
        ensures { ⟦<ThenRule<A, B> as Rule>⟧.admits result ≡ admits_both (A.admits first) (B.admits second) }
    {
        ThenRule {
            first,
            second,
            passed: None,
        }
    }

    /// The two rules.
    pub(crate) fn into_parts(self) -> (A, B)
        ensures first { result.0 ≡ self.first }
        ensures second { result.1 ≡ self.second }
    {
        let ThenRule {
            first,
            second,
            passed: _,
        } = self;
        (first, second)
    }
}

impl<A: Rule, B: Rule> Rule for ThenRule<A, B> {
    ghost use Rattle.tab_iter.specs.Both.{admits_both, HaveObserved, aim_of};

    ghost admits = { λ t. admits_both (A.admits t.first) (B.admits t.second) };

    ghost HasObserved = { λ t. HaveObserved (A.admits t.first) (A.HasObserved t.first) (B.HasObserved t.second) t.passed };

    ghost aims_at = { λ t. aim_of t.passed (A.aims_at t.first) (B.aims_at t.second) };

    fn reset(&mut self) {
        self.first.reset();
        self.second.reset();
        self.passed = None;
    }

    #[inline]
    fn observe(&mut self, next: &RecordRef<'_>) -> Result<bool, NoMemory> {
        if !self.first.observe(next)? {
            self.passed = Some(false);
            return Ok(false);
        }
        let passes = self.second.observe(next)?;
        self.passed = Some(true);
        Ok(passes)
    }

    fn aim(&mut self, held: &RecordRef<'_>) -> Result<bool, NoMemory> {
        match self.passed {
            None => Ok(false),
            Some(false) => self.first.aim(held),
            Some(true) => self.second.aim(held),
        }
    }

    fn target(&self) -> Key<'_> {
        match self.passed {
            Some(true) => self.second.target(),
            _ => self.first.target(),
        }
    }
}
