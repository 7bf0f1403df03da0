//! Which records have a label that holds.
ghost use Rattle.std.specs.Prelude.{◌≡◌, ◌<◌, ◌≤◌, ◌^◌, Bool, true, IfOk, IfSome, IsTrue, length, ⊤};
ghost use Rattle.tab_key.specs.Words.{IsWord};
ghost use Rattle.tab_label.specs.Holding.{label_holds};
ghost use Rattle.tab_iter.specs.Verdicts.{IsSound};
ghost use Rattle.tab_iter.specs.Propositions.{IsSound-prop};

use crate::rule::nowhere;
use crate::{NoMemory, Rule, Verdicts};
use std::alloc::Global;
use tab_key::{Key, RecordRef};
use tab_label::{AuthSet, is_visible};

/// Lets the records through whose label holds under a set of authorizations.
///
/// It judges no label on which it has a verdict.
pub struct VisibleRule<'a> {
    auths: &'a AuthSet,
    // the verdicts on the labels observed, and on those of batches before
    verdicts: Verdicts,
    ghost sound: { IsSound auths.now verdicts } by { IsSound-prop auths.now verdicts },
}

// Written out, so that a crate above needn't prove anew how the parts are dropped.
impl<'a> Drop for VisibleRule<'a> {
    #[inline(always)]
    fn drop(self) {
        let VisibleRule {
            auths: _,
            verdicts: _,
        } = self;
    }
}

impl<'a> VisibleRule<'a> {
    /// What these authorizations show passes. There may be verdicts under them, of an earlier batch.
    pub fn new(auths: &'a AuthSet, verdicts: Verdicts) -> VisibleRule<'a>
        requires { IsSound auths.now verdicts }
        ensures { result.auths.now ≡ auths.now }
    {
        VisibleRule { auths, verdicts }
    }

    /// The verdicts, if the rule's authorizations are these, and else none. No contract of a source says whose they are, so they are
    /// compared.
    pub(crate) fn into_verdicts(self, alloc: Global, auths: &AuthSet) -> Verdicts
        ensures { IsSound auths.now result }
    {
        let VisibleRule {
            auths: own,
            verdicts,
        } = self;
        if own.terms() == auths.terms() {
            verdicts
        } else {
            Verdicts::none(alloc)
        }
    }

    // Whether the record's label is a short one on which this verdict is remembered.
    #[inline]
    fn is_known(&self, next: &RecordRef<'_>, holds: bool) -> bool
        ensures { IsTrue result → holds ≡ label_holds next.now.key.label self.now.auths.now }
    {
        match short_label(next) {
            Some(word) => self.verdicts.is_known(word, holds),
            None => false,
        }
    }

    // Whether the record's label holds. It is guessed next time at such a record.
    #[inline(never)]
    fn observe_unguessed(&mut self, next: &RecordRef<'_>) -> Result<bool, NoMemory>
        ensures same { self.new.auths.now ≡ self.old.auths.now }
        ensures holds { IfOk result (λ b. b ≡ label_holds next.now.key.label self.old.auths.now) }
    {
        let holds = self.observe_label(next)?;
        self.verdicts.note_guess(next.label_guess(), holds);
        Ok(holds)
    }

    fn observe_label(&mut self, next: &RecordRef<'_>) -> Result<bool, NoMemory>
        ensures same { self.new.auths.now ≡ self.old.auths.now }
        ensures holds { IfOk result (λ b. b ≡ label_holds next.now.key.label self.old.auths.now) }
    {
        let Some(word) = short_label(next) else {
            return self.observe_long(next.label());
        };
        match self.verdicts.known(word) {
            Some(holds) => Ok(holds),
            None => self.observe_new(next.label(), word),
        }
    }

    // Whether a label that is too long to be a number holds.
    #[inline(never)]
    fn observe_long(&mut self, label: &[u8]) -> Result<bool, NoMemory>
        ensures same { self.new.auths.now ≡ self.old.auths.now }
        ensures holds { IfOk result (λ b. b ≡ label_holds label.now self.old.auths.now) }
    {
        match self.verdicts.find_hinted(label) {
            Some(holds) => Ok(holds),
            None => self.observe_elsewhere(label),
        }
    }

    // Whether a label holds on which no verdict was found where one was found last.
    fn observe_elsewhere(&mut self, label: &[u8]) -> Result<bool, NoMemory>
        ensures same { self.new.auths.now ≡ self.old.auths.now }
        ensures holds { IfOk result (λ b. b ≡ label_holds label.now self.old.auths.now) }
    {
        let place = self.verdicts.count_before(label);
        let holds = self.judge_at(place, label)?;
        self.verdicts.hint(label, place);
        Ok(holds)
    }

    // Whether the short label of this number holds, on which no verdict is remembered by number.
    #[inline(never)]
    fn observe_new(&mut self, label: &[u8], word: u64) -> Result<bool, NoMemory>
        requires word { IsWord word label.now }
        requires small { word < 2 ^ 57 }
        ensures same { self.new.auths.now ≡ self.old.auths.now }
        ensures holds { IfOk result (λ b. b ≡ label_holds label.now self.old.auths.now) }
    {
        let place = self.verdicts.count_before(label);
        let holds = self.judge_at(place, label)?;
        self.verdicts.note(word, holds)?;
        Ok(holds)
    }

    // Whether a label holds that has this place among those judged: by the verdict on it that is kept, or else by a new one.
    #[inline(never)]
    fn judge_at(&mut self, place: usize, label: &[u8]) -> Result<bool, NoMemory>
        requires { place ≤ length self.old.verdicts.kept.items }
        ensures same { self.new.auths.now ≡ self.old.auths.now }
        ensures holds { IfOk result (λ b. b ≡ label_holds label.now self.old.auths.now) }
    {
        match self.verdicts.find_at(place, label) {
            Some(holds) => Ok(holds),
            None => {
                let holds = is_visible(label, self.auths);
                self.verdicts.keep_at(place, label, holds)?;
                Ok(holds)
            }
        }
    }
}

// The number of the record's label, if that is short; there is room in it for one bit more.
#[inline]
fn short_label(next: &RecordRef<'_>) -> Option<u64>
    ensures word { IfSome result (λ w. IsWord w next.now.key.label) }
    ensures small { IfSome result (λ w. w < 2 ^ 57) }
{
    next.label_word()
}

impl<'a> Rule for VisibleRule<'a> {
    ghost use Rattle.tab_iter.specs.Columns.{nowhere};
    ghost use Rattle.tab_label.specs.Holding.{label_holds};

    ghost admits = { λ s w u. label_holds u.key.label s.auths.now };

    ghost HasObserved = { λ s w rs. ⊤ };

    ghost aims_at = { λ s. nowhere };

    fn reset(&mut self) {}

    #[inline]
    fn observe(&mut self, next: &RecordRef<'_>) -> Result<bool, NoMemory> {
        // What is guessed is there at once, and what follows begins with it; whether the guess was right is seen meanwhile.
        let guess = self.verdicts.guess(next.label_guess());
        if self.is_known(next, guess) {
            return Ok(guess);
        }
        self.observe_unguessed(next)
    }

    // A label says nothing of those that follow.
    fn aim(&mut self, _held: &RecordRef<'_>) -> Result<bool, NoMemory> {
        Ok(false)
    }

    fn target(&self) -> Key<'_> {
        nowhere()
    }
}
