//! A source without the records that a rule holds back.
ghost use Rattle.std.specs.Prelude.{◌≡◌, ◌<◌, List, [], Bool, true, false, cond, filter, length, IfOk, OnOk};
ghost use Rattle.tab_key.specs.Records.{Record};
ghost use Rattle.tab_key.specs.KeyOf.{key_of};
ghost use Rattle.tab_iter.specs.Lists.{tail, is_settled, from_key};

use crate::{NoMemory, Rule, Source};
use std::alloc::AllocError;
use tab_key::{Key, RecordRef};

/// The records of a source that pass a rule.
pub struct Filtered<S: Source, R: Rule> {
    source: S,
    rule: R,
    // there is no top until a seek succeeds
    unpositioned: bool,
    ghost settled: { unpositioned ≡ false → is_settled (R.admits rule (S.whole source)) (S.rest source) ≡ true },
    ghost observed: { unpositioned ≡ false → ∥ R.HasObserved rule (S.whole source) (tail (S.rest source)) ∥₁ },
}

// Written out, so that a crate above needn't prove anew how the parts are dropped.
impl<S: Source + Drop, R: Rule + Drop> Drop for Filtered<S, R> {
    #[inline(always)]
    fn drop(self) {
        let Filtered {
            source: _,
            rule: _,
            unpositioned: _,
        } = self;
    }
}

impl<S: Source + Drop, R: Rule + Drop> Filtered<S, R> {
    /// The records of the source that pass, from the start. The error comes only from want of memory.
    pub fn new(source: S, rule: R) -> Result<Filtered<S, R>, NoMemory>
        requires { S.rest source ≡ S.whole source }
        ensures whole { IfOk result (λ f. ⟦<Filtered<S, R> as Source>⟧.whole f ≡ filter (R.admits rule (S.whole source)) (S.whole source)) }
        ensures rest { IfOk result (λ f. ⟦<Filtered<S, R> as Source>⟧.rest f ≡ ⟦<Filtered<S, R> as Source>⟧.whole f) }
    {
        let mut source = source;
        let mut rule = rule;
        rule.reset();
        settle(&mut source, &mut rule)?;
        Ok(Filtered {
            source,
            rule,
            unpositioned: false,
        })
    }

    // The records of the source that pass, unpositioned: nothing is read before a seek.
    pub(crate) fn unpositioned(source: S, rule: R) -> Filtered<S, R>
        ensures whole { ⟦<Filtered<S, R> as Source>⟧.whole result ≡ filter (R.admits rule (S.whole source)) (S.whole source) }
        ensures unpositioned { ⟦<Filtered<S, R> as Source>⟧.is_unpositioned result ≡ true }
    {
        Filtered {
            source,
            rule,
            unpositioned: true,
        }
    }

    /// The source and the rule.
    pub(crate) fn into_parts(self) -> (S, R)
        ensures { result.1 ≡ self.rule }
    {
        let Filtered {
            source,
            rule,
            unpositioned: _,
        } = self;
        (source, rule)
    }
}

impl<S: Source, R: Rule> Source for Filtered<S, R> {
    ghost use Rattle.tab_iter.specs.Positions.{unless};
    ghost use Rattle.tab_iter.specs.SourceLaws.{ends_filter, i64_timestamps_filter, unless_ends, unless_empty};
    ghost use Rattle.std.proofs.lemmas.List.Kept.{IsStrictlySortedBy-filter};
    ghost use Rattle.tab_key.specs.Order.{record_cmp};

    ghost whole = { λ f. filter (R.admits f.rule (S.whole f.source)) (S.whole f.source) };

    ghost rest = { λ f. unless f.unpositioned (filter (R.admits f.rule (S.whole f.source)) (S.rest f.source)) };

    ghost is_unpositioned = { λ f. f.unpositioned };

    ghost whole_rises = { λ f. IsStrictlySortedBy-filter record_cmp (R.admits f.rule (S.whole f.source)) (S.whole f.source) (S.whole_rises f.source) };

    ghost has_i64_timestamps = { λ f. i64_timestamps_filter (R.admits f.rule (S.whole f.source)) (S.whole f.source) (S.has_i64_timestamps f.source) };

    ghost rest_is_suffix = { λ f. unless_ends f.unpositioned (filter (R.admits f.rule (S.whole f.source)) (S.rest f.source)) (filter (R.admits f.rule (S.whole f.source)) (S.whole f.source)) (λ _. ends_filter (R.admits f.rule (S.whole f.source)) (S.rest f.source) (S.whole f.source) (S.rest_is_suffix f.source)) };

    ghost unpositioned_is_empty = { λ f. unless_empty f.unpositioned (filter (R.admits f.rule (S.whole f.source)) (S.rest f.source)) };

    #[inline]
    fn top(&self) -> Option<RecordRef<'_>> {
        if self.unpositioned {
            None
        } else {
            self.source.top()
        }
    }

    #[inline]
    fn advance(&mut self) -> Result<(), NoMemory> {
        if self.unpositioned {
            return Err(AllocError);
        }
        self.unpositioned = true;
        self.source.advance()?;
        settle(&mut self.source, &mut self.rule)?;
        self.unpositioned = false;
        Ok(())
    }

    fn seek(&mut self, key: Key<'_>) -> Result<(), NoMemory> {
        self.unpositioned = true;
        // a rule has to see a column from its start
        let start = Key {
            timestamp: i64::MAX,
            ..key
        };
        self.source.seek(start)?;
        self.rule.reset();
        pass(&mut self.source, &mut self.rule, key)?;
        settle(&mut self.source, &mut self.rule)?;
        self.unpositioned = false;
        Ok(())
    }
}

// So many records held back in a row are passed one by one before a seek, which takes about as long as six of them.
const FEW: u32 = 16;

// Passes the records that the rule holds back, up to one that it doesn't.
#[inline]
fn settle<S: Source, R: Rule>(source: &mut S, rule: &mut R) -> Result<(), NoMemory>
    requires { ∥ R.HasObserved rule.old (S.whole source.old) (S.rest source.old) ∥₁ }
    ensures whole { S.whole source.new ≡ S.whole source.old }
    ensures same { R.admits rule.new ≡ R.admits rule.old }
    ensures rest { OnOk result (filter (R.admits rule.old (S.whole source.old)) (S.rest source.new) ≡ filter (R.admits rule.old (S.whole source.old)) (S.rest source.old)) }
    ensures settled { OnOk result (is_settled (R.admits rule.old (S.whole source.old)) (S.rest source.new) ≡ true) }
    ensures observed { OnOk result (∥ R.HasObserved rule.new (S.whole source.old) (tail (S.rest source.new)) ∥₁) }
{
    let mut passed = 0;
    while let Some(record) = source.top() {
        if rule.observe(&record)? {
            return Ok(());
        }
        if passed < FEW {
            passed += 1;
            source.advance()?;
        } else {
            passed = 0;
            leap(source, rule)?;
        }
    }
    Ok(())
}

// Goes past the record on top, which was just observed and held back, and past all behind it that the rule knows not to pass.
#[cold]
#[inline(never)]
fn leap<S: Source, R: Rule>(source: &mut S, rule: &mut R) -> Result<(), NoMemory>
    requires observed { ∥ R.HasObserved rule.old (S.whole source.old) (tail (S.rest source.old)) ∥₁ }
    requires held { is_settled (R.admits rule.old (S.whole source.old)) (S.rest source.old) ≡ false }
    ensures whole { S.whole source.new ≡ S.whole source.old }
    ensures same { R.admits rule.new ≡ R.admits rule.old }
    ensures rest { OnOk result (filter (R.admits rule.old (S.whole source.old)) (S.rest source.new) ≡ filter (R.admits rule.old (S.whole source.old)) (S.rest source.old)) }
    ensures shorter { OnOk result (length (S.rest source.new) < length (S.rest source.old)) }
    ensures observed { OnOk result (∥ R.HasObserved rule.new (S.whole source.old) (S.rest source.new) ∥₁) }
{
    let Some(record) = source.top() else {
        return Ok(());
    };
    if !rule.aim(&record)? {
        source.advance()?;
        return Ok(());
    }
    source.seek(Key {
        timestamp: i64::MAX,
        ..rule.target()
    })?;
    rule.reset();
    Ok(())
}

// Passes the records before the key.
fn pass<S: Source, R: Rule>(source: &mut S, rule: &mut R, key: Key<'_>) -> Result<(), NoMemory>
    requires { ∥ R.HasObserved rule.old (S.whole source.old) (S.rest source.old) ∥₁ }
    ensures whole { S.whole source.new ≡ S.whole source.old }
    ensures same { R.admits rule.new ≡ R.admits rule.old }
    ensures rest { OnOk result (S.rest source.new ≡ from_key (key_of key.entry) (S.rest source.old)) }
    ensures observed { OnOk result (∥ R.HasObserved rule.new (S.whole source.old) (S.rest source.new) ∥₁) }
{
    while let Some(record) = source.top() {
        if record.key().cmp(key).is_ge() {
            break;
        }
        let _ = rule.observe(&record)?;
        source.advance()?;
    }
    Ok(())
}
