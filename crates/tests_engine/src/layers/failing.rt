//! A source that answers NoMemory once, under each layer and under all of them.
ghost use Rattle.std.specs.Prelude.{◌≡◌, IfOk, map};
ghost use Rattle.tab_key.specs.Sorted.{IsDistinct};
ghost use Rattle.tab_iter.specs.Bags.{flat};

use super::{dealt, reads, records_of, source_of};
use crate::reading::unjudged;
use std::alloc::{AllocError, Global};
use std::process::Abort;
use tab_iter::{
    DeletingRule, FetchingRule, Filtered, ListSource, Merging, NoMemory, Rule, Source,
    VersioningRule, VisibleRule, stack_of, stack_unread,
};
use tab_key::{Key, RecordRef};
use tab_table::SortedTable;
use tab_testing::{auths_of, family};

// A source that answers NoMemory once, at the call behind so many others.
#[derive(Drop)]
struct Failing<S: Source> {
    source: S,
    calls: u64,
    unpositioned: bool,
}

impl<S: Source> Failing<S> {
    fn new(source: S, calls: u64) -> Failing<S>
        ensures whole { ⟦<Failing<S> as Source>⟧.whole result ≡ S.whole source }
        ensures rest { ⟦<Failing<S> as Source>⟧.rest result ≡ S.rest source }
    {
        Failing {
            source,
            calls,
            unpositioned: false,
        }
    }

    // Counts a call, and tells whether it is the one that fails.
    fn is_due(&mut self) -> bool
        ensures source { self.new.source ≡ self.old.source }
        ensures unpositioned { self.new.unpositioned ≡ self.old.unpositioned }
    {
        let is_due = self.calls == 0;
        self.calls = self.calls.wrapping_sub(1);
        is_due
    }
}

impl<S: Source> Source for Failing<S> {
    ghost use Rattle.tab_iter.specs.Positions.{unless};
    ghost use Rattle.tab_iter.specs.SourceLaws.{unless_ends, unless_empty};

    ghost whole = { λ f. S.whole f.source };

    ghost rest = { λ f. unless f.unpositioned (S.rest f.source) };

    ghost is_unpositioned = { λ f. f.unpositioned };

    ghost whole_rises = { λ f. S.whole_rises f.source };

    ghost has_i64_timestamps = { λ f. S.has_i64_timestamps f.source };

    ghost rest_is_suffix = { λ f. unless_ends f.unpositioned (S.rest f.source) (S.whole f.source) (λ _. S.rest_is_suffix f.source) };

    ghost unpositioned_is_empty = { λ f. unless_empty f.unpositioned (S.rest f.source) };

    fn top(&self) -> Option<RecordRef<'_>> {
        if self.unpositioned {
            None
        } else {
            self.source.top()
        }
    }

    fn advance(&mut self) -> Result<(), NoMemory> {
        if self.unpositioned {
            return Err(AllocError);
        }
        self.unpositioned = true;
        if self.is_due() {
            return Err(AllocError);
        }
        self.source.advance()?;
        self.unpositioned = false;
        Ok(())
    }

    fn seek(&mut self, key: Key<'_>) -> Result<(), NoMemory> {
        self.unpositioned = true;
        if self.is_due() {
            return Err(AllocError);
        }
        self.source.seek(key)?;
        self.unpositioned = false;
        Ok(())
    }
}

// A key before all others.
fn start() -> Key<'static> {
    Key {
        row: b"",
        family: b"",
        qualifier: b"",
        label: b"",
        timestamp: 0,
    }
}

// Whether the source answers NoMemory while it is read. Up to there it gives these records.
fn fails<S: Source>(rt: &impl Abort, source: &mut S, want: &[u64]) -> bool {
    for i in 0..100 {
        let number = source.top().map(|record| record.seq());
        assert!(rt; number == want.get(i).copied());
        if source.advance().is_err() {
            return true;
        }
    }
    false
}

// There is no top, and each advance answers NoMemory.
fn stays_unpositioned<S: Source>(rt: &impl Abort, source: &mut S) {
    for _ in 0..3 {
        assert!(rt; source.top().is_none());
        assert!(rt; source.advance().is_err());
    }
}

// Reads again and again, and goes on after the fault wherever it comes.
fn recovers<S: Source>(rt: &impl Abort, alloc: Global, source: &mut S, want: &[u64]) {
    for _ in 0..20 {
        if fails(rt, source, want) {
            stays_unpositioned(rt, source);
        }
        if source.seek(start()).is_err() {
            stays_unpositioned(rt, source);
            assert!(rt; source.seek(start()).is_ok());
        }
    }
    reads(rt, alloc, source, want)
}

// The table as a source that fails at the call behind so many others.
fn failing_table(
    rt: &impl Abort,
    alloc: Global,
    calls: u64,
) -> Result<Failing<ListSource>, AllocError>
    ensures { IfOk result (λ f. ⟦<Failing<ListSource> as Source>⟧.rest f ≡ ⟦<Failing<ListSource> as Source>⟧.whole f) }
{
    let source = source_of(rt, records_of(alloc, 1, 0)?);
    Ok(Failing::new(source, calls))
}

// A layer over the failing table, by a rule of the caller's.
fn filters<R: Rule + Drop>(rt: &impl Abort, alloc: Global, calls: u64, rule: R, want: &[u64]) {
    let source = failing_table(rt, alloc, calls).expect(rt, "memory");
    if let Ok(mut layer) = Filtered::new(source, rule) {
        recovers(rt, alloc, &mut layer, want);
    }
}

#[test]
fn recovers_alone(rt: HostRuntime) {
    let alloc = rt.alloc();
    let all = [7, 6, 8, 5, 4, 10, 9, 3, 11, 12, 14, 13, 15, 16, 17];
    for calls in 0..120 {
        let mut source = failing_table(&rt, alloc, calls).expect(&rt, "memory");
        recovers(&rt, alloc, &mut source, &all);
    }
}

// Layers by rules that ask for nothing but the records.
fn recovers_unasked(rt: &impl Abort, alloc: Global, calls: u64) {
    let left = [7, 10, 9, 3, 11, 12, 14, 16, 17];
    filters(rt, alloc, calls, DeletingRule::new(alloc, false), &left);
    let newest = [7, 6, 10, 11, 12, 14, 13, 16, 17];
    let rule = VersioningRule::new(alloc, 1, true);
    filters(rt, alloc, calls, rule, &newest);
}

#[test]
fn recovers_filtered(rt: HostRuntime) {
    for calls in 0..120 {
        recovers_unasked(&rt, rt.alloc(), calls);
    }
}

#[test]
fn recovers_fetched_and_seen(rt: HostRuntime) {
    let alloc = rt.alloc();
    let auths = auths_of(alloc, &[b"A"]).expect(&rt, "memory");
    let columns = [family(alloc, b"g").expect(&rt, "memory")];
    let seen = [7, 6, 8, 5, 4, 10, 9, 3, 12, 14, 13, 15, 16];
    for calls in 0..120 {
        let rule = FetchingRule::new(alloc, &columns);
        filters(&rt, alloc, calls, rule, &[14, 13, 15, 16]);
        let rule = VisibleRule::new(&auths, unjudged(alloc, &auths));
        filters(&rt, alloc, calls, rule, &seen);
    }
}

// The table dealt to three sources, one of which fails at the call behind so many others.
fn failing_parts(
    rt: &impl Abort,
    alloc: Global,
    calls: u64,
) -> Result<Vec<Failing<ListSource>>, AllocError>
    ensures distinct { IfOk result (λ v. IsDistinct (flat (map ⟦<Failing<ListSource> as Source>⟧.whole v.items))) }
    ensures at_start { IfOk result (λ v. map ⟦<Failing<ListSource> as Source>⟧.rest v.items ≡ map ⟦<Failing<ListSource> as Source>⟧.whole v.items) }
{
    let mut left = dealt(rt, alloc)?;
    let mut parts = Vec::new(alloc);
    let failing = calls % 3;
    while let Some(source) = left.pop() {
        let is_failing = parts.len() as u64 == failing;
        let calls = if is_failing { calls } else { u64::MAX };
        parts.insert(0, Failing::new(source, calls))?;
    }
    Ok(parts)
}

#[test]
fn recovers_merged(rt: HostRuntime) {
    let alloc = rt.alloc();
    let all = [7, 6, 8, 5, 4, 10, 9, 3, 11, 12, 14, 13, 15, 16, 17];
    for calls in 0..60 {
        let merged = Merging::new(failing_parts(&rt, alloc, calls).expect(&rt, "memory"));
        let mut merged = merged.expect(&rt, "memory");
        recovers(&rt, alloc, &mut merged, &all);
    }
}

#[test]
fn recovers_stacked(rt: HostRuntime) {
    let alloc = rt.alloc();
    let auths = auths_of(alloc, &[b"A"]).expect(&rt, "memory");
    for calls in 0..60 {
        let merged = Merging::new(failing_parts(&rt, alloc, calls).expect(&rt, "memory"));
        let merged = merged.expect(&rt, "memory");
        if let Ok(mut stack) = stack_of(alloc, merged, &[], &auths, unjudged(alloc, &auths), 2) {
            recovers(&rt, alloc, &mut stack, &[7, 10, 9, 12, 14, 16]);
        }
    }
}

// A seek to a key before all others begins with the first record shown.
#[test]
fn reads_from_a_key(rt: HostRuntime) {
    let alloc = rt.alloc();
    let auths = auths_of(alloc, &[b"A"]).expect(&rt, "memory");
    let parts = dealt(&rt, alloc).expect(&rt, "memory");
    let merged = Merging::unpositioned(parts).expect(&rt, "memory");
    let mut stack = stack_unread(alloc, merged, &[], &auths, unjudged(alloc, &auths), 2);
    stack.seek(start()).expect(&rt, "memory");
    reads(&rt, alloc, &mut stack, &[7, 10, 9, 12, 14, 16]);
}

// A source that lost its position has no table, and one after a seek.
#[test]
fn builds_no_table_unpositioned(rt: HostRuntime) {
    let alloc = rt.alloc();
    let mut source = failing_table(&rt, alloc, 0).expect(&rt, "memory");
    assert!(rt; source.advance().is_err());
    assert!(rt; SortedTable::build(alloc, &mut source, 0, 0).is_err());
    source.seek(start()).expect(&rt, "memory");
    let table = SortedTable::build(alloc, &mut source, 0, 0).expect(&rt, "memory");
    assert!(rt; table.len() == 15);
}
