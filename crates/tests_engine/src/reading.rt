//! What a source has left.
ghost use Rattle.tab_iter.specs.Verdicts.{IsSound};

use std::alloc::Global;
use std::process::Abort;
use tab_iter::{Source, Verdicts};
use tab_key::{Column, Record};
use tab_label::AuthSet;
use tab_testing::{Query, Update, from_key};
use tab_version::{Caches, Version};

/// No verdicts on labels yet, under these authorizations.
pub fn unjudged(alloc: Global, auths: &AuthSet) -> Verdicts
    ensures { IsSound auths.now result }
{
    let _count = auths.len();
    Verdicts::none(alloc)
}

/// The source has the records of these updates left, and no others.
pub fn expect_rest<S: Source>(rt: &impl Abort, source: &mut S, want: &[Update]) {
    for update in want {
        let is_next = source.top().is_some_and(|record| update.is_record(&record));
        assert!(rt; is_next);
        source.advance().expect(rt, "memory");
    }
    assert!(rt; source.top().is_none());
}

/// The version has the records of these updates, and no others.
pub fn expect_raw<'a>(rt: &impl Abort, alloc: Global, version: &'a Version, want: &[Update]) {
    let mut raw = version.raw(alloc).expect(rt, "memory");
    expect_rest(rt, &mut raw, want);
}

// The records that a stack has left, of which there are few. (A generic call over one can't be given the updates.)
fn rest_of<S: Source>(rt: &impl Abort, alloc: Global, source: &mut S) -> Vec<Record> {
    let mut records = Vec::new(alloc);
    for _ in 0..1000 {
        let Some(record) = source.top() else {
            return records;
        };
        let copy = Record::of(alloc, &record).expect(rt, "memory");
        records.push(copy).expect(rt, "memory");
        source.advance().expect(rt, "memory");
    }
    records
}

// These are the records of the updates, one by one.
fn expect_same(rt: &impl Abort, records: &[Record], want: &[Update]) {
    assert!(rt; records.len() == want.len());
    for (record, update) in records.iter().zip(want) {
        assert!(rt; update.is_record(&record.as_ref()));
    }
}

// The version's stack has the records of these updates, and no others, also from a key on.
fn expect_stack<'a>(
    rt: &impl Abort,
    alloc: Global,
    version: &'a Version,
    columns: &'a [Column],
    auths: &'a AuthSet,
    versions: u32,
    want: &[Update],
    sought: &Update,
) {
    let verdicts = unjudged(alloc, auths);
    let caches = Caches::of(alloc, 8);
    let stack = version.stack(alloc, columns, auths, verdicts, caches, versions);
    let mut stack = stack.expect(rt, "memory");
    expect_same(rt, &rest_of(rt, alloc, &mut stack), want);
    Source::seek(&mut stack, sought.key()).expect(rt, "memory");
    let left = from_key(alloc, want, sought).expect(rt, "memory");
    expect_same(rt, &rest_of(rt, alloc, &mut stack), &left);
}

/// A scan of the version shows the records of these updates, and no others, also from a key on.
pub fn expect_scan(
    rt: &impl Abort,
    alloc: Global,
    version: &Version,
    query: &Query,
    want: &[Update],
    sought: &Update,
) {
    let columns = query.columns(alloc).expect(rt, "memory");
    let auths = query.auths(alloc).expect(rt, "memory");
    let versions = query.versions;
    expect_stack(rt, alloc, version, &columns, &auths, versions, want, sought)
}
