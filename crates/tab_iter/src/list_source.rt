//! A source over a list.
ghost use Rattle.std.specs.Prelude.{◌≡◌, ◌↔◌, IsTrue, List, [], Bool, true, false, drop};
ghost use Rattle.std.specs.List.{prefix_len};
ghost use Rattle.std.specs.List.Sorted.{IsStrictlySortedBy-prop};
ghost use Rattle.std.specs.Ordering.{is_lt};
ghost use Rattle.tab_key.specs.KeyOf.{key_of};
ghost use Rattle.tab_key.specs.Order.{key_cmp, record_cmp};
ghost use Rattle.tab_iter.specs.Lists.{IsRising, HasI64Timestamps};
ghost use Rattle.tab_iter.specs.Propositions.{HasI64Timestamps-prop};

use crate::{NoMemory, Source};
use tab_key::{Key, Record, RecordRef};

/// A rising list, and how many of its records were passed.
#[derive(Drop)]
pub struct ListSource {
    records: Vec<Record>,
    passed: usize,
    ghost rising: { IsRising records.items } by { IsStrictlySortedBy-prop record_cmp records.items },
    ghost has_i64_timestamps: { HasI64Timestamps records.items } by { HasI64Timestamps-prop records.items },
}

impl ListSource {
    /// The records, from the first on. [`is_rising`] tests what it asks.
    pub fn new(records: Vec<Record>) -> ListSource
        requires { IsRising records.items }
        ensures whole { ⟦<ListSource as Source>⟧.whole result ≡ records.items }
        ensures rest { ⟦<ListSource as Source>⟧.rest result ≡ records.items }
    {
        read_timestamps(&records);
        ListSource { records, passed: 0 }
    }
}

impl Source for ListSource {
    ghost use Rattle.tab_iter.specs.SourceLaws.{ends_drop, always_positioned};

    ghost whole = { λ s. s.records.items };

    ghost rest = { λ s. drop s.passed s.records.items };

    ghost is_unpositioned = { λ s. false };

    ghost whole_rises = { λ s. s.rising };

    ghost has_i64_timestamps = { λ s. s.has_i64_timestamps };

    ghost rest_is_suffix = { λ s. ends_drop s.passed s.records.items };

    ghost unpositioned_is_empty = { λ s. always_positioned (drop s.passed s.records.items) };

    fn top(&self) -> Option<RecordRef<'_>> {
        match self.records.get(self.passed) {
            None => None,
            Some(record) => Some(record.as_ref()),
        }
    }

    fn advance(&mut self) -> Result<(), NoMemory> {
        if self.passed < self.records.len() {
            self.passed += 1;
        }
        Ok(())
    }

    fn seek(&mut self, key: Key<'_>) -> Result<(), NoMemory> {
        self.passed = count_before(&self.records, key);
        Ok(())
    }
}

/// Whether each record stands before the next.
pub fn is_rising(records: &[Record]) -> bool
    ensures { IsTrue result ↔ IsRising records.now }
{
    for i in 1..records.len() {
        if !records[i - 1].cmp(&records[i]).is_lt() {
            return false;
        }
    }
    true
}

// Reads the timestamps, each of which is an `i64`.
fn read_timestamps(records: &[Record])
    ensures { HasI64Timestamps records.now }
{
    for record in records {
        let _timestamp = record.as_ref().timestamp();
    }
}

// How many records stand before the key.
fn count_before(records: &[Record], key: Key<'_>) -> usize
    ensures { result ≡ prefix_len (λ r. is_lt (key_cmp r.key (key_of key.entry))) records.now }
{
    records
        .iter()
        .take_while(|record| record.as_ref().key().cmp(key).is_lt())
        .count()
}
