//! A small table, and what a source over it has left, read whole and after a seek to every record and between any two.
ghost use Rattle.std.specs.Prelude.{◌≡◌, ◌≢◌, IfOk, map, not};
ghost use Rattle.std.specs.List.{list_all};
ghost use Rattle.std.specs.Ordering.{is_eq};
ghost use Rattle.tab_key.specs.Order.{record_cmp};
ghost use Rattle.tab_key.specs.Sorted.{IsDistinct, IsIn};
ghost use Rattle.tab_key.specs.Records.{Record};
ghost use Rattle.std.specs.declared.cmp.Ordering.TheVariants.{Equal};
ghost use Rattle.tab_iter.specs.Bags.{flat};
ghost use Rattle.tab_iter.specs.Lists.{IsRising};

use std::alloc::{AllocError, Global};
use std::process::Abort;
use tab_iter::{ListSource, Source, is_rising};
use tab_key::{Key, Kind, Record};

mod failing;
mod system_iterators;

#[derive(Clone, Copy)]
struct RecordLine {
    key: Key<'static>,
    kind: Kind,
    seq: u64,
}

fn line_of(
    row: &'static [u8],
    column: (&'static [u8], &'static [u8], &'static [u8]),
    timestamp: i64,
    kind: Kind,
    seq: u64,
) -> RecordLine {
    let (family, qualifier, label) = column;
    let key = Key {
        row,
        family,
        qualifier,
        label,
        timestamp,
    };
    RecordLine { key, kind, seq }
}

// A table in its order: versions, puts of one key, markers over and between puts, and labels.
fn lines() -> [RecordLine; 15] {
    [
        line_of(b"a", (b"f", b"p", b""), 9, Kind::Put, 7),
        line_of(b"a", (b"f", b"p", b""), 5, Kind::Delete, 6),
        line_of(b"a", (b"f", b"p", b""), 5, Kind::Put, 8),
        line_of(b"a", (b"f", b"p", b""), 5, Kind::Put, 5),
        line_of(b"a", (b"f", b"p", b""), 3, Kind::Put, 4),
        line_of(b"a", (b"f", b"p", b"A"), 4, Kind::Put, 10),
        line_of(b"a", (b"f", b"p", b"A"), 4, Kind::Put, 9),
        line_of(b"a", (b"f", b"p", b"A"), 2, Kind::Put, 3),
        line_of(b"a", (b"f", b"p", b"B"), 6, Kind::Put, 11),
        line_of(b"a", (b"f", b"q", b""), 1, Kind::Put, 12),
        line_of(b"b", (b"g", b"p", b"A"), 9, Kind::Put, 14),
        line_of(b"b", (b"g", b"p", b"A"), 8, Kind::Delete, 13),
        line_of(b"b", (b"g", b"p", b"A"), 7, Kind::Put, 15),
        line_of(b"b", (b"g", b"p", b"A|B"), 1, Kind::Put, 16),
        line_of(b"c", (b"f", b"p", b"("), 1, Kind::Put, 17),
    ]
}

// The records of the table whose number leaves this when it is divided by so many.
fn records_of(alloc: Global, parts: u64, part: u64) -> Result<Vec<Record>, AllocError> {
    let mut records = Vec::new(alloc);
    for line in &lines() {
        if line.seq.checked_rem(parts) == Some(part) {
            let record = Record::new(alloc, line.key, line.kind, b"v", line.seq, 0)?;
            if let Some(record) = record {
                records.push(record)?;
            }
        }
    }
    Ok(records)
}

// The key, and keys round it: of the same column a timestamp before and after, the column after it, and its row's first.
fn around(key: Key<'static>) -> [Key<'static>; 5] {
    let earlier = Key {
        timestamp: key.timestamp.saturating_add(1),
        ..key
    };
    let later = Key {
        timestamp: key.timestamp.saturating_sub(1),
        ..key
    };
    let next = Key {
        qualifier: b"pp",
        ..key
    };
    let first = Key {
        family: b"",
        qualifier: b"",
        label: b"",
        ..key
    };
    [key, earlier, later, next, first]
}

// Whether the record of this number has a key before this one.
fn is_before(seq: u64, key: Key<'_>) -> bool {
    lines()
        .iter()
        .any(|line| line.seq == seq && line.key.cmp(key).is_lt())
}

// The numbers of these whose keys aren't before the key.
fn from_key(alloc: Global, want: &[u64], key: Key<'_>) -> Result<Vec<u64>, AllocError> {
    let mut left = Vec::new(alloc);
    for seq in want {
        if !is_before(*seq, key) {
            left.push(*seq)?;
        }
    }
    Ok(left)
}

// The source has the records of these numbers left, and no others.
fn expect_numbers<S: Source>(rt: &impl Abort, source: &mut S, want: &[u64]) {
    for seq in want {
        let number = source.top().map(|record| record.seq());
        assert!(rt; number == Some(*seq));
        source.advance().expect(rt, "memory");
    }
    assert!(rt; source.top().is_none());
}

// Reads all of the source, and then what it has left after each seek.
fn reads<S: Source>(rt: &impl Abort, alloc: Global, source: &mut S, want: &[u64]) {
    expect_numbers(rt, source, want);
    for line in &lines() {
        for key in around(line.key) {
            source.seek(key).expect(rt, "memory");
            let left = from_key(alloc, want, key).expect(rt, "memory");
            expect_numbers(rt, source, &left);
        }
    }
}

fn source_of(rt: &impl Abort, records: Vec<Record>) -> ListSource
    ensures rising { IsRising records.items }
    ensures whole { ⟦<ListSource as Source>⟧.whole result ≡ records.items }
    ensures rest { ⟦<ListSource as Source>⟧.rest result ≡ records.items }
{
    assert!(rt; is_rising(&records));
    ListSource::new(records)
}

// Whether no record of the list stands at the place of this one.
fn is_apart(one: &Record, others: &[Record]) -> bool
    ensures { result ≡ list_all (λ y. not (is_eq (record_cmp one.now y))) others.now }
{
    others.iter().all(|other| one.cmp(other).is_ne())
}

// Whether no record of one list stands at the place of one of the other.
fn are_apart(some: &[Record], others: &[Record]) -> bool
    ensures { result ≡ list_all (λ x. list_all (λ y. not (is_eq (record_cmp x y))) others.now) some.now }
{
    some.iter().all(|record| is_apart(record, others))
}

#[tactic(auto, using(crate::proofs::Apart::apart_of))]
fn check_apart(rt: &impl Abort, some: &[Record], others: &[Record])
    ensures { (x y : Record) → IsIn some.now x → IsIn others.now y → record_cmp x y ≢ Equal }
{
    assert!(rt; are_apart(some, others));
}

// The table, dealt to three sources.
fn dealt(rt: &impl Abort, alloc: Global) -> Result<Vec<ListSource>, AllocError>
    ensures distinct { IfOk result (λ v. IsDistinct (flat (map ⟦<ListSource as Source>⟧.whole v.items))) }
    ensures at_start { IfOk result (λ v. map ⟦<ListSource as Source>⟧.rest v.items ≡ map ⟦<ListSource as Source>⟧.whole v.items) }
{
    let first = records_of(alloc, 3, 0)?;
    let second = records_of(alloc, 3, 1)?;
    let third = records_of(alloc, 3, 2)?;
    check_apart(rt, &first, &second);
    check_apart(rt, &first, &third);
    check_apart(rt, &second, &third);
    let mut sources = Vec::new(alloc);
    sources.push(source_of(rt, first))?;
    sources.push(source_of(rt, second))?;
    sources.push(source_of(rt, third))?;
    Ok(sources)
}
