//! Runs and versions of what is written.
ghost use Rattle.std.specs.Prelude.{◌≡◌, ◌≤◌, ◌<◌, All, IfOk, OnOk, IsTrue};
ghost use Rattle.tab_key.specs.Sorted.{IsDistinct};
ghost use Rattle.tab_iter.specs.Bags.{flat};
ghost use Rattle.tab_iter.specs.Lists.{IsRising};
ghost use Rattle.tab_version.specs.Sources.{records_of};

use std::alloc::{AllocError, Global};
use std::marker::Model;
use std::process::Abort;
use std::sync::Arc;
use tab_iter::Source;
use tab_key::RecordRef;
use tab_mem::{Active, Run};
use tab_mutation::Mutation;
use tab_testing::{Random, Update, mutation_of};
use tab_version::{Clip, Clips, Version};

/// The moment of all writes.
pub const CLOCK: i64 = 2;

/// What is written, in mutations whose numbers rise. A contract sees the records.
#[derive(Drop)]
pub struct Writer {
    active: Active,
    // above each number so far
    next: u64,
}

impl Model for Writer {
    ghost use Rattle.std.specs.Prelude.{List, Contains, ◌<◌};
    ghost use Rattle.tab_key.specs.Records.{Record};

    ghost Value = { List Record };

    ghost view = { λ w. w.active };

    ghost invariant = { λ w. (u : Record) → Contains w.active u → u.seq < w.next };
}

impl Writer {
    /// Nothing yet.
    #[tactic(auto, using(crate::proofs::Later::nothing_older))]
    pub fn new(alloc: Global) -> Writer {
        Writer {
            active: Active::new(alloc),
            next: 0,
        }
    }

    /// Writes the mutation, whose shape must be accepted, with a number above those before.
    pub fn write(&mut self, rt: &impl Abort, mutation: &Mutation, seq: u64) {
        assert!(rt; seq >= self.next);
        assert!(rt; seq < u64::MAX);
        let shaped = mutation.shaped().expect(rt, "an accepted shape");
        self.active.write(&shaped, seq, CLOCK).expect(rt, "memory");
        self.next = seq + 1;
    }

    /// What was written, frozen; the number of the next mutation may then be any.
    #[tactic(auto, using(crate::proofs::Later::nothing_older))]
    pub fn freeze(&mut self, rt: &impl Abort, alloc: Global) -> Arc<Run> {
        let run = self.active.freeze(alloc).expect(rt, "memory");
        self.active = Active::new(alloc);
        self.next = 0;
        run
    }
}

/// Writes as many random mutations of the rows, numbered from here on, and adds them to the table. One without updates is left out.
pub fn fill(
    rt: &impl Abort,
    alloc: Global,
    random: &mut Random,
    writer: &mut Writer,
    rows: &[&'static [u8]],
    first: u8,
    count: u8,
    table: &mut Vec<Update>,
) {
    for number in 0..count {
        let seq = first.saturating_add(number);
        let row = random.one_of(rows);
        let updates = random.updates(alloc, row, seq, CLOCK).expect(rt, "memory");
        if updates.is_empty() {
            continue;
        }
        let mutation = mutation_of(alloc, row, &updates).expect(rt, "memory");
        writer.write(rt, &mutation, u64::from(seq));
        for update in &updates {
            table.push(*update).expect(rt, "memory");
        }
    }
}

// The records of the clip.
fn records_of<'a>(alloc: Global, clip: &'a Clip) -> Result<Vec<RecordRef<'a>>, AllocError>
    ensures { IfOk result (λ v. v.items ≡ clip.now) }
{
    let mut records = Vec::new(alloc);
    let mut cursor = clip.cursor();
    for _ in 0..clip.len() {
        if let Some(record) = cursor.top() {
            records.push(record)?;
        }
        cursor.advance()?;
    }
    Ok(records)
}

// Whether each record has a number from one up to another, that one excluded.
fn are_between(records: &[RecordRef<'_>], from: u64, to: u64) -> bool
    ensures { IsTrue result → All (λ u. (from ≤ u.seq) × (u.seq < to)) records.now }
{
    for record in records {
        let seq = record.seq();
        if seq < from || seq >= to {
            return false;
        }
    }
    true
}

// Sees that each record of the clip has a number from one up to another, that one excluded.
fn check_between(
    rt: &impl Abort,
    alloc: Global,
    clip: &Clip,
    from: u64,
    to: u64,
) -> Result<(), AllocError>
    ensures rising { OnOk result (IsRising clip.now) }
    ensures order { OnOk result (from ≤ to) }
    ensures between { OnOk result (All (λ u. (from ≤ u.seq) × (u.seq < to)) clip.now) }
{
    let _count = clip.len();
    let records = records_of(alloc, clip)?;
    assert!(rt; from <= to);
    assert!(rt; are_between(&records, from, to));
    Ok(())
}

/// Adds a clip, whose records have later numbers than those before it.
pub fn add(
    rt: &impl Abort,
    alloc: Global,
    clips: &mut Vec<Clip>,
    clip: Clip,
    from: u64,
    to: u64,
) -> Result<(), AllocError>
    requires distinct { IsDistinct (flat clips.old.items) }
    requires older { All (λ u. u.seq < from) (flat clips.old.items) }
    ensures distinct { OnOk result (IsDistinct (flat clips.new.items)) }
    ensures older { OnOk result (All (λ u. u.seq < to) (flat clips.new.items)) }
{
    check_between(rt, alloc, &clip, from, to)?;
    clips.push(clip)?;
    Ok(())
}

/// A version of one tablet, which reads these clips.
pub fn one_tablet(alloc: Global, clips: Clips) -> Result<Version, AllocError>
    requires { IsDistinct (records_of clips) }
{
    let mut tablets = Vec::new(alloc);
    tablets.push(clips)?;
    Ok(Version::of(tablets))
}
