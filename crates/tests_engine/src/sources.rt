//! Sources whose records are numbered by the source, and random ones beside plain data.
ghost use Rattle.std.specs.Prelude.{◌≡◌, All, IfOk, IsTrue};
ghost use Rattle.tab_iter.specs.Lists.{IsRising};

use std::alloc::{AllocError, Global};
use std::marker::Model;
use std::process::Abort;
use std::sync::Arc;
use tab_cells::Compaction;
use tab_compact::{Job, capture};
use tab_iter::NoMemory;
use tab_mem::{Active, Run, RunCursor};
use tab_mutation::Mutation;
use tab_table::SortedTable;
use tab_testing::{Holding, Random, Update, mutation_of};
use tab_version::{Clip, Clips, TableClip};

const ROWS: [&[u8]; 2] = [b"k", b"l"];

// The moment of all writes.
const CLOCK: i64 = 2;

// The numbers of the tablet and of the merge that are captured.
const TABLET: u64 = 7;

const JOB: u64 = 3;

/// Sources, the records of the first of which have the number 0, those of the next 1, and so on.
#[derive(Drop)]
pub struct Numbered {
    sources: Clips,
    count: u8,
}

impl Model for Numbered {
    ghost use Rattle.tab_version.specs.Sources.{Sources};
    ghost use Rattle.tests_engine.specs.Numbered.{IsNumbered};

    ghost Value = { Sources };

    ghost view = { λ n. n.sources };

    ghost invariant = { λ n. IsNumbered n.sources n.count };
}

impl Numbered {
    /// No source.
    #[tactic(auto, using(crate::proofs::Numbered::none_numbered))]
    pub fn new(alloc: Global) -> Numbered {
        Numbered {
            sources: Clips::new(alloc),
            count: 0,
        }
    }

    /// The number of the next source.
    pub fn count(&self) -> u8 {
        self.count
    }

    /// A run more, whose records must have the next number.
    pub fn add_run(&mut self, rt: &impl Abort, run: Arc<Run>) -> Result<(), AllocError> {
        assert!(rt; self.count < 255);
        check_numbered(rt, &run, self.count);
        self.sources.add_run(Clip::whole(run))?;
        self.count += 1;
        Ok(())
    }

    /// A table of the run more, whose records must have the next number.
    pub fn add_table(
        &mut self,
        rt: &impl Abort,
        alloc: Global,
        run: &Run,
    ) -> Result<(), AllocError> {
        assert!(rt; self.count < 255);
        check_numbered(rt, run, self.count);
        self.sources.add_table(tabled(alloc, run)?)?;
        self.count += 1;
        Ok(())
    }

    /// The merge that a compaction of this kind begins, with the numbers `TABLET` and `JOB`.
    pub fn captured(
        &self,
        alloc: Global,
        kind: Compaction,
        floor: i64,
        versions: u32,
    ) -> Result<Option<Job>, NoMemory> {
        capture(alloc, TABLET, JOB, kind, &self.sources, floor, versions)
    }
}

// Whether each record of the run has this number.
fn are_numbered(run: &Run, seq: u8) -> bool
    ensures { IsTrue result → All (λ u. u.seq ≡ seq) run.now }
{
    for index in 0..run.len() {
        if run.get(index).seq() != u64::from(seq) {
            return false;
        }
    }
    true
}

fn check_numbered(rt: &impl Abort, run: &Run, seq: u8)
    ensures rising { IsRising run.now }
    ensures numbers { All (λ u. u.seq ≡ seq) run.now }
{
    let _count = run.len();
    assert!(rt; are_numbered(run, seq));
}

// A table of the run's records.
fn tabled(alloc: Global, run: &Run) -> Result<TableClip, AllocError>
    ensures { IfOk result (λ t. t.records ≡ run.now) }
{
    let _count = run.len();
    let table = SortedTable::build(alloc, &mut RunCursor::new(run), 0, 0)?;
    Ok(TableClip::whole(Arc::new(alloc, table)?))
}

/// A run of the mutation, whose shape must be accepted.
#[tactic(auto, using(crate::proofs::Later::nothing_older))]
pub fn run_of(rt: &impl Abort, alloc: Global, mutation: &Mutation, seq: u8) -> Arc<Run> {
    let shaped = mutation.shaped().expect(rt, "an accepted shape");
    let mut active = Active::new(alloc);
    active
        .write(&shaped, u64::from(seq), CLOCK)
        .expect(rt, "memory");
    active.freeze(alloc).expect(rt, "memory")
}

// One source more, of a random mutation: a run or a table.
fn add_random(
    rt: &impl Abort,
    alloc: Global,
    random: &mut Random,
    numbered: &mut Numbered,
    holding: &mut Holding,
) {
    let seq = numbered.count();
    let row = random.one_of(&ROWS);
    let mut updates = random.updates(alloc, row, seq, CLOCK).expect(rt, "memory");
    if updates.is_empty() {
        updates
            .push(random.update(row, seq, 0, CLOCK))
            .expect(rt, "memory");
    }
    let mutation = mutation_of(alloc, row, &updates).expect(rt, "memory");
    let run = run_of(rt, alloc, &mutation, seq);
    if random.below(2) == 0 {
        numbered.add_run(rt, run).expect(rt, "memory");
        holding.add_run(updates).expect(rt, "memory");
    } else {
        numbered.add_table(rt, alloc, &run).expect(rt, "memory");
        holding.add_table(updates).expect(rt, "memory");
    }
}

/// So many random sources, which are added to what is held.
pub fn random_sources(
    rt: &impl Abort,
    alloc: Global,
    random: &mut Random,
    count: u64,
    holding: &mut Holding,
) -> Numbered {
    let mut numbered = Numbered::new(alloc);
    for _ in 0..count {
        add_random(rt, alloc, random, &mut numbered, holding);
    }
    numbered
}
