//! What a scan reads of a tablet that was frozen often: few clips, all of them of runs.
ghost use Rattle.std.specs.Prelude.{◌≡◌, []};

use super::CLOCK;
use std::alloc::Global;
use std::marker::Model;
use std::process::Abort;
use tab_key::{Bound, Bounds};
use tab_mutation::Mutation;
use tab_tablet::Tablet;
use tab_testing::{Random, mutation_of};
use tab_version::{Clip, Clips};

const ROWS: [&[u8]; 4] = [b"k", b"l", b"m", b"n"];

// A tablet whose records have numbers below the next one.
#[derive(Drop)]
struct Numbered {
    tablet: Tablet,
    next: u64,
}

impl Model for Numbered {
    ghost use Rattle.std.specs.Prelude.{Contains, ◌<◌};
    ghost use Rattle.tab_key.specs.Records.{Record};
    ghost use Rattle.tab_tablet.specs.Tablets.{Tablet as Contents, records_in};

    ghost Value = { Contents };

    ghost view = { λ n. n.tablet };

    ghost invariant = { λ n. (u : Record) → Contains (records_in n.tablet) u → u.seq < n.next };
}

impl Numbered {
    #[tactic(auto, using(crate::proofs::Later::nothing_older))]
    fn new(alloc: Global) -> Numbered {
        Numbered {
            tablet: Tablet::new(alloc, 0),
            next: 0,
        }
    }

    // Writes the mutation, whose shape must be accepted, with the next number.
    fn write(&mut self, rt: &impl Abort, mutation: &Mutation) {
        let shaped = mutation.shaped().expect(rt, "an accepted shape");
        assert!(rt; self.next < u64::MAX);
        self.tablet
            .write(&shaped, self.next, CLOCK)
            .expect(rt, "memory");
        self.next += 1;
    }

    // Freezes what was written.
    fn freeze(&mut self, rt: &impl Abort, alloc: Global) {
        self.tablet = self.tablet.frozen(alloc).expect(rt, "memory");
    }

    // What a scan of all rows reads.
    fn clips(&self, rt: &impl Abort, alloc: Global) -> Clips {
        let all = Bounds {
            low: Bound::Unbounded,
            high: Bound::Unbounded,
        };
        let frozen = self.tablet.frozen(alloc).expect(rt, "memory");
        frozen.clips(alloc, &all).expect(rt, "memory")
    }
}

// Writes so many random mutations, and freezes the tablet after each, or once behind all; how many updates they have.
fn fill(
    rt: &impl Abort,
    alloc: Global,
    random: &mut Random,
    numbered: &mut Numbered,
    count: u64,
    is_often: bool,
) -> usize {
    let mut written = 0usize;
    for _ in 0..count {
        let row = random.one_of(&ROWS);
        let updates = random.updates(alloc, row, 0, CLOCK).expect(rt, "memory");
        if updates.is_empty() {
            continue;
        }
        let mutation = mutation_of(alloc, row, &updates).expect(rt, "memory");
        numbered.write(rt, &mutation);
        written = written.saturating_add(updates.len());
        if is_often {
            numbered.freeze(rt, alloc);
        }
    }
    numbered.freeze(rt, alloc);
    written
}

// How many records the clips have.
fn count_in(clips: &[Clip]) -> usize {
    let mut count = 0usize;
    for clip in clips {
        count = count.saturating_add(clip.len());
    }
    count
}

// A scan reads so many records, of so many clips of runs at most, and of no table.
fn expect_read(rt: &impl Abort, alloc: Global, numbered: &Numbered, written: usize, most: usize) {
    let clips = numbered.clips(rt, alloc);
    assert!(rt; clips.tables().is_empty());
    assert!(rt; clips.runs().len() <= most);
    assert!(rt; count_in(clips.runs()) == written);
}

// Small runs are merged, so that they are as few as the logarithm of their records; one of more than 16,384 is read as it is.
#[test]
fn few_runs_are_read_however_often_a_tablet_is_frozen(rt: HostRuntime) {
    let alloc = rt.alloc();
    let mut random = Random::new(41);
    let mut numbered = Numbered::new(alloc);
    let few = fill(&rt, alloc, &mut random, &mut numbered, 300, true);
    expect_read(&rt, alloc, &numbered, few, 10);
    let many = fill(&rt, alloc, &mut random, &mut numbered, 12_000, false);
    assert!(rt; many > 16_384);
    let both = few.saturating_add(many);
    expect_read(&rt, alloc, &numbered, both, 11);
    let more = fill(&rt, alloc, &mut random, &mut numbered, 300, true);
    expect_read(&rt, alloc, &numbered, both.saturating_add(more), 12);
}
