//! Scans of a tablet, beside the model.

use crate::reading::expect_scan;
use crate::writing::one_tablet;
use std::alloc::{AllocError, Global};
use std::process::Abort;
use tab_mutation::Mutation;
use tab_tablet::Tablet;
use tab_testing::{Query, Random, Update, mutation_of, scanned};
use tab_version::Version;

mod merged_runs;
mod parts;

const ROWS: [&[u8]; 2] = [b"k", b"l"];

// The moment of all writes.
const CLOCK: i64 = 1;

fn random_update(random: &mut Random) -> Update {
    let row = random.one_of(&ROWS);
    random.update(row, 0, 0, CLOCK)
}

// A tablet with this number, of one mutation, whose shape must be accepted.
#[tactic(auto, using(crate::proofs::Later::nothing_older))]
fn written(rt: &impl Abort, alloc: Global, number: u64, mutation: &Mutation) -> Tablet {
    let shaped = mutation.shaped().expect(rt, "an accepted shape");
    let mut tablet = Tablet::new(alloc, number);
    tablet.write(&shaped, 0, CLOCK).expect(rt, "memory");
    tablet
}

// What a scan of the tablet reads.
#[tactic(auto, using(crate::proofs::Later::distinct_read))]
fn read(alloc: Global, tablet: &Tablet, query: &Query) -> Result<Version, AllocError> {
    let frozen = tablet.frozen(alloc)?;
    let _is_frozen = frozen.is_frozen();
    let clips = frozen.clips(alloc, &query.bounds(alloc)?)?;
    one_tablet(alloc, clips)
}

// A scan of the tablet shows what one of the table shows, also from some key on; how many records.
fn compare(
    rt: &impl Abort,
    alloc: Global,
    random: &mut Random,
    tablet: &Tablet,
    table: &[Update],
    query: &Query,
) -> usize {
    let version = read(alloc, tablet, query).expect(rt, "memory");
    let want = scanned(alloc, table, query).expect(rt, "memory");
    expect_scan(rt, alloc, &version, query, &want, &random_update(random));
    want.len()
}

#[test]
fn a_tablet_shows_what_the_model_shows(rt: HostRuntime) {
    let alloc = rt.alloc();
    let mut random = Random::new(5);
    let mut shown = 0usize;
    for _ in 0..400 {
        let row = random.one_of(&ROWS);
        let table = random.updates(alloc, row, 0, CLOCK).expect(&rt, "memory");
        if table.is_empty() {
            continue;
        }
        let tablet = written(
            &rt,
            alloc,
            0,
            &mutation_of(alloc, row, &table).expect(&rt, "memory"),
        );
        for _ in 0..3 {
            let query = random.query(&ROWS);
            let count = compare(&rt, alloc, &mut random, &tablet, &table, &query);
            shown = shown.saturating_add(count);
        }
    }
    assert!(rt; shown > 100, "{shown} records were shown");
}
