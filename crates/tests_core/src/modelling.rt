//! Random writes, scans, flushes, compactions, splits and settings through a core, beside the model of the updates that it accepted.

use crate::steps::named;
use std::alloc::Global;
use std::process::Abort;
use tab_core::{Answer, Core, Session};
use tab_history::{Act, Event, Extent, Refusal, Reply, Scan, SplitFault, TimeMode, Versions};
use tab_key::{ByteString, Cells, Items};
use tab_testing::{Query, Random, Update, auths_of, mutation_of, scanned};

const ROWS: [&[u8]; 3] = [b"k", b"l", b"m"];

// What the table shows and takes.
#[derive(Clone, Copy)]
struct Limits {
    // so many versions of a column
    versions: u32,
    // no update below this time
    horizon: i64,
}

// What root is answered.
fn asked(rt: &impl Abort, core: &mut Core, alloc: Global, moment: u8, act: Act) -> Answer {
    let user = named(rt, b"root");
    let moment = i64::from(moment);
    core.step(alloc, Event { user, moment, act })
}

// Whether what root asks is done.
fn is_done(rt: &impl Abort, core: &mut Core, alloc: Global, moment: u8, act: Act) -> bool {
    matches!(asked(rt, core, alloc, moment, act), Reply::Done)
}

fn versions_of(rt: &impl Abort, many: u32) -> Versions {
    Versions::new(u64::from(many)).expect(rt, "1 to 1,000")
}

// A core with the table `t`, which shows so many versions, and with root's authorizations A and B.
fn prepared(rt: &impl Abort, alloc: Global, versions: u32) -> Core {
    let mut core = Core::new(alloc).expect(rt, "memory");
    let made = Act::CreateTable(named(rt, b"t"), TimeMode::Any, versions_of(rt, versions));
    assert!(rt; is_done(rt, &mut core, alloc, 0, made));
    let held = auths_of(alloc, &[b"A", b"B"]).expect(rt, "memory");
    let held = Act::SetAuths(named(rt, b"root"), held);
    assert!(rt; is_done(rt, &mut core, alloc, 0, held));
    core
}

// Up to four updates of a row, one in forty under a malformed label.
fn random_updates(rt: &impl Abort, alloc: Global, random: &mut Random, moment: u8) -> Vec<Update> {
    let row = random.one_of(&ROWS);
    let mut updates = random
        .updates(alloc, row, moment, i64::from(moment))
        .expect(rt, "memory");
    for update in updates.iter_mut() {
        if random.below(40) == 0 {
            update.label = b"(";
        }
    }
    updates
}

// Whether the label is well-formed, and the time isn't below the horizon.
fn is_fit(update: &Update, horizon: i64) -> bool {
    update.label != b"(".as_slice() && update.timestamp >= horizon
}

// A core accepts a mutation of such updates, unless it is empty.
fn is_acceptable(updates: &[Update], horizon: i64) -> bool {
    !updates.is_empty() && updates.iter().all(|update| is_fit(update, horizon))
}

// Asks the core to write the mutation, and adds it to the table if the core is to accept it.
fn write(
    rt: &impl Abort,
    alloc: Global,
    core: &mut Core,
    table: &mut Vec<Update>,
    moment: u8,
    horizon: i64,
    updates: &[Update],
) {
    let row = updates.first().map_or(b"k".as_slice(), |update| update.row);
    let mutation = mutation_of(alloc, row, updates).expect(rt, "memory");
    let act = Act::Write(named(rt, b"t"), mutation);
    let is_accepted = is_done(rt, core, alloc, moment, act);
    assert!(rt; is_accepted == is_acceptable(updates, horizon));
    if is_accepted {
        for update in updates {
            table.push(*update).expect(rt, "memory");
        }
    }
}

// The batch is as long as was asked, or as the rest of the updates, and begins that rest; what is left then.
fn expect_batch<'a>(
    rt: &impl Abort,
    batch: &Cells,
    count: u32,
    rest: &'a [Update],
) -> &'a [Update] {
    assert!(rt; batch.len() == rest.len().min(count as usize));
    for (index, update) in rest.iter().take(batch.len()).enumerate() {
        assert!(rt; update.is_cell(&batch.get(index)));
    }
    rest.get(batch.len()..).unwrap_or(&[])
}

// The session shows these updates, in batches of 1, 2 and 1,000 in turn, beginning with any of the three.
fn expect_cells(rt: &impl Abort, alloc: Global, mut session: Session, first: u64, want: &[Update]) {
    let mut rest = want;
    for turn in 0..4u64 {
        let count = [1, 2, 1000][(first % 3 + turn) as usize % 3];
        let batch = session.next_batch(alloc, count).expect(rt, "memory");
        rest = expect_batch(rt, &batch, count, rest);
    }
    assert!(rt; rest.is_empty());
}

fn scan_of(rt: &impl Abort, alloc: Global, query: &Query) -> Scan {
    Scan {
        table: named(rt, b"t"),
        bounds: query.bounds(alloc).expect(rt, "memory"),
        columns: Items::from_vec(query.columns(alloc).expect(rt, "memory")),
        authorizations: query.auths(alloc).expect(rt, "memory"),
    }
}

// What root is answered whose scan is lent.
fn lent(rt: &impl Abort, core: &mut Core, alloc: Global, moment: u8, mut scan: Scan) -> Answer {
    let user = named(rt, b"root");
    core.open_lent(alloc, &user, i64::from(moment), &mut scan)
}

// The session of the scan, unless it is refused. At odd moments the scan is lent, at even ones the Open is handed over.
fn session_of(
    rt: &impl Abort,
    alloc: Global,
    core: &mut Core,
    moment: u8,
    scan: Scan,
) -> Option<Session> {
    let answer = match moment % 2 {
        0 => asked(rt, core, alloc, moment, Act::Open(scan)),
        _ => lent(rt, core, alloc, moment, scan),
    };
    let (_told, session, _job) = answer.into_parts();
    session
}

// The session gives what the model shows; how many cells.
fn expect_shown(
    rt: &impl Abort,
    alloc: Global,
    session: Session,
    table: &[Update],
    moment: u8,
    query: &Query,
) -> usize {
    let want = scanned(alloc, table, query).expect(rt, "memory");
    expect_cells(rt, alloc, session, u64::from(moment), &want);
    want.len()
}

// A session of the core gives what the model shows; how many cells. A range that is backwards is refused.
fn expect_scan(
    rt: &impl Abort,
    alloc: Global,
    core: &mut Core,
    table: &[Update],
    moment: u8,
    query: &Query,
) -> usize {
    let scan = scan_of(rt, alloc, query);
    let is_bad = scan.bounds.is_bad();
    match session_of(rt, alloc, core, moment, scan) {
        Some(session) => expect_shown(rt, alloc, session, table, moment, query),
        None => {
            assert!(rt; is_bad);
            0
        }
    }
}

// A flush or a compaction of the table. It changes nothing that is shown.
fn compact(rt: &impl Abort, alloc: Global, core: &mut Core, moment: u8, random: &mut Random) {
    let table = named(rt, b"t");
    let act = match random.below(3) {
        0 => Act::Flush(table),
        1 => Act::Compact(table, Extent::Partial),
        _ => Act::Compact(table, Extent::Full),
    };
    assert!(rt; is_done(rt, core, alloc, moment, act));
}

// A split of the table at one of the rows, at which it may be split already. It changes nothing that is shown.
fn split(rt: &impl Abort, alloc: Global, core: &mut Core, moment: u8, random: &mut Random) {
    let row = ByteString::from_slice(alloc, random.one_of(&ROWS)).expect(rt, "memory");
    let reply = asked(rt, core, alloc, moment, Act::AddSplit(named(rt, b"t"), row));
    assert!(rt;
        matches!(
            reply,
            Reply::Done | Reply::Refused(Refusal::BadSplit(SplitFault::Present))
        )
    );
}

// A write of random updates.
fn write_random(
    rt: &impl Abort,
    alloc: Global,
    core: &mut Core,
    table: &mut Vec<Update>,
    moment: u8,
    horizon: i64,
    random: &mut Random,
) {
    let updates = random_updates(rt, alloc, random, moment);
    write(rt, alloc, core, table, moment, horizon, &updates)
}

// From now on the table shows so many versions, unless these are more.
fn lower_versions(
    rt: &impl Abort,
    alloc: Global,
    core: &mut Core,
    moment: u8,
    limits: &mut Limits,
    many: u32,
) {
    let act = Act::SetVersions(named(rt, b"t"), versions_of(rt, many));
    let is_taken = many <= limits.versions;
    assert!(rt; is_done(rt, core, alloc, moment, act) == is_taken);
    if is_taken {
        limits.versions = many;
    }
}

// From now on the table takes nothing below this time, unless its horizon is higher.
fn raise_horizon(
    rt: &impl Abort,
    alloc: Global,
    core: &mut Core,
    moment: u8,
    limits: &mut Limits,
    horizon: i64,
) {
    let act = Act::SetHorizon(named(rt, b"t"), horizon);
    let is_taken = horizon >= limits.horizon;
    assert!(rt; is_done(rt, core, alloc, moment, act) == is_taken);
    if is_taken {
        limits.horizon = horizon;
    }
}

// Once in a while a setting of the table.
fn set_random(
    rt: &impl Abort,
    alloc: Global,
    core: &mut Core,
    moment: u8,
    limits: &mut Limits,
    random: &mut Random,
) {
    let number = random.below(3) as u32;
    match random.below(32) {
        0 => lower_versions(rt, alloc, core, moment, limits, 1 + number),
        1 => raise_horizon(rt, alloc, core, moment, limits, i64::from(number)),
        _ => {}
    }
}

// A scan by a random query of so many versions; how many cells were shown.
fn scan_random(
    rt: &impl Abort,
    alloc: Global,
    core: &mut Core,
    table: &[Update],
    moment: u8,
    versions: u32,
    random: &mut Random,
) -> usize {
    let query = Query {
        versions,
        ..random.query(&ROWS)
    };
    expect_scan(rt, alloc, core, table, moment, &query)
}

// A write, a scan, a compaction or a split; how many cells were shown.
fn step(
    rt: &impl Abort,
    alloc: Global,
    core: &mut Core,
    table: &mut Vec<Update>,
    moment: u8,
    limits: Limits,
    random: &mut Random,
) -> usize {
    match random.below(8) {
        0..=1 => return scan_random(rt, alloc, core, table, moment, limits.versions, random),
        2..=3 => compact(rt, alloc, core, moment, random),
        4 => split(rt, alloc, core, moment, random),
        _ => write_random(rt, alloc, core, table, moment, limits.horizon, random),
    }
    0
}

// Thirty of these over a new table, and settings between them; how many cells were shown.
fn play(rt: &impl Abort, alloc: Global, random: &mut Random) -> usize {
    let versions = 1 + random.below(3) as u32;
    let horizon = i64::MIN;
    let mut limits = Limits { versions, horizon };
    let mut core = prepared(rt, alloc, versions);
    let mut table = Vec::new(alloc);
    let mut shown = 0usize;
    for moment in 0..30u8 {
        set_random(rt, alloc, &mut core, moment, &mut limits, random);
        let count = step(rt, alloc, &mut core, &mut table, moment, limits, random);
        shown = shown.saturating_add(count);
    }
    shown
}

#[test]
fn a_core_shows_what_the_model_shows(rt: HostRuntime) {
    let mut random = Random::new(11);
    let mut shown = 0usize;
    for _ in 0..2000 {
        let count = play(&rt, rt.alloc(), &mut random);
        shown = shown.saturating_add(count);
    }
    assert!(rt; shown > 10_000, "{shown} cells were shown");
}
