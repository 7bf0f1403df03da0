//! A merge that is held up until another connection's write and scan were answered: nothing is locked meanwhile.
ghost use Rattle.std.specs.Prelude.{◌≡◌, ◌^◌, ◌≤◌};

use crate::asking::{fills, makes_table, named, surely_done};
use crate::books::shared_over;
use crate::serving::served_by;
use crate::signs::Signs;
use crate::talks::{READS_ONE_ROW, WRITES_TOLD};
use std::alloc::Global;
use std::marker::Brand;
use std::process::Abort;
use std::sync::Wait;
use std::sync::ledger::{Blank, Ledger};
use std::thread;
use std::thread::Threads;
use std::time::Clock;
use tab_book::{Receipt, Seat, settle};
use tab_core::Core;
use tab_history::Reply;
use tab_io::memory::{PieceReader, PieceWriter};
use tab_serve::ListedMoments;
use tab_work::{Claims, Compactor, Gate, OpenGate, Shared};

// It holds a merge up until the other connection was answered.
#[derive(Drop)]
struct HoldingGate<'a, R> {
    rt: &'a R,
    signs: &'a Signs,
}

impl<R: Clock> Gate for HoldingGate<'_, R> {
    fn before_merge(&self) {
        self.signs.hold(self.rt);
    }

    fn before_batch(&self) {}

    fn after_write(&self) {}
}

// A seat that comes back, and its receipts.
#[derive(Drop)]
struct Worked<L: Ledger> {
    seat: Seat<L>,
    receipts: Vec<Receipt<L>>,
}

// The table is made, and 4,500 cells are put to it: a minor compaction is due.
fn fill<L: Ledger, R: Wait + Abort>(
    rt: &R,
    alloc: Global,
    shared: &Shared<L>,
    seat: &mut Seat<L>,
    receipts: &mut Vec<Receipt<L>>,
) {
    let made = surely_done(rt, alloc, shared, seat, makes_table(rt));
    receipts.push(made).expect(rt, "memory");
    for row in 0..5u8 {
        let filled = fills(rt, alloc, &[b's', row], 900);
        let wrote = surely_done(rt, alloc, shared, seat, filled);
        receipts.push(wrote).expect(rt, "memory");
    }
}

// Whether work on the table is due.
fn is_due<L: Ledger, R: Wait + Abort>(rt: &R, alloc: Global, shared: &Shared<L>) -> bool {
    let due = shared.due(rt, alloc).expect(rt, "memory");
    match &due {
        Some((_, table, _)) => table.as_bytes() == b"t".as_slice(),
        None => false,
    }
}

// What is due is compacted, the merge held up.
fn compacts_held_up<L: Ledger, R: Threads + Wait + Abort + Clock + Sync>(
    rt: &R,
    alloc: Global,
    shared: &Shared<L>,
    seat: Seat<L>,
    signs: &Signs,
) -> Worked<L> {
    let gate = HoldingGate { rt, signs };
    let claims = Claims::new(alloc);
    let moments = ListedMoments::new(Vec::new(alloc));
    let root = named(rt, b"root");
    let mut compactor = Compactor::new(rt, alloc, shared, seat, root, moments, &claims, &gate);
    compactor.compact();
    let (seat, receipts) = compactor.into_parts();
    Worked { seat, receipts }
}

// What a connection is told that writes into the table and reads it while the merge is held up, and whether that was.
fn writes_meanwhile<L: Ledger, R: Threads + Wait + Abort + Clock + Sync>(
    rt: &R,
    alloc: Global,
    shared: &Shared<L>,
    worked: Worked<L>,
    signs: &Signs,
) -> (bool, Vec<u8>, Worked<L>) {
    let held = signs.is_held(rt);
    let mut worked = worked;
    let reader = PieceReader::new(READS_ONE_ROW, 64);
    let writer = PieceWriter::new(alloc, 64);
    let (_, bytes) = served_by(
        rt,
        alloc,
        shared,
        &mut worked.seat,
        &mut worked.receipts,
        &OpenGate,
        reader,
        writer,
    );
    signs.answer();
    (held, bytes, worked)
}

// A job was begun, and its merge installed.
fn has_installed<L: Ledger>(receipts: &[Receipt<L>]) -> bool {
    match receipts {
        [begun, installed] => {
            matches!(begun.entry().reply(), Reply::Begun(_))
                && matches!(installed.entry().reply(), Reply::Done)
        }
        _ => false,
    }
}

// Whether all receipts of both settle in the book that is left.
fn settle_both<L: Ledger>(
    rt: &impl Abort,
    alloc: Global,
    shared: Shared<L>,
    first: Worked<L>,
    second: Worked<L>,
) -> bool {
    let mut seats = Vec::new(alloc);
    seats.push(first.seat).expect(rt, "memory");
    seats.push(second.seat).expect(rt, "memory");
    match shared.end(seats) {
        Ok(book) => settle(&book, &first.receipts) && settle(&book, &second.receipts),
        Err(_) => false,
    }
}

fn overlaps<L: Ledger + Send + Sync, R: Threads + Wait + Abort + Clock + Sync>(
    rt: &R,
    alloc: Global,
    core: Core,
    blank: Blank,
)
    requires name { blank.name ≡ L.name }
    requires parts { blank.parts ≡ L.parts }
    requires enough { 2 ^ 32 ≤ blank.parts }
{
    let shared = shared_over::<L, R>(rt, alloc, core, blank);
    let signs = Signs::none();
    let first = shared.join(rt).expect(rt, "a seat");
    let mut seat = shared.join(rt).expect(rt, "a seat");
    let mut receipts = Vec::new(alloc);
    assert!(rt; !is_due(rt, alloc, &shared));
    fill(rt, alloc, &shared, &mut seat, &mut receipts);
    assert!(rt; is_due(rt, alloc, &shared));
    let second = Worked { seat, receipts };
    let (lent, seen) = (&shared, &signs);
    let (compacted, (held, bytes, wrote)) = thread::join(
        rt,
        move || compacts_held_up(rt, alloc, lent, first, seen),
        move || writes_meanwhile(rt, alloc, lent, second, seen),
    );
    assert!(rt; held);
    assert!(rt; !signs.are_late());
    assert!(rt; bytes.as_slice() == WRITES_TOLD);
    assert!(rt; has_installed(&compacted.receipts));
    assert!(rt; !is_due(rt, alloc, &shared));
    assert!(rt; settle_both(rt, alloc, shared, compacted, wrote));
}

// The merge was begun before the write and the scan, which are answered while it's held up, and is installed behind them.
#[test]
fn merge_overlaps_write_and_scan(rt: HostRuntime) {
    let core = Core::new(rt.alloc()).expect(&rt, "memory");
    overlaps::<Brand, _>(&rt, rt.alloc(), core, Blank::new(1 << 32));
}
