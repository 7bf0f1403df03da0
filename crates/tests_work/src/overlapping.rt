//! A batch that is held up until another connection's write was answered: nothing is locked meanwhile.
ghost use Rattle.std.specs.Prelude.{◌≡◌, ◌^◌, ◌≤◌};

use crate::books::shared_over;
use crate::serving::served_by;
use crate::signs::Signs;
use crate::talks::{WRITES, WRITES_TOLD, asked, told};
use std::alloc::Global;
use std::marker::Brand;
use std::process::Abort;
use std::sync::Wait;
use std::sync::ledger::{Blank, Ledger};
use std::thread;
use std::thread::Threads;
use std::time::Clock;
use tab_book::Seat;
use tab_core::Core;
use tab_io::memory::{PieceReader, PieceWriter};
use tab_work::{Gate, OpenGate, Shared};

// It holds a batch up until the other connection was answered.
#[derive(Drop)]
struct HoldingGate<'a, R> {
    rt: &'a R,
    signs: &'a Signs,
}

impl<R: Clock> Gate for HoldingGate<'_, R> {
    fn before_merge(&self) {}

    fn before_batch(&self) {
        self.signs.hold(self.rt);
    }

    fn after_write(&self) {}
}

// What a connection is told that makes a table and reads it, its batch held up.
fn reads_held_up<L: Ledger, R: Threads + Wait + Abort + Clock + Sync>(
    rt: &R,
    alloc: Global,
    shared: &Shared<L>,
    seat: Seat<L>,
    signs: &Signs,
) -> Vec<u8> {
    let mut seat = seat;
    let mut receipts = Vec::new(alloc);
    let reader = PieceReader::new(asked(1), 64);
    let writer = PieceWriter::new(alloc, 64);
    let gate = HoldingGate { rt, signs };
    served_by(
        rt,
        alloc,
        shared,
        &mut seat,
        &mut receipts,
        &gate,
        reader,
        writer,
    )
    .1
}

// What a connection is told that writes into the table and reads it while the other one is held up, and whether that one was.
fn writes_meanwhile<L: Ledger, R: Threads + Wait + Abort + Clock + Sync>(
    rt: &R,
    alloc: Global,
    shared: &Shared<L>,
    seat: Seat<L>,
    signs: &Signs,
) -> (bool, Vec<u8>) {
    let held = signs.is_held(rt);
    let mut seat = seat;
    let mut receipts = Vec::new(alloc);
    let reader = PieceReader::new(WRITES, 64);
    let writer = PieceWriter::new(alloc, 64);
    let (_, bytes) = served_by(
        rt,
        alloc,
        shared,
        &mut seat,
        &mut receipts,
        &OpenGate,
        reader,
        writer,
    );
    signs.answer();
    (held, bytes)
}

fn overlaps<L: Ledger + Send + Sync, R: Threads + Wait + Abort + Clock + Sync>(
    rt: &R,
    alloc: Global,
    core: Core,
    blank: Blank,
)
    requires name { blank.name ≡ L.name }
    requires parts { blank.parts ≡ L.parts }
    requires enough { 2 ^ 32 ≤ blank.parts }
{
    let shared = shared_over::<L, R>(rt, alloc, core, blank);
    let signs = Signs::none();
    let first = shared.join(rt).expect(rt, "a seat");
    let second = shared.join(rt).expect(rt, "a seat");
    let (lent, seen) = (&shared, &signs);
    let (read, (held, written)) = thread::join(
        rt,
        move || reads_held_up(rt, alloc, lent, first, seen),
        move || writes_meanwhile(rt, alloc, lent, second, seen),
    );
    assert!(rt; held);
    assert!(rt; !signs.are_late());
    assert!(rt; written.as_slice() == WRITES_TOLD);
    assert!(rt; read.as_slice() == told(1));
}

// The session was opened before the write, and its batch, which was held up until behind it, shows nothing of it.
#[test]
fn batch_overlaps_write(rt: HostRuntime) {
    let core = Core::new(rt.alloc()).expect(&rt, "memory");
    overlaps::<Brand, _>(&rt, rt.alloc(), core, Blank::new(1 << 32));
}
