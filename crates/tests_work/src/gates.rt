//! Of what a connection's gate is asked and told.
ghost use Rattle.std.specs.Prelude.{◌≡◌, ◌^◌, ◌≤◌};

use crate::books::shared_over;
use crate::serving::served_by;
use crate::talks::{ASKS_GATES, ASKS_GATES_TOLD};
use std::alloc::Global;
use std::marker::Brand;
use std::process::Abort;
use std::sync::Wait;
use std::sync::atomic::{AtomicU32, AtomicU64, Ordering};
use std::sync::ledger::{Blank, Ledger};
use std::thread::Threads;
use tab_core::Core;
use tab_io::memory::{PieceReader, PieceWriter};
use tab_work::Gate;

// It counts how often it is asked before a batch, and told of a write, and keeps the last number of an event that it is told.
#[derive(Drop)]
struct Counting {
    batches: AtomicU32,
    writes: AtomicU32,
    last: AtomicU64,
}

impl Gate for Counting {
    fn before_merge(&self) {}

    fn before_batch(&self) {
        let _ = self.batches.fetch_add(1, Ordering::SeqCst);
    }

    fn after_write(&self) {
        let _ = self.writes.fetch_add(1, Ordering::SeqCst);
    }

    fn after_event(&self, number: u64) {
        self.last.store(number, Ordering::SeqCst);
    }
}

fn counts<L: Ledger, R: Threads + Wait + Abort + Sync>(
    rt: &R,
    alloc: Global,
    core: Core,
    blank: Blank,
)
    requires name { blank.name ≡ L.name }
    requires parts { blank.parts ≡ L.parts }
    requires enough { 2 ^ 32 ≤ blank.parts }
{
    let shared = shared_over::<L, R>(rt, alloc, core, blank);
    let mut seat = shared.join(rt).expect(rt, "a seat");
    let mut receipts = Vec::new(alloc);
    let gate = Counting {
        batches: AtomicU32::new(0),
        writes: AtomicU32::new(0),
        last: AtomicU64::new(0),
    };
    let (ended, bytes) = served_by(
        rt,
        alloc,
        &shared,
        &mut seat,
        &mut receipts,
        &gate,
        PieceReader::new(ASKS_GATES, 64),
        PieceWriter::new(alloc, 64),
    );
    assert!(rt; ended == Ok(()));
    assert!(rt; bytes.as_slice() == ASKS_GATES_TOLD);
    assert!(rt; gate.batches.load(Ordering::SeqCst) == 2);
    assert!(rt; gate.writes.load(Ordering::SeqCst) == 1);
    let many = receipts.len().saturating_sub(1);
    assert!(rt; gate.last.load(Ordering::SeqCst) == many as u64);
    let slice = shared.slice(rt, alloc, 1, 99).expect(rt, "memory");
    assert!(rt; slice.first() == 1);
    assert!(rt; slice.entries().len() == many);
}

// It is asked before each Next, whether its session is there or not, and before nothing else; it is told of a Write that was done, and of
// no refused one. It is told the number of each event, and the book's history has as many entries.
#[test]
fn gate_is_asked_before_each_next(rt: HostRuntime) {
    let core = Core::new(rt.alloc()).expect(&rt, "memory");
    counts::<Brand, _>(&rt, rt.alloc(), core, Blank::new(1 << 32));
}
