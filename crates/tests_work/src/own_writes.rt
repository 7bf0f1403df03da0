//! A connection that writes and then reads, and the numbers of its receipts.
ghost use Rattle.std.specs.Prelude.{◌≡◌, ◌^◌, ◌≤◌};

use crate::books::shared_over;
use crate::serving::served_by;
use crate::settling::event;
use crate::talks::{asked, told};
use std::alloc::Global;
use std::marker::Brand;
use std::process::Abort;
use std::sync::Wait;
use std::sync::ledger::{Blank, Ledger};
use std::thread::Threads;
use tab_book::Receipt;
use tab_core::Core;
use tab_io::memory::{PieceReader, PieceWriter};
use tab_work::OpenGate;

// The number behind the last receipt, each of which has a greater one than the receipts before it.
fn rising<L: Ledger>(rt: &impl Abort, receipts: &[Receipt<L>]) -> u64 {
    let mut next = 0;
    for receipt in receipts {
        assert!(rt; receipt.number() >= next);
        next = receipt.number().saturating_add(1);
    }
    next
}

fn reads_own_writes<L: Ledger, R: Threads + Wait + Abort + Sync>(
    rt: &R,
    alloc: Global,
    core: Core,
    blank: Blank,
)
    requires name { blank.name ≡ L.name }
    requires parts { blank.parts ≡ L.parts }
    requires enough { 2 ^ 32 ≤ blank.parts }
{
    let shared = shared_over::<L, R>(rt, alloc, core, blank);
    let mut seat = shared.join(rt).expect(rt, "a seat");
    let mut receipts = Vec::new(alloc);
    let (ended, bytes) = served_by(
        rt,
        alloc,
        &shared,
        &mut seat,
        &mut receipts,
        &OpenGate,
        PieceReader::new(asked(5), 64),
        PieceWriter::new(alloc, 64),
    );
    assert!(rt; ended == Ok(()));
    assert!(rt; bytes.as_slice() == told(5));
    assert!(rt; receipts.len() == 5);
    let next = rising(rt, &receipts);
    let later = shared.apply(rt, alloc, &mut seat, event(rt, 9)).ok();
    assert!(rt; later.expect(rt, "memory").number() >= next);
}

// Each scan shows what was written before it, and its receipt has a greater number than the write's. An event of the seat that comes
// behind the connection has a greater one than all of these.
#[test]
fn own_write_is_read(rt: HostRuntime) {
    let core = Core::new(rt.alloc()).expect(&rt, "memory");
    reads_own_writes::<Brand, _>(&rt, rt.alloc(), core, Blank::new(1 << 32));
}
