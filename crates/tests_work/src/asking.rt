//! Events of root in short, over one table `t`.

use std::alloc::Global;
use std::process::Abort;
use std::sync::Wait;
use std::sync::ledger::Ledger;
use tab_book::{Receipt, Seat};
use tab_history::{Act, Event, Reply, Scan, TimeMode, Versions};
use tab_key::{Bound, Bounds, Items, Name};
use tab_label::AuthSet;
use tab_mutation::Mutation;
use tab_work::Shared;

/// The name that these bytes are.
pub fn named(rt: &impl Abort, bytes: &[u8]) -> Name {
    Name::new(bytes).expect(rt, "a name")
}

/// What root asks at moment 0.
pub fn asks(rt: &impl Abort, act: Act) -> Event {
    let user = named(rt, b"root");
    Event {
        user,
        moment: 0,
        act,
    }
}

/// The table is made.
pub fn makes_table(rt: &impl Abort) -> Event {
    let versions = Versions::new(1).expect(rt, "1 to 1,000");
    asks(
        rt,
        Act::CreateTable(named(rt, b"t"), TimeMode::Any, versions),
    )
}

/// Cells are put to the row, so many, at timestamp 7. Their qualifiers are numbers from 0 on, and their values the same.
pub fn fills(rt: &impl Abort, alloc: Global, row: &[u8], count: u32) -> Event {
    let mut mutation = Mutation::new(alloc, row).expect(rt, "memory");
    for number in 0..count {
        let bytes = number.to_be_bytes();
        mutation
            .put(b"f", &bytes, b"", Some(7), &bytes)
            .expect(rt, "memory");
    }
    asks(rt, Act::Write(named(rt, b"t"), mutation))
}

/// A scan of the whole table.
pub fn scans(rt: &impl Abort, alloc: Global) -> Event {
    let scan = Scan {
        table: named(rt, b"t"),
        bounds: Bounds {
            low: Bound::Unbounded,
            high: Bound::Unbounded,
        },
        columns: Items::new(alloc),
        authorizations: AuthSet::empty(alloc),
    };
    asks(rt, Act::Open(scan))
}

/// The event is done, by the seat.
pub fn done<L: Ledger, R: Wait + Abort>(
    rt: &R,
    alloc: Global,
    shared: &Shared<L>,
    seat: &mut Seat<L>,
    event: Event,
) -> Receipt<L> {
    match shared.apply(rt, alloc, seat, event) {
        Ok(receipt) => receipt,
        Err(_) => panic!(rt; "memory"),
    }
}

/// The event is done by the seat, one of which it's told that it was done and no more.
pub fn surely_done<L: Ledger, R: Wait + Abort>(
    rt: &R,
    alloc: Global,
    shared: &Shared<L>,
    seat: &mut Seat<L>,
    event: Event,
) -> Receipt<L> {
    let receipt = done(rt, alloc, shared, seat, event);
    assert!(rt; matches!(receipt.entry().reply(), Reply::Done));
    receipt
}
