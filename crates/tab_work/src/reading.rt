//! Ranges of a session, read for a connection.
ghost use Rattle.std.specs.Prelude.{◌≡◌};
ghost use Rattle.tab_core.specs.Slots.{ManyFrom};

use crate::Shared;
use std::alloc::Global;
use std::sync::ledger::Ledger;
use std::thread::Threads;
use tab_core::Slots;
use tab_history::Reply;
use tab_key::Bounds;

/// The whole answer of the session in the slot, in each of the ranges: read by several threads where nobody else of those who share the
/// book reads ranges at the moment, else by the calling one. The processors have enough to do then.
pub(crate) fn read_ranges<L: Ledger, R: Threads + Sync>(
    rt: &R,
    alloc: Global,
    shared: &Shared<L>,
    slots: &mut Slots,
    slot: u32,
    ranges: &[Bounds],
) -> Reply
    ensures answers { ManyFrom slots.old slot ranges.now result }
    ensures same { slots.new ≡ slots.old }
{
    let alone = shared.begin_ranges();
    let reply = read(rt, alloc, slots, slot, ranges, alone);
    shared.end_ranges();
    reply
}

// The answer of `read_ranges`, read by several threads or by the calling one.
fn read<R: Threads + Sync>(
    rt: &R,
    alloc: Global,
    slots: &mut Slots,
    slot: u32,
    ranges: &[Bounds],
    at_once: bool,
) -> Reply
    ensures answers { ManyFrom slots.old slot ranges.now result }
    ensures same { slots.new ≡ slots.old }
{
    if at_once {
        slots.many_by_threads(rt, alloc, slot, ranges)
    } else {
        slots.many(alloc, slot, ranges)
    }
}
