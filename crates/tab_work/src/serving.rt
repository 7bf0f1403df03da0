//! Whole connections over a shared book.
ghost use Rattle.tab_serve.specs.Progress.{Faults};
ghost use Rattle.tab_work.specs.Sharing.{SharesAll};

use crate::shared_service::SharedService;
use crate::{Gate, Shared};
use std::alloc::Global;
use std::sync::Wait;
use std::sync::ledger::Ledger;
use std::thread::Threads;
use tab_book::{Receipt, Seat};
use tab_core::Slots;
use tab_history::Reply;
use tab_io::{Input, Output};
use tab_serve::{Moments, ServeFault, converse};

/// Answers each frame that is read, until the input ends between two frames, or in what is no frame: one that is empty, too long or cut.
///
/// Each event is the seat's next one, at the next moment, in the order of the frames: the book does it, and its receipt, without its
/// session, is added to those that are lent. Its reply is what is told, and the gate is told of a Write that was done. The connection begins
/// without sessions, which end with it; a batch is cut from the session that came with the receipt of its Open, outside of the book's lock,
/// and so is the answer in ranges: by several threads, as [`Session::scan_many`](tab_core::Session::scan_many) reads them, where no other
/// connection over the book reads ranges. The gate is asked before each Next, whether its session is there or not, and before no Many. Hello,
/// what is asked of a session, what is no request, and an Open past the limit of sessions take no moment. Where the receipts, the sessions or
/// the book's history can't grow, the event is refused for want of memory, and doesn't happen.
///
/// How the input is cut into reads makes no difference. Replies are written before a read that may wait. After an error the requests
/// that were answered have taken effect. After a fault of the reader these are all whose frames stand whole in front of what is left to read,
/// and all their replies are written.
pub fn serve_shared<L: Ledger, R: Threads + Wait + Sync, I: Input, W: Output, M: Moments, G: Gate>(
    rt: &R,
    alloc: Global,
    input: &mut I,
    output: &mut W,
    moments: &mut M,
    shared: &Shared<L>,
    seat: &mut Seat<L>,
    receipts: &mut Vec<Receipt<L>>,
    gate: &G,
) -> Result<(), ServeFault>
    ensures shares { SharesAll I.Input W.Output M.gives (record { seat = seat.old; receipts = receipts.old.items; moments = moments.old }) input.old output.old (record { seat = seat.new; receipts = receipts.new.items; moments = moments.new }) input.new output.new result }
    ensures faults { Faults I.Input W.Output result input.old input.new output.old output.new }
{
    let mut slots = Slots::new(alloc);
    let mut reply = Reply::Done;
    let mut service = SharedService {
        rt,
        alloc,
        shared,
        gate,
        seat,
        receipts,
        moments,
        slots: &mut slots,
        booked: false,
        reply: &mut reply,
    };
    converse(alloc, input, output, &mut service)
}
