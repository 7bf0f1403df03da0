//! Whole connections over a shared book, whose receipts aren't kept.
ghost use Rattle.std.specs.Prelude.{[]};
ghost use Rattle.tab_serve.specs.Progress.{Faults};
ghost use Rattle.tab_work.specs.Unkept.{ForgetsAll, Forgets};

use crate::shared_service::SharedService;
use crate::{Gate, Shared};
use std::alloc::Global;
use std::sync::Wait;
use std::sync::ledger::Ledger;
use std::thread::Threads;
use tab_book::Seat;
use tab_core::Slots;
use tab_history::Reply;
use tab_io::{Input, Output};
use tab_key::Name;
use tab_serve::{Moments, ServeFault, Service, converse};
use tab_wire::{Asked, Request};

// A seat that answers the requests of one connection, and forgets the receipts at each of them.
#[derive(Drop)]
struct Forgetting<'a, L: Ledger, R, M, G> {
    service: SharedService<'a, L, R, M, G>,
}

#[tactic(auto, using(crate::proofs::Counting::shares_room, crate::proofs::Counting::shares_opened))]
impl<'a, L: Ledger, R: Threads + Wait + Sync, M: Moments, G: Gate> Service
    for Forgetting<'a, L, R, M, G> {
    ghost use Rattle.std.specs.Thread.{IsSync};
    ghost use Rattle.std.specs.Prelude.{length};
    ghost use Rattle.tab_work.specs.SharedAnswers.{told_by};
    ghost use Rattle.tab_work.specs.Unkept.{Forgets};

    ghost opened = { λ s. length s.service.slots.now };

    ghost told = { λ s. told_by s.service };

    ghost ready = { IsSync R.row };

    ghost answers = { λ old user request reply new. Forgets M.gives old.service user request reply new.service };

    fn hear(&self, asked: &Asked) {
        self.service.hear(asked);
    }

    fn answer(&mut self, user: &Name, request: &mut Request, frame: &[u8]) {
        self.service.receipts.clear();
        self.service.does(user, request, frame);
        self.service.gate.after_reply(self.service.reply());
    }

    fn reply(&self) -> &Reply {
        self.service.reply()
    }
}

/// Answers each frame that is read as [`serve_shared`](crate::serve_shared) does, and drops each receipt at the next request: the connection's
/// memory doesn't grow with its events.
pub fn serve_forgetting<
    L: Ledger,
    R: Threads + Wait + Sync,
    I: Input,
    W: Output,
    M: Moments,
    G: Gate,
>(
    rt: &R,
    alloc: Global,
    input: &mut I,
    output: &mut W,
    moments: &mut M,
    shared: &Shared<L>,
    seat: &mut Seat<L>,
    gate: &G,
) -> Result<(), ServeFault>
    ensures shares { ForgetsAll I.Input W.Output M.gives seat.old moments.old input.old output.old seat.new moments.new input.new output.new result }
    ensures faults { Faults I.Input W.Output result input.old input.new output.old output.new }
{
    let mut slots = Slots::new(alloc);
    let mut reply = Reply::Done;
    let mut receipts = Vec::new(alloc);
    let service = SharedService {
        rt,
        alloc,
        shared,
        gate,
        seat,
        receipts: &mut receipts,
        moments,
        slots: &mut slots,
        booked: false,
        reply: &mut reply,
    };
    let mut forgetting = Forgetting { service };
    converse(alloc, input, output, &mut forgetting)
}
