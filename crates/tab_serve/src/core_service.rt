//! A core that answers the requests of one connection.
ghost use Rattle.std.specs.Prelude.{◌≡◌, false};
ghost use Rattle.tab_history.specs.Answers.{is_open};
ghost use Rattle.tab_core.specs.Slots.{are_full};
ghost use Rattle.tab_serve.specs.CoreAnswers.{CoreAnswers};

use crate::{Moments, Service};
use std::alloc::Global;
use std::mem;
use tab_core::{Core, Slots, told};
use tab_history::{Act, Refusal, Reply, Scan};
use tab_key::{LimitedPart, Name};
use tab_wire::Request;

// A core, the sessions that it opened for the connection, and where its moments come from. All of it is lent.
#[derive(Drop)]
pub(crate) struct CoreService<'a, M> {
    pub(crate) alloc: Global,
    pub(crate) core: &'a mut Core,
    pub(crate) moments: &'a mut M,
    pub(crate) slots: &'a mut Slots,
    // what was told last
    pub(crate) reply: &'a mut Reply,
}

#[tactic(auto, using(crate::proofs::Counting::serves_room, crate::proofs::Counting::serves_opened))]
impl<'a, M: Moments> Service for CoreService<'a, M> {
    ghost use Rattle.std.specs.Prelude.{length};
    ghost use Rattle.tab_serve.specs.CoreAnswers.{CoreAnswers};

    ghost opened = { λ s. length s.slots.now };

    ghost told = { λ s. s.reply.now };

    ghost ready = { Unit {0} };

    ghost answers = { λ old user request reply new. CoreAnswers M.gives old user request reply new };

    fn answer(&mut self, user: &Name, request: &mut Request, _frame: &[u8]) {
        let reply = self.does(user, request);
        put(self.reply, reply);
    }

    fn reply(&self) -> &Reply {
        &*self.reply
    }
}

impl<'a, M: Moments> CoreService<'a, M> {
    // Does what is asked. Hello says who asks, and changes nothing.
    fn does(&mut self, user: &Name, request: &mut Request) -> Reply
        ensures { CoreAnswers M.gives self.old user.now request.old result self.new }
    {
        match request {
            Request::Hello(_) => Reply::Done,
            Request::Act(act) => self.act(user, act),
            Request::Next { slot, count } => self.slots.next(self.alloc, *slot, *count),
            Request::Many { slot, ranges } => {
                self.slots.many(self.alloc, *slot, ranges.as_slice())
            }
            Request::Close { slot } => self.slots.close(*slot),
        }
    }

    // An event at the next moment.
    fn act(&mut self, user: &Name, act: &mut Act) -> Reply
        ensures { CoreAnswers M.gives self.old user.now (Request.Act act.old) result self.new }
    {
        match act {
            Act::Open(scan) => self.open(user, scan),
            act => self.apply(user, act),
        }
    }

    // An Open. Past the limit of sessions it takes no moment, and doesn't happen.
    fn open(&mut self, user: &Name, scan: &mut Scan) -> Reply
        ensures { CoreAnswers M.gives self.old user.now (Request.Act (Act.Open scan.old)) result self.new }
    {
        if self.slots.are_full() {
            Reply::Refused(Refusal::TooLarge(LimitedPart::Sessions))
        } else {
            self.open_next(user, scan)
        }
    }

    // An Open where one more session can be opened, which is kept under the next number.
    fn open_next(&mut self, user: &Name, scan: &mut Scan) -> Reply
        requires { are_full self.old.slots.now ≡ false }
        ensures { CoreAnswers M.gives self.old user.now (Request.Act (Act.Open scan.old)) result self.new }
    {
        let moment = self.moments.next();
        self.slots.open(self.alloc, self.core, user, moment, scan)
    }

    // An event that opens no session.
    fn apply(&mut self, user: &Name, act: &mut Act) -> Reply
        requires { is_open act.old ≡ false }
        ensures { CoreAnswers M.gives self.old user.now (Request.Act act.old) result self.new }
    {
        let moment = self.moments.next();
        told(self.core.step_lent(self.alloc, user, moment, act))
    }
}

// Puts the reply in the place of the one before.
fn put(place: &mut Reply, reply: Reply)
    ensures { place.new ≡ reply }
{
    let _ = mem::replace(place, reply);
}
