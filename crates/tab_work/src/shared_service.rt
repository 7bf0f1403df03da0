//! A seat of a shared book that answers the requests of one connection.
ghost use Rattle.std.specs.Prelude.{◌≡◌, ◌<◌, true, false, [], ◌∷◌, ◌++◌, None, Some, IfOk, OnErr, IsTrue, vec_len, vec_capacity};
ghost use Rattle.tab_history.specs.Answers.{is_open};
ghost use Rattle.tab_core.specs.Slots.{are_full};
ghost use Rattle.tab_book.specs.HandedOut.{session_in};
ghost use Rattle.tab_book.specs.Receipts.{Receives};
ghost use Rattle.tab_book.specs.Rotating.{rotation};
ghost use Rattle.tab_serve.specs.Serves.{asked_at};
ghost use Rattle.tab_wire.specs.Requests.{request_in};
ghost use Rattle.tab_work.specs.Receiving.{HandsOut, spent};
ghost use Rattle.tab_work.specs.SharedAnswers.{seated, slots_of, told_by, LentSame, SharedAnswers, Tells, Takes, Tries};

use crate::gate::tell_if_written;
use crate::reading::read_ranges;
use crate::{Gate, Shared};
use std::alloc::{AllocError, Global};
use std::mem;
use std::sync::Wait;
use std::sync::ledger::Ledger;
use std::thread::Threads;
use tab_book::{Held, Receipt, Seat};
use tab_core::{Session, Slots};
use tab_history::{Act, Refusal, Reply};
use tab_key::{LimitedPart, Name};
use tab_serve::{Moments, Service};
use tab_wire::{Asked, Request};

// A seat, the receipts that are added for it, the sessions that it opened for the connection, and where its moments come from. All that
// changes is lent.
#[derive(Drop)]
pub(crate) struct SharedService<'a, L: Ledger, R, M, G> {
    pub(crate) rt: &'a R,
    pub(crate) alloc: Global,
    pub(crate) shared: &'a Shared<L>,
    pub(crate) gate: &'a G,
    pub(crate) seat: &'a mut Seat<L>,
    pub(crate) receipts: &'a mut Vec<Receipt<L>>,
    pub(crate) moments: &'a mut M,
    pub(crate) slots: &'a mut Slots,
    // whether the reply in the last receipt was told last
    pub(crate) booked: bool,
    // what was told last, where that isn't so
    pub(crate) reply: &'a mut Reply,
}

#[tactic(auto, using(crate::proofs::Counting::shares_room, crate::proofs::Counting::shares_opened))]
impl<'a, L: Ledger, R: Threads + Wait + Sync, M: Moments, G: Gate> Service
    for SharedService<'a, L, R, M, G> {
    ghost use Rattle.std.specs.Thread.{IsSync};
    ghost use Rattle.std.specs.Prelude.{length};
    ghost use Rattle.tab_work.specs.SharedAnswers.{SharedAnswers, told_by};

    ghost opened = { λ s. length s.slots.now };

    ghost told = { λ s. told_by s };

    ghost ready = { IsSync R.row };

    ghost answers = { λ old user request reply new. SharedAnswers M.gives old user request reply new };

    fn hear(&self, asked: &Asked) {
        self.gate.hear(asked);
    }

    fn answer(&mut self, user: &Name, request: &mut Request, frame: &[u8]) {
        self.does(user, request, frame);
        self.gate.after_reply(self.reply());
    }

    fn reply(&self) -> &Reply {
        match self.receipts.last() {
            Some(receipt) if self.booked => receipt.entry().reply(),
            _ => &*self.reply,
        }
    }
}

impl<'a, L: Ledger, R: Threads + Wait + Sync, M: Moments, G: Gate> SharedService<'a, L, R, M, G> {
    // Does what is asked. Hello says who asks, and changes nothing.
    pub(crate) fn does(&mut self, user: &Name, request: &mut Request, frame: &[u8])
        requires { request_in frame.now ≡ Some request.old }
        ensures { SharedAnswers M.gives self.old user.now request.old (told_by self.new) self.new }
    {
        match request {
            Request::Hello(_) => self.tell(Reply::Done),
            Request::Act(act) => self.act(user, act, frame),
            Request::Next { slot, count } => {
                self.gate.before_batch();
                let reply = self.slots.next(self.alloc, *slot, *count);
                self.tell(reply);
            }
            Request::Many { slot, ranges } => {
                let ranges = ranges.as_slice();
                let reply = read_ranges(
                    self.rt,
                    self.alloc,
                    self.shared,
                    self.slots,
                    *slot,
                    ranges,
                );
                self.tell(reply);
            }
            Request::Close { slot } => {
                let reply = self.slots.close(*slot);
                self.tell(reply);
            }
        }
    }

    // Tells this, which is no event's reply.
    fn tell(&mut self, reply: Reply)
        ensures { Tells self.old reply self.new }
    {
        self.booked = false;
        let _ = mem::replace(self.reply, reply);
    }

    // An event at the next moment. An Open past the limit of sessions takes no moment, and doesn't happen.
    fn act(&mut self, user: &Name, act: &mut Act, frame: &[u8])
        requires { request_in frame.now ≡ Some (Request.Act act.old) }
        ensures { SharedAnswers M.gives self.old user.now (Request.Act act.old) (told_by self.new) self.new }
    {
        if !opens(act) {
            self.apply(user, act, frame)
        } else if self.slots.are_full() {
            self.tell(Reply::Refused(Refusal::TooLarge(LimitedPart::Sessions)))
        } else {
            self.open_next(user, act, frame)
        }
    }

    // An Open where one more session can be opened, which is kept under the next number. A place for it is found before the event.
    fn open_next(&mut self, user: &Name, act: &mut Act, frame: &[u8])
        requires framed { request_in frame.now ≡ Some (Request.Act act.old) }
        requires opens { is_open act.old ≡ true }
        requires room { are_full self.old.slots.now ≡ false }
        ensures { SharedAnswers M.gives self.old user.now (Request.Act act.old) (told_by self.new) self.new }
    {
        let moment = self.take_moment();
        if self.slots.prepare().is_err() {
            return self.lack();
        }
        let session = self.receive(user, moment, act, frame);
        self.slots.keep(session);
    }

    // An event that opens no session.
    fn apply(&mut self, user: &Name, act: &mut Act, frame: &[u8])
        requires framed { request_in frame.now ≡ Some (Request.Act act.old) }
        requires other { is_open act.old ≡ false }
        ensures { SharedAnswers M.gives self.old user.now (Request.Act act.old) (told_by self.new) self.new }
    {
        let moment = self.take_moment();
        let _ = self.receive(user, moment, act, frame);
    }

    // The next moment.
    fn take_moment(&mut self) -> i64
        ensures takes { Takes M.gives (seated self.old) result (seated self.new) }
        ensures slots { slots_of self.new ≡ slots_of self.old }
        ensures lent { LentSame self.old self.new }
    {
        self.moments.next()
    }

    // Has the book do what the user asks at the moment, tells its reply, and adds its receipt, for which a place is found before. The session
    // that it handed out.
    fn receive(&mut self, user: &Name, moment: i64, act: &mut Act, frame: &[u8]) -> Option<Session>
        requires { request_in frame.now ≡ Some (Request.Act act.old) }
        ensures tries { Tries (seated self.old) (asked_at user.now moment act.old) (told_by self.new) result (seated self.new) }
        ensures slots { slots_of self.new ≡ slots_of self.old }
        ensures lent { LentSame self.old self.new }
    {
        if self.receipts.reserve(1).is_err() {
            self.lack();
            return None;
        }
        match ask(
            self.rt,
            self.alloc,
            self.shared,
            self.seat,
            user,
            moment,
            act,
            frame,
        ) {
            Ok(receipt) => self.add(receipt),
            Err(AllocError) => {
                self.lack();
                None
            }
        }
    }

    // Adds the receipt without what was handed out, tells its reply, and the gate of a Write that was done.
    fn add(&mut self, receipt: Receipt<L>) -> Option<Session>
        requires { vec_len self.old.receipts.now < vec_capacity self.old.receipts.now }
        ensures adds { seated self.new ≡ record (seated self.old) { receipts = self.old.receipts.now.items ++ spent receipt ∷ [] } }
        ensures told { told_by self.new ≡ receipt.entry.reply }
        ensures session { result ≡ session_in receipt.held }
        ensures slots { slots_of self.new ≡ slots_of self.old }
        ensures lent { LentSame self.old self.new }
    {
        let mut receipt = receipt;
        let session = session_of(receipt.take());
        self.gate.after_event(receipt.number());
        tell_if_written(self.gate, &receipt);
        self.receipts.push_reserved(receipt);
        self.booked = true;
        session
    }

    // Tells that memory lacks for the event, which doesn't happen.
    fn lack(&mut self)
        ensures { Tells self.old (Reply.Refused Refusal.NoMemory) self.new }
    {
        self.tell(Reply::Refused(Refusal::NoMemory));
    }
}

// Has the book do what the user asks at the moment. What a rotation hands out is dropped.
fn ask<L: Ledger, R: Wait>(
    rt: &R,
    alloc: Global,
    shared: &Shared<L>,
    seat: &mut Seat<L>,
    user: &Name,
    moment: i64,
    act: &mut Act,
    frame: &[u8],
) -> Result<Receipt<L>, AllocError>
    requires { request_in frame.now ≡ Some (Request.Act act.old) }
    ensures ok { IfOk result (λ r. Receives seat.old (asked_at user.now moment act.old) r seat.new) }
    ensures hands { IfOk result (λ r. HandsOut act.old (session_in r.held)) }
    ensures err { OnErr result (seat.new ≡ seat.old) }
{
    if rotates(act) {
        rotate(rt, alloc, shared, seat, user, moment)
    } else {
        shared.apply_asked(rt, alloc, seat, user, moment, act, frame)
    }
}

// A rotation of the user at the moment. The history that it hands out is dropped here, where the book isn't locked; where somebody hands the
// history on, it's left to that one.
#[inline(never)]
fn rotate<L: Ledger, R: Wait>(
    rt: &R,
    alloc: Global,
    shared: &Shared<L>,
    seat: &mut Seat<L>,
    user: &Name,
    moment: i64,
) -> Result<Receipt<L>, AllocError>
    ensures ok { IfOk result (λ r. Receives seat.old (rotation user.now moment) r seat.new) }
    ensures hands { IfOk result (λ r. HandsOut Act.Rotate (session_in r.held)) }
    ensures err { OnErr result (seat.new ≡ seat.old) }
{
    if shared.is_recorded() {
        return leave(rt, alloc, shared, seat, user, moment);
    }
    match shared.rotate(rt, alloc, seat, user, moment) {
        Ok((receipt, _)) => Ok(receipt),
        Err(AllocError) => Err(AllocError),
    }
}

// A rotation that hands nothing out: where it was done the history counts as long, so that it's handed on at the next look.
fn leave<L: Ledger, R: Wait>(
    rt: &R,
    alloc: Global,
    shared: &Shared<L>,
    seat: &mut Seat<L>,
    user: &Name,
    moment: i64,
) -> Result<Receipt<L>, AllocError>
    ensures ok { IfOk result (λ r. Receives seat.old (rotation user.now moment) r seat.new) }
    ensures hands { IfOk result (λ r. HandsOut Act.Rotate (session_in r.held)) }
    ensures err { OnErr result (seat.new ≡ seat.old) }
{
    let mut act = Act::Rotate;
    let receipt = shared.apply_lent(rt, alloc, seat, user, moment, &mut act)?;
    if matches!(receipt.entry().reply(), Reply::Done) {
        shared.call_long(rt);
    }
    Ok(receipt)
}

// The session that was handed out, if one was.
fn session_of(held: Option<Held>) -> Option<Session>
    ensures { result ≡ session_in held }
{
    match held {
        Some(held) => held.into_session(),
        None => None,
    }
}

// Whether the act is a rotation.
fn rotates(act: &Act) -> bool
    ensures { IsTrue result → act.now ≡ Act.Rotate }
{
    matches!(act, Act::Rotate)
}

// Whether the act opens a session.
fn opens(act: &Act) -> bool
    ensures { result ≡ is_open act.now }
{
    matches!(act, Act::Open(_))
}
