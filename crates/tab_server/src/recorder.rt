//! Who hands a server's history on, and has it reported what the server tells of itself.

use crate::accepting::Accepted;
use crate::clock::{WallClock, has_passed};
use crate::counters::Counters;
use crate::fullness::Fullness;
use crate::handed::Handed;
use crate::log::Log;
use crate::reporting::Reporter;
use crate::{History, Note, Store};
use crossbeam_channel::{Receiver, RecvTimeoutError};
use std::alloc::Global;
use std::sync::Wait;
use std::sync::ledger::Ledger;
use std::thread;
use std::time::{Clock, Duration, Instant};
use tab_book::{Part, Seat};
use tab_key::Name;
use tab_serve::Moments;
use tab_work::Shared;

// How many milliseconds lie between two looks at the history's length at least.
const PAUSE: u64 = 5;

// How many times as long as a rotation took it rests behind it.
const REST: u32 = 10;

// After how many milliseconds a history that is kept is handed on, however short it is.
const LONGEST: u64 = 500;

// How often it's tried at the end to hand on what is left.
const TRIES: u32 = 50;

/// A user at a seat of a shared book who rotates its history whenever it's long, and hands it on.
#[derive(Drop)]
pub(crate) struct Recorder<'a, 'l, L: Ledger, R, H, D> {
    pub(crate) rt: &'a R,
    pub(crate) alloc: Global,
    pub(crate) shared: &'a Shared<L>,
    pub(crate) seat: Seat<L>,
    pub(crate) user: Name,
    pub(crate) history: &'a H,
    pub(crate) handed: &'a Handed,
    pub(crate) counters: &'a Counters,
    pub(crate) log: &'a Log<'l, L, D>,
    // where connections wait for a worker
    pub(crate) queue: &'a Receiver<Accepted>,
    // when it handed the history on last
    pub(crate) last: Option<Instant>,
}

impl<L: Ledger, R: Wait + Clock, H: History, D: Store> Recorder<'_, '_, L, R, H, D> {
    /// Hands the history on whenever it has so many entries, and about twice a second where it's kept and has any, until nobody can send
    /// to the channel any more; then what is left of it. Gives the seat back. Where memory lacks for a rotation it tries again at the next
    /// look; what is left at the end for a quarter of a second isn't handed on, which is said.
    ///
    /// Meanwhile it reports as [`Reporter`] says, and once more at the end, and says where the server is full.
    pub(crate) fn record(self, many: u64, others: &Receiver<()>) -> Seat<L> {
        let mut recorder = self;
        let mut reporter = Reporter::new(recorder.rt, recorder.counters, recorder.queue);
        let mut fullness = Fullness::new();
        let mut rest = Duration::from_millis(PAUSE);
        for _ in recorder.rt.forever() {
            if let Err(RecvTimeoutError::Disconnected) = others.recv_timeout(recorder.rt, rest) {
                break;
            }
            rest = recorder.hand_on_from(many);
            reporter.look(recorder.shared, recorder.history);
            if fullness.look(recorder.rt, recorder.queue.len()) {
                let workers = recorder.counters.workers() as u64;
                recorder.history.note(Note::Full(workers));
            }
        }
        recorder.hand_on_rest();
        recorder.log.sync(recorder.rt);
        reporter.report(recorder.shared, recorder.history);
        recorder.into_seat()
    }

    // Hands the history on if it has so many entries, or any where it's due, or if compactors want it. How long to rest then.
    fn hand_on_from(&mut self, many: u64) -> Duration {
        let is_wanted = self.counters.take_want();
        let least = if self.is_due() { 1 } else { many };
        if is_wanted || self.shared.is_long(self.rt, least) {
            self.hand_on(is_wanted)
        } else {
            Duration::from_millis(PAUSE)
        }
    }

    // Whether a history that is kept wasn't handed on for so long that it is to be, however short it is.
    fn is_due(&self) -> bool {
        if !self.handed.is_kept() {
            return false;
        }
        match self.last {
            Some(last) => has_passed(self.rt, last, Duration::from_millis(LONGEST)),
            None => true,
        }
    }

    // Hands the history on. Where that can't be, or a part is held, that is wanted still. How long to rest then.
    fn hand_on(&mut self, is_wanted: bool) -> Duration {
        let begun = Instant::now(self.rt).ok();
        self.last = begun;
        let moment = WallClock::new(self.rt).next();
        let (rt, log, user) = (self.rt, self.log, &self.user);
        let part = log.rotate(rt, &mut self.seat, user, moment);
        let rest = rest_since(rt, begun);
        match &part {
            Some(part) => self.give(part),
            None => self.want_again(is_wanted),
        }
        rest
    }

    // Gives the part to where the history goes.
    fn give(&self, part: &Part<L>) {
        let outcome = self.history.take(part);
        let next = part.first().saturating_add(part.len());
        self.handed.tell(next, outcome);
    }

    // It's wanted still that the history is handed on, if it was, or if the log holds a part.
    fn want_again(&self, is_wanted: bool) {
        if is_wanted || self.log.holds_part(self.rt) {
            self.counters.want_rotation();
        }
    }

    // Hands on what is left, and says where that can't be of a history that is kept.
    fn hand_on_rest(&mut self) {
        for _ in 0..TRIES {
            if !self.shared.is_long(self.rt, 1) && !self.log.holds_part(self.rt) {
                return;
            }
            let _ = self.hand_on(false);
            thread::sleep(self.rt, Duration::from_millis(PAUSE));
        }
        if self.handed.is_kept() {
            self.history.note(Note::NotHandedOn);
        }
    }

    // The seat.
    fn into_seat(self) -> Seat<L> {
        let Recorder { seat, .. } = self;
        seat
    }
}

// How long to rest behind what was begun then.
fn rest_since(clock: &impl Clock, begun: Option<Instant>) -> Duration {
    let pause = Duration::from_millis(PAUSE);
    let Some(begun) = begun else {
        return pause;
    };
    match begun.elapsed(clock) {
        Ok(took) => pause.max(took.saturating_mul(REST)),
        Err(_) => pause,
    }
}
