//! A server's log: what its store keeps of the book's history.

use crate::connections::Connections;
use crate::round::Round;
use crate::{NotKept, Store};
use std::alloc::Global;
use std::sync::atomic::{AtomicBool, AtomicU64, Ordering};
use std::sync::ledger::Ledger;
use std::sync::{Condvar, Mutex, Wait};
use tab_book::{Part, Seat, Slice};
use tab_core::Core;
use tab_key::Name;
use tab_work::Shared;

// How many entries are taken from the book at once.
const SLICE: u64 = 1_024;

/// What a store keeps of the history of a book, in its order: up to some number all entries, and none behind them.
///
/// Its lock is taken before the book's, never the other way. One of those who wait for their entries keeps all that the book has; at its end
/// all others are woken at once: those whose entries are kept by then go on, and one of the rest keeps those of all who came meanwhile.
#[derive(Drop)]
pub(crate) struct Log<'a, L: Ledger, D> {
    alloc: Global,
    shared: &'a Shared<L>,
    store: &'a D,
    connections: &'a Connections,
    state: Mutex<LogState<L>>,
    // whether one of those who wait for their entries keeps what the book has
    is_keeping: Mutex<bool>,
    // by which they hear that it has ended
    ended: Condvar,
    // the number of the first entry that isn't kept
    kept: AtomicU64,
    // whether an entry was missing
    is_broken: AtomicBool,
}

// What is gathered; and the part that a rotation handed out, until all of it is kept and it's handed on.
#[derive(Drop)]
struct LogState<L: Ledger> {
    round: Round,
    held: Option<Part<L>>,
}

/// Why no image was made.
#[derive(Clone, Copy, PartialEq, Eq, Debug)]
pub(crate) enum NoImage {
    /// There was no memory for what the core holds, which nobody has said yet.
    NoMemory,
    /// The store keeps none, and has said why.
    NotKept(NotKept),
}

impl From<NotKept> for NoImage {
    fn from(fault: NotKept) -> NoImage {
        NoImage::NotKept(fault)
    }
}

impl<'a, L: Ledger, D: Store> Log<'a, L, D> {
    /// The log of a book that has no entry yet, at this clock.
    pub(crate) fn new(
        alloc: Global,
        shared: &'a Shared<L>,
        store: &'a D,
        connections: &'a Connections,
        clock: i64,
    ) -> Log<'a, L, D> {
        let round = Round::new(alloc, clock);
        Log {
            alloc,
            shared,
            store,
            connections,
            state: Mutex::new(LogState { round, held: None }),
            is_keeping: Mutex::new(false),
            ended: Condvar::new(),
            kept: AtomicU64::new(0),
            is_broken: AtomicBool::new(false),
        }
    }

    /// Sees that all entries below this number are kept. After an error they may not be, and nothing may be told that rests on them. A
    /// fault of the store closes all connections.
    pub(crate) fn settle<R: Wait>(&self, rt: &R, number: u64) -> Result<(), NotKept> {
        if !self.store.keeps() {
            return Ok(());
        }
        if self.connections.are_closed() {
            return Err(NotKept::Failed);
        }
        if self.is_kept(number) || !self.takes_turn(rt, number) {
            return Ok(());
        }
        let outcome = self.settle_in(rt, &mut self.state.lock(rt), number);
        self.end_turn(rt);
        self.end_if_failed(rt, outcome)
    }

    /// Has the user rotate the book's history at the moment, and gives the part that it hands out, once all of it is kept. None where he
    /// may not, where memory lacks, or where the part can't be kept now: then it's held, nobody is told what rests on it, and the next
    /// call gives it.
    pub(crate) fn rotate<R: Wait>(
        &self,
        rt: &R,
        seat: &mut Seat<L>,
        user: &Name,
        moment: i64,
    ) -> Option<Part<L>> {
        if !self.store.keeps() {
            return rotated(rt, self.alloc, self.shared, seat, user, moment);
        }
        let mut state = self.state.lock(rt);
        if state.held.is_none() {
            state.held = rotated(rt, self.alloc, self.shared, seat, user, moment);
        }
        let outcome = self.keep_held(rt, &mut state);
        match self.end_if_failed(rt, outcome) {
            Err(NotKept::Later) => None,
            Ok(()) | Err(NotKept::Failed) => state.held.take(),
        }
    }

    /// Whether it holds a part that a rotation handed out.
    pub(crate) fn holds_part<R: Wait>(&self, rt: &R) -> bool {
        self.state.lock(rt).held.is_some()
    }

    /// Whether an entry was missing, for which all connections were closed.
    pub(crate) fn is_broken(&self) -> bool {
        self.is_broken.load(Ordering::SeqCst)
    }

    /// Sees that what is kept is on the disk.
    pub(crate) fn sync<R: Wait>(&self, rt: &R) {
        if self.store.keeps() && !self.connections.are_closed() {
            let outcome = self.store.sync(rt);
            let _ = self.end_if_failed(rt, outcome);
        }
    }

    /// Has the store make an image where it wants one. Meanwhile requests are answered, but for as long as what the book's core holds is
    /// taken and the store begins anew behind that. After an error none was made.
    pub(crate) fn keep_image_if_wanted<R: Wait>(&self, rt: &R) -> Result<(), NoImage> {
        if !self.store.keeps() || self.connections.are_closed() || !self.store.wants_image(rt) {
            return Ok(());
        }
        let core = self.begin_anew(rt)?;
        let outcome = self.store.keep_image(rt, &core);
        self.end_if_failed(rt, outcome)?;
        Ok(())
    }

    // What the book's core holds, behind which the store keeps from now on what comes; all entries up to there are kept.
    fn begin_anew<R: Wait>(&self, rt: &R) -> Result<Core, NoImage> {
        let mut state = self.state.lock(rt);
        let Ok((base, number)) = self.shared.base(rt, self.alloc) else {
            return Err(NoImage::NoMemory);
        };
        let outcome = self.keep_to(rt, &mut state, number);
        self.end_if_failed(rt, outcome)?;
        let core = Core::from_base(base);
        let outcome = self.store.begin(rt, &core);
        self.end_if_failed(rt, outcome)?;
        Ok(core)
    }

    // Closes all connections where nothing more is kept.
    fn end_if_failed<R: Wait>(&self, rt: &R, outcome: Result<(), NotKept>) -> Result<(), NotKept> {
        if outcome == Err(NotKept::Failed) {
            self.connections.close(rt);
        }
        outcome
    }

    // Waits until all entries below this number are kept, or nobody keeps any: then it is the caller's turn to, as the answer says.
    fn takes_turn<R: Wait>(&self, rt: &R, number: u64) -> bool {
        let is_keeping = self.is_keeping.lock(rt);
        let mut is_keeping = self.ended.wait_while(rt, is_keeping, |is_keeping| {
            *is_keeping && !self.is_kept(number)
        });
        if self.is_kept(number) {
            return false;
        }
        *is_keeping = true;
        true
    }

    // Wakes all who wait for their entries.
    fn end_turn<R: Wait>(&self, rt: &R) {
        *self.is_keeping.lock(rt) = false;
        self.ended.notify_all();
    }

    // Whether all entries below this number are kept.
    fn is_kept(&self, number: u64) -> bool {
        self.kept.load(Ordering::SeqCst) >= number
    }

    // Keeps one batch after another, until all entries below this number are kept.
    fn settle_in<R: Wait>(
        &self,
        rt: &R,
        state: &mut LogState<L>,
        number: u64,
    ) -> Result<(), NotKept> {
        self.keep_held(rt, state)?;
        for _ in rt.forever() {
            if self.is_kept(number) {
                return Ok(());
            }
            let slice = self
                .shared
                .slice(rt, self.alloc, state.round.next(), SLICE)?;
            if self.keep_full(rt, &mut state.round, &slice)? < SLICE {
                self.keep(rt, &mut state.round)?;
            }
        }
        unreachable!()
    }

    // Keeps what the book has below this number, and none from it on.
    fn keep_to<R: Wait>(
        &self,
        rt: &R,
        state: &mut LogState<L>,
        number: u64,
    ) -> Result<(), NotKept> {
        self.keep_held(rt, state)?;
        let round = &mut state.round;
        for _ in rt.forever() {
            let most = SLICE.min(number.saturating_sub(round.next()));
            let slice = self.shared.slice(rt, self.alloc, round.next(), most)?;
            if self.keep_full(rt, round, &slice)? == 0 {
                return self.keep(rt, round);
            }
        }
        unreachable!()
    }

    // Keeps what the part that is held has, to its end. Behind it comes what the book has.
    fn keep_held<R: Wait>(&self, rt: &R, state: &mut LogState<L>) -> Result<(), NotKept> {
        let LogState { round, held } = state;
        match held {
            Some(part) => self.keep_part(rt, round, part),
            None => Ok(()),
        }
    }

    // Keeps what the part has, to its end.
    fn keep_part<R: Wait>(&self, rt: &R, round: &mut Round, part: &Part<L>) -> Result<(), NotKept> {
        for _ in rt.forever() {
            let slice = part.slice(self.alloc, round.next(), SLICE)?;
            if self.keep_full(rt, round, &slice)? < SLICE {
                return self.keep(rt, round);
            }
        }
        unreachable!()
    }

    // Gathers the entries of the slice, and keeps each batch that is full. How many these entries are. It is a fault where it doesn't
    // begin with the next one. Where memory lacks for one, those before it are kept.
    fn keep_full<R: Wait>(
        &self,
        rt: &R,
        round: &mut Round,
        slice: &Slice<L>,
    ) -> Result<u64, NotKept> {
        if slice.first() != round.next() {
            self.is_broken.store(true, Ordering::SeqCst);
            return Err(NotKept::Failed);
        }
        for entry in slice.entries() {
            if let Err(lack) = round.add(entry) {
                self.keep(rt, round)?;
                return Err(NotKept::from(lack));
            }
            if round.is_full() {
                self.keep(rt, round)?;
            }
        }
        Ok(slice.entries().len() as u64)
    }

    // Keeps what was gathered. Once the store has failed nothing more is.
    fn keep<R: Wait>(&self, rt: &R, round: &mut Round) -> Result<(), NotKept> {
        if self.connections.are_closed() {
            return Err(NotKept::Failed);
        }
        if !round.entries().is_empty() {
            self.store.keep(rt, round.entries())?;
            round.clear();
        }
        self.kept.store(round.next(), Ordering::SeqCst);
        Ok(())
    }
}

// The history up to now, which the user's rotation hands out; none where he may not, or where memory lacks.
fn rotated<L: Ledger>(
    rt: &impl Wait,
    alloc: Global,
    shared: &Shared<L>,
    seat: &mut Seat<L>,
    user: &Name,
    moment: i64,
) -> Option<Part<L>> {
    match shared.rotate(rt, alloc, seat, user, moment) {
        Ok((_, part)) => part,
        Err(_) => None,
    }
}
