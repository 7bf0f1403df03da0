//! What is counted of one connection as it's served.

use crate::clock::WallClock;
use crate::connection::{Connection, Ending, Peer};
use crate::refused::{BAD_FRAME, NO_MEMORY, place_of};
use crate::tally::{Counter, Tally};
use std::alloc::AllocError;
use std::cell::Cell;
use std::sync::{Mutex, Wait};
use std::time::{Clock, Instant};
use tab_history::{Act, Reply};
use tab_key::{Cells, Name};
use tab_serve::{Moments, ServeFault};
use tab_wire::{Asked, Reason, Request};
use tab_work::Gate;

/// The gate of one connection: behind its writes the compactors are asked, and what it asks and is told is counted. It holds nothing up.
#[derive(Drop)]
pub(crate) struct Watch<'a, R, G> {
    rt: &'a R,
    requests: &'a G,
    tally: &'a Tally,
    // what the tally had as the connection began
    before: (u64, u64, u64),
    begun: Option<Instant>,
    // whether the peer said nothing, or took nothing, for as long as it may
    is_late: &'a Cell<bool>,
    user: Mutex<Option<Name>>,
    // how many updates the last request has
    updates: Counter,
    // why what was read last is no frame
    broken: Mutex<Option<Reason>>,
}

impl<'a, R: Wait + Clock, G> Watch<'a, R, G> {
    /// A connection begins. The cell says whether a read or a write of it has waited for as long as it may.
    pub(crate) fn new(
        rt: &'a R,
        requests: &'a G,
        tally: &'a Tally,
        is_late: &'a Cell<bool>,
    ) -> Watch<'a, R, G> {
        tally.begun.add(1);
        Watch {
            rt,
            requests,
            tally,
            before: (
                tally.frames.get(),
                tally.refusals.get(),
                tally.cells_read.get(),
            ),
            begun: Instant::now(rt).ok(),
            is_late,
            user: Mutex::new(None),
            updates: Counter::new(),
            broken: Mutex::new(None),
        }
    }

    /// The connection with this peer has ended so, or there was no memory for its blocks. What is told of it.
    pub(crate) fn end(
        &self,
        peer: Peer,
        served: Result<Result<(), ServeFault>, AllocError>,
    ) -> Connection {
        self.tally.ended.add(1);
        let (frames, refusals, cells) = self.before;
        Connection {
            moment: WallClock::new(self.rt).next(),
            user: *self.user.lock(self.rt),
            peer,
            frames: self.tally.frames.get().saturating_sub(frames),
            refusals: self.tally.refusals.get().saturating_sub(refusals),
            cells: self.tally.cells_read.get().saturating_sub(cells),
            lasted: self.lasted(),
            ending: self.ending(served),
        }
    }

    // For how many milliseconds the connection has lasted.
    fn lasted(&self) -> u64 {
        let Some(begun) = self.begun else {
            return 0;
        };
        match begun.elapsed(self.rt) {
            Ok(lasted) => u64::try_from(lasted.as_millis()).unwrap_or(u64::MAX),
            Err(_) => 0,
        }
    }

    // How it ended. A fault of one who was waited for too long is told as that.
    fn ending(&self, served: Result<Result<(), ServeFault>, AllocError>) -> Ending {
        match served {
            Ok(Ok(())) => match *self.broken.lock(self.rt) {
                Some(reason) => Ending::Frame(reason),
                None => Ending::End,
            },
            Ok(Err(_)) if self.is_late.get() => Ending::Idle,
            Ok(Err(ServeFault::Read)) => Ending::Read,
            Ok(Err(ServeFault::Write)) => Ending::Write,
            Err(AllocError) => Ending::Memory,
        }
    }

    // Remembers what is asked of it as far as its reply doesn't tell it.
    fn hear_request(&self, request: &Request) {
        let updates = match request {
            Request::Hello(user) => {
                *self.user.lock(self.rt) = Some(*user);
                0
            }
            Request::Act(Act::Write(_, mutation)) => mutation.len() as u64,
            _ => 0,
        };
        self.updates.set(updates);
    }

    // Counts what is no frame.
    fn hear_broken(&self, reason: Reason) {
        self.tally.refuse(BAD_FRAME);
        *self.broken.lock(self.rt) = Some(reason);
    }
}

impl<R: Wait + Clock, G: Gate> Gate for Watch<'_, R, G> {
    fn before_merge(&self) {}

    fn before_batch(&self) {}

    fn after_write(&self) {
        self.requests.after_write();
    }

    fn hear(&self, asked: &Asked) {
        self.tally.frames.add(1);
        match asked {
            Asked::Request(request) => self.hear_request(request),
            Asked::Bad(_) => self.tally.refuse(BAD_FRAME),
            Asked::Broken(reason) => self.hear_broken(*reason),
            Asked::NoMemory => self.tally.refuse(NO_MEMORY),
        }
    }

    fn after_reply(&self, reply: &Reply) {
        match reply {
            Reply::Done => self.tally.cells_written.add(self.updates.get()),
            Reply::Batch(cells) => self.tally.cells_read.add(cells.len() as u64),
            Reply::Ranges(ranges) => self.tally.cells_read.add(cells_in(ranges.as_slice())),
            Reply::Refused(refusal) => {
                if let Some(place) = place_of(refusal) {
                    self.tally.refuse(place);
                }
            }
            _ => {}
        }
    }
}

// How many cells these ranges have.
fn cells_in(ranges: &[Cells]) -> u64 {
    let mut sum: u64 = 0;
    for cells in ranges {
        sum = sum.saturating_add(cells.len() as u64);
    }
    sum
}
