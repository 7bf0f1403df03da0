//! Where requests to the compactors come in.

use crate::lull::Lull;
use crossbeam_channel::{Receiver, RecvTimeoutError, TryRecvError};
use std::sync::{Mutex, Wait};
use std::thread;
use std::time::{Clock, Duration};

// How many milliseconds lie between two takings of requests at least. A request that is sent meanwhile waits, so that writers send one
// for all that they write in this time, and wake nobody.
const PAUSE: u64 = 1;

/// Why a compactor is awake.
#[derive(Clone, Copy, Debug, PartialEq, Eq)]
pub(crate) enum Woken {
    /// There was a request.
    Asked,
    /// There was none for a while, and it is the one who compacts tablets on which nothing is due.
    Idle,
    /// Nobody can send any more.
    Closed,
}

/// The end of the channel that the compactors share: one of them at a time waits for requests, the others until it got some.
#[derive(Drop)]
pub(crate) struct Inbox {
    from: Receiver<()>,
    // who holds it waits for requests
    turn: Mutex<()>,
    // locked behind the turn or without it, and nothing is locked behind it
    lull: Mutex<Lull>,
}

impl Inbox {
    /// Requests come from this channel.
    pub(crate) fn new(from: Receiver<()>) -> Inbox {
        Inbox {
            from,
            turn: Mutex::new(()),
            lull: Mutex::new(Lull::new()),
        }
    }

    /// Waits until no other compactor waits here, then for a millisecond, then for a request, and takes those that wait with it. So a
    /// request that comes behind a millisecond without one is taken at once, and requests are taken once in a millisecond at most.
    ///
    /// Where tablets may be left to compact on which nothing is due it waits for so long as [`Lull`] says, and is idle then; else without
    /// end.
    pub(crate) fn wait<R: Wait + Clock>(&self, rt: &R) -> Woken {
        let _turn = self.turn.lock(rt);
        thread::sleep(rt, Duration::from_millis(PAUSE));
        for _ in rt.forever() {
            if let Some(woken) = self.wait_once(rt) {
                return woken;
            }
        }
        unreachable!()
    }

    /// Whoever was asked has done what was due: it waits, as [`wait`](Inbox::wait) says.
    pub(crate) fn finish<R: Wait + Clock>(&self, rt: &R) -> Woken {
        self.lull.lock(rt).finish();
        self.wait(rt)
    }

    /// Whoever was idle has made a merge, which took so long. It stays idle where nobody has sent anything, and takes a request that is
    /// there; neither waits. Where another compactor took one meanwhile it waits as [`wait`](Inbox::wait) says.
    pub(crate) fn go_on<R: Wait + Clock>(&self, rt: &R, took: Duration) -> Woken {
        let stays = self.lull.lock(rt).goes_on(took);
        match self.from.try_recv(rt) {
            Err(TryRecvError::Disconnected) => Woken::Closed,
            Err(TryRecvError::Empty) if stays => Woken::Idle,
            Err(TryRecvError::Empty) => {
                self.lull.lock(rt).leave();
                self.wait(rt)
            }
            Ok(()) => {
                self.lull.lock(rt).leave();
                self.hear(rt)
            }
        }
    }

    /// Whoever was idle has nothing more to do: it waits, as [`wait`](Inbox::wait) says.
    pub(crate) fn end<R: Wait + Clock>(&self, rt: &R) -> Woken {
        self.lull.lock(rt).end();
        self.wait(rt)
    }

    // Waits for a request, without end where there is nothing to do but what is due. None where there was none, and this compactor isn't
    // to be idle.
    fn wait_once<R: Wait + Clock>(&self, rt: &R) -> Option<Woken> {
        let quiet = self.lull.lock(rt).quiet();
        match quiet {
            Some(quiet) => self.wait_for(rt, quiet),
            None => Some(self.wait_on(rt)),
        }
    }

    // Waits for a request, for so long.
    fn wait_for<R: Wait + Clock>(&self, rt: &R, quiet: Duration) -> Option<Woken> {
        match self.from.recv_timeout(rt, quiet) {
            Ok(()) => Some(self.hear(rt)),
            Err(RecvTimeoutError::Disconnected) => Some(Woken::Closed),
            Err(RecvTimeoutError::Timeout) => {
                if self.lull.lock(rt).begin() {
                    Some(Woken::Idle)
                } else {
                    None
                }
            }
        }
    }

    // Waits for a request, without end.
    fn wait_on<R: Wait>(&self, rt: &R) -> Woken {
        if self.from.recv(rt).is_err() {
            return Woken::Closed;
        }
        self.hear(rt)
    }

    // There was a request: those that wait with it are taken too, since one look answers them all.
    fn hear<R: Wait>(&self, rt: &R) -> Woken {
        for _ in 0..self.from.len() {
            let _ = self.from.try_recv(rt);
        }
        self.lull.lock(rt).hear();
        Woken::Asked
    }
}
