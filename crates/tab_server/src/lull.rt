//! What compactors know of the times in which nobody writes.

use std::time::Duration;

// How many milliseconds nobody has to write at least, before tablets are compacted on which nothing is due.
const QUIET: u64 = 1_000;

// How many times as long as the last merge took nobody has to write, where that is longer.
const REST: u32 = 10;

/// Whether there may be tablets to compact on which nothing is due, and who is at it: one compactor at a time.
#[derive(Clone, Copy)]
pub(crate) struct Lull {
    // how many compactors look for what is due, or are at work on it
    busy: u32,
    state: State,
    quiet: Duration,
}

#[derive(Clone, Copy, PartialEq, Eq)]
enum State {
    // There may be some, and nobody is at it.
    Open,
    // One is at it, and nobody has written since he began.
    Taken,
    // One is at it, and somebody has written since.
    Disturbed,
    // There are none, as far as was written.
    Done,
}

impl Lull {
    /// There may be some.
    pub(crate) fn new() -> Lull {
        Lull {
            busy: 0,
            state: State::Open,
            quiet: Duration::from_millis(QUIET),
        }
    }

    /// How long to wait for a request, before it is asked whether [`begin`](Lull::begin) is in order; none where there is nothing to do.
    pub(crate) fn quiet(&self) -> Option<Duration> {
        match self.state {
            State::Done => None,
            _ => Some(self.quiet),
        }
    }

    /// Somebody wrote, and a compactor looks for what is due.
    pub(crate) fn hear(&mut self) {
        self.busy = self.busy.saturating_add(1);
        self.state = match self.state {
            State::Open | State::Done => State::Open,
            State::Taken | State::Disturbed => State::Disturbed,
        };
    }

    /// That compactor has done what was due.
    pub(crate) fn finish(&mut self) {
        self.busy = self.busy.saturating_sub(1);
    }

    /// Nobody has written for so long. Whether whoever asks is at it from now on: there may be something to do, nobody else is at it, and
    /// nobody is at work on what is due.
    pub(crate) fn begin(&mut self) -> bool {
        let begins = self.busy == 0 && matches!(self.state, State::Open);
        if begins {
            self.state = State::Taken;
        }
        begins
    }

    /// Whoever is at it has made a merge that took so long. Whether he goes on: nobody has written.
    pub(crate) fn goes_on(&mut self, took: Duration) -> bool {
        self.quiet = Duration::from_millis(QUIET).max(took.saturating_mul(REST));
        matches!(self.state, State::Taken)
    }

    /// Whoever is at it leaves off, since somebody writes.
    pub(crate) fn leave(&mut self) {
        self.state = State::Open;
    }

    /// Whoever is at it finds nothing more to do. Where somebody has written meanwhile, there may be again.
    pub(crate) fn end(&mut self) {
        self.state = match self.state {
            State::Taken => State::Done,
            _ => State::Open,
        };
    }
}
