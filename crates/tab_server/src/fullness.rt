//! Whether a server has no free worker.

use std::time::{Clock, Duration, Instant};

// For how many seconds a connection has to wait before the server is called full, and for how many none has to before that is said again.
const WAIT: u64 = 1;

const REST: u64 = 60;

/// What is known of a server whose connections wait for workers, as it's looked now and then.
#[derive(Clone, Copy)]
pub(crate) struct Fullness {
    // since when there has been a connection that waits
    since: Option<Instant>,
    // when the server was found full last
    last: Option<Instant>,
}

impl Fullness {
    /// No connection waits.
    pub(crate) fn new() -> Fullness {
        Fullness {
            since: None,
            last: None,
        }
    }

    /// So many connections wait now. Whether it's to be said that the server is full: for a second there was one that waits, and it wasn't
    /// full in the minute before.
    pub(crate) fn look(&mut self, clock: &impl Clock, waiting: usize) -> bool {
        let Ok(now) = Instant::now(clock) else {
            return false;
        };
        if waiting == 0 {
            self.since = None;
            return false;
        }
        let since = self.since.unwrap_or(now);
        self.since = Some(since);
        if now.duration_since(since) < Duration::from_secs(WAIT) {
            return false;
        }
        let is_new = match self.last {
            Some(last) => now.duration_since(last) >= Duration::from_secs(REST),
            None => true,
        };
        self.last = Some(now);
        is_new
    }
}
