//! Signs that one thread gives another, and how long it's waited for them.

use std::sync::atomic::{AtomicBool, Ordering};
use std::thread;
use std::time::{Clock, Duration};

// How often a thread looks, a millisecond apart, before it gives up.
const TURNS: u32 = 10_000;

/// What two threads wait for.
#[derive(Drop)]
pub struct Signs {
    // the first one is about to do what takes long
    held: AtomicBool,
    // the second one was answered
    answered: AtomicBool,
    // the first one gave up waiting for that
    late: AtomicBool,
}

impl Signs {
    /// None was given.
    pub fn none() -> Signs {
        Signs {
            held: AtomicBool::new(false),
            answered: AtomicBool::new(false),
            late: AtomicBool::new(false),
        }
    }

    /// Holds the first thread up until the second one was answered, or until that takes too long.
    pub fn hold<R: Clock>(&self, rt: &R) {
        self.held.store(true, Ordering::SeqCst);
        if !is_seen(rt, &self.answered) {
            self.late.store(true, Ordering::SeqCst);
        }
    }

    /// Whether the first thread came to be held up in time.
    pub fn is_held<R: Clock>(&self, rt: &R) -> bool {
        is_seen(rt, &self.held)
    }

    /// The second thread was answered.
    pub fn answer(&self) {
        self.answered.store(true, Ordering::SeqCst);
    }

    /// Whether the first thread gave up.
    pub fn are_late(&self) -> bool {
        self.late.load(Ordering::SeqCst)
    }
}

// Whether the sign was seen in time.
fn is_seen<R: Clock>(rt: &R, sign: &AtomicBool) -> bool {
    for _ in 0..TURNS {
        if sign.load(Ordering::SeqCst) {
            return true;
        }
        thread::sleep(rt, Duration::from_millis(1));
    }
    false
}
