//! How long is waited between tries.

use std::time::Duration;

/// The pauses between tries: each is twice as long as the one before, up to a longest one.
#[derive(Clone, Copy)]
pub(crate) struct Backoff {
    next: Duration,
    longest: Duration,
}

impl Backoff {
    /// The first pause has so many milliseconds, the longest ones so many.
    pub(crate) fn new(first: u64, longest: u64) -> Backoff {
        Backoff {
            next: Duration::from_millis(first),
            longest: Duration::from_millis(longest),
        }
    }

    /// The next pause.
    pub(crate) fn pause(&mut self) -> Duration {
        let pause = self.next;
        self.next = pause.saturating_mul(2).min(self.longest);
        pause
    }
}
