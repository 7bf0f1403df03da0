//! What was handed on of a server's history.

use crate::NotTaken;
use std::sync::atomic::{AtomicU64, Ordering};

/// Up to which entry a server's history was handed on, and how often a part of it wasn't taken.
#[derive(Drop)]
pub(crate) struct Handed {
    // whether where it goes keeps it
    is_kept: bool,
    // the number of the first entry that wasn't handed on
    next: AtomicU64,
    losses: AtomicU64,
}

/// What a connection waits for: that all entries below a number were taken.
#[derive(Clone, Copy)]
pub(crate) struct Mark {
    number: u64,
    // how many parts hadn't been taken when its first rotation was done
    losses: u64,
}

impl Handed {
    /// Nothing was, of a history that is kept where it goes, or isn't.
    pub(crate) fn new(is_kept: bool) -> Handed {
        Handed {
            is_kept,
            next: AtomicU64::new(0),
            losses: AtomicU64::new(0),
        }
    }

    /// Whether where it goes keeps it.
    pub(crate) fn is_kept(&self) -> bool {
        self.is_kept
    }

    /// All entries below this number were handed on, the last ones with this outcome.
    pub(crate) fn tell(&self, next: u64, outcome: Result<(), NotTaken>) {
        if outcome.is_err() {
            let _ = self.losses.fetch_add(1, Ordering::SeqCst);
        }
        self.next.store(next, Ordering::SeqCst);
    }

    /// What a connection waits for that has this mark already, or none, where a rotation of it was done whose entry stands below this
    /// number. None where the history isn't kept.
    pub(crate) fn mark(&self, before: Option<Mark>, number: u64) -> Option<Mark> {
        if !self.is_kept {
            return None;
        }
        let losses = match before {
            Some(mark) => mark.losses,
            None => self.losses.load(Ordering::SeqCst),
        };
        Some(Mark { number, losses })
    }

    /// Whether all below the mark was taken; none as long as it wasn't handed on. Where any part wasn't taken since, it is said that this
    /// one wasn't.
    pub(crate) fn has_taken(&self, mark: Mark) -> Option<bool> {
        if self.next.load(Ordering::SeqCst) < mark.number {
            return None;
        }
        Some(self.losses.load(Ordering::SeqCst) == mark.losses)
    }
}
