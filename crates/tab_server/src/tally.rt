//! What is counted of connections.

use crate::refused::REFUSAL_COUNT;
use std::alloc::{AllocError, Global};
use std::sync::atomic::{AtomicU64, Ordering};

/// A number that one thread adds to, and others read.
#[derive(Drop)]
pub(crate) struct Counter {
    count: AtomicU64,
}

impl Counter {
    /// At 0.
    pub(crate) fn new() -> Counter {
        Counter {
            count: AtomicU64::new(0),
        }
    }

    /// Adds so many.
    pub(crate) fn add(&self, more: u64) {
        let _ = self.count.fetch_add(more, Ordering::SeqCst);
    }

    /// Sets it.
    pub(crate) fn set(&self, count: u64) {
        self.count.store(count, Ordering::SeqCst);
    }

    /// What it is now.
    pub(crate) fn get(&self) -> u64 {
        self.count.load(Ordering::SeqCst)
    }
}

/// What is counted.
#[derive(Clone, Copy)]
pub(crate) enum Tallied {
    Frames,
    CellsRead,
    CellsWritten,
    Begun,
    Ended,
}

/// What one worker counts of the connections that it has served, and serves. No other thread adds to it, so that workers wait for nothing.
#[derive(Drop)]
pub(crate) struct Tally {
    /// Frames that were read.
    pub(crate) frames: Counter,
    /// Refusals that were told.
    pub(crate) refusals: Counter,
    /// Cells that were told.
    pub(crate) cells_read: Counter,
    /// Updates of Writes that were done.
    pub(crate) cells_written: Counter,
    /// Connections that began.
    pub(crate) begun: Counter,
    /// Connections that have ended.
    pub(crate) ended: Counter,
    // the refusals, by the places of their names
    refused: Vec<Counter>,
}

impl Tally {
    /// All at 0.
    pub(crate) fn new(alloc: Global) -> Result<Tally, AllocError> {
        let mut refused = Vec::new(alloc);
        for _ in 0..REFUSAL_COUNT {
            refused.push(Counter::new())?;
        }
        Ok(Tally {
            frames: Counter::new(),
            refusals: Counter::new(),
            cells_read: Counter::new(),
            cells_written: Counter::new(),
            begun: Counter::new(),
            ended: Counter::new(),
            refused,
        })
    }

    /// One of its counts.
    pub(crate) fn get(&self, what: Tallied) -> u64 {
        match what {
            Tallied::Frames => self.frames.get(),
            Tallied::CellsRead => self.cells_read.get(),
            Tallied::CellsWritten => self.cells_written.get(),
            Tallied::Begun => self.begun.get(),
            Tallied::Ended => self.ended.get(),
        }
    }

    /// Counts a refusal whose name has this place.
    pub(crate) fn refuse(&self, place: usize) {
        self.refusals.add(1);
        if let Some(counter) = self.refused.get(place) {
            counter.add(1);
        }
    }

    /// How many refusals of the name at this place were told.
    pub(crate) fn refused(&self, place: usize) -> u64 {
        match self.refused.get(place) {
            Some(counter) => counter.get(),
            None => 0,
        }
    }
}
