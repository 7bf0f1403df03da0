//! What a server counts.

use crate::tally::{Counter, Tallied, Tally};
use std::alloc::{AllocError, Global};
use std::sync::atomic::{AtomicBool, AtomicUsize, Ordering};
use tab_work::Gate;

/// What a server counts, each worker for itself. As a gate of compactors it counts what they install, and holds nothing up.
#[derive(Drop)]
pub(crate) struct Counters {
    tallies: Vec<Tally>,
    // for a worker beyond their number
    spare: Tally,
    // how many of them are taken
    taken: AtomicUsize,
    installs: Counter,
    // whether what was merged is to go from the history
    wants_rotation: AtomicBool,
}

impl Counters {
    /// Of so many workers, all at 0.
    pub(crate) fn new(alloc: Global, workers: u32) -> Result<Counters, AllocError> {
        let spare = Tally::new(alloc)?;
        let mut tallies = Vec::new(alloc);
        for _ in 0..workers {
            tallies.push(Tally::new(alloc)?)?;
        }
        Ok(Counters {
            tallies,
            spare,
            taken: AtomicUsize::new(0),
            installs: Counter::new(),
            wants_rotation: AtomicBool::new(false),
        })
    }

    /// A tally that no worker has taken yet.
    pub(crate) fn take(&self) -> &Tally {
        let place = self.taken.fetch_add(1, Ordering::SeqCst);
        match self.tallies.get(place) {
            Some(tally) => tally,
            None => &self.spare,
        }
    }

    /// The sum of this count over all workers.
    pub(crate) fn sum(&self, what: Tallied) -> u64 {
        let mut sum = self.spare.get(what);
        for tally in self.tallies.iter() {
            sum = sum.wrapping_add(tally.get(what));
        }
        sum
    }

    /// How many refusals of the name at this place were told.
    pub(crate) fn refused(&self, place: usize) -> u64 {
        let mut sum = self.spare.refused(place);
        for tally in self.tallies.iter() {
            sum = sum.wrapping_add(tally.refused(place));
        }
        sum
    }

    /// How many merges compactors have installed.
    pub(crate) fn installs(&self) -> u64 {
        self.installs.get()
    }

    /// The history may hold what compactors have merged since: it is to be handed on, however long it is.
    pub(crate) fn want_rotation(&self) {
        self.wants_rotation.store(true, Ordering::SeqCst);
    }

    /// Whether it is to be handed on for that reason. Nobody wants it from now on.
    pub(crate) fn take_want(&self) -> bool {
        self.wants_rotation.swap(false, Ordering::SeqCst)
    }

    /// How many workers there are.
    pub(crate) fn workers(&self) -> usize {
        self.tallies.len()
    }
}

impl Gate for Counters {
    fn before_merge(&self) {}

    fn before_batch(&self) {}

    fn after_write(&self) {}

    fn after_install(&self) {
        self.installs.add(1);
    }
}
