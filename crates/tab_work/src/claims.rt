//! What compactors are at work on.

use std::alloc::Global;
use std::sync::{Mutex, Wait};
use tab_core::{Due, DueKind};

/// What compactors are at work on. What is due stays so until its merge is installed: without claims a second compactor would begin it
/// anew meanwhile, and the first one's merge would be stale.
#[derive(Drop)]
pub struct Claims {
    taken: Mutex<Vec<Due>>,
}

impl Claims {
    /// Nobody is at work. It takes no memory.
    pub fn new(alloc: Global) -> Claims {
        Claims {
            taken: Mutex::new(Vec::new(alloc)),
        }
    }

    /// Whether nobody was at work on it, nor on another split where it's one. Whoever asked is from now on, until it's given back. Where
    /// memory lacks for the claim nobody is.
    ///
    /// Both halves of a tablet that is split share its sorted tables, and are due for a split of their own until these are merged: so
    /// tablets are split one after another.
    pub fn take(&self, rt: &impl Wait, due: Due) -> bool {
        let mut taken = self.taken.lock(rt);
        !taken.iter().any(|other| is_in_the_way(other, &due)) && taken.push(due).is_ok()
    }

    /// Whoever was at work on it isn't any more.
    pub fn give_back(&self, rt: &impl Wait, due: Due) {
        let mut taken = self.taken.lock(rt);
        taken.retain(|other| *other != due);
    }
}

// Whether it's the same work, or both are splits.
fn is_in_the_way(taken: &Due, due: &Due) -> bool {
    taken == due || matches!((taken.kind, due.kind), (DueKind::Split, DueKind::Split))
}
