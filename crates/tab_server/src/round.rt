//! What of a history is gathered for a store.

use std::alloc::{AllocError, Global};
use std::sync::ledger::Ledger;
use tab_book::SharedEntry;
use tab_journal::Gathered;

// From how many bytes on what was gathered is kept before more is.
const BATCH: usize = 8 << 20;

/// What of a history was gathered for a store and isn't kept yet, and the number of the entry that is next.
#[derive(Drop)]
pub(crate) struct Round {
    next: u64,
    gathered: Gathered,
}

impl Round {
    /// Nothing is gathered of a history whose first entry has number 0, and which begins at this clock.
    pub(crate) fn new(alloc: Global, clock: i64) -> Round {
        Round {
            next: 0,
            gathered: Gathered::new(alloc, clock),
        }
    }

    /// The number of the entry that is next.
    pub(crate) fn next(&self) -> u64 {
        self.next
    }

    /// What was gathered and isn't kept.
    pub(crate) fn entries(&self) -> &[u8] {
        self.gathered.body()
    }

    /// Whether it's to be kept before more is gathered: so no batch has more than 8 MiB and an entry.
    pub(crate) fn is_full(&self) -> bool {
        self.entries().len() >= BATCH
    }

    /// Gathers the next entry, which this is. Where memory lacks it isn't.
    pub(crate) fn add(&mut self, entry: &SharedEntry) -> Result<(), AllocError> {
        self.gathered.add(entry.event(), entry.outcome())?;
        self.next = self.next.saturating_add(1);
        Ok(())
    }

    /// What was gathered is kept.
    pub(crate) fn clear(&mut self) {
        self.gathered.clear();
    }
}
