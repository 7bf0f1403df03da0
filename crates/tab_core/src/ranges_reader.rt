//! How the ranges of a session are read: one after another, or by several threads.
ghost use Rattle.std.specs.Prelude.{◌≡◌, IfOk};
ghost use Rattle.tab_cells.specs.SessionState.{in_ranges};

use crate::Session;
use std::alloc::{AllocError, Global};
use std::thread::Threads;
use tab_key::{Bounds, Cells, Items};

/// What reads ranges of a session.
pub(crate) trait RangesReader {
    // What has to be known of the reader's type before it reads.
    ghost ready: { Type 0 };

    /// The whole answer of the session in each of the ranges. The session stays as it was.
    fn read(
        &self,
        alloc: Global,
        session: &mut Session,
        ranges: &[Bounds],
    ) -> Result<Items<Cells>, AllocError>
        requires { ready }
        ensures cells { IfOk result (λ cells. cells ≡ in_ranges session.old.state ranges.now) }
        ensures same { session.new ≡ session.old };
}

/// Reads one range after another.
#[derive(Drop)]
pub(crate) struct OneByOne;

impl RangesReader for OneByOne {
    ghost ready = { Unit {0} };

    fn read(
        &self,
        alloc: Global,
        session: &mut Session,
        ranges: &[Bounds],
    ) -> Result<Items<Cells>, AllocError> {
        session.scan_each(alloc, ranges)
    }
}

/// Reads many ranges by several threads, among which the runtime value is shared.
#[derive(Drop)]
pub(crate) struct ByThreads<'a, R> {
    pub(crate) rt: &'a R,
}

impl<'a, R: Threads + Sync> RangesReader for ByThreads<'a, R> {
    ghost use Rattle.std.specs.Thread.{IsSync};

    ghost ready = { IsSync R.row };

    fn read(
        &self,
        alloc: Global,
        session: &mut Session,
        ranges: &[Bounds],
    ) -> Result<Items<Cells>, AllocError> {
        session.scan_many(self.rt, alloc, ranges)
    }
}
