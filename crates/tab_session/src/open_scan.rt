//! An open scan as its list and how far it has come.
ghost use Rattle.std.specs.Prelude.{◌≡◌, length, IfOk, OnOk, OnErr};
ghost use Rattle.tab_cells.specs.Cells.{cells};
ghost use Rattle.tab_cells.specs.SessionState.{batch, gave, in_ranges};
ghost use Rattle.tab_iter.specs.Stack.{query_of};

use crate::bookmark::Bookmark;
use crate::chunks::LEAST_RANGES;
use crate::room::Room;
use crate::snapshot_scan::SnapshotScan;
use std::alloc::{AllocError, Global};
use std::marker::Model;
use std::thread::Threads;
use tab_key::{Bounds, Cells, Column, Items};
use tab_label::AuthSet;
use tab_version::Version;

/// The cells that a scan shows, as the table stood when it was opened, and how many were given.
#[derive(Drop)]
pub(crate) struct OpenScan {
    scan: SnapshotScan,
    // none once all cells were given
    next: Option<Bookmark>,
    // what the batch before took
    took: Room,
}

impl Model for OpenScan {
    ghost use Rattle.std.specs.Prelude.{map};
    ghost use Rattle.tab_key.specs.Records.{cell_of};
    ghost use Rattle.tab_cells.specs.SessionState.{SessionState};
    ghost use Rattle.tab_session.specs.Bookmarks.{given_of};

    ghost Value = { SessionState };

    ghost view = { λ s. record { all = map cell_of s.scan; given = given_of s.next s.scan } };
}

impl OpenScan {
    /// An open scan on what a scan of all rows of the version shows: of these columns, under these authorizations, so many versions
    /// of each column. None of its cells was given.
    pub(crate) fn new(
        alloc: Global,
        version: Version,
        columns: Items<Column>,
        auths: AuthSet,
        versions: u32,
    ) -> OpenScan
        ensures { result ≡ record { all = cells version versions (query_of columns auths); given = 0 } }
    {
        let next = Bookmark::first(&version);
        OpenScan {
            scan: SnapshotScan::new(alloc, version, columns, auths, versions),
            next,
            took: Room::unknown(),
        }
    }

    /// Drops the caches of tables; new ones are of so many blocks at most. The scan stays as it was.
    pub(crate) fn set_cache(&mut self, blocks: usize)
        ensures { self.new ≡ self.old }
    {
        self.scan.set_cache(blocks);
    }

    /// The next `count` cells, fewer only at the end. Where memory lacks, the scan is as before.
    ///
    /// Each batch but the first makes one seek, and reads nothing before the column of its place. Nothing is copied but the cells, to
    /// one piece of memory, and one key. Each batch but the first asks at once for about as much memory as the one before took, but for
    /// no more than `count` cells may need.
    pub(crate) fn next_batch(&mut self, alloc: Global, count: u32) -> Result<Cells, AllocError>
        ensures ok { IfOk result (λ cells. cells ≡ batch self.old count) }
        ensures after { OnOk result (self.new ≡ gave (length (batch self.old count)) self.old) }
        ensures err { OnErr result (self.new ≡ self.old) }
    {
        let Some(from) = &self.next else {
            return Ok(Cells::new(alloc));
        };
        let room = self.took.for_next(count);
        let batch = self.scan.read(alloc, from, count, room)?;
        self.took = Room::of(&batch.cells);
        self.next = batch.next;
        Ok(batch.cells)
    }

    /// The whole answer in each of these ranges of rows, in their order, whatever batches were taken. The scan stays as it was; its
    /// verdicts on labels are kept for what is read next, as behind a batch.
    ///
    /// They are read in the order of their low ends, each from there to the first row above its high one, by a seek in what the ranges
    /// before it were read from; that order takes 16 bytes a range. A range that is none has no cell. The error comes only from want of
    /// memory.
    pub(crate) fn scan_each(
        &mut self,
        alloc: Global,
        ranges: &[Bounds],
    ) -> Result<Items<Cells>, AllocError>
        ensures cells { IfOk result (λ cells. cells ≡ in_ranges self.old ranges.now) }
        ensures same { self.new ≡ self.old }
    {
        self.scan.read_ranges(alloc, ranges)
    }

    /// The answers of `scan_each`, read by several threads where there are enough ranges.
    pub(crate) fn scan_many(
        &mut self,
        rt: &(impl Threads + Sync),
        alloc: Global,
        ranges: &[Bounds],
    ) -> Result<Items<Cells>, AllocError>
        ensures cells { IfOk result (λ cells. cells ≡ in_ranges self.old ranges.now) }
        ensures same { self.new ≡ self.old }
    {
        if ranges.len() < LEAST_RANGES {
            return self.scan_each(alloc, ranges);
        }
        self.scan.read_at_once(rt, alloc, ranges)
    }
}
