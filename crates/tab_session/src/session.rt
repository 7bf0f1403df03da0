//! An open scan that knows whether it is done.
ghost use Rattle.std.specs.Prelude.{◌≡◌, ◌<◌, ◌≤◌, ℕ, [], Bool, ◌||◌, IsTrue, length, IfOk, OnOk, OnErr};
ghost use Rattle.tab_cells.specs.Cells.{cells};
ghost use Rattle.tab_cells.specs.SessionState.{batch, gave, in_ranges};
ghost use Rattle.tab_iter.specs.Stack.{query_of};
ghost use Rattle.tab_session.specs.OpenSession.{opened, is_short};

use crate::open_scan::OpenScan;
use std::alloc::{AllocError, Global};
use std::marker::Model;
use std::thread::Threads;
use tab_key::{Bounds, Cells, Column, Items};
use tab_label::AuthSet;
use tab_version::Version;

/// An open scan: the cells that it shows, as the table stood when it was opened, how many were given, and whether it is done.
///
/// Nothing that happens afterwards changes it. It holds none of its cells: each batch is read anew from the version that it owns.
/// (Accumulo user manual: scanner)
pub struct Session {
    scan: OpenScan,
    done: bool,
}

// Written out, so that a crate above needn't prove anew how the parts are dropped.
impl Drop for Session {
    #[inline(always)]
    fn drop(self) {
        let Session { scan: _, done: _ } = self;
    }
}

impl Model for Session {
    ghost use Rattle.std.specs.Prelude.{◌≡◌, ◌≤◌, true, length};
    ghost use Rattle.tab_session.specs.OpenSession.{OpenSession};

    ghost Value = { OpenSession };

    ghost view = { λ s. record { state = s.scan; done = s.done } };

    ghost invariant = { λ s. s.done ≡ true → length s.scan.all ≤ s.scan.given };
}

impl Session {
    /// A session on what a scan of all rows of the version shows: of these columns, under these authorizations, so many versions
    /// of each column. None of its cells was given, and it isn't done, even where it has none.
    pub fn new(
        alloc: Global,
        version: Version,
        columns: Items<Column>,
        auths: AuthSet,
        versions: u32,
    ) -> Session
        ensures { result ≡ opened (cells version versions (query_of columns auths)) }
    {
        Session {
            scan: OpenScan::new(alloc, version, columns, auths, versions),
            done: false,
        }
    }

    /// Whether a batch shorter than asked was given: all batches behind that one are empty. It takes no memory.
    ///
    /// A batch that ends exactly at the end isn't short, nor is one of no cell where none was asked for.
    pub fn is_done(&self) -> bool
        ensures done { result ≡ self.now.done }
        ensures ended { IsTrue result → (n : ℕ) → batch self.now.state n ≡ [] }
    {
        self.done
    }

    /// Drops the caches of tables, and lets each new one have so many blocks at most, 1 to 64; 8 where this was never called. The session
    /// stays as it was, and so does what each batch gives.
    ///
    /// A batch leaves in the cache of a table what it decoded last of it, and no memory is taken before. A session has 64 caches at most;
    /// ranges are read without them. It can't fail.
    pub fn set_cache(&mut self, blocks: usize) -> Result<(), AllocError>
        requires some { 0 < blocks }
        requires few { blocks ≤ 64 }
        ensures { self.new ≡ self.old }
    {
        self.scan.set_cache(blocks);
        Ok(())
    }

    /// The next `count` cells, fewer only at the end: then the session is done. Where memory lacks, it is as before.
    ///
    /// Each batch but the first makes one seek, and reads nothing before the column of its place. Nothing is copied but the cells, to
    /// one piece of memory, and one key. Each batch but the first asks at once for about as much memory as the one before took, but for
    /// no more than `count` cells may need.
    pub fn next_batch(&mut self, alloc: Global, count: u32) -> Result<Cells, AllocError>
        ensures ok { IfOk result (λ cells. cells ≡ batch self.old.state count) }
        ensures after { OnOk result (self.new.state ≡ gave (length (batch self.old.state count)) self.old.state) }
        ensures done { OnOk result (self.new.done ≡ (self.old.done || is_short self.old.state count)) }
        ensures err { OnErr result (self.new ≡ self.old) }
    {
        let cells = self.scan.next_batch(alloc, count)?;
        let is_short = cells.len() < count as usize;
        self.done = self.done || is_short;
        Ok(cells)
    }

    /// The whole answer in each of these ranges of rows, in their order, whatever batches were taken. The session stays as it was; its
    /// verdicts on labels are kept for what is read next, as behind a batch.
    ///
    /// They are read in the order of their low ends, each from there to the first row above its high one, by a seek in what the ranges
    /// before it were read from; that order takes 16 bytes a range. A range that is none has no cell. The error comes only from want of
    /// memory.
    pub fn scan_each(
        &mut self,
        alloc: Global,
        ranges: &[Bounds],
    ) -> Result<Items<Cells>, AllocError>
        ensures cells { IfOk result (λ cells. cells ≡ in_ranges self.old.state ranges.now) }
        ensures same { self.new ≡ self.old }
    {
        self.scan.scan_each(alloc, ranges)
    }

    /// The answers of [`Session::scan_each`], read by several threads where that is sooner. Of 500 ranges or more the calling thread reads
    /// the first 32; where these have 1,024 cells or more, the others are read in four shares, each as [`Session::scan_each`] reads ranges,
    /// but with verdicts of its own, which are dropped behind it. So each judges the labels that it meets anew.
    ///
    /// There are no more threads than processors, and where none can be made the calling one reads all. The error comes only from want
    /// of memory, of whichever share; the session is as before.
    pub fn scan_many(
        &mut self,
        rt: &(impl Threads + Sync),
        alloc: Global,
        ranges: &[Bounds],
    ) -> Result<Items<Cells>, AllocError>
        ensures cells { IfOk result (λ cells. cells ≡ in_ranges self.old.state ranges.now) }
        ensures same { self.new ≡ self.old }
    {
        self.scan.scan_many(rt, alloc, ranges)
    }
}
