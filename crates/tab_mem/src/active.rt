//! What is written to a table, until it is frozen.
ghost use Rattle.std.specs.Prelude.{◌≡◌, ◌<◌, ◌++◌, ◌==◌, [], length, IfOk, IfSome, OnOk, OnErr, Contains};
ghost use Rattle.tab_key.specs.Records.{Record as Fields};
ghost use Rattle.tab_key.specs.Sorted.{IsDistinct, sorted};
ghost use Rattle.tab_cells.specs.Written.{mutation_records};

use crate::Run;
use crate::freezing::frozen;
use crate::sorted_records::SortedRecords;
use crate::sorting::{copied, sort_items};
use crate::write_buffer::WriteBuffer;
use std::alloc::{AllocError, Global};
use std::marker::Model;
use std::mem::size_of;
use std::sync::Arc;
use tab_mutation::Shaped;

// An active part takes at most 56 bytes until its records are many: it lies in each tablet, and so in each empty table.
const _: () = prove!(size_of::<Active>() <= 56);

/// The records that were written since the last freeze, in the order in which they were written. A contract sees their list.
///
/// No two have one number and one place in its mutation.
pub struct Active {
    written: WriteBuffer,
    // what a freeze made, until this is frozen in its place, or had sorted when memory lacked
    kept: SortedRecords,
}

// Written out, so that a crate above needn't prove anew how the parts are dropped.
impl Drop for Active {
    #[inline(always)]
    fn drop(self) {
        let Active {
            written: _,
            kept: _,
        } = self;
    }
}

impl Model for Active {
    ghost use Rattle.std.specs.Prelude.{List, ◌++◌};
    ghost use Rattle.tab_key.specs.Records.{Record as Fields};
    ghost use Rattle.tab_mem.specs.Writing.{as_written, IsHeld};

    ghost Value = { List Fields };

    ghost view = { λ a. as_written (a.written ++ a.kept) };

    ghost invariant = { λ a. IsHeld (a.written ++ a.kept) };
}

impl Active {
    /// No records. It takes no memory.
    pub fn new(alloc: Global) -> Active
        ensures { result ≡ [] }
    {
        Active {
            written: WriteBuffer::new(alloc),
            kept: SortedRecords::nothing(),
        }
    }

    /// How many records there are, markers and hidden ones among them.
    pub fn len(&self) -> usize
        ensures len { result ≡ length self.now }
        ensures distinct { IsDistinct self.now }
    {
        self.written.len() + self.kept.len()
    }

    /// Whether there is no record.
    pub fn is_empty(&self) -> bool
        ensures { result ≡ (length self.now == 0) }
    {
        self.len() == 0
    }

    /// Adds the updates of a mutation, whose shape was accepted: each with this number, its place in the mutation counted from 0,
    /// and the clock where it gives no timestamp. It takes time linear in the mutation, however much was written before; but the write by
    /// which the records become many, 4,096 of them in a mebibyte, spreads them by their rows over 16 partitions.
    ///
    /// `AllocError` leaves all as it was: the mutation goes in whole or not at all.
    pub fn write(&mut self, mutation: &Shaped<'_>, seq: u64, clock: i64) -> Result<(), AllocError>
        requires unused { (u : Fields) → Contains self.old u → u.seq < seq }
        ensures ok { OnOk result (self.new ≡ self.old ++ mutation_records seq clock mutation.now) }
        ensures err { OnErr result (self.new ≡ self.old) }
    {
        self.written.write(mutation, seq, clock)
    }

    /// The records as a run, in their order. They are kept here too, as they are.
    ///
    /// Where `freeze` made the run and nothing was written since, it is shared. Else it is written anew: that takes memory for the run and,
    /// until it returns, for 32 bytes a record. `AllocError` says that it lacked.
    pub fn to_run(&self, alloc: Global) -> Result<Arc<Run>, AllocError>
        ensures { IfOk result (λ run. run.value ≡ sorted self.now) }
    {
        match self.made()? {
            Some(run) => Ok(run),
            None => self.copy(alloc),
        }
    }

    /// The records as a run, in their order. They are kept here too: a contract sees nothing that changes.
    ///
    /// The run holds the only copy, and a share of it is kept here. Where the records are many, they lie in 16 partitions by their rows, which
    /// are sorted one after another, and each gives its memory back then: at once the records take about one and a 16th times their bytes,
    /// beside the run's places and 32 bytes for each record of one body. Where more than a quarter of all lies in one body, as it does where
    /// the first mebibyte has other rows than what came later, it is sorted in four parts, none of which cuts a row, and shrinks with each.
    /// Fewer than 4,096 records, or less than a mebibyte, take memory as `to_run` does. Where rows have four records or more, as the first
    /// ones of a body tell, neighbours of one row are sorted as one, and then the records of each row by themselves, with 48 bytes for each
    /// of the largest row in place of the 32.
    ///
    /// `AllocError` leaves all that a contract sees as it was.
    pub fn freeze(&mut self, alloc: Global) -> Result<Arc<Run>, AllocError>
        ensures ok { IfOk result (λ run. run.value ≡ sorted self.old) }
        ensures same { self.new ≡ self.old }
    {
        match self.made()? {
            Some(run) => Ok(run),
            None => frozen(alloc, &mut self.written, &mut self.kept),
        }
    }

    /// A copy of the records. What is written to one of the two later doesn't stand in the other.
    ///
    /// They share the run that `freeze` made, where nothing was written since. Else the records are copied once, which takes memory as
    /// `to_run` does. `AllocError` says that it lacked.
    pub fn copied(&self, alloc: Global) -> Result<Active, AllocError>
        ensures { IfOk result (λ copy. copy ≡ self.now) }
    {
        if self.is_empty() {
            return Ok(Active::new(alloc));
        }
        let _count = self.written.len();
        let run = self.to_run(alloc)?;
        Ok(Active {
            written: WriteBuffer::new(alloc),
            kept: SortedRecords::made(run),
        })
    }

    // The run that a freeze made, if it made one and holds all records.
    fn made(&self) -> Result<Option<Arc<Run>>, AllocError>
        ensures { IfOk result (λ o. IfSome o (λ run. run.value ≡ sorted self.now)) }
    {
        if !self.written.is_empty() {
            return Ok(None);
        }
        self.kept.share()
    }

    // A run of copies.
    fn copy(&self, alloc: Global) -> Result<Arc<Run>, AllocError>
        ensures { IfOk result (λ run. run.value ≡ sorted self.now) }
    {
        let mut items = self.written.items(alloc)?;
        self.kept.lend_to(&mut items)?;
        sort_items(&mut items);
        let records = copied(alloc, &items, self.written.byte_len())?;
        let run = Arc::new(alloc, Run { records })?;
        Ok(run)
    }
}
