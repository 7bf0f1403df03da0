//! Records as they were written: at first all in one partition, and in several by their rows once they are many.
ghost use Rattle.std.specs.Prelude.{◌≡◌, ◌<◌, ◌*◌, ◌^◌, ◌++◌, ◌==◌, [], IfOk, OnOk, OnErr, length};
ghost use Rattle.std.specs.List.Sorted.{IsPermutation};
ghost use Rattle.tab_key.specs.Sorted.{IsDistinct, sorted};
ghost use Rattle.tab_cells.specs.Written.{mutation_records};
ghost use Rattle.tab_iter.specs.Lists.{HasI64Timestamps};

use crate::partitions::draining::Totals;
use crate::partitions::layout::Layout;
use crate::partitions::unsorted::Unsorted;
use crate::records::Records;
use crate::sorting::item::Item;
use std::alloc::{AllocError, Global};
use std::marker::Model;
use tab_mutation::Shaped;

/// Records as they were written.
///
/// Once there are many, they are spread over 16 partitions by their rows, between the quantiles of those that there are by then, and what is
/// written later goes to the partition of its row. So a freeze sorts one partition after another, and gives each back. A contract sees the list of
/// all records.
#[derive(Drop)]
pub(crate) struct WriteBuffer {
    alloc: Global,
    layout: Layout,
}

impl Model for WriteBuffer {
    ghost use Rattle.std.specs.Prelude.{List};
    ghost use Rattle.tab_key.specs.Records.{Record as Fields};
    ghost use Rattle.tab_mem.specs.Layouts.{written_in, AreParted};

    ghost Value = { List Fields };

    ghost view = { λ p. written_in p.layout };

    ghost invariant = { λ p. AreParted p.layout };
}

impl WriteBuffer {
    /// No records. It takes no memory.
    pub(crate) fn new(alloc: Global) -> WriteBuffer
        ensures { result ≡ [] }
    {
        WriteBuffer {
            alloc,
            layout: Layout::One(Unsorted::new(alloc)),
        }
    }

    /// How many records there are.
    pub(crate) fn len(&self) -> usize
        ensures len { result ≡ length self.now }
        ensures few { 41 * result < 2 ^ 67 }
    {
        self.layout.len()
    }

    /// Whether there is no record.
    pub(crate) fn is_empty(&self) -> bool
        ensures { result ≡ (length self.now == 0) }
    {
        self.len() == 0
    }

    /// How many bytes all records take in their partitions.
    pub(crate) fn byte_len(&self) -> usize {
        self.layout.byte_len()
    }

    /// The records, lent. Memory is asked for once.
    pub(crate) fn items(&self, alloc: Global) -> Result<Vec<Item<'_>>, AllocError>
        ensures { IfOk result (λ v. v.items ≡ self.now) }
    {
        let mut items = Vec::with_capacity(alloc, self.len())?;
        self.layout.lend_to(&mut items)?;
        Ok(items)
    }

    /// Adds the records of an accepted mutation. `AllocError` leaves the records as they were.
    ///
    /// Where they become many by it, they are spread. Where memory lacks for that they aren't, and what is written later isn't either.
    pub(crate) fn write(
        &mut self,
        mutation: &Shaped<'_>,
        seq: u64,
        clock: i64,
    ) -> Result<(), AllocError>
        ensures ok { OnOk result (IsPermutation (self.old ++ mutation_records seq clock mutation.now) self.new) }
        ensures timestamps { OnOk result (HasI64Timestamps (mutation_records seq clock mutation.now)) }
        ensures err { OnErr result (self.new ≡ self.old) }
    {
        let have_become_many = self.layout.write(mutation, seq, clock)?;
        if have_become_many {
            self.layout.spread(self.alloc);
        }
        Ok(())
    }

    /// Puts copies of the records behind the others, and of these too: all lie in one partition then. `AllocError` leaves the records as they
    /// were.
    pub(crate) fn push_all(&mut self, items: &[Item<'_>]) -> Result<(), AllocError>
        ensures ok { OnOk result (self.new ≡ self.old ++ items.now) }
        ensures err { OnErr result (self.new ≡ self.old) }
    {
        if items.is_empty() {
            return Ok(());
        }
        let mut one = Unsorted::new(self.alloc);
        one.push_all(&self.items(self.alloc)?)?;
        one.push_all(items)?;
        self.layout = Layout::One(one);
        Ok(())
    }

    /// Puts the records behind the others, sorted, and leaves none: first those of the lowest rows. What they took is given back with each
    /// partition. `AllocError` may leave the first ones put: none is lost, and none stands twice.
    pub(crate) fn drain(&mut self, records: &mut Records) -> Result<(), AllocError>
        requires { IsDistinct self.old }
        ensures ok { OnOk result (records.new ≡ records.old ++ sorted self.old) }
        ensures empty { OnOk result (self.new ≡ []) }
        ensures kept { records.new ++ sorted self.new ≡ records.old ++ sorted self.old }
    {
        let totals = Totals {
            records: self.len(),
            bytes: self.byte_len(),
        };
        self.layout.drain(self.alloc, records, totals)?;
        self.layout = Layout::One(Unsorted::new(self.alloc));
        Ok(())
    }
}
