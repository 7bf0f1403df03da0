//! Partitions that are emptied one after another, the one of the lowest rows first.
ghost use Rattle.std.specs.Prelude.{◌≡◌, ◌++◌, ◌∷◌, [], OnOk};
ghost use Rattle.tab_key.specs.Sorted.{IsDistinct, sorted};
ghost use Rattle.tab_iter.specs.Bags.{flat};
ghost use Rattle.tab_mem.specs.Partitions.{ArePartitions};

use crate::partitions::Partitions;
use crate::partitions::draining::{Totals, drain};
use crate::records::Records;
use std::alloc::{AllocError, Global};

/// Puts all records behind the others, sorted, and leaves none. What they took is given back with each partition.
///
/// `AllocError` may leave the first ones put: none is lost, and none stands twice.
pub(crate) fn drain_all(
    alloc: Global,
    records: &mut Records,
    partitions: &mut Partitions,
    totals: Totals,
) -> Result<(), AllocError>
    requires distinct { IsDistinct (flat (partitions.old.lowest ∷ partitions.old.higher.items)) }
    requires parted { ArePartitions partitions.old.lows.items partitions.old.lowest partitions.old.higher.items }
    ensures ok { OnOk result (records.new ≡ records.old ++ sorted (flat (partitions.old.lowest ∷ partitions.old.higher.items))) }
    ensures empty { OnOk result (flat (partitions.new.lowest ∷ partitions.new.higher.items) ≡ []) }
    ensures kept { records.new ++ sorted (flat (partitions.new.lowest ∷ partitions.new.higher.items)) ≡ records.old ++ sorted (flat (partitions.old.lowest ∷ partitions.old.higher.items)) }
    ensures parted { ArePartitions partitions.new.lows.items partitions.new.lowest partitions.new.higher.items }
{
    drain(alloc, records, &mut partitions.lowest, totals)?;
    let mut place = 0;
    while place < partitions.higher.len() {
        drain(alloc, records, &mut partitions.higher[place], totals)?;
        place += 1;
    }
    Ok(())
}
