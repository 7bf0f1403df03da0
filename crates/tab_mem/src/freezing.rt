//! A freeze: what was written becomes a run, wherever its records lie.
ghost use Rattle.std.specs.Prelude.{◌≡◌, ◌++◌, [], IfOk, OnOk, OnErr};
ghost use Rattle.std.specs.List.Sorted.{IsPermutation};
ghost use Rattle.tab_key.specs.Sorted.{IsDistinct, sorted};
ghost use Rattle.tab_iter.specs.Lists.{IsRising};
ghost use Rattle.tab_mem.specs.Writing.{IsHeld};

use crate::Run;
use crate::records::Records;
use crate::sorted_records::SortedRecords;
use crate::write_buffer::WriteBuffer;
use std::alloc::{AllocError, Global};
use std::mem;
use std::sync::Arc;

/// A run of all records, in their order, which is kept too.
///
/// `AllocError` may leave the records in other places than they were: none is lost, and none stands twice.
pub(crate) fn frozen(
    alloc: Global,
    written: &mut WriteBuffer,
    kept: &mut SortedRecords,
) -> Result<Arc<Run>, AllocError>
    requires { IsHeld (written.old ++ kept.old) }
    ensures ok { IfOk result (λ made. made.value ≡ sorted (written.old ++ kept.old)) }
    ensures moved { IsPermutation (written.old ++ kept.old) (written.new ++ kept.new) }
{
    gather(alloc, written, kept)?;
    let parts = sort_all(alloc, written, kept)?;
    finish(alloc, parts, kept)
}

// Moves what was kept behind what was written. `AllocError` leaves all as it was.
fn gather(
    alloc: Global,
    written: &mut WriteBuffer,
    kept: &mut SortedRecords,
) -> Result<(), AllocError>
    ensures ok { OnOk result (written.new ≡ written.old ++ kept.old) }
    ensures empty { OnOk result (kept.new ≡ []) }
    ensures err { OnErr result (written.new ≡ written.old) }
    ensures left { OnErr result (kept.new ≡ kept.old) }
{
    put_kept(alloc, written, kept)?;
    *kept = SortedRecords::nothing();
    Ok(())
}

// Puts copies of what was kept behind what was written. `AllocError` leaves all as it was.
fn put_kept(
    alloc: Global,
    written: &mut WriteBuffer,
    kept: &SortedRecords,
) -> Result<(), AllocError>
    ensures ok { OnOk result (written.new ≡ written.old ++ kept.now) }
    ensures err { OnErr result (written.new ≡ written.old) }
{
    let mut items = Vec::with_capacity(alloc, kept.len())?;
    kept.lend_to(&mut items)?;
    written.push_all(&items)
}

// All that was written, in its order; none is left there. After an error what was sorted by then is kept, where nothing was.
fn sort_all(
    alloc: Global,
    written: &mut WriteBuffer,
    kept: &mut SortedRecords,
) -> Result<Box<Records>, AllocError>
    requires distinct { IsDistinct written.old }
    requires none { kept.old ≡ [] }
    ensures ok { IfOk result (λ parts. parts.value ≡ sorted written.old) }
    ensures empty { OnOk result (written.new ≡ []) }
    ensures kept { OnErr result (kept.new ++ sorted written.new ≡ sorted written.old) }
{
    let room = Records::with_capacity(alloc, written.len(), written.byte_len())?;
    let mut parts = Box::new(alloc, room)?;
    match written.drain(&mut parts) {
        Ok(()) => Ok(parts),
        Err(fault) => {
            *kept = SortedRecords::sorted(parts);
            Err(fault)
        }
    }
}

// Makes the sorted records a run, which is kept. Where memory lacks for it, they are kept as they are.
fn finish(
    alloc: Global,
    parts: Box<Records>,
    kept: &mut SortedRecords,
) -> Result<Arc<Run>, AllocError>
    requires { IsRising parts.value }
    ensures ok { IfOk result (λ made. made.value ≡ parts.value) }
    ensures kept { kept.new ≡ parts.value }
{
    let mut place = parts;
    let records = mem::replace(&mut *place, Records::new(alloc));
    match Arc::new(alloc, Run::of(records)) {
        Ok(made) => keep(made, kept),
        Err(refused) => {
            *kept = SortedRecords::sorted(put_back(refused.value, place));
            Err(AllocError)
        }
    }
}

// Keeps the run, and shares it once more.
fn keep(made: Arc<Run>, kept: &mut SortedRecords) -> Result<Arc<Run>, AllocError>
    ensures ok { IfOk result (λ share. share.value ≡ made.value) }
    ensures kept { kept.new ≡ made.value }
{
    let share: Result<Arc<Run>, AllocError> = made.clone();
    *kept = SortedRecords::made(made);
    share
}

// The records of a run, in the place that they came from.
fn put_back(run: Run, place: Box<Records>) -> Box<Records>
    ensures { result.value ≡ run }
{
    let mut place = place;
    *place = run.into_records();
    place
}
