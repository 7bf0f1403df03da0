//! A journal that a crash left, taken up.
ghost use Rattle.std.specs.Prelude.{◌≡◌, ◌+◌, true, false, length, take, IfOk, IfErr, OnOk};
ghost use Rattle.tab_journal.specs.Device.{Only, LeavesOnly, HasCause};
ghost use Rattle.tab_journal.specs.Readers.{Ends};
ghost use Rattle.tab_recovery.specs.Cutting.{Cut};
ghost use Rattle.tab_recovery.specs.TakingUp.{end_of, IsSound, KeepsAll, Refuses};

use crate::recoverable::Recoverable;
use crate::take_up_fault::TakeUpFault;
use tab_journal::{DeviceError, JournalEnd};

/// Takes up the journal that a crash left in this device, which was read to this end, and all of whose bytes are on the disk: what stands behind its
/// whole batches is cut off, and what is left is on the disk. It tells the new end. It may crash too.
///
/// # Errors
///
/// `Damaged`, where the bytes are damaged: then nothing has changed. `Device`: the device failed.
pub fn take_up<D: Recoverable>(device: &mut D, end: &JournalEnd) -> Result<JournalEnd, TakeUpFault>
    requires usable { D.is_usable device.old ≡ true }
    requires read { Ends (D.seen device.old) end.now }
    requires settled { Only (D.seen device.old) (D.may_leave device.old) }
    ensures cut { OnOk result (D.seen device.new ≡ take (end_of (D.seen device.old)) (D.seen device.old)) }
    ensures read { IfOk result (Ends (D.seen device.new)) }
    ensures end { IfOk result (λ made. made ≡ record end.now { left = 0; is_damaged = false }) }
    ensures sound { OnOk result (IsSound (D.seen device.old)) }
    ensures keeps { OnOk result (KeepsAll (D.seen device.old) (D.seen device.new)) }
    ensures durable { OnOk result (Only (D.seen device.new) (D.may_leave device.new)) }
    ensures usable { OnOk result (D.is_usable device.new ≡ true) }
    // A crash at any moment of the call leaves what is taken up in the same way.
    ensures any_moment { LeavesOnly D.moment D.left_since device.old device.new (KeepsAll (D.seen device.old)) }
    ensures refused { IfErr result (Refuses D.faults device.old device.new (D.seen device.old)) }
{
    if end.is_damaged {
        return Err(TakeUpFault::Damaged(end.length));
    }
    cut_to(device, end.left, end.length as usize)?;
    Ok(JournalEnd {
        left: 0,
        is_damaged: false,
        ..*end
    })
}

// Cuts the device, whose bytes are on the disk, to its first ones, behind which so many are left, and sees that on the disk.
fn cut_to<D: Recoverable>(device: &mut D, left: u64, end: usize) -> Result<(), DeviceError>
    requires usable { D.is_usable device.old ≡ true }
    requires counted { end + left ≡ length (D.seen device.old) }
    requires settled { Only (D.seen device.old) (D.may_leave device.old) }
    ensures cut { OnOk result (D.seen device.new ≡ take end (D.seen device.old)) }
    ensures durable { OnOk result (Only (D.seen device.new) (D.may_leave device.new)) }
    ensures usable { OnOk result (D.is_usable device.new ≡ true) }
    ensures any_moment { LeavesOnly D.moment D.left_since device.old device.new (Cut end (D.seen device.old)) }
    ensures cause { HasCause (D.faults device.old) (D.faults device.new) result }
{
    if left == 0 {
        return Ok(());
    }
    device.cut(end)?;
    device.sync()?;
    Ok(())
}
