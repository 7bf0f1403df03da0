//! A device that is made empty.
ghost use Rattle.std.specs.Prelude.{◌≡◌, [], true, OnOk};
ghost use Rattle.tab_journal.specs.Device.{Only, LeavesOnly, HasCause};
ghost use Rattle.tab_recovery.specs.Cutting.{IsBeginning};

use crate::recoverable::Recoverable;
use tab_journal::DeviceError;

/// Makes a device empty, in which nothing is that counts, so that a journal is begun in it. A header may be torn, and what stood there before
/// would be behind it: so the device is empty on the disk first.
pub fn clear<D: Recoverable>(device: &mut D) -> Result<(), DeviceError>
    requires { D.is_usable device.old ≡ true }
    ensures empty { OnOk result (D.seen device.new ≡ []) }
    ensures durable { OnOk result (Only [] (D.may_leave device.new)) }
    ensures usable { OnOk result (D.is_usable device.new ≡ true) }
    // A crash at any moment of the call leaves a beginning of what one might have left before it.
    ensures any_moment { LeavesOnly D.moment D.left_since device.old device.new (IsBeginning (D.may_leave device.old)) }
    ensures cause { HasCause (D.faults device.old) (D.faults device.new) result }
{
    device.cut(0)?;
    device.sync()?;
    Ok(())
}
