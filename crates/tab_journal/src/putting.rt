//! Several texts, put into a device one behind the other.
ghost use Rattle.std.specs.Prelude.{◌≡◌, ◌+◌, ◌++◌, List, ℕ, true, length, OnOk};
ghost use Rattle.tab_journal.specs.Device.{Torn, Follows, LeavesOnly, HasCause};

use crate::device::{Device, DeviceError};

/// Puts three texts into a device, one behind the other, as one.
pub fn put_three<D: Device>(
    device: &mut D,
    first: &[u8],
    second: &[u8],
    third: &[u8],
) -> Result<(), DeviceError>
    requires { D.is_usable device.old ≡ true }
    ensures written { OnOk result (D.seen device.new ≡ D.seen device.old ++ (first.now ++ (second.now ++ third.now))) }
    ensures usable { OnOk result (D.is_usable device.new ≡ true) }
    ensures crash { Follows (Torn (length (D.seen device.old)) (length first.now + (length second.now + length third.now))) (D.may_leave device.old) (D.may_leave device.new) }
    // A crash at any moment of the call leaves something of them, or nothing.
    ensures any_moment { LeavesOnly D.moment D.left_since device.old device.new
        (λ c. (d : List ℕ) × D.may_leave device.old d × Torn (length (D.seen device.old)) (length first.now + (length second.now + length third.now)) d c) }
    ensures cause { HasCause (D.faults device.old) (D.faults device.new) result }
{
    device.append(first)?;
    device.append(second)?;
    device.append(third)
}
