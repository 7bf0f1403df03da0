//! A file that was left, as whoever reads it sees it.
ghost use Rattle.std.specs.Prelude.{◌≡◌, ◌+◌, ◌<◌, ◌≤◌, ◌++◌, ℕ, List, Bool, true, length, take, drop, OnOk};
ghost use Rattle.tab_journal.specs.Device.{Elapses, HasCause};

use crate::device::{Device, DeviceError};

/// A file that was left with some bytes. What was put into it is known as far as it was read.
pub trait Source: Device {
    /// Whether it was read to its end.
    ghost is_read: { Self → Bool };

    /// Reads the next bytes of those that were left, so many, or all that there are, and puts them behind these. What a crash may leave isn't known
    /// then before the next sync.
    fn read(&mut self, most: usize, into: &mut Vec<u8>) -> Result<(), DeviceError>
        requires { Self.is_usable self.old ≡ true }
        ensures front { OnOk result (take (length into.old.items) into.new.items ≡ into.old.items) }
        ensures read { OnOk result (Self.seen self.new ≡ Self.seen self.old ++ drop (length into.old.items) into.new.items) }
        ensures few { OnOk result (length into.new.items ≤ length into.old.items + most) }
        ensures end { OnOk result (length into.new.items < length into.old.items + most → is_read self.new ≡ true) }
        ensures usable { OnOk result (Self.is_usable self.new ≡ true) }
        ensures time { Elapses (Self.moment self.old) (Self.moment self.new) (Self.left_since self.old) (Self.left_since self.new) (Self.may_leave self.new) }
        ensures cause { HasCause (Self.faults self.old) (Self.faults self.new) result };
}
