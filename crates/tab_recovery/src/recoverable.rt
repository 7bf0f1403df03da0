//! A file that a crash may have left, as recovery sees it.
ghost use Rattle.std.specs.Prelude.{◌≡◌, ◌≤◌, true, length, take, OnOk};
ghost use Rattle.tab_journal.specs.Device.{Follows, Elapses, HasCause};
ghost use Rattle.tab_recovery.specs.Cutting.{Cut};

use tab_journal::{DeviceError, Source};

/// A file that a crash may have left: its end can be cut off.
pub trait Recoverable: Source {
    /// Cuts it to its first bytes, so many. Until a sync, a crash may leave more of those that were there.
    fn cut(&mut self, count: usize) -> Result<(), DeviceError>
        requires usable { Self.is_usable self.old ≡ true }
        requires within { count ≤ length (Self.seen self.old) }
        ensures cut { OnOk result (Self.seen self.new ≡ take count (Self.seen self.old)) }
        ensures usable { OnOk result (Self.is_usable self.new ≡ true) }
        ensures crash { Follows (Cut count) (Self.may_leave self.old) (Self.may_leave self.new) }
        ensures time { Elapses (Self.moment self.old) (Self.moment self.new) (Self.left_since self.old) (Self.left_since self.new) (Self.may_leave self.new) }
        ensures cause { HasCause (Self.faults self.old) (Self.faults self.new) result };
}
