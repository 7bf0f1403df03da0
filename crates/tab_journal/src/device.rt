//! A file that is only appended to, as a journal sees it: what was put into it, and what a crash may leave.
ghost use Rattle.std.specs.Prelude.{◌≡◌, ◌≤◌, ◌++◌, List, ℕ, Bool, true, length, OnOk};
ghost use Rattle.tab_journal.specs.declared.device.DeviceError.TheVariants.{NoMemory, Failed};
ghost use Rattle.tab_journal.specs.Device.{Only, Follows, Torn, Elapses, HasCause};

use std::alloc::{AllocError, AllocFailed};
use std::io::Error;

/// Why a device didn't do what was asked.
#[derive(Clone, Copy, Debug)]
pub enum DeviceError {
    /// There was no memory.
    NoMemory,
    /// The disk failed, for this reason.
    Failed(Error),
}

impl From<AllocError> for DeviceError {
    ghost from_gives = { λ _ e. e ≡ NoMemory };

    fn from(_lack: AllocError) -> DeviceError {
        DeviceError::NoMemory
    }
}

impl<T: Drop> From<AllocFailed<T>> for DeviceError {
    ghost from_gives = { λ _ e. e ≡ NoMemory };

    fn from(_lack: AllocFailed<T>) -> DeviceError {
        DeviceError::NoMemory
    }
}

impl From<Error> for DeviceError {
    ghost from_gives = { λ x e. e ≡ Failed x };

    fn from(error: Error) -> DeviceError {
        DeviceError::Failed(error)
    }
}

/// A file that is only appended to.
///
/// What a crash leaves is known between two syncs: the bytes that were there at the last one, and behind them any bytes, up to as many as were put
/// since. Of a real file no contract says that it is such a device, or that a disk keeps what it is told to keep.
pub trait Device {
    /// The bytes that were put into it, all of them.
    ghost seen: { Self → List ℕ };

    /// What a crash at this moment may leave.
    ghost may_leave: { Self → List ℕ → Type 0 };

    /// The moment, as a number that doesn't fall.
    ghost moment: { Self → ℕ };

    /// What a crash at some moment from that one on might have left, during a call or between two.
    ghost left_since: { Self → ℕ → List ℕ → Type 0 };

    /// How often the disk has failed.
    ghost faults: { Self → ℕ };

    /// Whether it may be asked for something: no call before has failed. What a file holds behind a call that failed isn't known.
    ghost is_usable: { Self → Bool };

    /// Puts these bytes behind those that are there. Until a sync, a crash may leave any bytes in their place.
    fn append(&mut self, bytes: &[u8]) -> Result<(), DeviceError>
        requires { is_usable self.old ≡ true }
        ensures written { OnOk result (seen self.new ≡ seen self.old ++ bytes.now) }
        ensures usable { OnOk result (is_usable self.new ≡ true) }
        ensures crash { Follows (Torn (length (seen self.old)) (length bytes.now)) (may_leave self.old) (may_leave self.new) }
        ensures time { Elapses (moment self.old) (moment self.new) (left_since self.old) (left_since self.new) (may_leave self.new) }
        ensures cause { HasCause (faults self.old) (faults self.new) result };

    /// After it, a crash leaves what was put.
    fn sync(&mut self) -> Result<(), DeviceError>
        requires { is_usable self.old ≡ true }
        ensures durable { OnOk result (Only (seen self.old) (may_leave self.new)) }
        ensures seen { OnOk result (seen self.new ≡ seen self.old) }
        ensures usable { OnOk result (is_usable self.new ≡ true) }
        ensures crash { (c : List ℕ) → may_leave self.new c → may_leave self.old c }
        ensures time { Elapses (moment self.old) (moment self.new) (left_since self.old) (left_since self.new) (may_leave self.new) }
        ensures cause { HasCause (faults self.old) (faults self.new) result };

    /// This moment is one of those since an earlier one.
    ghost counts_now: { (file : Self) (t : ℕ) (c : List ℕ) → t ≤ moment file → may_leave file c → left_since file t c };

    /// Since this moment there is no other.
    ghost only_now: { (file : Self) (c : List ℕ) → left_since file (moment file) c → may_leave file c };
}
