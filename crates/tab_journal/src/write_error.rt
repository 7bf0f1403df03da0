//! Why nothing is put into a journal.
ghost use Rattle.std.specs.Prelude.{◌≡◌};
ghost use Rattle.tab_journal.specs.declared.write_error.WriteError.TheVariants.{NoMemory, Device};

use crate::device::DeviceError;
use std::alloc::AllocError;

/// Why a batch isn't put into a journal, or what was put isn't on the disk.
#[derive(Clone, Copy, Debug)]
pub enum WriteError {
    /// There is no memory for its text. Nothing has changed.
    NoMemory,
    /// A batch keeps less than 2^32 bytes. Nothing has changed.
    TooLong,
    /// A journal has less than 2^64 bytes. Nothing has changed.
    Full,
    /// A call of the device failed before. Nothing has changed.
    Stopped,
    /// The device failed, for this reason. Nothing more may be put.
    Device(DeviceError),
}

impl From<AllocError> for WriteError {
    ghost from_gives = { λ _ e. e ≡ NoMemory };

    fn from(_lack: AllocError) -> WriteError {
        WriteError::NoMemory
    }
}

impl From<DeviceError> for WriteError {
    ghost from_gives = { λ x e. e ≡ Device x };

    fn from(error: DeviceError) -> WriteError {
        WriteError::Device(error)
    }
}
