//! Why a journal isn't read to its end.
ghost use Rattle.std.specs.Prelude.{◌≡◌};
ghost use Rattle.tab_journal.specs.declared.read_error.ReadError.TheVariants.{NoMemory, Device};

use crate::device::DeviceError;
use std::alloc::AllocError;

/// Why a journal isn't read to its end.
#[derive(Clone, Copy, Debug)]
pub enum ReadError {
    /// There is no memory for a batch.
    NoMemory,
    /// It has 2^64 bytes or more.
    TooLong,
    /// The device failed, for this reason.
    Device(DeviceError),
}

impl From<AllocError> for ReadError {
    ghost from_gives = { λ _ e. e ≡ NoMemory };

    fn from(_lack: AllocError) -> ReadError {
        ReadError::NoMemory
    }
}

impl From<DeviceError> for ReadError {
    ghost from_gives = { λ x e. e ≡ Device x };

    fn from(error: DeviceError) -> ReadError {
        ReadError::Device(error)
    }
}
