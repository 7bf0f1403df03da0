//! Why a journal isn't taken up.
ghost use Rattle.std.specs.Prelude.{◌≡◌};
ghost use Rattle.tab_recovery.specs.declared.take_up_fault.TakeUpFault.TheVariants.{Device};

use tab_journal::DeviceError;

/// Why a journal isn't taken up.
#[derive(Clone, Copy, Debug)]
pub enum TakeUpFault {
    /// It is damaged behind the first bytes, so many. Nothing has changed.
    Damaged(u64),
    /// The device failed, for this reason.
    Device(DeviceError),
}

impl From<DeviceError> for TakeUpFault {
    ghost from_gives = { λ x e. e ≡ Device x };

    fn from(error: DeviceError) -> TakeUpFault {
        TakeUpFault::Device(error)
    }
}
