//! Why an image wasn't saved.

use std::alloc::AllocError;
use tab_io::WriteFault;
use thiserror::Error;

/// Why an image wasn't saved; a beginning of it was put.
#[derive(Clone, Copy, Debug, PartialEq, Eq, Error)]
pub enum SaveFault {
    /// A write failed, or 2^64 - 1 writes were made.
    #[error("the image can't be written")]
    Write,
    /// An allocation failed, or a table has more records than an image can count: 2^64 - 1 or more.
    #[error("there is no memory to save the image")]
    NoMemory,
}

impl From<WriteFault> for SaveFault {
    ghost use Rattle.std.specs.Prelude.{◌≡◌};
    ghost use Rattle.tab_saving.specs.declared.fault.SaveFault.TheVariants.{Write};

    ghost from_gives = { λ _ e. e ≡ Write };

    fn from(_fault: WriteFault) -> SaveFault {
        SaveFault::Write
    }
}

impl From<AllocError> for SaveFault {
    ghost use Rattle.std.specs.Prelude.{◌≡◌};
    ghost use Rattle.tab_saving.specs.declared.fault.SaveFault.TheVariants.{NoMemory};

    ghost from_gives = { λ _ e. e ≡ NoMemory };

    fn from(_error: AllocError) -> SaveFault {
        SaveFault::NoMemory
    }
}
