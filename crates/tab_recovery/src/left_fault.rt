//! Why what stands in a journal isn't all done again.
ghost use Rattle.std.specs.Prelude.{◌≡◌};
ghost use Rattle.tab_recovery.specs.declared.left_fault.LeftFault.TheVariants.{Replay, Read};

use crate::fault::ReplayFault;
use tab_journal::ReadError;

/// Why the entries of a journal that was left aren't all done again.
#[derive(Clone, Copy, Debug)]
pub enum LeftFault {
    /// An entry isn't done, for this reason.
    Replay(ReplayFault),
    /// The journal isn't read to its end, for this reason.
    Read(ReadError),
}

impl From<ReplayFault> for LeftFault {
    ghost from_gives = { λ x e. e ≡ Replay x };

    fn from(fault: ReplayFault) -> LeftFault {
        LeftFault::Replay(fault)
    }
}

impl From<ReadError> for LeftFault {
    ghost from_gives = { λ x e. e ≡ Read x };

    fn from(error: ReadError) -> LeftFault {
        LeftFault::Read(error)
    }
}
