//! The next journal of a folder, begun.
ghost use Rattle.std.specs.Prelude.{◌≡◌, IfOk};
ghost use Rattle.tab_journal.specs.Journals.{sum_of, header_summed};

use crate::FolderFault;
use crate::hold::Hold;
use crate::journal::{Journal, Unbegun};
use crate::names::StoreFile;
use crate::taking_up::emptied;
use std::random::RandomSource;
use tab_core::Core;
use tab_journal::{Format, Header};

/// Why the next journal isn't begun.
#[derive(Clone, Copy, Debug)]
pub enum NotBegun {
    /// Something lacks, and its file keeps nothing: it may be begun later, and the journal before goes on.
    Later(FolderFault),
    /// Whether its header is on the disk isn't known, so nothing more may go into the journal before.
    Failed(FolderFault),
}

impl From<FolderFault> for NotBegun {
    fn from(fault: FolderFault) -> NotBegun {
        NotBegun::Later(fault)
    }
}

impl From<NotBegun> for FolderFault {
    fn from(fault: NotBegun) -> FolderFault {
        match fault {
            NotBegun::Later(fault) | NotBegun::Failed(fault) => fault,
        }
    }
}

/// Begins the journal of this number, which goes on from this core, down to the disk. What stood there is lost.
pub(crate) fn begin_journal(
    rt: &HostRuntime,
    folder: &str,
    hold: &Hold,
    number: u64,
    core: &Core,
    format: Format,
) -> Result<Journal, NotBegun> {
    let file = StoreFile::Journal(number);
    let header = header_of(rt, number, core, format)?;
    match begun(rt, folder, file, header) {
        Ok(journal) => match hold.sync() {
            Ok(()) => Ok(journal),
            Err(fault) => Err(undone(rt, folder, file, fault)),
        },
        Err(Unbegun::Empty(fault)) => Err(NotBegun::Later(fault)),
        Err(Unbegun::Unknown(fault)) => Err(undone(rt, folder, file, fault)),
    }
}

// A journal of this header in its file.
fn begun(
    rt: &HostRuntime,
    folder: &str,
    file: StoreFile,
    header: Header,
) -> Result<Journal, Unbegun>
    requires { header.sum ≡ sum_of (header_summed header.format header.generation header.next header.clock header.seal) }
{
    let name = file.path(rt.alloc(), folder)?;
    let device = emptied(rt, name.as_str())?;
    Journal::begin(rt.alloc(), device, header)
}

// The header of a journal of this number that goes on from this core.
fn header_of(
    rt: &HostRuntime,
    number: u64,
    core: &Core,
    format: Format,
) -> Result<Header, FolderFault>
    ensures { IfOk result (λ header. header.sum ≡ sum_of (header_summed header.format header.generation header.next header.clock header.seal)) }
{
    let mut salt = [0; 8];
    rt.fill_bytes(&mut salt)?;
    let salt = u64::from_be_bytes(salt);
    Ok(Header::new(format, number, core.next(), core.clock(), salt))
}

// Why a journal isn't begun whose header may be in its file: it is taken away from there first.
fn undone(rt: &HostRuntime, folder: &str, file: StoreFile, fault: FolderFault) -> NotBegun {
    match cleared(rt, folder, file) {
        Ok(()) => NotBegun::Later(fault),
        Err(_) => NotBegun::Failed(fault),
    }
}

fn cleared(rt: &HostRuntime, folder: &str, file: StoreFile) -> Result<(), FolderFault> {
    let name = file.path(rt.alloc(), folder)?;
    let _device = emptied(rt, name.as_str())?;
    Ok(())
}
