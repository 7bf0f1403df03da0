//! A journal that is being written.
ghost use Rattle.std.specs.Prelude.{◌≡◌, [], true};
ghost use Rattle.tab_journal.specs.Device.{Only};
ghost use Rattle.tab_journal.specs.Journals.{sum_of, header_summed};
ghost use Rattle.tab_recovery.specs.Calls.{seen_behind, is_usable_behind, MayLeave};
ghost use Rattle.tab_folder.specs.Files.{calls_of};

use crate::FolderFault;
use crate::file_device::FileDevice;
use std::alloc::{AllocError, Global};
use std::fs::File;
use tab_journal::{DeviceError, Header, WriteError, Writer};

// How many bytes a header has.
const HEADER: u64 = 48;

/// A journal that is being written: batch after batch, each behind the sum of the one before. Once its file has failed nothing more is
/// put into it, and each call answers with that error; where memory lacks alone nothing has changed.
#[derive(Drop)]
pub struct Journal {
    writer: Writer<FileDevice>,
    // another handle of its file, by which the disk may be asked for what was put while more is put
    beside: Option<File>,
    failure: Option<FolderFault>,
}

/// Why a journal isn't begun in an empty file.
#[derive(Clone, Copy, Debug)]
pub(crate) enum Unbegun {
    /// Nothing was put into it.
    Empty(FolderFault),
    /// Its header may be there.
    Unknown(FolderFault),
}

impl From<AllocError> for Unbegun {
    fn from(_lack: AllocError) -> Unbegun {
        Unbegun::Empty(FolderFault::NoMemory)
    }
}

impl From<WriteError> for Unbegun {
    fn from(error: WriteError) -> Unbegun {
        let fault = FolderFault::from(error);
        match error {
            WriteError::NoMemory | WriteError::Device(DeviceError::NoMemory) => {
                Unbegun::Empty(fault)
            }
            _ => Unbegun::Unknown(fault),
        }
    }
}

impl From<FolderFault> for Unbegun {
    fn from(fault: FolderFault) -> Unbegun {
        Unbegun::Empty(fault)
    }
}

impl Journal {
    /// Begins a journal with this header in an empty file, down to the disk.
    pub(crate) fn begin(
        alloc: Global,
        device: FileDevice,
        header: Header,
    ) -> Result<Journal, Unbegun>
        requires empty { seen_behind (calls_of device) ≡ [] }
        requires settled { Only [] (MayLeave (calls_of device)) }
        requires usable { is_usable_behind (calls_of device) ≡ true }
        requires right { header.sum ≡ sum_of (header_summed header.format header.generation header.next header.clock header.seal) }
    {
        let beside = device.beside().map_err(FolderFault::from)?;
        match Writer::begin(alloc, device, header) {
            Ok(writer) => Ok(Journal::over(writer, beside)),
            Err((error, _device)) => Err(Unbegun::from(error)),
        }
    }

    /// A journal over this writer, whose file has this handle besides.
    pub(crate) fn over(writer: Writer<FileDevice>, beside: File) -> Journal {
        Journal {
            writer,
            beside: Some(beside),
            failure: None,
        }
    }

    /// How many bytes it has.
    pub fn length(&self) -> u64 {
        self.writer.written()
    }

    /// Whether nothing was put into it.
    pub fn is_empty(&self) -> bool {
        self.length() <= HEADER
    }

    /// Whether all that was put is known to be on the disk, so that a sync asks it for nothing.
    pub fn is_settled(&self) -> bool {
        self.failure.is_none() && self.writer.settled() == self.writer.written()
    }

    /// Why it couldn't be written, once it couldn't.
    pub fn failure(&self) -> Option<FolderFault> {
        self.failure
    }

    /// The other handle of its file, by which the disk may be asked for what was put while more is put; none, where it was taken before.
    pub fn take_beside(&mut self) -> Option<File> {
        self.beside.take()
    }

    /// Puts these bytes as one batch. They needn't be on the disk yet.
    pub fn put(&mut self, body: &[u8]) -> Result<(), FolderFault> {
        self.ready()?;
        let outcome = self.writer.put(body);
        self.noted(outcome)
    }

    /// Sees that all that was put is on the disk.
    pub fn sync(&mut self) -> Result<(), FolderFault> {
        self.ready()?;
        let outcome = self.writer.sync();
        self.noted(outcome)
    }

    /// Fails as something beside it has failed, as asking the disk.
    pub fn fail(&mut self, fault: FolderFault) {
        self.failure = self.failure.or(Some(fault));
    }

    // Fails where it has failed before.
    fn ready(&self) -> Result<(), FolderFault> {
        match self.failure {
            Some(fault) => Err(fault),
            None => Ok(()),
        }
    }

    // Keeps why something failed, where nothing more is put after that.
    fn noted(&mut self, outcome: Result<(), WriteError>) -> Result<(), FolderFault> {
        match outcome {
            Ok(()) => Ok(()),
            Err(error) => {
                let fault = FolderFault::from(error);
                if self.writer.has_failed() {
                    self.fail(fault);
                }
                Err(fault)
            }
        }
    }
}
