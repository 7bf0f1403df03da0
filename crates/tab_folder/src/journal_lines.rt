//! The lines of a script that a run left in a journal, read batch by batch.
ghost use Rattle.std.specs.Prelude.{◌≡◌, true, false};
ghost use Rattle.tab_recovery.specs.Calls.{is_usable_behind};
ghost use Rattle.tab_folder.specs.Files.{calls_of};

use crate::FolderFault;
use crate::file_device::FileDevice;
use std::io::{Error, ErrorKind};
use tab_journal::{Form, JournalReader, ReadError};

/// The lines of a script that a run left in a journal. They come batch by batch, and memory is taken for one.
#[derive(Drop)]
pub struct JournalLines {
    device: FileDevice,
    reader: JournalReader,
    has_failed: bool,
    ghost usable: { has_failed ≡ false → is_usable_behind (calls_of device) ≡ true },
}

impl JournalLines {
    /// Those of the journal in this device, of which the header was read.
    pub(crate) fn new(device: FileDevice, reader: JournalReader) -> JournalLines
        requires { is_usable_behind (calls_of device) ≡ true }
    {
        JournalLines {
            device,
            reader,
            has_failed: false,
        }
    }

    /// Whether an empty batch stands behind each load that was answered. Older versions put none.
    pub fn marks_loads(&self) -> bool {
        self.reader.header().seal.form == Form::Tagged
    }

    /// Reads the next batch. `false`: there is none. Once that has failed it fails.
    pub fn advance(&mut self) -> Result<bool, FolderFault> {
        if self.has_failed {
            return Err(FolderFault::Refused(Error::from(ErrorKind::Other)));
        }
        self.has_failed = true;
        match self.reader.advance(&mut self.device) {
            Ok(is_there) => {
                self.has_failed = false;
                Ok(is_there)
            }
            Err(error) => Err(unread(error)),
        }
    }

    /// What the batch keeps that was read last: a line may go on in the next one.
    pub fn body(&self) -> &[u8] {
        self.reader.body()
    }
}

/// Why a journal isn't read.
pub(crate) fn unread(error: ReadError) -> FolderFault {
    match error {
        ReadError::NoMemory => FolderFault::NoMemory,
        ReadError::TooLong => FolderFault::Full,
        ReadError::Device(error) => FolderFault::from(error),
    }
}
