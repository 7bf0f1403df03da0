//! The file of a journal, as a device.
ghost use Rattle.std.specs.Prelude.{◌≡◌, ◌∷◌, ◌+◌, ◌≤◌, [], true, length, take, OnOk};
ghost use Rattle.tab_journal.specs.Device.{Only};
ghost use Rattle.tab_recovery.specs.CallLogs.{calls_in};
ghost use Rattle.tab_recovery.specs.Calls.{seen_behind, is_usable_behind, is_read_behind, faults_behind, MayLeave, LeftSince};
ghost use Rattle.tab_recovery.specs.Past.{counts_now, only_now};

use std::fs::File;
use std::io;
use std::io::{Error, ErrorKind, Read, Seek, SeekFrom, Write};
use tab_journal::{Device, DeviceError, Source};
use tab_recovery::{Asked, CallLog, Recoverable};

/// The file of a journal, as a device.
///
/// What contracts say of it they say of the calls that are noted here, as if each had done what it answers. That a call is made where
/// it is noted, and that a file does what it answers, is no contract: this file is to be read.
#[derive(Drop)]
pub struct FileDevice {
    file: File,
    calls: CallLog,
}

impl FileDevice {
    ghost use Rattle.tab_folder.specs.Files.{calls_of};

    /// This file, which is new: nothing is in it.
    pub fn new(file: File) -> FileDevice
        ensures empty { seen_behind (calls_of result) ≡ [] }
        ensures settled { Only [] (MayLeave (calls_of result)) }
        ensures usable { is_usable_behind (calls_of result) ≡ true }
    {
        FileDevice {
            file,
            calls: CallLog::new(),
        }
    }

    /// This file, which was left there, and of which nothing was read. What a crash leaves of it before its first sync isn't known.
    pub fn found(file: File) -> FileDevice
        ensures found { seen_behind (calls_of result) ≡ [] }
        ensures usable { is_usable_behind (calls_of result) ≡ true }
    {
        FileDevice {
            file,
            calls: CallLog::new().and(Asked::Found, true, b""),
        }
    }

    /// Another handle of the file, by which the disk may be asked for what was put.
    pub fn beside(&self) -> io::Result<File> {
        self.file.try_clone()
    }

    // Notes a call: what was asked, whether it went well, and the bytes that were read or were to be put.
    fn note(&mut self, asked: Asked, is_ok: bool, bytes: &[u8])
        ensures { calls_of self.new ≡ (asked, is_ok, bytes.now) ∷ calls_of self.old }
    {
        self.calls = self.calls.and(asked, is_ok, bytes);
    }
}

// Reads the next bytes of the file, so many or all that there are, behind these.
fn read_file(file: &File, most: usize, into: &mut Vec<u8>) -> io::Result<()>
    ensures front { OnOk result (take (length into.old.items) into.new.items ≡ into.old.items) }
    ensures longer { OnOk result (length into.old.items ≤ length into.new.items) }
    ensures few { OnOk result (length into.new.items ≤ length into.old.items + most) }
{
    let count = file.take(most as u64).read_to_end(into)?;
    if count > most {
        return Err(Error::from(ErrorKind::InvalidData));
    }
    Ok(())
}

// Cuts the file to its first bytes, so many. What is put goes behind these.
fn cut_file(file: &mut File, count: usize) -> io::Result<()> {
    file.set_len(count as u64)?;
    file.seek(SeekFrom::Start(count as u64))?;
    Ok(())
}

// Why the device didn't do what was asked.
fn failed(error: Error) -> DeviceError {
    match error.kind() {
        ErrorKind::OutOfMemory => DeviceError::NoMemory,
        _ => DeviceError::Failed(error),
    }
}

impl Device for FileDevice {
    ghost seen = { λ d. seen_behind (calls_in d.calls) };

    ghost may_leave = { λ d. MayLeave (calls_in d.calls) };

    ghost moment = { λ d. length (calls_in d.calls) };

    ghost left_since = { λ d. LeftSince (calls_in d.calls) };

    ghost faults = { λ d. faults_behind (calls_in d.calls) };

    ghost is_usable = { λ d. is_usable_behind (calls_in d.calls) };

    ghost counts_now = { λ d. counts_now (calls_in d.calls) };

    ghost only_now = { λ d. only_now (calls_in d.calls) };

    fn append(&mut self, bytes: &[u8]) -> Result<(), DeviceError> {
        match self.file.write_all(bytes) {
            Ok(()) => {
                self.note(Asked::Append, true, bytes);
                Ok(())
            }
            Err(error) => {
                self.note(Asked::Append, false, bytes);
                Err(DeviceError::Failed(error))
            }
        }
    }

    fn sync(&mut self) -> Result<(), DeviceError> {
        match self.file.sync_data() {
            Ok(()) => {
                self.note(Asked::Sync, true, b"");
                Ok(())
            }
            Err(error) => {
                self.note(Asked::Sync, false, b"");
                Err(DeviceError::Failed(error))
            }
        }
    }
}

impl Source for FileDevice {
    ghost is_read = { λ d. is_read_behind (calls_in d.calls) };

    fn read(&mut self, most: usize, into: &mut Vec<u8>) -> Result<(), DeviceError> {
        let before = into.len();
        let asked = Asked::Read(most);
        match read_file(&self.file, most, into) {
            Ok(()) => {
                let (_, more) = into.as_slice().split_at(before);
                self.note(asked, true, more);
                Ok(())
            }
            Err(error) => {
                self.note(asked, false, b"");
                Err(failed(error))
            }
        }
    }
}

impl Recoverable for FileDevice {
    fn cut(&mut self, count: usize) -> Result<(), DeviceError> {
        match cut_file(&mut self.file, count) {
            Ok(()) => {
                self.note(Asked::Cut(count), true, b"");
                Ok(())
            }
            Err(error) => {
                self.note(Asked::Cut(count), false, b"");
                Err(DeviceError::Failed(error))
            }
        }
    }
}
