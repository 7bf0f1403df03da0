//! Why a folder can't be taken up, and why nothing is kept in it.
use crate::names::StoreFile;
use std::alloc::{AllocError, AllocFailed};
use std::io::{Error, ErrorKind};
use tab_host::{NotLoaded, NotSaved};
use tab_journal::{DeviceError, WriteError};
use tab_recovery::ReplayFault;

/// Why a folder can't be taken up, or nothing is kept in it. What it had before, it has still.
#[derive(Clone, Copy, Debug, thiserror::Error)]
pub enum FolderFault {
    /// Another process has taken it up.
    #[error("another process has it")]
    Taken,
    /// It belongs to another user than the one who runs the program, whom the files that are made there would belong to.
    #[error("it belongs to another user")]
    Owner,
    /// Others than its owner may change it: its mode is this one.
    #[error("others may change it: its mode is {0:o}")]
    Writable(u32),
    /// There is no image in it.
    #[error("there is no image in it")]
    Empty,
    /// There is no image in it, but what goes with the one of this number.
    #[error("there is no image in it, but what goes with image.{0}")]
    NoImage(u64),
    /// There was no memory.
    #[error("there is no memory")]
    NoMemory,
    /// This file isn't there, but what can't be without it.
    #[error("{0} is missing")]
    Missing(StoreFile),
    /// The image in this file isn't loaded, for this reason.
    #[error("{0}: {1}")]
    Load(StoreFile, NotLoaded),
    /// The journal of this number was begun on another core than the one that the files before it give.
    #[error("journal.{0} doesn't follow on what is before it")]
    Strange(u64),
    /// The journal of this number has wrong bytes, from the place on or behind it, before others that had come to the disk.
    #[error("journal.{0} is damaged at {1}")]
    Damaged(u64, u64),
    /// The journal of this number ends in bytes that are no whole batch, or has no header, though it was whole on the disk when the
    /// next one was begun.
    #[error("journal.{0} is cut, and isn't the last one")]
    Torn(u64),
    /// The journal of this number has no header, though it had one before its image was given its name.
    #[error("journal.{0} has no header")]
    Headless(u64),
    /// The entries of the journal of this number aren't replayed, for this reason.
    #[error("journal.{0}: {1}")]
    Unfit(u64, ReplayFault),
    /// The next image isn't written, for this reason.
    #[error("the image can't be written: {0}")]
    Write(Error),
    /// There is an image of the greatest number.
    #[error("there is no greater number for an image")]
    Full,
    /// The system refuses something else, for this reason.
    #[error("the folder can't be used: {0}")]
    Refused(Error),
}

impl From<AllocError> for FolderFault {
    fn from(_lack: AllocError) -> FolderFault {
        FolderFault::NoMemory
    }
}

impl<T: Drop> From<AllocFailed<T>> for FolderFault {
    fn from(_lack: AllocFailed<T>) -> FolderFault {
        FolderFault::NoMemory
    }
}

impl From<Error> for FolderFault {
    fn from(error: Error) -> FolderFault {
        match error.kind() {
            ErrorKind::OutOfMemory => FolderFault::NoMemory,
            _ => FolderFault::Refused(error),
        }
    }
}

impl From<NotSaved> for FolderFault {
    fn from(fault: NotSaved) -> FolderFault {
        match fault {
            NotSaved::NoMemory => FolderFault::NoMemory,
            NotSaved::Refused(error) => FolderFault::Write(error),
            NotSaved::NoFile | NotSaved::NoName => FolderFault::Write(Error::from(
                ErrorKind::Other,
            )),
        }
    }
}

impl From<DeviceError> for FolderFault {
    fn from(error: DeviceError) -> FolderFault {
        match error {
            DeviceError::NoMemory => FolderFault::NoMemory,
            DeviceError::Failed(error) => FolderFault::Refused(error),
        }
    }
}

impl From<WriteError> for FolderFault {
    fn from(error: WriteError) -> FolderFault {
        match error {
            WriteError::NoMemory => FolderFault::NoMemory,
            WriteError::TooLong | WriteError::Full => FolderFault::Full,
            WriteError::Stopped => FolderFault::Refused(Error::from(ErrorKind::Other)),
            WriteError::Device(error) => FolderFault::from(error),
        }
    }
}
