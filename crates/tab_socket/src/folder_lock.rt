//! The lock of a folder, which one server at a time has.

use crate::private_folder::folder_of;
use std::fs::{File, TryLockError};
use std::thread;
use std::time::Duration;

// How often a lock is asked for that another one has.
const TRIES: u32 = 500;

// How many milliseconds stand between two of these.
const PAUSE: u64 = 10;

/// The lock of the folder in which a file stands, held until this is dropped, or its process ends, however it ends. It is the system's, on the
/// folder itself, so nothing is left behind. Whoever can read the folder can have it.
#[derive(Drop)]
pub(crate) struct FolderLock {
    _folder: File,
}

impl FolderLock {
    /// The lock of the folder of the file of this name. Where another one has it for 5 seconds, `WouldBlock`; where the folder can't be read, or
    /// the system has no locks there, its error.
    pub(crate) fn take(rt: &HostRuntime, name: &str) -> Result<FolderLock, TryLockError> {
        let folder = File::open(rt, path_of(folder_of(name))).map_err(TryLockError::Error)?;
        lock(rt, &folder)?;
        Ok(FolderLock { _folder: folder })
    }
}

// The path of the folder that stands in front of a file's name.
fn path_of(folder: &str) -> &str {
    if folder.is_empty() { "." } else { folder }
}

// Locks the folder, as soon as no other one has it.
fn lock(rt: &HostRuntime, folder: &File) -> Result<(), TryLockError> {
    for _ in 0..TRIES {
        match folder.try_lock() {
            Err(TryLockError::WouldBlock) => thread::sleep(rt, Duration::from_millis(PAUSE)),
            outcome => return outcome,
        }
    }
    Err(TryLockError::WouldBlock)
}
