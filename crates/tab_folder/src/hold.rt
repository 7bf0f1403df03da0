//! A folder's own handle: it is made, locked, and asked to have its names on the disk.
use crate::FolderFault;
use crate::rights::check_owner;
use std::fs::{DirBuilder, File, OpenOptions, TryLockError};
use std::io::ErrorKind;
use std::os::unix::fs::{DirBuilderExt, OpenOptionsExt};
use std::path::Path;
use std::{fs, io};

// Who may use the folder: whoever runs the program.
const FOLDER_MODE: u32 = 0o700;

/// Who may read what is in a file of the folder: the same.
pub(crate) const FILE_MODE: u32 = 0o600;

/// A folder that is held: no other process takes it up until this is dropped.
#[derive(Drop)]
pub(crate) struct Hold {
    folder: File,
    // versions up to 0.17.7 lock this file alone
    _lock: File,
    /// The mode of the folder, where others than its owner may look into it.
    pub(crate) seen_by_others: Option<u32>,
    /// Why the system can't see its names on the disk, where it can't.
    pub(crate) unsynced: Option<io::Error>,
}

impl Hold {
    /// Takes hold of the folder of this path, which is made where it isn't there, for its owner alone, and sees its name and all names
    /// in it on the disk.
    pub(crate) fn take(rt: &HostRuntime, path: &str) -> Result<Hold, FolderFault> {
        make(rt, path)?;
        let folder = opened(rt, path)?;
        let seen_by_others = check_owner(&folder.metadata()?)?;
        lock_folder(&folder, Sharing::Alone)?;
        let lock = lock_file(rt, path)?;
        let unsynced = sync(&folder)?.or(sync_parent(rt, path)?);
        Ok(Hold {
            folder,
            _lock: lock,
            seen_by_others,
            unsynced,
        })
    }

    /// Sees all names in it on the disk, where the system can do that.
    pub(crate) fn sync(&self) -> Result<(), FolderFault> {
        sync(&self.folder)?;
        Ok(())
    }
}

/// Whether others may look into a folder meanwhile.
#[derive(Clone, Copy, Debug, PartialEq, Eq)]
pub(crate) enum Sharing {
    /// Nobody may.
    Alone,
    /// They may, and none takes it up.
    Looking,
}

/// Locks the folder itself, as far as its file system can do that: the file in it is locked too.
pub(crate) fn lock_folder(folder: &File, sharing: Sharing) -> Result<(), FolderFault> {
    match locked(folder, sharing) {
        Err(FolderFault::Refused(_)) => Ok(()),
        outcome => outcome,
    }
}

/// Locks a file.
pub(crate) fn locked(file: &File, sharing: Sharing) -> Result<(), FolderFault> {
    let outcome = match sharing {
        Sharing::Alone => file.try_lock(),
        Sharing::Looking => file.try_lock_shared(),
    };
    match outcome {
        Ok(()) => Ok(()),
        Err(TryLockError::WouldBlock) => Err(FolderFault::Taken),
        Err(TryLockError::Error(error)) => Err(FolderFault::Refused(error)),
    }
}

/// The folder of this path, to be locked and looked into.
pub(crate) fn opened(rt: &HostRuntime, path: &str) -> Result<File, FolderFault> {
    if !fs::metadata(rt, path)?.is_dir() {
        return Err(FolderFault::Refused(io::Error::from(ErrorKind::NotADirectory)));
    }
    Ok(File::open(rt, path)?)
}

// Makes the folder where it isn't there.
fn make(rt: &HostRuntime, path: &str) -> Result<(), FolderFault> {
    match DirBuilder::new().mode(FOLDER_MODE).create(rt, path) {
        Err(error) if error.kind() != ErrorKind::AlreadyExists => Err(FolderFault::Refused(error)),
        _ => Ok(()),
    }
}

// The lock in the folder, held from now on.
fn lock_file(rt: &HostRuntime, path: &str) -> Result<File, FolderFault> {
    let name = format!(in rt.alloc(); "{path}/lock")?;
    let file = OpenOptions::new()
        .write(true)
        .create(true)
        .mode(FILE_MODE)
        .open(rt, name.as_str())?;
    locked(&file, Sharing::Alone)?;
    Ok(file)
}

// Sees the folder's own name on the disk. Whoever made it may have crashed before.
fn sync_parent(rt: &HostRuntime, path: &str) -> Result<Option<io::Error>, FolderFault> {
    let above = match Path::new(path).parent() {
        Some(parent) if !parent.as_os_str().is_empty() => parent,
        _ => Path::new("."),
    };
    match File::open(rt, above) {
        Ok(parent) => sync(&parent),
        // (whoever may enter a folder needn't be allowed to read it)
        Err(error) if error.kind() == ErrorKind::PermissionDenied => Ok(Some(error)),
        Err(error) => Err(FolderFault::from(error)),
    }
}

// Sees the names in a folder on the disk. Some file systems can't, and say so: then why.
fn sync(folder: &File) -> Result<Option<io::Error>, FolderFault> {
    match folder.sync_all() {
        Ok(()) => Ok(None),
        Err(error) if is_unable(error.kind()) => Ok(Some(error)),
        Err(error) => Err(FolderFault::Refused(error)),
    }
}

// Whether it isn't a fault, but something that the file system can't do.
fn is_unable(kind: ErrorKind) -> bool {
    matches!(kind, ErrorKind::InvalidInput | ErrorKind::Unsupported)
}
