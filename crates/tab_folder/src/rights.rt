//! Who may use a folder.
use crate::FolderFault;
use std::fs::Metadata;
use std::os::unix::fs::MetadataExt;

// The rights of others than the owner: to change a folder, and whatever.
const TO_CHANGE: u32 = 0o022;

const ANY: u32 = 0o077;

// The rights in a mode, without the file's type.
const RIGHTS: u32 = 0o7777;

/// Sees that a folder belongs to the user who runs the program, and that nobody else may change it. Gives its mode where others may
/// look into it.
pub(crate) fn check_owner(folder: &Metadata) -> Result<Option<u32>, FolderFault> {
    let mode = folder.mode() & RIGHTS;
    if folder.uid() != libc::geteuid() {
        return Err(FolderFault::Owner);
    }
    if mode & TO_CHANGE != 0 {
        return Err(FolderFault::Writable(mode));
    }
    Ok((mode & ANY != 0).then_some(mode))
}
