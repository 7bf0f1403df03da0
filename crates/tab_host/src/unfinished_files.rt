//! New files beside old ones, which get their names once they are whole.
use crate::disk::NotSaved;
use std::fs;
use std::fs::{File, OpenOptions};
use std::io::{ErrorKind, Read};
use std::os::unix::fs::{MetadataExt, OpenOptionsExt};

/// How many names are tried for a new file before a save gives up.
const TRIES: u32 = 1000;

/// How many of these names are looked at for what a dead run has left.
const SWEPT: u32 = 16;

/// Who may read and write what is saved: whoever saves it.
const MODE: u32 = 0o600;

/// A file that is being written, and the name that it has meanwhile. It is locked as long as it is open, so that others see that its
/// run is alive.
#[derive(Drop)]
pub(crate) struct UnfinishedFile {
    pub(crate) name: String,
    pub(crate) file: File,
}

/// A new file beside the one of this name. A name that is taken is another save's, and isn't touched; what a dead run has left under
/// such names is taken away.
pub(crate) fn begin(rt: &HostRuntime, name: &str) -> Result<UnfinishedFile, NotSaved> {
    for number in 0..TRIES {
        let part = part_name(rt, name, number)?;
        if number < SWEPT {
            take_away(rt, part.as_str());
        }
        if let Some(file) = begin_at(rt, part.as_str())? {
            sweep(rt, name, number);
            return Ok(UnfinishedFile { name: part, file });
        }
    }
    Err(NotSaved::NoName)
}

// The name of a new file.
fn part_name(rt: &HostRuntime, name: &str, number: u32) -> Result<String, NotSaved> {
    format!(in rt.alloc(); "{name}.{number}.part").map_err(|_| NotSaved::NoMemory)
}

// A new file of this name, locked; none where the name is taken.
fn begin_at(rt: &HostRuntime, part: &str) -> Result<Option<File>, NotSaved> {
    let opened = OpenOptions::new()
        .write(true)
        .create_new(true)
        .mode(MODE)
        .open(rt, part);
    match opened {
        Ok(file) => Ok(if is_kept(&file) { Some(file) } else { None }),
        Err(error) if error.kind() == ErrorKind::AlreadyExists => Ok(None),
        Err(error) => Err(NotSaved::Refused(error)),
    }
}

// Locks a new file. Whether it still has its name: a run that looks for what is left may have been quicker. Where the system has no
// locks it isn't locked.
fn is_kept(file: &File) -> bool {
    if let Err(fs::TryLockError::WouldBlock) = file.try_lock() {
        return false;
    }
    match file.metadata() {
        Ok(data) => data.nlink() > 0,
        Err(_) => true,
    }
}

// Takes away what dead runs have left under further names.
fn sweep(rt: &HostRuntime, name: &str, number: u32) {
    for further in number.saturating_add(1)..SWEPT {
        if let Ok(part) = part_name(rt, name, further) {
            take_away(rt, part.as_str());
        }
    }
}

// Takes a file away that a dead run has left: one that nobody has locked, and that is the beginning of an image or of its checksum.
fn take_away(rt: &HostRuntime, part: &str) {
    if let Ok(file) = File::open(rt, part)
        && file.try_lock().is_ok()
        && is_begun(&file)
    {
        let _ = fs::remove_file(rt, part);
    }
}

// Whether the file is empty, or begins as an image or as a checksum does.
fn is_begun(file: &File) -> bool {
    let mut file = file;
    let mut begins = [0u8; 6];
    match file.read(&mut begins) {
        Ok(0) => true,
        Ok(6) => begins.as_slice() == b"TABIMG".as_slice() || are_digits(&begins),
        _ => false,
    }
}

// Whether these are digits of a checksum.
fn are_digits(bytes: &[u8]) -> bool {
    bytes
        .iter()
        .all(|byte| byte.is_ascii_hexdigit() || *byte == b'\\')
}
