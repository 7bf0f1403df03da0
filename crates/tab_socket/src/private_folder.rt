//! A folder of one's own beside a file.

use std::alloc::AllocError;
use std::fs;
use std::fs::DirBuilder;
use std::io::{Error, ErrorKind};
use std::os::unix::fs::DirBuilderExt;

// How many names are tried for it.
const TRIES: u32 = 1000;

// Who may enter it: whoever made it.
const MODE: u32 = 0o700;

// How much longer than its folder's, with the slash, the longest name of a file in it is.
const LONGER: usize = ".tabd999/s".len();

/// A new folder beside a file, into which nobody else can go, and the name of a file in it. What is made in it gets the group that the
/// rights of the outer folder give, as it would there.
#[derive(Drop)]
pub(crate) struct PrivateFolder {
    folder: String,
    /// What is made in it.
    pub(crate) made: String,
}

/// Whether the names in such a folder have at most so many bytes.
pub(crate) fn has_room(name: &str, most: usize) -> bool {
    folder_of(name).len() + LONGER <= most
}

/// Makes such a folder beside the file of this name.
pub(crate) fn make_room(rt: &HostRuntime, name: &str) -> Result<PrivateFolder, Error> {
    for number in 0..TRIES {
        let room = room_of(rt, name, number)?;
        match DirBuilder::new()
            .mode(MODE)
            .create(rt, room.folder.as_str())
        {
            Ok(()) => return Ok(room),
            Err(error) if error.kind() == ErrorKind::AlreadyExists => {}
            Err(error) => return Err(error),
        }
    }
    Err(Error::from(ErrorKind::AlreadyExists))
}

impl PrivateFolder {
    /// Takes the folder away, with what is made in it still. What was made and has another name too stays under that.
    pub(crate) fn clear(&self, rt: &HostRuntime) {
        let _ = fs::remove_file(rt, self.made.as_str());
        let _ = fs::remove_dir(rt, self.folder.as_str());
    }
}

// The names of a folder that isn't made yet.
fn room_of(rt: &HostRuntime, name: &str, number: u32) -> Result<PrivateFolder, Error> {
    match named(rt, folder_of(name), number) {
        Ok(room) => Ok(room),
        Err(_) => Err(Error::from(ErrorKind::OutOfMemory)),
    }
}

// The names of the folder with this number.
fn named(rt: &HostRuntime, beside: &str, number: u32) -> Result<PrivateFolder, AllocError> {
    let alloc = rt.alloc();
    let folder = format!(in alloc; "{beside}.tabd{number}").map_err(|_| AllocError)?;
    let made = format!(in alloc; "{folder}/s").map_err(|_| AllocError)?;
    Ok(PrivateFolder { folder, made })
}

/// The beginning of a file's name up to its last slash: empty where it has none.
pub(crate) fn folder_of(name: &str) -> &str {
    match name.rfind('/') {
        Some(at) => &name[..at + 1],
        None => "",
    }
}
