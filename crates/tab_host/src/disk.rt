//! Images in files of the system.
use crate::Noting;
use crate::sums::{Sum, Summing, compare, line_of_sum, name_of_sum};
use crate::unfinished_files::{UnfinishedFile, begin};
use std::alloc::{AllocError, Global};
use std::fs;
use std::fs::File;
use std::io::{Error, ErrorKind, Read, Seek, SeekFrom, Write};
use std::path::Path;
use tab_core::Core;
use tab_io::{BlockReader, BlockWriter, Output};
use tab_loading::LoadFault;
use tab_saving::SaveFault;

// What an image begins with.
const MAGIC: &[u8] = b"TABIMG";

/// Why an image isn't saved under a name. What the name had before, it has still.
#[derive(Clone, Copy, Debug, thiserror::Error)]
pub enum NotSaved {
    /// There was no memory.
    #[error("there is no memory for the image")]
    NoMemory,
    /// The name is a folder's or a device's.
    #[error("the image can't be written: what has this name is no file")]
    NoFile,
    /// All names for a new file beside it are taken.
    #[error("the image can't be written: there are too many .part files beside it")]
    NoName,
    /// The system refuses it, for this reason.
    #[error("the image can't be written: {0}")]
    Refused(Error),
}

impl From<AllocError> for NotSaved {
    fn from(_lack: AllocError) -> NotSaved {
        NotSaved::NoMemory
    }
}

impl From<Error> for NotSaved {
    fn from(error: Error) -> NotSaved {
        NotSaved::Refused(error)
    }
}

/// Why no image is loaded.
#[derive(Clone, Copy, Debug, thiserror::Error)]
pub enum NotLoaded {
    /// The file can't be read, for this reason.
    #[error("the image can't be read: {0}")]
    Io(Error),
    /// The file of the checksum beside it can't be read, for this reason.
    #[error("the image can't be read: its checksum: {0}")]
    NoSum(Error),
    /// There was no memory.
    #[error("there is no memory for the image")]
    NoMemory,
    /// The file holds an image of a version that isn't known.
    #[error("the image has the unknown version {0}")]
    Version(u16),
    /// The file holds no image.
    #[error("this is no image")]
    Bad,
    /// The file begins as an image, and isn't one.
    #[error("the image is cut short or damaged")]
    Damaged,
    /// The file has another checksum than the one beside it says.
    #[error("differs from its checksum")]
    Differs,
}

impl From<AllocError> for NotLoaded {
    fn from(_lack: AllocError) -> NotLoaded {
        NotLoaded::NoMemory
    }
}

/// Why no image is loaded from a file, the stream of which has told this reason last, if any.
pub(crate) fn not_loaded(file: &File, fault: LoadFault, reason: Option<Error>) -> NotLoaded {
    match fault {
        LoadFault::Io => unread(reason),
        LoadFault::NoMemory => NotLoaded::NoMemory,
        LoadFault::Version(version) => NotLoaded::Version(version),
        LoadFault::Bad if begins_as_image(file) => NotLoaded::Damaged,
        LoadFault::Bad => NotLoaded::Bad,
    }
}

// Whether the file's first bytes are an image's. Of a pipe that isn't known any more.
fn begins_as_image(file: &File) -> bool {
    let mut stream = file;
    let mut front = [0; MAGIC.len()];
    let read = stream
        .seek(SeekFrom::Start(0))
        .is_ok_and(|_| stream.read_exact(&mut front).is_ok());
    read && front.as_slice() == MAGIC
}

/// A read that failed for this reason, if one is known.
pub(crate) fn unread(reason: Option<Error>) -> NotLoaded {
    NotLoaded::Io(reason.unwrap_or(Error::from(ErrorKind::Other)))
}

/// The core of which the file of this name holds an image. `Io` is told also where the file can't be opened.
///
/// Where a file FILE.sha256 stands beside it the image is compared with that checksum first, and an image that differs isn't looked at.
pub fn load(rt: &HostRuntime, name: &str) -> Result<Core, NotLoaded> {
    let file = File::open(rt, name).map_err(NotLoaded::Io)?;
    compare(rt, name, &file)?;
    let mut stream = Noting::new(&file);
    match read(rt.alloc(), &mut stream) {
        Ok(core) => Ok(core),
        Err(fault) => Err(not_loaded(&file, fault, stream.failure())),
    }
}

// The core of which the stream holds an image.
fn read<R: Read + Drop>(alloc: Global, stream: R) -> Result<Core, LoadFault> {
    let Ok(mut input) = BlockReader::new(alloc, stream) else {
        return Err(LoadFault::NoMemory);
    };
    tab_loading::load(alloc, &mut input)
}

/// Saves an image of the core under this name, for its owner alone, and its checksum beside it in a file FILE.sha256, as `sha256sum`
/// writes it.
///
/// A save writes a new file beside the old one, under a name of its own, and gives it the old one's name once it is whole and on the
/// disk. So a save that fails leaves the last image as it was. The old checksum goes first and the new one comes last: so where a save
/// is cut off an image may have no checksum, but never another one's.
pub fn save(rt: &HostRuntime, name: &str, core: &Core) -> Result<(), NotSaved> {
    if !may_be_given(rt, name) {
        return Err(NotSaved::NoFile);
    }
    let part = begin(rt, name)?;
    let outcome = finish(rt, name, &part, core);
    if outcome.is_err() {
        let _ = fs::remove_file(rt, part.name.as_str());
    }
    outcome
}

/// Whether a new file may be given this name: it is a file's, or nothing has it. A folder, a pipe or a device keeps its own, and so does a link to one.
pub fn may_be_given(rt: &HostRuntime, name: &str) -> bool {
    match fs::metadata(rt, name) {
        Ok(holder) => holder.is_file(),
        Err(error) => error.kind() == ErrorKind::NotFound,
    }
}

// Writes the image, and gives it the name, with its checksum beside it.
fn finish(
    rt: &HostRuntime,
    name: &str,
    part: &UnfinishedFile,
    core: &Core,
) -> Result<(), NotSaved> {
    let sum = write_image(rt.alloc(), &part.file, core)?;
    let line = line_of_sum(rt.alloc(), name, sum)?;
    let beside = name_of_sum(rt.alloc(), name)?;
    let small = begin(rt, beside.as_str())?;
    let outcome = place(rt, name, part, beside.as_str(), &small, line.as_bytes());
    if outcome.is_err() {
        let _ = fs::remove_file(rt, small.name.as_str());
    }
    outcome
}

// Writes the checksum, and gives both files their names.
fn place(
    rt: &HostRuntime,
    name: &str,
    part: &UnfinishedFile,
    beside: &str,
    small: &UnfinishedFile,
    line: &[u8],
) -> Result<(), NotSaved> {
    let mut file = &small.file;
    file.write_all(line)?;
    file.sync_all()?;
    match fs::remove_file(rt, beside) {
        Err(error) if error.kind() != ErrorKind::NotFound => return Err(NotSaved::Refused(error)),
        _ => {}
    }
    fs::rename(rt, part.name.as_str(), name)?;
    // The image has its name now: where its checksum gets none it stands without one.
    if fs::rename(rt, small.name.as_str(), beside).is_err() {
        let _ = fs::remove_file(rt, small.name.as_str());
    }
    settle(rt, name);
    Ok(())
}

/// Writes an image of the core to this file, down to the disk, and gives its checksum. After an error a part of it is written.
pub fn write_image(alloc: Global, file: &File, core: &Core) -> Result<Sum, NotSaved> {
    let mut stream = Summing::new(Noting::new(file));
    match put_image(alloc, &mut stream, core) {
        Ok(()) => {}
        Err(SaveFault::NoMemory) => return Err(NotSaved::NoMemory),
        Err(SaveFault::Write) => return Err(refused(stream.get_ref().failure())),
    }
    file.sync_all()?;
    Ok(stream.into_sum())
}

// Writes the image of the core to this stream.
fn put_image<W: Write + Drop>(alloc: Global, stream: W, core: &Core) -> Result<(), SaveFault> {
    let Ok(mut output) = BlockWriter::new(alloc, stream) else {
        return Err(SaveFault::NoMemory);
    };
    tab_saving::save(alloc, &mut output, core)?;
    output.flush().map_err(|_| SaveFault::Write)
}

// A write that failed for this reason, if one is known.
fn refused(reason: Option<Error>) -> NotSaved {
    NotSaved::Refused(reason.unwrap_or(Error::from(ErrorKind::Other)))
}

// Asks that the folder have the names on the disk too. The image has its name already, and until then the name's last image stands there:
// so it is no fault where the system can't do it.
fn settle(rt: &HostRuntime, name: &str) {
    let folder = match Path::new(name).parent() {
        Some(parent) if !parent.as_os_str().is_empty() => parent,
        _ => Path::new("."),
    };
    if let Ok(folder) = File::open(rt, folder) {
        let _ = folder.sync_all();
    }
}
