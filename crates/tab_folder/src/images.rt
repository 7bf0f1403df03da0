//! The images in a folder, each with its checksum beside it.
use crate::FolderFault;
use crate::hold::FILE_MODE;
use crate::names::StoreFile;
use std::alloc::AllocError;
use std::fs;
use std::fs::{File, OpenOptions};
use std::io::Write;
use std::os::unix::fs::OpenOptionsExt;
use tab_core::Core;
use tab_host::{line_of_sum, name_of_sum, write_image};

/// Writes an image of the core that will have this name, and its checksum, down to the disk. The name it has once it is placed. Where
/// that fails nothing of it is left, so that it takes no room.
pub(crate) fn write_part(
    rt: &HostRuntime,
    folder: &str,
    file: StoreFile,
    core: &Core,
) -> Result<(), FolderFault> {
    let outcome = write(rt, folder, file, core);
    if outcome.is_err() {
        let _ = remove_part(rt, folder, file);
    }
    outcome
}

/// Takes away what was written of an image that has no name yet, as far as the system lets it.
pub(crate) fn remove_part(
    rt: &HostRuntime,
    folder: &str,
    file: StoreFile,
) -> Result<(), AllocError> {
    let part = file.part(rt.alloc(), folder)?;
    let name = file.path(rt.alloc(), folder)?;
    let sum = name_of_sum(rt.alloc(), name.as_str())?;
    let _ = fs::remove_file(rt, part.as_str());
    let _ = fs::remove_file(rt, sum.as_str());
    Ok(())
}

/// Gives an image that was written its name. It may not be on the disk yet.
pub(crate) fn place(rt: &HostRuntime, folder: &str, file: StoreFile) -> Result<(), FolderFault> {
    let part = file.part(rt.alloc(), folder)?;
    let name = file.path(rt.alloc(), folder)?;
    Ok(fs::rename(rt, part.as_str(), name.as_str())?)
}

/// The core of the image in this file. One that has another checksum than the one beside it isn't looked at; one of an older version
/// has none.
pub(crate) fn read(rt: &HostRuntime, folder: &str, file: StoreFile) -> Result<Core, FolderFault> {
    let name = file.path(rt.alloc(), folder)?;
    match tab_host::load(rt, name.as_str()) {
        Ok(core) => Ok(core),
        Err(fault) => Err(FolderFault::Load(file, fault)),
    }
}

// Writes the image, and then its checksum. What was left of one that was cut off goes.
fn write(rt: &HostRuntime, folder: &str, file: StoreFile, core: &Core) -> Result<(), FolderFault> {
    let part = file.part(rt.alloc(), folder)?;
    let name = file.path(rt.alloc(), folder)?;
    let beside = name_of_sum(rt.alloc(), name.as_str())?;
    let sum = write_image(rt.alloc(), &made(rt, part.as_str())?, core)?;
    let line = line_of_sum(rt.alloc(), name.as_str(), sum)?;
    let mut small = made(rt, beside.as_str())?;
    match small.write_all(line.as_bytes()) {
        Ok(()) => {}
        Err(error) => return Err(FolderFault::Write(error)),
    }
    Ok(small.sync_all()?)
}

// An empty file of this name, for its owner alone.
fn made(rt: &HostRuntime, name: &str) -> Result<File, FolderFault> {
    let mut options = OpenOptions::new();
    options
        .write(true)
        .create(true)
        .truncate(true)
        .mode(FILE_MODE);
    Ok(options.open(rt, name)?)
}
