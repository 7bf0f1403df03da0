//! What the loads of a script have given, beside its journal.
//!
//! A load that was answered has its file: an image, or an empty file, where it failed. So one whose file isn't there was cut off, where
//! nothing was put into the journal since it was read.
use crate::FolderFault;
use crate::hold::{FILE_MODE, Hold};
use crate::images::{place, read, remove_part, write_part};
use crate::names::StoreFile;
use std::fs;
use std::fs::OpenOptions;
use std::io::ErrorKind;
use std::os::unix::fs::OpenOptionsExt;
use tab_core::Core;
use tab_host::name_of_sum;

/// What a load of an earlier run has given.
#[derive(Drop)]
pub enum LoadedBefore {
    /// This core.
    Core(Core),
    /// Nothing: it failed.
    Failed,
    /// Nothing is there.
    Missing,
}

/// What is kept of a load.
#[derive(Clone, Copy, Debug)]
pub enum KeptLoad {
    /// The core that it gives.
    Core,
    /// That it failed, since its core can't be kept, for this reason.
    Failed(FolderFault),
}

/// Keeps what a load gives in its file, on the disk; or, where that lacks room, that it failed. After an error it isn't known what a
/// start finds.
pub(crate) fn keep_loaded(
    rt: &HostRuntime,
    folder: &str,
    hold: &Hold,
    file: StoreFile,
    core: &Core,
) -> Result<KeptLoad, FolderFault> {
    if let Err(fault) = write_part(rt, folder, file, core) {
        keep_failed(rt, folder, hold, file)?;
        return Ok(KeptLoad::Failed(fault));
    }
    if let Err(fault) = place(rt, folder, file) {
        let _ = remove_part(rt, folder, file);
        keep_failed(rt, folder, hold, file)?;
        return Ok(KeptLoad::Failed(fault));
    }
    hold.sync()?;
    Ok(KeptLoad::Core)
}

/// Keeps in its file, on the disk, that a load failed. After an error it isn't known what a start finds.
pub(crate) fn keep_failed(
    rt: &HostRuntime,
    folder: &str,
    hold: &Hold,
    file: StoreFile,
) -> Result<(), FolderFault> {
    let name = file.path(rt.alloc(), folder)?;
    let sum = name_of_sum(rt.alloc(), name.as_str())?;
    match fs::remove_file(rt, sum.as_str()) {
        Err(error) if error.kind() != ErrorKind::NotFound => return Err(FolderFault::from(error)),
        _ => {}
    }
    let mut options = OpenOptions::new();
    options.write(true).create_new(true).mode(FILE_MODE);
    let _file = options.open(rt, name.as_str())?;
    hold.sync()
}

/// What is kept of a load in this file.
pub(crate) fn loaded(
    rt: &HostRuntime,
    folder: &str,
    file: StoreFile,
) -> Result<LoadedBefore, FolderFault> {
    let name = file.path(rt.alloc(), folder)?;
    let sum = name_of_sum(rt.alloc(), name.as_str())?;
    match fs::metadata(rt, name.as_str()) {
        Ok(data) if data.len() == 0 && !is_there(rt, sum.as_str())? => Ok(LoadedBefore::Failed),
        Ok(_) => Ok(LoadedBefore::Core(read(rt, folder, file)?)),
        Err(error) if error.kind() == ErrorKind::NotFound => Ok(LoadedBefore::Missing),
        Err(error) => Err(FolderFault::from(error)),
    }
}

// Whether there is a file of this name.
fn is_there(rt: &HostRuntime, name: &str) -> Result<bool, FolderFault> {
    match fs::metadata(rt, name) {
        Ok(_) => Ok(true),
        Err(error) if error.kind() == ErrorKind::NotFound => Ok(false),
        Err(error) => Err(FolderFault::from(error)),
    }
}
