//! Images in files, as lines and the command line name them.
use crate::escaped::Escaped;
use anyhow::Context;
use tab_core::Core;
use tab_host::{NotLoaded, NotSaved};
use tab_prog::{FileName, Files, LoadFault, ProgramFault, SaveFault};

/// Saves images to files of the system and loads them from there, by their paths.
#[derive(Drop)]
pub struct Disk<'a> {
    rt: &'a HostRuntime,
}

impl<'a> Disk<'a> {
    /// The files that this runtime reaches.
    pub fn new(rt: &'a HostRuntime) -> Disk<'a> {
        Disk { rt }
    }
}

impl Files for Disk<'_> {
    ghost saves = { λ _ _ _ _ _. Unit {0} };

    ghost loads = { λ _ _ _ _. Unit {0} };

    fn save(&mut self, name: &FileName, core: &Core) -> Result<(), SaveFault> {
        match tab_host::save(self.rt, name.as_str(), core) {
            Ok(()) => Ok(()),
            Err(fault) => Err(not_saved(self.rt, name.as_str(), fault)),
        }
    }

    fn load(&mut self, name: &FileName) -> Result<Core, LoadFault> {
        match tab_host::load(self.rt, name.as_str()) {
            Ok(core) => Ok(core),
            Err(fault) => Err(not_loaded(self.rt, name.as_str(), fault)),
        }
    }
}

/// The core of the image in the file of this name, or a new one where none is named. A fault names the file.
pub fn core_of(rt: &HostRuntime, image: Option<&str>) -> anyhow::Result<Core> {
    match loaded(rt, image)? {
        Some(core) => Ok(core),
        None => Core::new(rt.alloc()).map_err(|_| ProgramFault::NoMemory.into()),
    }
}

/// The core of the image in the file of this name, if one is named. A fault names the file.
pub fn loaded(rt: &HostRuntime, image: Option<&str>) -> anyhow::Result<Option<Core>> {
    let Some(name) = image else {
        return Ok(None);
    };
    let core = tab_host::load(rt, name).with_context(|| name)?;
    Ok(Some(core))
}

// What a line is told of a save that failed; standard error has why.
fn not_saved(rt: &HostRuntime, name: &str, fault: NotSaved) -> SaveFault {
    let _ = eprintln!(rt; "fault: {}: {fault}", Escaped(&name));
    match fault {
        NotSaved::NoMemory => SaveFault::NoMemory,
        NotSaved::NoFile | NotSaved::NoName | NotSaved::Refused(_) => SaveFault::Io,
    }
}

// What a line is told of a load that failed; standard error has why the file isn't read, or that the image isn't the one that was saved.
fn not_loaded(rt: &HostRuntime, name: &str, fault: NotLoaded) -> LoadFault {
    match fault {
        NotLoaded::NoMemory => LoadFault::NoMemory,
        NotLoaded::Version(version) => LoadFault::Version(version),
        NotLoaded::Bad | NotLoaded::Damaged => LoadFault::Bad,
        NotLoaded::Io(_) | NotLoaded::NoSum(_) | NotLoaded::Differs => {
            let _ = eprintln!(rt; "fault: {}: {fault}", Escaped(&name));
            LoadFault::Io
        }
    }
}
