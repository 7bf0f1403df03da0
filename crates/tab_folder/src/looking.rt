//! A folder that is looked into, and left as it is.
use crate::FolderFault;
use crate::contents::Contents;
use crate::fronts::chain_in;
use crate::hold::{Sharing, lock_folder, locked, opened};
use crate::left::{Left, left_in};
use crate::listing::Chain;
use crate::names::StoreFile;
use std::fs::File;
use std::io::ErrorKind;
use tab_host::{Looked, Progress, look};

/// A folder that is looked into. No process takes it up until this is dropped; others may look into it too.
#[derive(Drop)]
pub struct Look<'a> {
    rt: &'a HostRuntime,
    path: &'a str,
    // locked for as long as they are open; a copy of a folder may have no lock
    _folder: File,
    _lock: Option<File>,
    chain: Chain,
}

impl<'a> Look<'a> {
    /// Looks into the folder of this path, which no process may have taken up. Nothing in it is changed or made.
    pub fn open(rt: &'a HostRuntime, path: &'a str) -> Result<Look<'a>, FolderFault> {
        let folder = opened(rt, path)?;
        lock_folder(&folder, Sharing::Looking)?;
        let lock = held(rt, path)?;
        match chain_in(rt, path)? {
            Some(chain) => Ok(Look {
                rt,
                path,
                _folder: folder,
                _lock: lock,
                chain,
            }),
            None => Err(FolderFault::Empty),
        }
    }

    /// What it keeps.
    pub fn contents(&self) -> Contents<'_> {
        Contents::new(self.rt, self.path, self.chain)
    }

    /// What its image says.
    pub fn read(&self, progress: &Progress<'_>) -> Result<Looked, FolderFault> {
        let name = self.contents().image()?;
        match look(self.rt, name.as_str(), progress) {
            Ok(looked) => Ok(looked),
            Err(fault) => Err(FolderFault::Load(StoreFile::Image(self.chain.image), fault)),
        }
    }

    /// What runs left in the journal of this number, which goes on from a core of which `base` has the number of the next mutation and
    /// the clock, if that is known.
    pub fn left(&self, number: u64, base: Option<(u64, i64)>) -> Result<Left, FolderFault> {
        left_in(self.rt, self.path, self.chain, number, base)
    }
}

// The lock in the folder, which others may hold too, but none who has taken it up.
fn held(rt: &HostRuntime, path: &str) -> Result<Option<File>, FolderFault> {
    let name = format!(in rt.alloc(); "{path}/lock")?;
    let file = match File::open(rt, name.as_str()) {
        Ok(file) => file,
        Err(error) if error.kind() == ErrorKind::NotFound => return Ok(None),
        Err(error) => return Err(FolderFault::from(error)),
    };
    locked(&file, Sharing::Looking)?;
    Ok(Some(file))
}
