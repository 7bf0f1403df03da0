//! What a folder keeps, read.
use crate::FolderFault;
use crate::file_device::FileDevice;
use crate::fronts::format_in;
use crate::images::read;
use crate::journal_lines::JournalLines;
use crate::listing::Chain;
use crate::loads::{LoadedBefore, loaded};
use crate::names::StoreFile;
use crate::taking_up::{Place, begun, replayed_as_it_is};
use std::fs;
use std::fs::File;
use std::io::{Error, ErrorKind};
use std::ops::Range;
use tab_core::Core;
use tab_journal::Format;

/// What a folder keeps: its image, the journals behind it, and what the loads of scripts have given. No file is changed by reading it.
#[derive(Clone, Copy)]
pub struct Contents<'a> {
    rt: &'a HostRuntime,
    path: &'a str,
    chain: Chain,
}

impl<'a> Contents<'a> {
    /// Those of the folder of this path, of which this is the image, with the journals behind it.
    pub(crate) fn new(rt: &'a HostRuntime, path: &'a str, chain: Chain) -> Contents<'a> {
        Contents { rt, path, chain }
    }

    /// The name of the file that has its image.
    pub fn image(&self) -> Result<String, FolderFault> {
        Ok(StoreFile::Image(self.chain.image).path(self.rt.alloc(), self.path)?)
    }

    /// The core of its image.
    pub fn load(&self) -> Result<Core, FolderFault> {
        read(self.rt, self.path, StoreFile::Image(self.chain.image))
    }

    /// How many bytes its image has.
    pub fn image_length(&self) -> Result<u64, FolderFault> {
        Ok(fs::metadata(self.rt, self.image()?.as_str())?.len())
    }

    /// The numbers of the journals behind its image, in whose order they are replayed.
    pub fn journals(&self) -> Range<u64> {
        self.chain.journals()
    }

    /// What the journal of this number keeps.
    pub fn format(&self, number: u64) -> Result<Format, FolderFault> {
        format_in(self.rt, self.path, number)
    }

    /// Replays the entries of the journal of this number on this core, which it goes on from, and tells how many there were. One that is
    /// damaged, or cut though it isn't the last one, is refused.
    pub fn replay(&self, number: u64, core: &mut Core) -> Result<u64, FolderFault> {
        let place = self.place(number, core);
        replayed_as_it_is(self.rt.alloc(), self.journal_file(number)?, place, core)
    }

    /// The lines of the journal of this number, which goes on from this core.
    pub fn lines(&self, number: u64, core: &Core) -> Result<JournalLines, FolderFault> {
        let place = self.place(number, core);
        let mut device = FileDevice::found(self.journal_file(number)?);
        let reader = begun(self.rt.alloc(), &mut device, place)?;
        Ok(JournalLines::new(device, reader))
    }

    /// What is kept of a load in this file.
    pub fn loaded(&self, file: StoreFile) -> Result<LoadedBefore, FolderFault> {
        loaded(self.rt, self.path, file)
    }

    // The place of the journal of this number, which goes on from this core.
    fn place(&self, number: u64, core: &Core) -> Place {
        self.chain.place(number, Some((core.next(), core.clock())))
    }

    // The file of the journal of this number.
    fn journal_file(&self, number: u64) -> Result<File, FolderFault> {
        let file = StoreFile::Journal(number);
        match File::open(self.rt, file.path(self.rt.alloc(), self.path)?.as_str()) {
            Ok(found) => Ok(found),
            Err(error) if error.kind() == ErrorKind::NotFound => Err(FolderFault::Missing(file)),
            Err(error) => Err(FolderFault::from(error)),
        }
    }
}
