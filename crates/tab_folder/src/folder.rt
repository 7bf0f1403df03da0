//! The folder: taken up, read, and left with the next image.
use crate::FolderFault;
use crate::beginning::{NotBegun, begin_journal};
use crate::contents::Contents;
use crate::fronts::chain_in;
use crate::hold::Hold;
use crate::images::{place, remove_part, write_part};
use crate::journal::Journal;
use crate::listing::{Chain, Listing};
use crate::loads::{KeptLoad, keep_failed, keep_loaded};
use crate::names::StoreFile;
use crate::sweeping::sweep;
use crate::taking_up::{Place, TakenUp, opened, replayed, taken_up};
use std::fs::File;
use std::io::Error;
use tab_core::Core;
use tab_journal::Format;

/// A folder that was taken up. No other process takes it up until this is dropped.
#[derive(Drop)]
pub struct Folder<'a> {
    rt: &'a HostRuntime,
    path: &'a str,
    hold: Hold,
    // the newest image, and the last journal behind it that has a header
    chain: Option<Chain>,
    // whether an image was given the last journal's number, and may not be on the disk under it
    is_in_doubt: bool,
}

impl<'a> Folder<'a> {
    /// Takes the folder of this path up, which is made where it isn't there, for its owner alone. It is refused where it belongs to
    /// somebody else, or others may change it, and where a file is missing: it stays as it is then.
    pub fn open(rt: &'a HostRuntime, path: &'a str) -> Result<Folder<'a>, FolderFault> {
        let hold = Hold::take(rt, path)?;
        let chain = chain_in(rt, path)?;
        Ok(Folder {
            rt,
            path,
            hold,
            chain,
            is_in_doubt: false,
        })
    }

    /// Whether there is an image in the folder of this path, as far as the system tells. Nothing is made.
    pub fn keeps_image(rt: &HostRuntime, path: &str) -> bool {
        match Listing::of(rt, path) {
            Ok(listing) => listing.has_image(),
            Err(_) => false,
        }
    }

    /// Whether there is an image in it.
    pub fn has_image(&self) -> bool {
        self.chain.is_some()
    }

    /// What it keeps.
    pub fn contents(&self) -> Result<Contents<'_>, FolderFault> {
        Ok(Contents::new(self.rt, self.path, self.chain()?))
    }

    /// Its mode, where others than its owner may look into it.
    pub fn seen_by_others(&self) -> Option<u32> {
        self.hold.seen_by_others
    }

    /// Why the system can't see the names of its files on the disk, where it can't.
    pub fn unsynced(&self) -> Option<Error> {
        self.hold.unsynced
    }

    /// Replays the entries of the journal of this number on this core, which it goes on from, and takes it up: what stands at the end
    /// of the last one that is no whole batch is cut off, down to the disk; another one that is cut is refused, and so is one that is
    /// damaged. The last one goes on where that is asked. After an error no file has changed.
    pub fn replay(
        &self,
        number: u64,
        core: &mut Core,
        goes_on: bool,
    ) -> Result<TakenUp, FolderFault> {
        let place = self.place(number, core)?;
        let file = self.journal_file(number)?;
        replayed(self.rt.alloc(), file, place, core, goes_on && place.is_last)
    }

    /// Takes up the journal of this number, whose lines were replayed, as [`Folder::replay`] does. Tells how many bytes are cut off.
    pub fn take_up(&self, number: u64) -> Result<u64, FolderFault> {
        let place = self.chain()?.place(number, None);
        taken_up(self.rt.alloc(), self.journal_file(number)?, place)
    }

    // The place of the journal of this number, which goes on from this core.
    fn place(&self, number: u64, core: &Core) -> Result<Place, FolderFault> {
        let base = (core.next(), core.clock());
        Ok(self.chain()?.place(number, Some(base)))
    }

    // The file of the journal of this number, to be read and changed.
    fn journal_file(&self, number: u64) -> Result<File, FolderFault> {
        let file = StoreFile::Journal(number);
        let name = file.path(self.rt.alloc(), self.path)?;
        opened(self.rt, name.as_str())?.ok_or(FolderFault::Missing(file))
    }

    /// Begins the next journal, which goes on from this core, once what was put into those before is on the disk.
    pub fn begin_next(&mut self, core: &Core, format: Format) -> Result<Journal, NotBegun> {
        let chain = self.chain()?;
        let number = next_of(chain)?;
        let journal = begin_journal(self.rt, self.path, &self.hold, number, core, format)?;
        self.chain = Some(Chain {
            image: chain.image,
            last: Some(number),
        });
        self.is_in_doubt = false;
        Ok(journal)
    }

    /// Whether no image stands yet right before the last journal, and none may.
    pub fn lacks_image(&self) -> bool {
        match self.chain {
            Some(chain) => chain.last > Some(chain.image) && !self.is_in_doubt,
            None => false,
        }
    }

    /// Leaves an image of the core that the last journal goes on from as the newest one, on the disk, and removes what was there before
    /// that. After an error the image before stands, with all journals behind it.
    pub fn keep_image(&mut self, core: &Core) -> Result<(), FolderFault> {
        let chain = self.chain()?;
        let number = chain.last.ok_or(FolderFault::Empty)?;
        write_part(self.rt, self.path, StoreFile::Image(number), core)?;
        self.give_name(number)
    }

    /// Leaves an image of the core as the newest one, on the disk, with the next journal behind it, and removes what was there before.
    /// After an error what was kept stands.
    pub fn renew(&mut self, core: &Core, format: Format) -> Result<Journal, FolderFault> {
        let number = match self.chain {
            Some(chain) => next_of(chain)?,
            None => 0,
        };
        write_part(self.rt, self.path, StoreFile::Image(number), core)?;
        // (a folder that has a journal and no image is one that was begun where a part of the image is there)
        self.hold.sync()?;
        match begin_journal(self.rt, self.path, &self.hold, number, core, format) {
            Ok(journal) => {
                self.give_name(number)?;
                Ok(journal)
            }
            Err(fault) => {
                self.give_up(number);
                Err(FolderFault::from(fault))
            }
        }
    }

    /// Keeps what a load of the script gives whose lines go into the last journal, at this place among its loads; or, where that lacks
    /// room, that it failed. After an error it isn't known what a start finds.
    pub fn keep_loaded(&self, place: u64, core: &Core) -> Result<KeptLoad, FolderFault> {
        keep_loaded(self.rt, self.path, &self.hold, self.loaded_at(place)?, core)
    }

    /// Keeps that the load at this place failed. After an error it isn't known what a start finds.
    pub fn keep_failed(&self, place: u64) -> Result<(), FolderFault> {
        keep_failed(self.rt, self.path, &self.hold, self.loaded_at(place)?)
    }

    // The file of the load at this place, of the last journal.
    fn loaded_at(&self, place: u64) -> Result<StoreFile, FolderFault> {
        let chain = self.chain()?;
        let journal = chain.last.ok_or(FolderFault::Empty)?;
        Ok(StoreFile::Loaded(journal, place))
    }

    // Gives the image of this number, which was written, its name, as the newest one.
    fn give_name(&mut self, number: u64) -> Result<(), FolderFault> {
        if let Err(fault) = place(self.rt, self.path, StoreFile::Image(number)) {
            self.give_up(number);
            return Err(fault);
        }
        self.is_in_doubt = true;
        self.hold.sync()?;
        self.is_in_doubt = false;
        self.chain = Some(Chain {
            image: number,
            last: Some(number),
        });
        sweep(self.rt, self.path, number);
        Ok(())
    }

    // Takes away what was written of the image of this number, where another one stands.
    fn give_up(&self, number: u64) {
        if self.has_image() {
            let _ = remove_part(self.rt, self.path, StoreFile::Image(number));
        }
    }

    // The newest image, and the journals behind it.
    fn chain(&self) -> Result<Chain, FolderFault> {
        self.chain.ok_or(FolderFault::Empty)
    }
}

// The number of the next journal.
fn next_of(chain: Chain) -> Result<u64, FolderFault> {
    match chain.last {
        Some(last) => last.checked_add(1).ok_or(FolderFault::Full),
        None => Ok(chain.image),
    }
}
