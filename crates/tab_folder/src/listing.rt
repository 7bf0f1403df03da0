//! What files a folder has, and whether they go with one another.
use crate::FolderFault;
use crate::names::{FileKind, StoreFile, kind_of};
use crate::taking_up::Place;
use std::alloc::{AllocError, Global};
use std::collections::BTreeSet;
use std::fs;
use std::ops::Range;

/// The newest image of a folder, and the journals behind it.
#[derive(Clone, Copy, Debug, PartialEq, Eq)]
pub(crate) struct Chain {
    /// The number of the image.
    pub(crate) image: u64,
    /// The number of the last journal, where there is one: the first one has the image's number, and none between them is missing.
    pub(crate) last: Option<u64>,
}

impl Chain {
    /// The numbers of the journals.
    pub(crate) fn journals(&self) -> Range<u64> {
        let end = match self.last {
            Some(last) => last.saturating_add(1),
            None => self.image,
        };
        self.image..end
    }

    /// The place of the journal of this number, which goes on from a core of which `base` has the number of the next mutation and the
    /// clock, if that is known.
    pub(crate) fn place(&self, number: u64, base: Option<(u64, i64)>) -> Place {
        Place {
            number,
            is_first: number == self.image,
            is_last: Some(number) == self.last,
            base,
        }
    }
}

/// The numbers of the files in a folder.
#[derive(Drop)]
pub(crate) struct Listing {
    images: BTreeSet<u64>,
    // of images that have a checksum, or had one
    summed: BTreeSet<u64>,
    journals: BTreeSet<u64>,
    // the greatest ones of what loads have given, and of parts of images
    loaded: Option<u64>,
    parts: Option<u64>,
}

impl Listing {
    /// What is in the folder of this path. Memory is taken for each name.
    pub(crate) fn of(rt: &HostRuntime, path: &str) -> Result<Listing, FolderFault> {
        let mut listing = Listing::new(rt.alloc());
        for entry in fs::read_dir(rt, path)? {
            let entry = entry?;
            listing.add(kind_of(entry.file_name()))?;
        }
        Ok(listing)
    }

    fn new(alloc: Global) -> Listing {
        Listing {
            images: BTreeSet::new(alloc),
            summed: BTreeSet::new(alloc),
            journals: BTreeSet::new(alloc),
            loaded: None,
            parts: None,
        }
    }

    // One file more.
    fn add(&mut self, kind: FileKind) -> Result<(), AllocError> {
        match kind {
            FileKind::Whole(StoreFile::Image(number)) => add_to(&mut self.images, number)?,
            FileKind::Whole(StoreFile::Journal(number)) => add_to(&mut self.journals, number)?,
            FileKind::Whole(StoreFile::Loaded(number, _)) => {
                self.loaded = self.loaded.max(Some(number));
            }
            FileKind::Sum(StoreFile::Image(number)) => add_to(&mut self.summed, number)?,
            FileKind::Part(StoreFile::Image(number)) => self.parts = self.parts.max(Some(number)),
            _ => {}
        }
        Ok(())
    }

    /// Whether a checksum stands beside the image of this number.
    pub(crate) fn has_sum(&self, image: u64) -> bool {
        self.summed.contains(&image)
    }

    /// Whether there is an image.
    pub(crate) fn has_image(&self) -> bool {
        !self.images.is_empty()
    }

    /// The greatest number of what goes with an image.
    pub(crate) fn greatest_with(&self) -> Option<u64> {
        self.last_journal().max(self.loaded)
    }

    /// Whether all that is there may be a folder that was begun, and has no image yet: a part of its first one, and at most the journal
    /// behind it.
    pub(crate) fn is_begun(&self) -> bool {
        self.parts == Some(0) && self.loaded.is_none() && self.last_journal() == Some(0)
    }

    /// The newest image and the journals behind it; none where there is no image.
    ///
    /// An image that this version names has its journal already, and a checksum. Older versions name one that has neither when a run
    /// ends, or begins; what stood before it may be there then.
    pub(crate) fn chain(&self) -> Result<Option<Chain>, FolderFault> {
        let Some(image) = self.images.last().copied() else {
            return Ok(None);
        };
        let last = self.last_behind(image)?;
        if last.is_none() && (self.has_sum(image) || !self.may_be_alone(image)) {
            return Err(FolderFault::Missing(StoreFile::Journal(image)));
        }
        Ok(Some(Chain { image, last }))
    }

    // The number of the last journal behind this image, if there is any. None before it may be missing.
    fn last_behind(&self, image: u64) -> Result<Option<u64>, FolderFault> {
        let mut last = None;
        let mut next = Some(image);
        for number in self.journals.iter().copied() {
            if number < image {
                continue;
            }
            if next != Some(number) {
                return Err(missing_journal(next));
            }
            last = next;
            next = number.checked_add(1);
        }
        if self.loaded.is_some_and(|loaded| loaded >= image) && self.loaded > last {
            return Err(missing_journal(next));
        }
        Ok(last)
    }

    // Whether an older version may have left this image, the newest one, without a journal: nothing of this version is there, and no
    // number between it and what stood before it is free.
    fn may_be_alone(&self, image: u64) -> bool {
        let before = self
            .last_journal()
            .max(self.parts.filter(|part| *part < image));
        match before {
            None => true,
            Some(before) => self.summed.is_empty() && image <= before.saturating_add(1),
        }
    }

    fn last_journal(&self) -> Option<u64> {
        self.journals.last().copied()
    }
}

// The journal of this number is missing.
fn missing_journal(number: Option<u64>) -> FolderFault {
    FolderFault::Missing(StoreFile::Journal(number.unwrap_or(u64::MAX)))
}

// One number more.
fn add_to(numbers: &mut BTreeSet<u64>, number: u64) -> Result<(), AllocError> {
    numbers.insert(number)?;
    Ok(())
}
