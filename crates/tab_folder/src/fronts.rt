//! Which image a start takes, and which journals stand behind it.
use crate::FolderFault;
use crate::listing::{Chain, Listing};
use crate::names::StoreFile;
use std::fs;
use std::fs::File;
use std::io::{ErrorKind, Read};
use tab_journal::{Format, Header, take_header};

// How many bytes a header has.
const HEADER: usize = 48;

// What a journal begins with.
#[derive(Clone, Copy, Debug, PartialEq, Eq)]
enum Front {
    // A header, or damage in its place.
    Header,
    // A part of one, and nothing behind it.
    Cut,
}

/// The newest image of the folder of this path, and the journals behind it, of which the last one has a header; none where the folder
/// is new, or was begun and has no image yet. A file that is missing is told by its name.
///
/// The header of the last journal may be cut, as a crash leaves it: then nothing was kept in it, and the one before is the last. That
/// of an image's own journal was on the disk before the image got its name.
pub(crate) fn chain_in(rt: &HostRuntime, folder: &str) -> Result<Option<Chain>, FolderFault> {
    let listing = Listing::of(rt, folder)?;
    let Some(chain) = listing.chain()? else {
        return begun_in(rt, folder, &listing);
    };
    let Some(last) = chain.last else {
        return Ok(Some(chain));
    };
    if front_of(rt, folder, last)? == Front::Header {
        return Ok(Some(chain));
    }
    if last == chain.image && listing.has_sum(last) {
        return Err(FolderFault::Headless(last));
    }
    Ok(Some(Chain {
        image: chain.image,
        last: last.checked_sub(1).filter(|before| *before >= chain.image),
    }))
}

// Sees that nothing is lost of a folder without an image.
fn begun_in(
    rt: &HostRuntime,
    folder: &str,
    listing: &Listing,
) -> Result<Option<Chain>, FolderFault> {
    let Some(number) = listing.greatest_with() else {
        return Ok(None);
    };
    if listing.is_begun() && keeps_nothing(rt, folder, number)? {
        return Ok(None);
    }
    Err(FolderFault::NoImage(number))
}

// Whether the journal of this number has a header at most.
fn keeps_nothing(rt: &HostRuntime, folder: &str, number: u64) -> Result<bool, FolderFault> {
    let name = StoreFile::Journal(number).path(rt.alloc(), folder)?;
    Ok(fs::metadata(rt, name.as_str())?.len() <= HEADER as u64)
}

/// What the journal of this number keeps.
pub(crate) fn format_in(
    rt: &HostRuntime,
    folder: &str,
    number: u64,
) -> Result<Format, FolderFault> {
    match header_of(rt, folder, number)? {
        Some(header) => Ok(header.format),
        None if keeps_nothing(rt, folder, number)? => Err(FolderFault::Torn(number)),
        None => Err(FolderFault::Damaged(number, 0)),
    }
}

// What the journal of this number begins with.
fn front_of(rt: &HostRuntime, folder: &str, number: u64) -> Result<Front, FolderFault> {
    if header_of(rt, folder, number)?.is_some() || !keeps_nothing(rt, folder, number)? {
        return Ok(Front::Header);
    }
    Ok(Front::Cut)
}

// The header of the journal of this number; none where it has no whole one.
fn header_of(rt: &HostRuntime, folder: &str, number: u64) -> Result<Option<Header>, FolderFault> {
    let name = StoreFile::Journal(number).path(rt.alloc(), folder)?;
    let mut front = [0; HEADER];
    match File::open(rt, name.as_str())?.read_exact(&mut front) {
        Ok(()) => Ok(take_header(&front).map(|(header, _)| header)),
        Err(error) if error.kind() == ErrorKind::UnexpectedEof => Ok(None),
        Err(error) => Err(FolderFault::from(error)),
    }
}
