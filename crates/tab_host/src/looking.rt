//! What the image in a file says, for who looks into it.
use crate::Noting;
use crate::disk::{NotLoaded, not_loaded};
use crate::progress::{Progress, ProgressStream};
use crate::sums::compare;
use std::alloc::Global;
use std::fs::File;
use std::io::Read;
use tab_image::{Image, read_image};
use tab_io::{BlockReader, Input};
use tab_loading::LoadFault;

// How many bytes stand before the version.
const MAGIC: usize = 6;

/// What the image in a file says, and what is to be said of the file.
#[derive(Drop)]
pub struct Looked {
    /// The image.
    pub image: Image,
    /// The version in which it is written.
    pub version: u16,
    /// How many bytes the file has.
    pub bytes: u64,
}

/// Reads the image in the file of this name. `Io` is told also where the file can't be opened.
///
/// Where a file FILE.sha256 stands beside it the image is compared with that checksum first, as a load does, and an image that differs isn't
/// looked at.
pub fn look(rt: &HostRuntime, name: &str, progress: &Progress<'_>) -> Result<Looked, NotLoaded> {
    let file = File::open(rt, name).map_err(NotLoaded::Io)?;
    compare(rt, name, &file)?;
    look_at(rt, file, progress)
}

// Reads the image in the file.
fn look_at(rt: &HostRuntime, file: File, progress: &Progress<'_>) -> Result<Looked, NotLoaded> {
    let bytes = file.metadata().map_err(NotLoaded::Io)?.len();
    let mut stream = Noting::new(ProgressStream::new(&file, progress, "reading", bytes));
    match read(rt.alloc(), &mut stream, bytes) {
        Ok(looked) => Ok(looked),
        Err(fault) => Err(not_loaded(&file, fault, stream.failure())),
    }
}

// Reads the image in the stream of a file of so many bytes.
fn read<R: Read + Drop>(alloc: Global, stream: R, bytes: u64) -> Result<Looked, LoadFault> {
    let Ok(mut input) = BlockReader::new(alloc, stream) else {
        return Err(LoadFault::NoMemory);
    };
    if input.fill().is_err() {
        return Err(LoadFault::Io);
    }
    let version = version_of(input.front());
    let image = read_image(alloc, &mut input)?;
    Ok(Looked {
        image,
        version,
        bytes,
    })
}

// The version that stands in the first bytes of an image, or 0 where there are too few.
fn version_of(front: &[u8]) -> u16 {
    match front.split_at_checked(MAGIC) {
        Some((_, [high, low, ..])) => u16::from_be_bytes([*high, *low]),
        _ => 0,
    }
}
