//! The image of a core that has done all that a folder keeps.
use crate::line_replay::replay_lines;
use std::alloc::Global;
use tab_core::Core;
use tab_folder::{Contents, FolderFault, Format};
use tab_image::{Image, read_image};
use tab_io::{BlockReader, BlockWriter, Output};

/// The image of a core that has done, behind the folder's image, what stands in its journals. No file is changed. Memory is taken for the
/// core and the bytes of its image, and then for these and what they say.
pub fn replayed_image(rt: &HostRuntime, contents: Contents<'_>) -> Result<Image, FolderFault> {
    let mut core = contents.load()?;
    for number in contents.journals() {
        core = with_journal(rt, contents, core, number)?;
    }
    let bytes = bytes_of(rt.alloc(), core)?;
    let mut input = BlockReader::new(rt.alloc(), bytes.as_slice())?;
    // (these bytes are an image: only memory can lack)
    read_image(rt.alloc(), &mut input).map_err(|_| FolderFault::NoMemory)
}

// The core, once it has done what stands in the journal of this number.
fn with_journal(
    rt: &HostRuntime,
    contents: Contents<'_>,
    core: Core,
    number: u64,
) -> Result<Core, FolderFault> {
    match contents.format(number)? {
        Format::Lines => Ok(replay_lines(rt, contents, core, number)?.core),
        Format::Events => {
            let mut core = core;
            let _count = contents.replay(number, &mut core)?;
            Ok(core)
        }
    }
}

// The bytes of the core's image. A write into memory fails for want of memory alone.
fn bytes_of(alloc: Global, core: Core) -> Result<Vec<u8>, FolderFault> {
    let mut bytes = Vec::new(alloc);
    let mut output = BlockWriter::new(alloc, &mut bytes)?;
    if tab_saving::save(alloc, &mut output, &core).is_err() || output.flush().is_err() {
        return Err(FolderFault::NoMemory);
    }
    drop(output);
    Ok(bytes)
}
