//! Cores that are loaded from images, and the bytes that they are saved as.
use crate::images::ONE_PUT;
use std::alloc::Global;
use std::process::Abort;
use tab_core::Core;
use tab_io::memory::{PieceReader, PieceWriter};
use tab_io::{BlockReader, BlockWriter, Output};
use tab_loading::{LoadFault, load};
use tab_saving::save;

/// The bytes of an image of more than one block of 65,536 bytes: the put of `ONE_PUT` with a longer value.
pub fn large(rt: &impl Abort, alloc: Global) -> Vec<u8> {
    let front = ONE_PUT.len().saturating_sub(9);
    let front = ONE_PUT.get(..front).expect(rt, "all up to the value");
    let mut bytes = Vec::from_slice(alloc, front).expect(rt, "memory");
    let length = 70_000u32.to_be_bytes();
    bytes.extend_from_slice(&length).expect(rt, "memory");
    for _ in 0..70_000u32 {
        bytes.push(b'v').expect(rt, "memory");
    }
    bytes.extend_from_slice(b"END!").expect(rt, "memory");
    bytes
}

/// The bytes of its image.
pub fn saved(rt: &impl Abort, alloc: Global, core: &Core) -> Vec<u8> {
    let mut output = BlockWriter::new(alloc, PieceWriter::new(alloc, 7)).expect(rt, "memory");
    save(alloc, &mut output, core).expect(rt, "saving");
    output.flush().expect(rt, "writing");
    Vec::from_slice(alloc, output.get_ref().bytes()).expect(rt, "memory")
}

/// What the bytes are loaded as, where the input gives so many at a time.
pub fn loaded(
    rt: &impl Abort,
    alloc: Global,
    bytes: &[u8],
    piece: usize,
) -> Result<Core, LoadFault> {
    let mut input = BlockReader::new(alloc, PieceReader::new(bytes, piece)).expect(rt, "memory");
    load(alloc, &mut input)
}
