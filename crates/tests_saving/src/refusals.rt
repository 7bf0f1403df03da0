//! Reads and writes that fail.
use crate::cores::{large, loaded};
use crate::images::TWO_TABLES;
use std::alloc::Global;
use std::io::ErrorKind;
use std::process::Abort;
use tab_core::Core;
use tab_io::memory::{Fault, PieceReader, PieceWriter};
use tab_io::{BlockReader, BlockWriter, Output};
use tab_loading::{LoadFault, load};
use tab_saving::save;

// The call behind so many fails.
fn behind(after: u64) -> Fault {
    Fault {
        after,
        kind: ErrorKind::Other,
    }
}

// Why nothing is loaded where the read behind so many fails.
fn fault_behind(rt: &impl Abort, alloc: Global, after: u64) -> Option<LoadFault> {
    let reader = PieceReader::new(TWO_TABLES, 7).failing(behind(after));
    let mut input = BlockReader::new(alloc, reader).expect(rt, "memory");
    load(alloc, &mut input).err()
}

#[test]
fn each_read_that_fails_is_told(rt: HostRuntime) {
    for after in 0..(TWO_TABLES.len() / 7) as u64 {
        assert!(rt; fault_behind(&rt, rt.alloc(), after) == Some(LoadFault::Io));
    }
}

// What a save wrote whose write behind so many failed; none if all went well.
fn cut_off(rt: &impl Abort, alloc: Global, core: &Core, after: u64) -> Option<Vec<u8>> {
    let writer = PieceWriter::new(alloc, 1000).failing(behind(after));
    let mut output = BlockWriter::new(alloc, writer).expect(rt, "memory");
    if save(alloc, &mut output, core).is_ok() && output.flush().is_ok() {
        return None;
    }
    Some(Vec::from_slice(alloc, output.get_ref().bytes()).expect(rt, "memory"))
}

// Where the write behind so many fails, a beginning of the image's bytes is written.
fn expect_beginning(rt: &impl Abort, alloc: Global, core: &Core, after: u64, bytes: &[u8]) {
    let written = cut_off(rt, alloc, core, after).expect(rt, "a fault");
    assert!(rt; bytes.starts_with(&written))
}

#[test]
fn each_write_that_fails_is_told(rt: HostRuntime) {
    let bytes = large(&rt, rt.alloc());
    let core = loaded(&rt, rt.alloc(), &bytes, 1000).expect(&rt, "an image");
    let writes = (bytes.len() / 1000) as u64;
    assert!(rt; 65 < writes);
    for after in 0..writes {
        expect_beginning(&rt, rt.alloc(), &core, after, &bytes);
    }
}
