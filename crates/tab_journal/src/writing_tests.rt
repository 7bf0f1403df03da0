//! Tests of writing: the bytes of a batch, and a device that fails.
use crate::{Format, Header, MemoryDevice, WriteError, Writer};
use std::alloc::Global;
use std::process::Abort;

// A journal in memory, of whose calls so many go well.
fn begun(rt: &impl Abort, alloc: Global, good: usize) -> Writer<MemoryDevice> {
    let header = Header::new(Format::Lines, 1, 2, 3, 4);
    match Writer::begin(alloc, MemoryDevice::new(alloc, good), header) {
        Ok(writer) => writer,
        Err(_) => panic!(rt; "no journal is begun"),
    }
}

#[test]
fn nothing_is_put_behind_a_failure(rt: HostRuntime) {
    let mut writer = begun(&rt, rt.alloc(), 5);
    writer.put(b"one\n").expect(&rt, "put");
    assert!(&rt; matches!(writer.put(b"two\n"), Err(WriteError::Device(_))));
    assert!(&rt; matches!(writer.put(b"three\n"), Err(WriteError::Stopped)));
    assert!(&rt; matches!(writer.sync(), Err(WriteError::Stopped)));
    assert!(&rt; writer.device().bytes().len() == 80);
}
