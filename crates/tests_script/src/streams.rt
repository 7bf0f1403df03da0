//! What a fault in the middle of a stream leaves, and what is told of it.
use crate::running::{expect_written, output};
use std::alloc::Global;
use std::io::{ErrorKind, Read};
use std::process::Abort;
use tab_io::memory::{Fault, PieceReader, PieceWriter};
use tab_io::{BlockReader, BlockWriter, Input, Output, ReadFault, WriteFault};

// All that the input gives, of which at most a few fronts come; a fault shows as `!`.
fn gathered<R: Read + Drop>(rt: &impl Abort, alloc: Global, reader: R) -> Vec<u8> {
    let mut input = BlockReader::new(alloc, reader).expect(rt, "memory");
    let mut bytes = Vec::new(alloc);
    for _ in 0..40 {
        let front = input.front();
        bytes.extend_from_slice(front).expect(rt, "memory");
        let count = front.len();
        input.consume(count);
        assert!(rt; input.front().is_empty());
        match input.fill() {
            Ok(true) => {}
            Ok(false) => return bytes,
            Err(ReadFault) => bytes.push(b'!').expect(rt, "memory"),
        }
    }
    panic!(rt; "the input doesn't end")
}

// The reader gives this.
fn expect_gathered<R: Read + Drop>(rt: &impl Abort, alloc: Global, reader: R, want: &[u8]) {
    let bytes = gathered(rt, alloc, reader);
    assert!(rt; bytes.as_slice() == want)
}

// The reader, which fails so, gives this.
fn expect_fault(rt: &impl Abort, alloc: Global, fault: Fault, want: &[u8]) {
    let reader = PieceReader::new(b"abcdef", 2).failing(fault);
    expect_gathered(rt, alloc, reader, want)
}

#[test]
fn reads_on_after_a_fault(rt: HostRuntime) {
    let kind = ErrorKind::Other;
    expect_fault(&rt, rt.alloc(), Fault { after: 0, kind }, b"!abcdef");
    expect_fault(&rt, rt.alloc(), Fault { after: 2, kind }, b"abcd!ef");
    let kind = ErrorKind::ConnectionReset;
    expect_fault(&rt, rt.alloc(), Fault { after: 3, kind }, b"abcdef!");
    let kind = ErrorKind::Interrupted;
    expect_fault(&rt, rt.alloc(), Fault { after: 2, kind }, b"abcdef")
}

fn put(rt: &impl Abort, output: &mut BlockWriter<PieceWriter>, text: &[u8]) {
    output.put(text).expect(rt, "written")
}

fn flush(rt: &impl Abort, output: &mut BlockWriter<PieceWriter>) {
    output.flush().expect(rt, "written")
}

// A writer that fails so has this behind a first flush, which tells whether all was written, and all behind a second one.
fn expect_rest(rt: &impl Abort, alloc: Global, fault: Fault, is_flushed: bool, first: &[u8]) {
    let mut output = output(rt, alloc, PieceWriter::new(alloc, 2).failing(fault));
    put(rt, &mut output, b"abcdef");
    assert!(rt; output.flush().is_ok() == is_flushed);
    expect_written(rt, &output, first);
    put(rt, &mut output, b"gh");
    flush(rt, &mut output);
    expect_written(rt, &output, b"abcdefgh")
}

#[test]
fn writes_on_after_a_fault(rt: HostRuntime) {
    let kind = ErrorKind::Other;
    expect_rest(&rt, rt.alloc(), Fault { after: 0, kind }, false, b"");
    expect_rest(&rt, rt.alloc(), Fault { after: 3, kind }, false, b"abcdef");
    let kind = ErrorKind::BrokenPipe;
    expect_rest(&rt, rt.alloc(), Fault { after: 2, kind }, false, b"abcd");
    let kind = ErrorKind::Interrupted;
    expect_rest(&rt, rt.alloc(), Fault { after: 2, kind }, true, b"abcdef");
    expect_rest(&rt, rt.alloc(), Fault { after: 3, kind }, true, b"abcdef")
}

#[test]
fn fails_at_a_full_writer(rt: HostRuntime) {
    let mut output = output(&rt, rt.alloc(), PieceWriter::new(rt.alloc(), 0));
    flush(&rt, &mut output);
    put(&rt, &mut output, b"a");
    assert!(rt; output.flush() == Err(WriteFault));
    assert!(rt; output.flush() == Err(WriteFault));
    expect_written(&rt, &output, b"")
}

#[test]
fn tells_faults(rt: HostRuntime) {
    assert!(rt;
        format!(in rt.alloc(); "{ReadFault}, {WriteFault}")
            .expect(&rt, "memory")
            .as_str()
            == "the input can't be read, the output can't be written"
    );
}
