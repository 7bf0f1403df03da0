//! Connections over a new core, served whole, in pieces, cut anywhere, and where reading or writing fails.
use crate::talks::{TALKS, asked, is_beginning, told};
use std::alloc::Global;
use std::io::ErrorKind;
use std::process::Abort;
use tab_core::Core;
use tab_io::memory::{Fault, PieceReader, PieceWriter};
use tab_io::{BlockReader, BlockWriter};
use tab_serve::{ListedMoments, ServeFault, serve};

// The connection is served by this core. Each event has the moment 0.
fn serve_all(
    alloc: Global,
    core: &mut Core,
    input: &mut BlockReader<PieceReader<'_>>,
    output: &mut BlockWriter<PieceWriter>,
) -> Result<(), ServeFault> {
    let mut moments = ListedMoments::new(Vec::new(alloc));
    serve(alloc, input, output, &mut moments, core)
}

// The connection of this reader ends so with this core; what stands in the writer then.
fn served_by(
    rt: &impl Abort,
    alloc: Global,
    core: &mut Core,
    reader: PieceReader<'_>,
    writer: PieceWriter,
    want: Result<(), ServeFault>,
) -> Vec<u8> {
    let mut input = BlockReader::new(alloc, reader).expect(rt, "memory");
    let mut output = BlockWriter::new(alloc, writer).expect(rt, "memory");
    assert!(rt; serve_all(alloc, core, &mut input, &mut output) == want);
    Vec::from_slice(alloc, output.get_ref().bytes()).expect(rt, "memory")
}

// The connection ends so with a new core.
fn served(
    rt: &impl Abort,
    alloc: Global,
    reader: PieceReader<'_>,
    writer: PieceWriter,
    want: Result<(), ServeFault>,
) -> Vec<u8> {
    let mut core = Core::new(alloc).expect(rt, "memory");
    served_by(rt, alloc, &mut core, reader, writer, want)
}

// What the talk is told, read and written in pieces of these lengths.
fn expect_told(rt: &impl Abort, alloc: Global, talk: u32, read: usize, written: usize) {
    let reader = PieceReader::new(asked(talk), read);
    let writer = PieceWriter::new(alloc, written);
    let bytes = served(rt, alloc, reader, writer, Ok(()));
    assert!(rt; bytes.as_slice() == told(talk));
}

// Replies are the same however the input is cut into reads, and the output into writes.
#[test]
fn tells_what_is_asked(rt: HostRuntime) {
    for talk in 0..TALKS {
        for piece in [1, 7, 1000] {
            expect_told(&rt, rt.alloc(), talk, piece, piece);
        }
    }
}

// Where the first read ends makes no difference.
#[test]
fn reads_to_any_place(rt: HostRuntime) {
    for talk in 0..TALKS {
        for piece in 1..asked(talk).len() {
            expect_told(&rt, rt.alloc(), talk, piece, 64);
        }
    }
}

// The talk, cut there, is told of the frames before, and that a frame is cut, if one is.
fn expect_told_until(rt: &impl Abort, alloc: Global, talk: u32, at: usize) {
    let front = asked(talk).get(..at).expect(rt, "a beginning");
    let reader = PieceReader::new(front, 64);
    let bytes = served(rt, alloc, reader, PieceWriter::new(alloc, 64), Ok(()));
    assert!(rt; is_beginning(told(talk), bytes.as_slice()));
}

// An input may end anywhere.
#[test]
fn ends_at_any_place(rt: HostRuntime) {
    for talk in 0..TALKS {
        for at in 0..asked(talk).len() {
            expect_told_until(&rt, rt.alloc(), talk, at);
        }
    }
}

// What stands in the writer where the first talk ends by this fault: a beginning of its replies.
fn expect_fault(
    rt: &impl Abort,
    alloc: Global,
    reader: PieceReader<'_>,
    writer: PieceWriter,
    fault: ServeFault,
) -> Vec<u8> {
    let bytes = served(rt, alloc, reader, writer, Err(fault));
    assert!(rt; told(0).starts_with(bytes.as_slice()));
    bytes
}

// How many bytes the first talk is told of the frames that are whole among so many bytes of it.
fn told_of(read: u64) -> usize {
    match read {
        0..13 => 0,
        13..28 => 5,
        28..76 => 10,
        76..96 => 15,
        96..109 => 24,
        _ => 67,
    }
}

// Where a read fails, all frames that were read whole were answered, and their replies are written.
#[test]
fn stops_where_the_reader_fails(rt: HostRuntime) {
    let kind = ErrorKind::Other;
    for after in 0..12 {
        let reader = PieceReader::new(asked(0), 9).failing(Fault { after, kind });
        let writer = PieceWriter::new(rt.alloc(), 64);
        let bytes = expect_fault(&rt, rt.alloc(), reader, writer, ServeFault::Read);
        assert!(rt; bytes.len() == told_of(9 * after));
    }
}

// Where a write fails, a beginning of the replies is written.
#[test]
fn stops_where_the_writer_fails(rt: HostRuntime) {
    let kind = ErrorKind::Other;
    for after in 0..8 {
        let reader = PieceReader::new(asked(0), 64);
        let writer = PieceWriter::new(rt.alloc(), 9).failing(Fault { after, kind });
        let _ = expect_fault(&rt, rt.alloc(), reader, writer, ServeFault::Write);
    }
}

// What the second talk is told by a core that was told it before: its table is there, and sessions are numbered from 0.
const TOLD_AGAIN: &[u8] = b"\0\0\0\x01\x80\
\0\0\0\x07\x81\x0a\0\0\0\x01t\
\0\0\0\x05\x84\0\0\0\0\
\0\0\0\x02\x83\x01";

// The second talk is told this by this core.
fn expect_told_by(rt: &impl Abort, alloc: Global, core: &mut Core, want: &[u8]) {
    let reader = PieceReader::new(asked(1), 64);
    let bytes = served_by(rt, alloc, core, reader, PieceWriter::new(alloc, 64), Ok(()));
    assert!(rt; bytes.as_slice() == want);
}

// The next connection finds the table that the one before made, and numbers its own sessions from 0.
#[test]
fn leaves_what_it_did(rt: HostRuntime) {
    let mut core = Core::new(rt.alloc()).expect(&rt, "memory");
    expect_told_by(&rt, rt.alloc(), &mut core, told(1));
    expect_told_by(&rt, rt.alloc(), &mut core, TOLD_AGAIN)
}

// What it is told by a core that was told the first talk: its cell is there too, and one was asked for.
const TOLD_ON: &[u8] = b"\0\0\0\x01\x80\
\0\0\0\x07\x81\x0a\0\0\0\x01t\
\0\0\0\x05\x84\0\0\0\0\
\0\0\0\x21\x82\0\0\0\x01r\0\0\0\x01f\0\0\0\x01q\0\0\0\0\0\0\0\0\0\0\0\x05\0\0\0\x01v\
\0\0\0\x02\x83\0";

// What it is told by a core that was asked the frames that are whole among so many bytes of the first talk.
fn told_behind(read: u64) -> &'static [u8] {
    match read {
        0..28 => told(1),
        28..76 => TOLD_AGAIN,
        _ => TOLD_ON,
    }
}

// The first talk ends by this fault; then the second one is told this by the same core.
fn expect_told_behind(
    rt: &impl Abort,
    alloc: Global,
    reader: PieceReader<'_>,
    writer: PieceWriter,
    fault: ServeFault,
    want: &[u8],
) {
    let mut core = Core::new(alloc).expect(rt, "memory");
    let bytes = served_by(rt, alloc, &mut core, reader, writer, Err(fault));
    assert!(rt; told(0).starts_with(bytes.as_slice()));
    expect_told_by(rt, alloc, &mut core, want);
}

// Behind a reader that fails, the next connection finds what was asked by whole frames, and nothing else.
#[test]
fn goes_on_behind_a_readers_fault(rt: HostRuntime) {
    let kind = ErrorKind::Other;
    for after in 0..12 {
        let reader = PieceReader::new(asked(0), 9).failing(Fault { after, kind });
        let writer = PieceWriter::new(rt.alloc(), 64);
        let want = told_behind(9 * after);
        expect_told_behind(&rt, rt.alloc(), reader, writer, ServeFault::Read, want);
    }
}

// How many bytes of the first talk were read, 64 at once, where the call of the writer behind so many fails. The first one flushes nothing, before
// the first read; three write and flush what the two frames are told that this gave whole; then all was read.
fn read_before(calls: u64) -> u64 {
    match calls {
        0 => 0,
        1..4 => 64,
        _ => 109,
    }
}

// Behind a writer that fails, the next connection finds what was asked by all frames that were read whole.
#[test]
fn goes_on_behind_a_writers_fault(rt: HostRuntime) {
    let kind = ErrorKind::Other;
    for after in 0..8 {
        let reader = PieceReader::new(asked(0), 64);
        let writer = PieceWriter::new(rt.alloc(), 9).failing(Fault { after, kind });
        let want = told_behind(read_before(after));
        expect_told_behind(&rt, rt.alloc(), reader, writer, ServeFault::Write, want);
    }
}
