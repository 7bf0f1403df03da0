//! Connections over a new book, cut anywhere, and where reading or writing fails.
ghost use Rattle.std.specs.Prelude.{◌≡◌, ◌^◌, ◌≤◌};

use crate::books::shared_over;
use crate::talks::{TALKS, asked, is_beginning, told};
use std::alloc::Global;
use std::io::ErrorKind;
use std::marker::Brand;
use std::process::Abort;
use std::sync::Wait;
use std::sync::ledger::{Blank, Ledger};
use std::thread::Threads;
use tab_book::{Receipt, Seat, settle};
use tab_core::Core;
use tab_io::memory::{Fault, PieceReader, PieceWriter};
use tab_io::{BlockReader, BlockWriter};
use tab_serve::{ListedMoments, ServeFault};
use tab_work::{Gate, OpenGate, Shared, serve_shared};

// How the connection of this reader ends on this seat, and what stands in the writer then. Each event has the moment 0.
pub fn served_by<L: Ledger, R: Threads + Wait + Abort + Sync, G: Gate>(
    rt: &R,
    alloc: Global,
    shared: &Shared<L>,
    seat: &mut Seat<L>,
    receipts: &mut Vec<Receipt<L>>,
    gate: &G,
    reader: PieceReader<'_>,
    writer: PieceWriter,
) -> (Result<(), ServeFault>, Vec<u8>) {
    let mut input = BlockReader::new(alloc, reader).expect(rt, "memory");
    let mut output = BlockWriter::new(alloc, writer).expect(rt, "memory");
    let mut moments = ListedMoments::new(Vec::new(alloc));
    let ended = serve_shared(
        rt,
        alloc,
        &mut input,
        &mut output,
        &mut moments,
        shared,
        seat,
        receipts,
        gate,
    );
    let bytes = Vec::from_slice(alloc, output.get_ref().bytes()).expect(rt, "memory");
    (ended, bytes)
}

// How it ends on a seat of a new book. The receipts settle in it.
fn served_at<L: Ledger, R: Threads + Wait + Abort + Sync>(
    rt: &R,
    alloc: Global,
    core: Core,
    blank: Blank,
    reader: PieceReader<'_>,
    writer: PieceWriter,
) -> (Result<(), ServeFault>, Vec<u8>)
    requires name { blank.name ≡ L.name }
    requires parts { blank.parts ≡ L.parts }
    requires enough { 2 ^ 32 ≤ blank.parts }
{
    let shared = shared_over::<L, R>(rt, alloc, core, blank);
    let mut seat = shared.join(rt).expect(rt, "a seat");
    let mut receipts = Vec::new(alloc);
    let answer = served_by(
        rt,
        alloc,
        &shared,
        &mut seat,
        &mut receipts,
        &OpenGate,
        reader,
        writer,
    );
    assert!(rt; settles(rt, alloc, shared, seat, &receipts));
    answer
}

// Whether all receipts settle in the book, where this is its one seat.
fn settles<L: Ledger, R: Wait + Abort>(
    rt: &R,
    alloc: Global,
    shared: Shared<L>,
    seat: Seat<L>,
    receipts: &[Receipt<L>],
) -> bool {
    let mut seats = Vec::new(alloc);
    seats.push(seat).expect(rt, "memory");
    match shared.end(seats) {
        Ok(book) => settle(&book, receipts),
        Err(_) => false,
    }
}

// What the connection of this reader is told over a new core, which ends so.
fn served<R: Threads + Wait + Abort + Sync>(
    rt: &R,
    alloc: Global,
    reader: PieceReader<'_>,
    writer: PieceWriter,
    want: Result<(), ServeFault>,
) -> Vec<u8> {
    let core = Core::new(alloc).expect(rt, "memory");
    let (ended, bytes) = served_at::<Brand, _>(
        rt,
        alloc,
        core,
        Blank::new(1 << 32),
        reader,
        writer,
    );
    assert!(rt; ended == want);
    bytes
}

// What the talk is told, read and written in pieces of this length.
fn expect_told<R: Threads + Wait + Abort + Sync>(rt: &R, alloc: Global, talk: u32, piece: usize) {
    let reader = PieceReader::new(asked(talk), piece);
    let bytes = served(rt, alloc, reader, PieceWriter::new(alloc, piece), Ok(()));
    assert!(rt; bytes.as_slice() == told(talk));
}

// Where the first read ends makes no difference.
#[test]
fn reads_to_any_place(rt: HostRuntime) {
    for talk in 0..TALKS {
        for piece in 1..asked(talk).len() {
            expect_told(&rt, rt.alloc(), talk, piece);
        }
    }
}

// The talk, cut there, is told of the frames before, and that a frame is cut, if one is.
fn expect_told_until<R: Threads + Wait + Abort + Sync>(
    rt: &R,
    alloc: Global,
    talk: u32,
    at: usize,
) {
    let front = asked(talk).get(..at).expect(rt, "a beginning");
    let reader = PieceReader::new(front, 64);
    let bytes = served(rt, alloc, reader, PieceWriter::new(alloc, 64), Ok(()));
    assert!(rt; is_beginning(told(talk), bytes.as_slice()));
}

// An input may end anywhere.
#[test]
fn ends_at_any_place(rt: HostRuntime) {
    for talk in 0..TALKS {
        for at in 0..asked(talk).len() {
            expect_told_until(&rt, rt.alloc(), talk, at);
        }
    }
}

// The first talk ends by this fault, and a beginning of its replies is written.
fn expect_fault<R: Threads + Wait + Abort + Sync>(
    rt: &R,
    alloc: Global,
    reader: PieceReader<'_>,
    writer: PieceWriter,
    fault: ServeFault,
) {
    let bytes = served(rt, alloc, reader, writer, Err(fault));
    assert!(rt; told(0).starts_with(bytes.as_slice()));
}

// Where a read fails, what was answered before is written.
#[test]
fn stops_where_the_reader_fails(rt: HostRuntime) {
    let kind = ErrorKind::Other;
    for after in 0..12 {
        let reader = PieceReader::new(asked(0), 9).failing(Fault { after, kind });
        let writer = PieceWriter::new(rt.alloc(), 64);
        expect_fault(&rt, rt.alloc(), reader, writer, ServeFault::Read);
    }
}

// Where a write fails, a beginning of the replies is written.
#[test]
fn stops_where_the_writer_fails(rt: HostRuntime) {
    let kind = ErrorKind::Other;
    for after in 0..8 {
        let reader = PieceReader::new(asked(0), 64);
        let writer = PieceWriter::new(rt.alloc(), 9).failing(Fault { after, kind });
        expect_fault(&rt, rt.alloc(), reader, writer, ServeFault::Write);
    }
}

// What the second talk is told by a book whose core was told the first: its table and its cell are there, and one cell was asked for.
const TOLD_ON: &[u8] = b"\0\0\0\x01\x80\
\0\0\0\x07\x81\x0a\0\0\0\x01t\
\0\0\0\x05\x84\0\0\0\0\
\0\0\0\x21\x82\0\0\0\x01r\0\0\0\x01f\0\0\0\x01q\0\0\0\0\0\0\0\0\0\0\0\x05\0\0\0\x01v\
\0\0\0\x02\x83\0";

// What it is told where only the table is there.
const TOLD_AGAIN: &[u8] = b"\0\0\0\x01\x80\
\0\0\0\x07\x81\x0a\0\0\0\x01t\
\0\0\0\x05\x84\0\0\0\0\
\0\0\0\x02\x83\x01";

// What it is told by a book that was asked the frames that are whole among so many bytes of the first talk.
fn told_behind(read: u64) -> &'static [u8] {
    match read {
        0..28 => told(1),
        28..76 => TOLD_AGAIN,
        _ => TOLD_ON,
    }
}

// The connection of this reader ends by this fault; what the second talk is told then over the same book, by the same seat. All receipts settle.
fn told_on<L: Ledger, R: Threads + Wait + Sync + Abort>(
    rt: &R,
    alloc: Global,
    core: Core,
    blank: Blank,
    reader: PieceReader<'_>,
    writer: PieceWriter,
    fault: ServeFault,
) -> Vec<u8>
    requires name { blank.name ≡ L.name }
    requires parts { blank.parts ≡ L.parts }
    requires enough { 2 ^ 32 ≤ blank.parts }
{
    let shared = shared_over::<L, R>(rt, alloc, core, blank);
    let mut seat = shared.join(rt).expect(rt, "a seat");
    let mut all = Vec::new(alloc);
    let (ended, bytes) = served_by(
        rt, alloc, &shared, &mut seat, &mut all, &OpenGate, reader, writer,
    );
    assert!(rt; ended == Err(fault));
    assert!(rt; told(0).starts_with(bytes.as_slice()));
    let (reader, writer) = (PieceReader::new(asked(1), 64), PieceWriter::new(alloc, 64));
    let (ended, bytes) = served_by(
        rt, alloc, &shared, &mut seat, &mut all, &OpenGate, reader, writer,
    );
    assert!(rt; ended == Ok(()));
    assert!(rt; settles(rt, alloc, shared, seat, &all));
    bytes
}

// The first talk ends by this fault over a new book; the second one is told this then.
fn expect_told_on<R: Threads + Wait + Sync + Abort>(
    rt: &R,
    alloc: Global,
    reader: PieceReader<'_>,
    writer: PieceWriter,
    fault: ServeFault,
    want: &[u8],
) {
    let core = Core::new(alloc).expect(rt, "memory");
    let blank = Blank::new(1 << 32);
    let bytes = told_on::<Brand, _>(rt, alloc, core, blank, reader, writer, fault);
    assert!(rt; bytes.as_slice() == want);
}

// Behind a reader that fails, the next connection finds what was asked by whole frames, and nothing else.
#[test]
fn goes_on_behind_a_readers_fault(rt: HostRuntime) {
    let kind = ErrorKind::Other;
    for after in 0..12 {
        let reader = PieceReader::new(asked(0), 9).failing(Fault { after, kind });
        let writer = PieceWriter::new(rt.alloc(), 64);
        let want = told_behind(9 * after);
        expect_told_on(&rt, rt.alloc(), reader, writer, ServeFault::Read, want);
    }
}

// How many bytes of the first talk were read, 64 at once, where the call of the writer behind so many fails. The first one flushes nothing, before
// the first read; three write and flush what the two frames are told that this gave whole; then all was read.
fn read_before(calls: u64) -> u64 {
    match calls {
        0 => 0,
        1..4 => 64,
        _ => 109,
    }
}

// Behind a writer that fails, the next connection finds what was asked by all frames that were read whole.
#[test]
fn goes_on_behind_a_writers_fault(rt: HostRuntime) {
    let kind = ErrorKind::Other;
    for after in 0..8 {
        let reader = PieceReader::new(asked(0), 64);
        let writer = PieceWriter::new(rt.alloc(), 9).failing(Fault { after, kind });
        let want = told_behind(read_before(after));
        expect_told_on(&rt, rt.alloc(), reader, writer, ServeFault::Write, want);
    }
}
