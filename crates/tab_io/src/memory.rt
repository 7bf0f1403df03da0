//! Readers and writers in memory that move few bytes at a time and fail where they are told to: with these a caller
//! tests what it does with a short read, a short write, and a fault in the middle of a stream.
ghost use Rattle.std.specs.Prelude.{◌≡◌, ◌<◌, [], Some};

use std::alloc::Global;
use std::io;
use std::io::{Error, ErrorKind, Read, Write};

/// The one call of a stream that fails: the first `after` calls go well, the next one fails with this kind of error and
/// moves nothing, and those behind it go well again.
#[derive(Clone, Copy, Debug, PartialEq, Eq)]
pub struct Fault {
    pub after: u64,
    pub kind: ErrorKind,
}

/// The calls before the fault, if one is still to come.
#[derive(Clone, Copy, Debug)]
struct Plan {
    fault: Option<Fault>,
}

impl Plan {
    // Passes one call, or fails it.
    fn pass(&mut self) -> io::Result<()> {
        match self.fault {
            None => Ok(()),
            Some(Fault { after: 0, kind }) => {
                self.fault = None;
                Err(Error::from(kind))
            }
            Some(Fault { after, kind }) => {
                let after = after - 1;
                self.fault = Some(Fault { after, kind });
                Ok(())
            }
        }
    }
}

/// A reader over bytes in memory that gives at most a piece of them a read.
#[derive(Clone, Copy, Debug)]
pub struct PieceReader<'a> {
    rest: &'a [u8],
    piece: usize,
    plan: Plan,
    ghost some: { 0 < piece },
}

impl<'a> PieceReader<'a> {
    /// Gives the bytes in pieces of this length, or one by one if it is 0.
    pub fn new(bytes: &'a [u8], piece: usize) -> PieceReader<'a>
        ensures { ⟦<PieceReader<'a> as Read>⟧.remaining result ≡ Some bytes.now }
    {
        PieceReader {
            rest: bytes,
            piece: piece.max(1),
            plan: Plan { fault: None },
        }
    }

    /// This reader, which fails at one read.
    pub fn failing(self, fault: Fault) -> PieceReader<'a>
        ensures { ⟦<PieceReader<'a> as Read>⟧.remaining result ≡ ⟦<PieceReader<'a> as Read>⟧.remaining self.entry }
    {
        PieceReader {
            rest: self.rest,
            piece: self.piece,
            plan: Plan { fault: Some(fault) },
        }
    }
}

impl Read for PieceReader<'_> {
    ghost remaining = { λ reader. Some reader.rest.now };

    fn read(&mut self, buf: &mut [u8]) -> io::Result<usize> {
        self.plan.pass()?;
        let count = self.piece.min(buf.len());
        self.rest.read(&mut buf[..count])
    }
}

/// A writer into memory that takes at most a piece of the bytes a write.
#[derive(Drop)]
pub struct PieceWriter {
    bytes: Vec<u8>,
    piece: usize,
    plan: Plan,
}

impl PieceWriter {
    /// Takes pieces of this length; none at all, as a writer that is full, if it is 0.
    pub fn new(alloc: Global, piece: usize) -> PieceWriter
        ensures { ⟦<PieceWriter as Write>⟧.contents result ≡ Some [] }
    {
        PieceWriter {
            bytes: Vec::new(alloc),
            piece,
            plan: Plan { fault: None },
        }
    }

    /// This writer, which fails at one write or flush.
    pub fn failing(self, fault: Fault) -> PieceWriter
        ensures { ⟦<PieceWriter as Write>⟧.contents result ≡ ⟦<PieceWriter as Write>⟧.contents self }
    {
        PieceWriter {
            bytes: self.bytes,
            piece: self.piece,
            plan: Plan { fault: Some(fault) },
        }
    }

    /// What was written.
    pub fn bytes(&self) -> &[u8]
        ensures { ⟦<PieceWriter as Write>⟧.contents self.now ≡ Some result.now }
    {
        &self.bytes
    }
}

impl Write for PieceWriter {
    ghost contents = { λ writer. Some writer.bytes.items };

    fn write(&mut self, buf: &[u8]) -> io::Result<usize> {
        self.plan.pass()?;
        let count = self.piece.min(buf.len());
        self.bytes.extend_from_slice(&buf[..count])?;
        Ok(count)
    }

    fn flush(&mut self) -> io::Result<()> {
        self.plan.pass()
    }
}
