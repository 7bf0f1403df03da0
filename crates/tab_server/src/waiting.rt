//! What tells a connection on which nothing came or went for too long from one that failed.

use std::cell::Cell;
use std::io;
use std::io::{ErrorKind, Read, Write};

/// A reader or a writer of a connection, which sees whether a call failed since it had waited for as long as the connection lets it. The
/// system says so by `WouldBlock`, and no other fault by that. No clock is asked: one may have it that the time isn't quite over.
#[derive(Drop)]
pub(crate) struct Waiting<'a, S> {
    stream: S,
    is_late: &'a Cell<bool>,
}

impl<'a, S> Waiting<'a, S> {
    /// Over this one. A call that has waited for so long sets the cell.
    pub(crate) fn new(stream: S, is_late: &'a Cell<bool>) -> Waiting<'a, S> {
        Waiting { stream, is_late }
    }

    // Sees how a call ended.
    fn see(&self, outcome: &io::Result<usize>) {
        if let Err(error) = outcome
            && error.kind() == ErrorKind::WouldBlock
        {
            self.is_late.set(true);
        }
    }
}

impl<R: Read> Read for Waiting<'_, R> {
    fn read(&mut self, buf: &mut [u8]) -> io::Result<usize> {
        let outcome = self.stream.read(buf);
        self.see(&outcome);
        outcome
    }
}

impl<W: Write> Write for Waiting<'_, W> {
    fn write(&mut self, buf: &[u8]) -> io::Result<usize> {
        let outcome = self.stream.write(buf);
        self.see(&outcome);
        outcome
    }

    fn flush(&mut self) -> io::Result<()> {
        self.stream.flush()
    }
}
