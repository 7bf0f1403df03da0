//! A reader or a writer of std with the count of its calls that failed.
ghost use Rattle.std.specs.Prelude.{◌≡◌, ◌+◌, ◌^◌, ◌<◌, ◌≤◌, length, take, IfOk, OnErr, MatchResult};
ghost use Rattle.std.specs.Io.{ReadsAtMost, WritesAtMost};
ghost use Rattle.std.specs.Io.KnownBytes.{Appends, Keeps, ReadConsumes, WriteAppends};
ghost use Rattle.tab_io.specs.Streams.{SpendsOrFails, FailsByFault};

use crate::{ReadFault, WriteFault};
use std::io::{ErrorKind, Read, Write};

/// Makes at most 2^64 - 1 calls, so that the count of those that failed fits a `u64`.
///
/// A call that was interrupted is made again: it costs one of the budget, and is no fault.
#[derive(Drop)]
pub(crate) struct Counted<S> {
    pub(crate) inner: S,
    pub(crate) faults: u64,
    pub(crate) budget: u64,
    ghost fits: { faults + budget < 2 ^ 64 },
}

/// Only the first `written` bytes were written.
#[derive(Clone, Copy)]
pub(crate) struct Stopped {
    pub(crate) written: usize,
}

impl<S> Counted<S> {
    pub(crate) fn new(inner: S) -> Counted<S>
        ensures inner { result.inner ≡ inner }
        ensures faults { result.faults ≡ 0 }
        ensures budget { result.budget + 1 ≡ 2 ^ 64 }
    {
        Counted {
            inner,
            faults: 0,
            budget: u64::MAX,
        }
    }
}

impl<R: Read> Counted<R> {
    /// Reads some bytes into `buf`, none only at the end or where `buf` has no room.
    pub(crate) fn read(&mut self, buf: &mut [u8]) -> Result<usize, ReadFault>
        ensures bound { ReadsAtMost result buf.new }
        ensures bytes { ReadConsumes (R.remaining self.old.inner) (R.remaining self.new.inner) result buf.new }
        ensures faults { SpendsOrFails result self.old.faults self.new.faults self.old.budget self.new.budget }
    {
        while self.budget > 0 {
            self.budget -= 1;
            match self.inner.read(buf) {
                Ok(count) => return Ok(count),
                Err(error) if error.kind() == ErrorKind::Interrupted => {}
                Err(_) => {
                    self.faults += 1;
                    return Err(ReadFault);
                }
            }
        }
        Err(ReadFault)
    }
}

impl<W: Write> Counted<W> {
    /// Writes some bytes from the front of `buf`. To take none of some is a fault.
    pub(crate) fn write(&mut self, buf: &[u8]) -> Result<usize, WriteFault>
        ensures bound { WritesAtMost result buf.now }
        ensures some { IfOk result (λ n. 0 < length buf.now → 0 < n) }
        ensures bytes { WriteAppends (W.contents self.old.inner) (W.contents self.new.inner) result buf.now }
        ensures faults { SpendsOrFails result self.old.faults self.new.faults self.old.budget self.new.budget }
    {
        while self.budget > 0 {
            self.budget -= 1;
            match self.inner.write(buf) {
                Ok(count) if count > 0 || buf.is_empty() => return Ok(count),
                Err(error) if error.kind() == ErrorKind::Interrupted => {}
                _ => {
                    self.faults += 1;
                    return Err(WriteFault);
                }
            }
        }
        Err(WriteFault)
    }

    /// Writes all the bytes, or stops behind those that were written.
    pub(crate) fn write_all(&mut self, bytes: &[u8]) -> Result<(), Stopped>
        ensures bytes { MatchResult result (λ _. Appends (W.contents self.old.inner) (W.contents self.new.inner) bytes.now)
            (λ stopped. (stopped.written ≤ length bytes.now) × Appends (W.contents self.old.inner) (W.contents self.new.inner) (take stopped.written bytes.now)) }
        ensures faults { FailsByFault result self.old.faults self.new.faults self.new.budget }
    {
        let mut written = 0;
        while written < bytes.len() {
            match self.write(&bytes[written..]) {
                Ok(count) => written += count,
                Err(_) => return Err(Stopped { written }),
            }
        }
        Ok(())
    }

    /// Tells the writer to pass its bytes on.
    pub(crate) fn flush(&mut self) -> Result<(), WriteFault>
        ensures bytes { Keeps (W.contents self.old.inner) (W.contents self.new.inner) }
        ensures faults { FailsByFault result self.old.faults self.new.faults self.new.budget }
    {
        while self.budget > 0 {
            self.budget -= 1;
            match self.inner.flush() {
                Ok(()) => return Ok(()),
                Err(error) if error.kind() == ErrorKind::Interrupted => {}
                Err(_) => {
                    self.faults += 1;
                    return Err(WriteFault);
                }
            }
        }
        Err(WriteFault)
    }
}
