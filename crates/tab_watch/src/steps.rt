//! A reader that hands one line at a time on.
ghost use Rattle.std.specs.Prelude.{◌≤◌, length};

use crate::course::Course;
use std::alloc::Global;
use std::io;
use std::io::{Error, ErrorKind, Read};
use tab_io::{BLOCK_LENGTH, length_before};

/// A reader that hands the bytes of another one on, a line at a time at most, and ends at the line at which the run stops. Where nothing is
/// asked of the run it hands on all that is read.
#[derive(Drop)]
pub struct Steps<'a, R> {
    course: &'a Course,
    inner: R,
    block: Vec<u8>,
    given: usize,
    begun: bool,
}

impl<'a, R: Read> Steps<'a, R> {
    /// Reads from this one.
    pub fn new(alloc: Global, course: &'a Course, inner: R) -> Steps<'a, R> {
        Steps {
            course,
            inner,
            block: Vec::new(alloc),
            given: 0,
            begun: false,
        }
    }

    // Reads the next bytes. Whether there are some.
    fn fill(&mut self) -> io::Result<bool> {
        if self.block.resize(BLOCK_LENGTH, 0).is_err() {
            return Err(Error::from(ErrorKind::OutOfMemory));
        }
        self.given = 0;
        let read = self.inner.read(self.block.as_mut_slice());
        let count = match read {
            Ok(count) => count,
            Err(_) => 0,
        };
        self.block.truncate(count);
        read?;
        Ok(count > 0)
    }

    // Gives what is here of a line, as far as it fits.
    fn give(&mut self, buf: &mut [u8]) -> usize
        ensures { result ≤ length buf.new }
    {
        if !self.begun {
            self.course.step();
        }
        let count = copy_line(self.block.as_slice(), self.given, buf);
        self.given = self.given.saturating_add(count);
        self.begun = !ends_line(self.block.as_slice(), self.given);
        self.course.set_more(self.given < self.block.len());
        count
    }
}

impl<R: Read> Read for Steps<'_, R> {
    fn read(&mut self, buf: &mut [u8]) -> io::Result<usize> {
        if !self.course.watch().is_on() {
            return self.inner.read(buf);
        }
        if buf.is_empty() || self.course.has_stopped() {
            return Ok(0);
        }
        if self.given >= self.block.len() && !self.fill()? {
            return Ok(0);
        }
        Ok(self.give(buf))
    }
}

// Copies what is left of a line behind what was given, as far as it fits.
fn copy_line(block: &[u8], given: usize, buf: &mut [u8]) -> usize
    ensures { result ≤ length buf.new }
{
    let rest = block.get(given..).unwrap_or(b"");
    let end = length_before(b'\n', rest);
    let count = rest.len().min(end.saturating_add(1)).min(buf.len());
    buf[..count].copy_from_slice(&rest[..count]);
    count
}

// Whether a line ends where this many bytes are given.
fn ends_line(block: &[u8], given: usize) -> bool {
    match block.split_at_checked(given) {
        Some((front, _)) => front.ends_with(b"\n"),
        None => false,
    }
}
