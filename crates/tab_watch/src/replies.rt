//! A writer that looks at each reply.
use crate::course::{Course, LineCounts};
use crate::kinds::{ReplyKind, kind_of};
use std::alloc::Global;
use std::io;
use std::io::Write;
use tab_io::{BLOCK_LENGTH, length_before};

// The reply of which a quiet run says nothing.
const DONE: &[u8] = b"ok\n";

// How much of a line is kept: more than a refusal has.
const KEPT: usize = 8192;

/// A writer that hands the replies of a run on to another one, counts its refusals and faults, and stops a strict run at the first. Of a quiet
/// run it hands those replies on that aren't `ok` alone. Where nothing is asked of the run it hands on all that is written.
///
/// It looks at each reply at once, and hands them on by blocks, or once it is flushed and the run has to read anew: so a flush behind each
/// line costs nothing. Where memory lacks for a block they are handed on at once.
///
/// It keeps the line that is being written, 8,192 bytes at most; where memory lacks for it, what that line says isn't known.
#[derive(Drop)]
pub struct Replies<'a, W> {
    course: &'a Course,
    inner: W,
    gathered: Vec<u8>,
    answered: u64,
    held: usize,
    line: Vec<u8>,
    lost: bool,
    tally: LineCounts,
}

impl<'a, W: Write> Replies<'a, W> {
    /// Writes to this one.
    pub fn new(alloc: Global, course: &'a Course, inner: W) -> Replies<'a, W> {
        Replies {
            course,
            inner,
            gathered: Vec::new(alloc),
            answered: 0,
            held: 0,
            line: Vec::new(alloc),
            lost: false,
            tally: LineCounts {
                done: 0,
                refused: 0,
                faults: 0,
            },
        }
    }

    /// Ends the last reply, and tells how many there were of each kind. Of a run that isn't quiet those that are `ok` aren't counted.
    pub fn finish(&mut self) -> LineCounts {
        self.settle();
        self.tally
    }

    /// The refusal or the fault at which the run has stopped, and nothing where it hasn't, or has for another reason.
    pub fn stop(&self) -> &[u8] {
        self.line.as_slice()
    }

    // The reply before has ended: one that is held was `ok`.
    fn settle(&mut self) {
        if self.held == DONE.len() {
            self.tally.done = self.tally.done.saturating_add(1);
            self.held = 0;
        }
    }

    // Whether the bytes go on with `ok` at the beginning of a reply.
    fn is_held(&self, bytes: &[u8], begins: bool) -> bool {
        let rest = DONE.get(self.held..).unwrap_or(b"");
        self.course.watch().quiet && (begins || self.held > 0) && rest.starts_with(bytes)
    }

    // Hands on what was held and is no reply `ok`.
    fn release(&mut self) -> io::Result<()> {
        let held = DONE.get(..self.held).unwrap_or(DONE);
        self.held = 0;
        self.gather(held)?;
        self.look(held);
        Ok(())
    }

    // Gathers bytes that are to be handed on.
    fn gather(&mut self, bytes: &[u8]) -> io::Result<()> {
        if self.gathered.len().saturating_add(bytes.len()) > BLOCK_LENGTH {
            self.hand_on()?;
        }
        if bytes.len() >= BLOCK_LENGTH || self.gathered.extend_from_slice(bytes).is_err() {
            self.hand_on()?;
            return self.inner.write_all(bytes);
        }
        Ok(())
    }

    // Hands on what is gathered.
    fn hand_on(&mut self) -> io::Result<()> {
        let outcome = self.inner.write_all(self.gathered.as_slice());
        self.gathered.clear();
        outcome
    }

    // Looks at bytes that were handed on.
    fn look(&mut self, bytes: &[u8]) {
        let mut rest = bytes;
        for _ in 0..u64::MAX {
            if self.course.has_stopped() {
                return;
            }
            let at = length_before(b'\n', rest);
            self.keep(rest.split_at(at).0);
            if at == rest.len() {
                return;
            }
            self.end();
            rest = rest.split_at(at + 1).1;
        }
    }

    // Keeps a part of a line.
    fn keep(&mut self, part: &[u8]) {
        let long = self.line.len().saturating_add(part.len()) > KEPT;
        if long || self.lost || self.line.extend_from_slice(part).is_err() {
            self.lost = true;
        }
    }

    // A line has ended. A strict run stops where it is a refusal or a fault, and keeps it.
    fn end(&mut self) {
        let kind = if self.lost {
            ReplyKind::Other
        } else {
            kind_of(self.line.as_slice())
        };
        match kind {
            ReplyKind::Refusal => self.tally.refused = self.tally.refused.saturating_add(1),
            ReplyKind::Fault => self.tally.faults = self.tally.faults.saturating_add(1),
            ReplyKind::Cell | ReplyKind::Other => {}
        }
        if self.course.watch().strict && (kind == ReplyKind::Refusal || kind == ReplyKind::Fault) {
            self.course.stop();
        } else {
            self.line.clear();
            self.lost = false;
        }
    }
}

impl<W: Write> Write for Replies<'_, W> {
    fn write(&mut self, buf: &[u8]) -> io::Result<usize> {
        if !self.course.watch().is_on() {
            return self.inner.write(buf);
        }
        let line = self.course.line();
        let begins = line != self.answered;
        if begins {
            self.settle();
            self.answered = line;
        }
        if self.is_held(buf, begins) {
            self.held = self.held.saturating_add(buf.len());
            return Ok(buf.len());
        }
        if self.held > 0 {
            self.release()?;
        }
        self.gather(buf)?;
        self.look(buf);
        Ok(buf.len())
    }

    fn flush(&mut self) -> io::Result<()> {
        if self.course.has_more() {
            return Ok(());
        }
        self.hand_on()?;
        self.inner.flush()
    }
}
