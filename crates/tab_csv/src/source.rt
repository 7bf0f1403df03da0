//! A text, handed on a line at a time, with the numbers of its lines.
ghost use Rattle.std.specs.Prelude.{◌≡◌, ◌≤◌, ◌<◌, ◌∷◌, [], length, take};
ghost use Rattle.std.specs.Io.{ReadsAtMost};
ghost use Rattle.std.specs.Io.KnownBytes.{Consumes, ReadConsumes};
ghost use Rattle.tab_io.specs.Streams.{Fills};
ghost use Rattle.tab_csv.specs.Parts.{with_feed, left_of};
ghost use Rattle.tab_csv.specs.declared.source.Stage.TheVariants.{Closed, Reading};

use std::io;
use std::io::{Error, ErrorKind, Read};
use tab_io::{Input, length_before};

/// How far a text has been handed on.
#[derive(Clone, Copy, Debug, PartialEq, Eq)]
pub(crate) enum Stage {
    /// Some of it may be left.
    Reading,
    /// All of it, and a line feed behind it.
    Closed,
    /// It was asked for more.
    Ended,
}

/// A reader that hands on a text, of each read a line at most, and a line feed behind the last one. So whoever reads records from it has,
/// behind a record, been given the lines up to the record's last one, and is told of the end only while a quote is open.
#[derive(Drop)]
pub(crate) struct LineSource<I> {
    input: I,
    line: u64,
    // whether the line at hand goes on
    is_begun: bool,
    stage: Stage,
}

impl<I: Input> LineSource<I> {
    /// Of this text, of which nothing has been handed on.
    pub(crate) fn new(input: I) -> LineSource<I>
        ensures { ⟦<LineSource<I> as Read>⟧.remaining result ≡ with_feed (I.remaining input) }
    {
        LineSource {
            input,
            line: 0,
            is_begun: false,
            stage: Stage::Reading,
        }
    }

    /// The number of the line that was handed on last, counted from 1.
    pub(crate) fn line(&self) -> u64 {
        self.line
    }

    /// Whether it was asked for more than there is.
    pub(crate) fn is_ended(&self) -> bool {
        self.stage == Stage::Ended
    }

    // Counts the line of which these bytes are the next ones.
    fn count(&mut self, bytes: &[u8])
        ensures input { self.new.input ≡ self.old.input }
        ensures stage { self.new.stage ≡ self.old.stage }
    {
        if !self.is_begun {
            self.line = self.line.saturating_add(1);
        }
        self.is_begun = !bytes.ends_with(b"\n");
    }

    // Hands on what is here of a line, as far as it fits.
    fn give(&mut self, buf: &mut [u8]) -> usize
        requires here { 0 < length (I.front self.old.input) }
        requires room { 0 < length buf.old }
        ensures some { 0 < result }
        ensures fits { result ≤ length buf.new }
        ensures bytes { Consumes (I.remaining self.old.input) (I.remaining self.new.input) (take result buf.new) }
        ensures stage { self.new.stage ≡ self.old.stage }
    {
        let count = copy_line(self.input.front(), buf);
        self.input.consume(count);
        self.count(&buf[..count]);
        count
    }

    // Hands on the line feed behind the text.
    fn close(&mut self, buf: &mut [u8]) -> usize
        requires { 0 < length buf.old }
        ensures one { result ≡ 1 }
        ensures fits { result ≤ length buf.new }
        ensures byte { take 1 buf.new ≡ 10 ∷ [] }
        ensures stage { self.new.stage ≡ Closed }
    {
        buf[0] = b'\n';
        self.count(b"\n");
        self.stage = Stage::Closed;
        1
    }

    // Whether some of the text is here.
    fn fill(&mut self) -> io::Result<bool>
        ensures bytes { Fills (I.remaining self.old.input) (I.remaining self.new.input) (I.front self.new.input) result }
        ensures stage { self.new.stage ≡ self.old.stage }
    {
        if !self.input.front().is_empty() {
            return Ok(true);
        }
        match self.input.fill() {
            Ok(found) => Ok(found),
            Err(_) => Err(Error::from(ErrorKind::Other)),
        }
    }

    // Hands on what comes next of the text, or the line feed behind it.
    fn next(&mut self, buf: &mut [u8]) -> io::Result<usize>
        requires reading { self.old.stage ≡ Reading }
        requires room { 0 < length buf.old }
        ensures bound { ReadsAtMost result buf.new }
        ensures bytes { ReadConsumes (with_feed (I.remaining self.old.input)) (left_of self.new.stage (I.remaining self.new.input)) result buf.new }
    {
        match self.fill() {
            Ok(true) => Ok(self.give(buf)),
            Ok(false) => Ok(self.close(buf)),
            Err(fault) => Err(fault),
        }
    }
}

// Copies what is here of a line, as far as it fits.
fn copy_line(front: &[u8], buf: &mut [u8]) -> usize
    requires here { 0 < length front.now }
    requires room { 0 < length buf.old }
    ensures some { 0 < result }
    ensures within { result ≤ length front.now }
    ensures fits { result ≤ length buf.new }
    ensures bytes { take result buf.new ≡ take result front.now }
{
    let end = length_before(b'\n', front);
    let count = front.len().min(end.saturating_add(1)).min(buf.len());
    buf[..count].copy_from_slice(&front[..count]);
    count
}

impl<I: Input> Read for LineSource<I> {
    ghost use Rattle.tab_csv.specs.Parts.{left_of};

    ghost remaining = { λ source. left_of source.stage (I.remaining source.input) };

    fn read(&mut self, buf: &mut [u8]) -> io::Result<usize> {
        if buf.is_empty() {
            return Ok(0);
        }
        match self.stage {
            Stage::Reading => self.next(buf),
            Stage::Closed | Stage::Ended => {
                self.stage = Stage::Ended;
                Ok(0)
            }
        }
    }
}
