//! How far a long piece of work has come, on standard error.
use std::cell::Cell;
use std::io;
use std::io::{Read, Write};
use std::time::{Duration, Instant};

// Work that takes less than so many seconds isn't told, nor is each step of it.
const PAUSE: u64 = 1;

const MEGABYTE: u64 = 1_000_000;

/// Tells how far a piece of work has come, once a second, in one line that is written over and over; or nothing at all.
#[derive(Drop)]
pub struct Progress<'a> {
    rt: &'a HostRuntime,
    // when it was told the last time, or when the work began; nothing where nothing is told
    told: Cell<Option<Instant>>,
    // whether a line stands there
    shown: Cell<bool>,
}

impl<'a> Progress<'a> {
    /// Of work that begins now. `asked` says whether anything is told.
    pub fn new(rt: &'a HostRuntime, asked: bool) -> Progress<'a> {
        let begun = if asked { Instant::now(rt).ok() } else { None };
        Progress {
            rt,
            told: Cell::new(begun),
            shown: Cell::new(false),
        }
    }

    /// Takes the line away, if one stands there.
    pub fn end(&self) {
        if self.shown.replace(false) {
            let _ = eprint!(self.rt; "\r\x1b[K");
        }
    }

    // So many bytes are done, of so many, or of an unknown number.
    fn tell(&self, what: &str, done: u64, all: u64) {
        if !self.is_due() {
            return;
        }
        self.told.set(Instant::now(self.rt).ok());
        self.shown.set(true);
        let (done, all) = (done / MEGABYTE, all / MEGABYTE);
        if all == 0 {
            let _ = eprint!(self.rt; "\r\x1b[K{what} {done} MB");
        } else {
            let _ = eprint!(self.rt; "\r\x1b[K{what} {done} of {all} MB");
        }
    }

    // Whether a second has gone by.
    fn is_due(&self) -> bool {
        let Some(told) = self.told.get() else {
            return false;
        };
        match told.elapsed(self.rt) {
            Ok(passed) => passed >= Duration::from_secs(PAUSE),
            Err(_) => false,
        }
    }
}

/// A reader or a writer that tells how much has gone through it.
#[derive(Drop)]
pub struct ProgressStream<'a, 'b, S> {
    stream: S,
    progress: &'a Progress<'b>,
    what: &'a str,
    done: u64,
    all: u64,
}

impl<'a, 'b, S> ProgressStream<'a, 'b, S> {
    /// Over this stream, of so many bytes, or 0 where it isn't known.
    pub fn new(
        stream: S,
        progress: &'a Progress<'b>,
        what: &'a str,
        all: u64,
    ) -> ProgressStream<'a, 'b, S> {
        ProgressStream {
            stream,
            progress,
            what,
            done: 0,
            all,
        }
    }

    // So many bytes went through.
    fn pass(&mut self, count: usize) {
        self.done = self.done.saturating_add(count as u64);
        self.progress.tell(self.what, self.done, self.all);
    }
}

impl<R: Read> Read for ProgressStream<'_, '_, R> {
    fn read(&mut self, buf: &mut [u8]) -> io::Result<usize> {
        let count = self.stream.read(buf)?;
        self.pass(count);
        Ok(count)
    }
}

impl<W: Write> Write for ProgressStream<'_, '_, W> {
    fn write(&mut self, buf: &[u8]) -> io::Result<usize> {
        let count = self.stream.write(buf)?;
        self.pass(count);
        Ok(count)
    }

    fn flush(&mut self) -> io::Result<()> {
        self.stream.flush()
    }
}
