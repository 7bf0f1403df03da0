//! Streams beside a journal.
use crate::FolderFault;
use crate::log::ScriptLog;
use std::io;
use std::io::{Error, ErrorKind, Read, Write};

/// A reader whose bytes are put into a journal before anybody sees them. What it reads ends with a line feed there: where the last line
/// lacks one, it is put as the reader ends.
#[derive(Drop)]
pub struct Logged<'a, R> {
    reader: R,
    log: &'a ScriptLog,
    // whether a line has begun that hasn't ended
    within: bool,
}

impl<'a, R> Logged<'a, R> {
    /// Over this reader, of which nothing was read yet.
    pub fn new(reader: R, log: &'a ScriptLog) -> Logged<'a, R> {
        Logged {
            reader,
            log,
            within: false,
        }
    }
}

impl<R> Logged<'_, R> {
    // Puts what was read.
    fn put(&mut self, text: &[u8]) -> Result<(), FolderFault> {
        self.within = !text.ends_with(b"\n");
        self.log.put(text)
    }

    // Ends the last line.
    fn end(&mut self) -> Result<(), FolderFault> {
        if !self.within {
            return Ok(());
        }
        self.within = false;
        self.log.put(b"\n")
    }
}

impl<R: Read> Read for Logged<'_, R> {
    fn read(&mut self, buf: &mut [u8]) -> io::Result<usize> {
        let count = self.reader.read(buf)?;
        let outcome = if count == 0 {
            self.end()
        } else {
            self.put(&buf[..count])
        };
        match outcome {
            Ok(()) => Ok(count),
            Err(_) => Err(Error::from(ErrorKind::Other)),
        }
    }
}

/// A writer that sees a journal on the disk before it writes, and as it is flushed, where a quiet script has written nothing.
#[derive(Drop)]
pub struct SyncedWriter<'a, W> {
    writer: W,
    log: Option<&'a ScriptLog>,
}

impl<'a, W> SyncedWriter<'a, W> {
    /// Over this writer, with this journal, if there is one.
    pub fn new(writer: W, log: Option<&'a ScriptLog>) -> SyncedWriter<'a, W> {
        SyncedWriter { writer, log }
    }

    // Sees the journal on the disk.
    fn settle(&self) -> io::Result<()> {
        let Some(log) = self.log else {
            return Ok(());
        };
        log.settle().map_err(|_| Error::from(ErrorKind::Other))
    }
}

impl<W: Write> Write for SyncedWriter<'_, W> {
    fn write(&mut self, buf: &[u8]) -> io::Result<usize> {
        self.settle()?;
        self.writer.write(buf)
    }

    fn flush(&mut self) -> io::Result<()> {
        self.settle()?;
        self.writer.flush()
    }
}
