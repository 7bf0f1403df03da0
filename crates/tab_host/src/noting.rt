//! A stream that keeps why it failed.
use std::io;
use std::io::{Error, Read, Write};

/// A reader or a writer that passes bytes along unchanged, and keeps the error of its last call that failed.
#[derive(Drop)]
pub struct Noting<S> {
    stream: S,
    failure: Option<Error>,
}

impl<S> Noting<S> {
    /// Over this stream, of which no call has failed yet.
    pub fn new(stream: S) -> Noting<S> {
        Noting {
            stream,
            failure: None,
        }
    }

    /// Why the last call failed that did.
    pub fn failure(&self) -> Option<Error> {
        self.failure
    }
}

impl<R: Read> Read for Noting<R> {
    ghost remaining = { λ noting. R.remaining noting.stream };

    fn read(&mut self, buf: &mut [u8]) -> io::Result<usize> {
        let outcome = self.stream.read(buf);
        if let Err(error) = outcome {
            self.failure = Some(error);
        }
        outcome
    }
}

impl<W: Write> Write for Noting<W> {
    ghost contents = { λ noting. W.contents noting.stream };

    fn write(&mut self, buf: &[u8]) -> io::Result<usize> {
        let outcome = self.stream.write(buf);
        if let Err(error) = outcome {
            self.failure = Some(error);
        }
        outcome
    }

    fn flush(&mut self) -> io::Result<()> {
        let outcome = self.stream.flush();
        if let Err(error) = outcome {
            self.failure = Some(error);
        }
        outcome
    }
}
