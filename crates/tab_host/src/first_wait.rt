//! A socket whose first bytes are waited for only so long.
use std::io;
use std::io::{ErrorKind, Read};
use std::time::Duration;
use tab_socket::Stream;

/// A reader of a socket, whose first read fails where nothing comes in time. Later ones wait as long as it takes.
#[derive(Drop)]
pub struct FirstWait<'a, S> {
    stream: &'a S,
    state: Wait,
}

// Whether the first bytes are waited for, have come, or came too late.
#[derive(Clone, Copy, Debug, PartialEq, Eq)]
enum Wait {
    First,
    Late,
    Later,
}

impl<'a, S: Stream> FirstWait<'a, S> {
    /// Waits so long for the first bytes, above 0.
    pub fn new(stream: &'a S, time: Duration) -> io::Result<FirstWait<'a, S>> {
        stream.set_read_timeout(Some(time))?;
        Ok(FirstWait {
            stream,
            state: Wait::First,
        })
    }

    /// Whether the first bytes were waited for in vain.
    pub fn is_late(&self) -> bool {
        self.state == Wait::Late
    }

    // Waits without end from now on.
    fn relax(&mut self) -> io::Result<()> {
        self.state = Wait::Later;
        self.stream.set_read_timeout(None)
    }
}

impl<'a, S: Stream> Read for FirstWait<'a, S> {
    fn read(&mut self, buf: &mut [u8]) -> io::Result<usize> {
        if self.state == Wait::Later {
            return self.stream.receive(buf);
        }
        match self.stream.receive(buf) {
            Ok(count) => {
                self.relax()?;
                Ok(count)
            }
            Err(error) => {
                if let ErrorKind::WouldBlock | ErrorKind::TimedOut = error.kind() {
                    self.state = Wait::Late;
                }
                Err(error)
            }
        }
    }
}
