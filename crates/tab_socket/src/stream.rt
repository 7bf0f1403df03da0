//! A connection, and its ends, of which one reads and the other writes.
ghost use Rattle.std.specs.Io.{ReadsAtMost, WritesAtMost};

use crate::Closer;
use std::io;
use std::io::{Read, Write};
use std::net::{SocketAddr, TcpStream};
use std::os::fd::OwnedFd;
use std::os::unix::net::UnixStream;
use std::time::Duration;

/// A connection. It is read and written by shared reference, so that one end can read while another writes.
pub trait Stream: Drop {
    /// Reads as [`Read::read`] does.
    fn receive(&self, buf: &mut [u8]) -> io::Result<usize>
        ensures bound { ReadsAtMost result buf.new };

    /// Writes as [`Write::write`] does.
    fn send(&self, buf: &[u8]) -> io::Result<usize>
        ensures bound { WritesAtMost result buf.now };

    /// What closes it.
    fn closer(&self) -> io::Result<Closer>;

    /// The address that it came from; none where it came by a socket file.
    fn peer(&self) -> io::Result<Option<SocketAddr>>;

    /// Has a read fail by `WouldBlock` that waits for so long, above 0, or none.
    fn set_read_timeout(&self, time: Option<Duration>) -> io::Result<()>;

    /// Has a write fail by `WouldBlock` that waits for so long, above 0, or none.
    fn set_write_timeout(&self, time: Option<Duration>) -> io::Result<()>;
}

impl Stream for TcpStream {
    fn receive(&self, buf: &mut [u8]) -> io::Result<usize> {
        let mut stream = self;
        stream.read(buf)
    }

    fn send(&self, buf: &[u8]) -> io::Result<usize> {
        let mut stream = self;
        stream.write(buf)
    }

    fn closer(&self) -> io::Result<Closer> {
        Ok(Closer::new(OwnedFd::from(self.try_clone()?)))
    }

    fn peer(&self) -> io::Result<Option<SocketAddr>> {
        Ok(Some(self.peer_addr()?))
    }

    fn set_read_timeout(&self, time: Option<Duration>) -> io::Result<()> {
        TcpStream::set_read_timeout(self, time)
    }

    fn set_write_timeout(&self, time: Option<Duration>) -> io::Result<()> {
        TcpStream::set_write_timeout(self, time)
    }
}

impl Stream for UnixStream {
    fn receive(&self, buf: &mut [u8]) -> io::Result<usize> {
        let mut stream = self;
        stream.read(buf)
    }

    fn send(&self, buf: &[u8]) -> io::Result<usize> {
        let mut stream = self;
        stream.write(buf)
    }

    fn closer(&self) -> io::Result<Closer> {
        Ok(Closer::new(OwnedFd::from(self.try_clone()?)))
    }

    fn peer(&self) -> io::Result<Option<SocketAddr>> {
        Ok(None)
    }

    fn set_read_timeout(&self, time: Option<Duration>) -> io::Result<()> {
        UnixStream::set_read_timeout(self, time)
    }

    fn set_write_timeout(&self, time: Option<Duration>) -> io::Result<()> {
        UnixStream::set_write_timeout(self, time)
    }
}

/// An end of a connection, which reads or writes. Nothing is gathered in it, so a flush has nothing to do.
#[derive(Drop)]
pub struct End<'a, S> {
    stream: &'a S,
}

impl<'a, S: Stream> End<'a, S> {
    /// An end of this connection.
    pub fn new(stream: &'a S) -> End<'a, S> {
        End { stream }
    }
}

impl<'a, S: Stream> Read for End<'a, S> {
    fn read(&mut self, buf: &mut [u8]) -> io::Result<usize> {
        self.stream.receive(buf)
    }
}

impl<'a, S: Stream> Write for End<'a, S> {
    fn write(&mut self, buf: &[u8]) -> io::Result<usize> {
        self.stream.send(buf)
    }

    fn flush(&mut self) -> io::Result<()> {
        Ok(())
    }
}
