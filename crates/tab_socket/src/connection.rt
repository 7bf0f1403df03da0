//! Connections that were accepted.
ghost use Rattle.std.specs.Io.{ReadsAtMost, WritesAtMost};

use crate::{Closer, Stream};
use std::io;
use std::net::{SocketAddr, TcpStream};
use std::os::unix::net::UnixStream;
use std::time::Duration;

/// A connection, by what it came.
#[derive(Drop)]
pub enum Connection {
    /// It came by a port.
    Port(TcpStream),
    /// It came by a socket file.
    File(UnixStream),
}

impl Stream for Connection {
    fn receive(&self, buf: &mut [u8]) -> io::Result<usize> {
        match self {
            Connection::Port(stream) => stream.receive(buf),
            Connection::File(stream) => stream.receive(buf),
        }
    }

    fn send(&self, buf: &[u8]) -> io::Result<usize> {
        match self {
            Connection::Port(stream) => stream.send(buf),
            Connection::File(stream) => stream.send(buf),
        }
    }

    fn closer(&self) -> io::Result<Closer> {
        match self {
            Connection::Port(stream) => stream.closer(),
            Connection::File(stream) => stream.closer(),
        }
    }

    fn peer(&self) -> io::Result<Option<SocketAddr>> {
        match self {
            Connection::Port(stream) => stream.peer(),
            Connection::File(stream) => stream.peer(),
        }
    }

    fn set_read_timeout(&self, time: Option<Duration>) -> io::Result<()> {
        match self {
            Connection::Port(stream) => Stream::set_read_timeout(stream, time),
            Connection::File(stream) => Stream::set_read_timeout(stream, time),
        }
    }

    fn set_write_timeout(&self, time: Option<Duration>) -> io::Result<()> {
        match self {
            Connection::Port(stream) => Stream::set_write_timeout(stream, time),
            Connection::File(stream) => Stream::set_write_timeout(stream, time),
        }
    }
}
