//! What a server's connections come by.

use crate::{Closer, Connection, SocketFile};
use std::io;
use std::net::TcpListener;
use std::os::fd::OwnedFd;

/// What a server's connections come by: a port, or a socket file.
pub trait Listener {
    /// Waits for the next one. Once the listener is closed, this fails.
    fn next(&self) -> io::Result<Connection>;

    /// What closes it.
    fn closer(&self) -> io::Result<Closer>;
}

impl Listener for TcpListener {
    fn next(&self) -> io::Result<Connection> {
        let (stream, _) = self.accept()?;
        // Without it replies may only come later.
        let _ = stream.set_nodelay(true);
        Ok(Connection::Port(stream))
    }

    fn closer(&self) -> io::Result<Closer> {
        Ok(Closer::new(OwnedFd::from(self.try_clone()?)))
    }
}

impl Listener for SocketFile<'_> {
    fn next(&self) -> io::Result<Connection> {
        let (stream, _) = self.listener().accept()?;
        Ok(Connection::File(stream))
    }

    fn closer(&self) -> io::Result<Closer> {
        Ok(Closer::new(OwnedFd::from(self.listener().try_clone()?)))
    }
}
