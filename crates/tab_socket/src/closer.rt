//! What closes a socket.

use std::io;
use std::net::{Shutdown, TcpStream};
use std::os::fd::OwnedFd;

/// Another handle of a socket, by which it can be closed, and nothing else.
#[derive(Drop)]
pub struct Closer {
    // of any kind: only a stream can be shut down
    socket: TcpStream,
}

impl Closer {
    // Of the socket of this handle.
    pub(crate) fn new(socket: OwnedFd) -> Closer {
        Closer {
            socket: TcpStream::from(socket),
        }
    }

    /// Closes the socket: nothing more is read, written or accepted there, and whoever waits for that goes on. Nothing says whether the system did.
    pub fn close(&self) {
        let _ = self.socket.shutdown(Shutdown::Both);
    }

    /// Closes the socket for writing alone: the peer is told the end behind what was written. Nothing says whether the system did.
    pub fn close_writing(&self) {
        let _ = self.socket.shutdown(Shutdown::Write);
    }
}
