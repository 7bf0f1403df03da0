//! Streams between processes of one machine: over a port, or over a socket file, whose rights say who may connect.
//!
//! | File | What |
//! |---|---|
//! | `stream` | a stream, and its ends, of which one reads and the other writes |
//! | `connection` | a stream that was accepted, by a port or a socket file |
//! | `closer` | what closes a socket |
//! | `listener` | what a server's connections come by |
//! | `socket_file` | a socket file that is listened on: how it gets its name, and how it goes |
//! | `private_folder` | a folder of one's own beside a file |
//! | `folder_lock` | the lock of a folder, which one server at a time has |
//! | `mode` | a file's mode, as it is written |
//!
//! What sockets and files of a system do no contract says.
#![tactic(auto)]

mod closer;
mod connection;
mod folder_lock;
mod listener;
mod mode;
mod private_folder;
mod socket_file;
mod stream;

pub use closer::Closer;
pub use connection::Connection;
pub use listener::Listener;
pub use mode::mode_of;
pub use socket_file::{SocketFault, SocketFile};
pub use stream::{End, Stream};
