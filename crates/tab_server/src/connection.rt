//! A connection that has ended, in a line.

use std::fmt;
use std::fmt::{Display, Formatter};
use std::net::SocketAddr;
use tab_key::Name;
use tab_wire::Reason;

/// Who has connected.
#[derive(Clone, Copy)]
pub enum Peer {
    /// A program at this address.
    Address(SocketAddr),
    /// A program that came by a socket in a file.
    Socket,
    /// One who was gone before the system could tell.
    Unknown,
}

impl Display for Peer {
    fn fmt<W: fmt::Write>(&self, f: &mut Formatter<W>) -> fmt::Result {
        match self {
            Peer::Address(address) => write!(f, "{address}"),
            Peer::Socket => f.write_str("socket"),
            Peer::Unknown => f.write_str("unknown"),
        }
    }
}

/// How a connection ended.
#[derive(Clone, Copy)]
pub enum Ending {
    /// The peer said no more, between two frames.
    End,
    /// Reading failed.
    Read,
    /// Writing failed.
    Write,
    /// What came was no frame, for this reason.
    Frame(Reason),
    /// The peer said nothing, or took nothing, for as long as it may.
    Idle,
    /// There was no memory to serve it.
    Memory,
}

impl Display for Ending {
    fn fmt<W: fmt::Write>(&self, f: &mut Formatter<W>) -> fmt::Result {
        f.write_str(match self {
            Ending::End => "end",
            Ending::Read => "read",
            Ending::Write => "write",
            Ending::Frame(reason) => word_of(*reason),
            Ending::Idle => "idle",
            Ending::Memory => "memory",
        })
    }
}

// What a log says of a frame that is none: its number, as PROTOCOL.md has it.
fn word_of(reason: Reason) -> &'static str {
    match reason {
        Reason::Empty => "frame:1",
        Reason::TooLong => "frame:2",
        Reason::Cut => "frame:3",
        Reason::Opcode => "frame:4",
        Reason::Field => "frame:5",
        Reason::Order => "frame:6",
    }
}

/// A connection that has ended. It is shown as a line without its end, in fields that are parted by spaces and have none inside:
///
/// ```text
/// time=1795892297.623 user=ann peer=127.0.0.1:40312 frames=17 refusals=2 cells=340 seconds=3.204 ended=end
/// ```
#[derive(Clone, Copy)]
pub struct Connection {
    /// When it ended, in milliseconds since the beginning of 1970; 0 where the clock gave none.
    pub moment: i64,
    /// Who said Hello. A name has no byte that could end a field; none is shown as a script's empty word.
    pub user: Option<Name>,
    /// Who had connected.
    pub peer: Peer,
    /// Frames that were read.
    pub frames: u64,
    /// Refusals that were told.
    pub refusals: u64,
    /// Cells that were told.
    pub cells: u64,
    /// For how many milliseconds it was served.
    pub lasted: u64,
    /// How it ended.
    pub ending: Ending,
}

impl Display for Connection {
    fn fmt<W: fmt::Write>(&self, f: &mut Formatter<W>) -> fmt::Result {
        let moment = self.moment.max(0) as u64;
        let user = match &self.user {
            Some(name) => std::str::from_utf8(name.as_bytes()).unwrap_or("\\e"),
            None => "\\e",
        };
        write!(
            f,
            "time={}.{:03} user={user} peer={}",
            moment / 1000,
            moment % 1000,
            self.peer
        )?;
        write!(
            f,
            " frames={} refusals={} cells={}",
            self.frames, self.refusals, self.cells
        )?;
        write!(
            f,
            " seconds={}.{:03} ended={}",
            self.lasted / 1000,
            self.lasted % 1000,
            self.ending
        )
    }
}
