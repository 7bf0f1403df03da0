//! The server: who accepts connections, the threads that serve them, those that compact beside them, and those that keep what was done.
//!
//! | File | What |
//! |---|---|
//! | `clock` | moments of the machine's clock |
//! | `inbox`, `lull` | where requests to the compactors come in, and when nobody sends any |
//! | `idle`, `crowded` | what a compactor does then, and on which tablets |
//! | `history`, `recorder`, `handed` | where a server's history goes, who hands it on, and how far it has |
//! | `store`, `log`, `round` | where a server keeps what it did, and what is kept there of the book's history |
//! | `settled` | how a reply waits for what it rests on |
//! | `keeper`, `backoff` | who has the store make images and the disk hold what is kept; how long is waited between tries |
//! | `connections` | all connections, which can be ended at once |
//! | `tally`, `counters`, `refused`, `watch` | what is counted of connections as they are served |
//! | `opening`, `waiting` | whether a connection's peer has gone before it was served, or was waited for too long |
//! | `lingering` | what a peer sends behind its last frame |
//! | `connection`, `figures`, `reporting` | a connection in a line, what a server tells of itself, and who reports it |
//! | `note`, `fullness` | what a server says at once, and when it has no free worker |
//! | `accepting`, `threads`, `workers`, `server` | who accepts, who is at work, the threads, and how a server begins and ends |
#![tactic(auto)]

mod accepting;
mod backoff;
mod clock;
mod connection;
mod connections;
mod counters;
mod crowded;
mod figures;
mod fullness;
mod handed;
mod history;
mod idle;
mod inbox;
mod keeper;
mod lingering;
mod log;
mod lull;
mod note;
mod opening;
mod recorder;
mod refused;
mod reporting;
mod round;
mod server;
mod settled;
mod store;
mod tally;
mod threads;
mod waiting;
mod watch;
mod workers;

pub use clock::WallClock;
pub use connection::{Connection, Ending, Peer};
pub use figures::Figures;
pub use history::{Dropped, History, NotTaken};
pub use note::Note;
pub use server::{Options, ServerFault, run_server};
pub use store::{NoStore, NotKept, Store};
