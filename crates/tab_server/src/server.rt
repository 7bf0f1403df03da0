//! The server.
ghost use Rattle.std.specs.Prelude.{◌≡◌, ◌^◌, ◌≤◌};

use crate::connections::Connections;
use crate::log::Log;
use crate::threads::threads_of;
use crate::workers::serve_all;
use crate::{History, Store};
use std::alloc::{AllocError, Global};
use std::marker::Brand;
use std::sync::Wait;
use std::sync::ledger::{Blank, Ledger};
use std::thread::Threads;
use std::time::Clock;
use tab_book::Book;
use tab_core::Core;
use tab_socket::Listener;
use tab_work::Shared;

/// How many threads and connections a server has, and how long its history grows.
#[derive(Clone, Copy, Debug)]
pub struct Options {
    /// Threads that serve connections, one connection each at a time: 1 to 64.
    pub workers: u32,
    /// Threads that compact and split tablets beside those that serve: 0 to 16. Without them tablets change by commands alone.
    pub compactors: u32,
    /// After how many connections the server ends; 0 is never.
    pub accept: u32,
    /// After how many seconds a connection ends whose peer says nothing, or takes nothing of what it is told; 0 is never.
    pub idle: u32,
    /// How many entries its history has in memory, about, before it's handed on: 1 or more.
    pub rotate_at: u64,
}

/// Why a server couldn't begin, or go on. No fault of a connection is one.
#[derive(Clone, Copy, Debug, PartialEq, Eq, thiserror::Error)]
pub enum ServerFault {
    /// Memory lacked.
    #[error("no memory")]
    NoMemory,
    /// A thread couldn't be made.
    #[error("no thread can be made")]
    NoThread,
    /// There was no further handle of the listener.
    #[error("no handle can be made")]
    NoHandle,
    /// What it did can't be kept any more. The store has said why.
    #[error("what is answered can't be kept")]
    NotKept,
    /// An entry of the history that is to be kept isn't there.
    #[error("an entry of the history is missing")]
    EntryMissing,
}

impl From<AllocError> for ServerFault {
    fn from(_lack: AllocError) -> ServerFault {
        ServerFault::NoMemory
    }
}

/// Serves the connections of the listener over the core, each by one of the workers, and ends once as many as `accept` says have ended.
///
/// Behind a write one of the compactors looks for what is due, and compacts or splits it as root; for writes that follow one another it
/// looks once in a millisecond at most, and once more behind the last of them. Connections are answered meanwhile, and what they are told
/// isn't otherwise. Once no worker is left the compactors end too.
///
/// Every few milliseconds it's looked how long the history is. Where it has as many entries as `rotate_at` says it's rotated, as root, and
/// what that hands out goes to where the history goes, outside of the book's lock; then it isn't rotated for ten times as long as that
/// took. Where the history is kept there, one that has any entry is handed on about twice a second. Once no worker and no compactor is
/// left what is there goes too. So what is held in memory doesn't grow with the events: a receipt is dropped at its connection's next
/// request. Where memory lacks for a rotation the history stays, and grows, until there is some; where it lacks to keep what a rotation
/// handed out, that is held and comes first.
///
/// A read or a write of a connection that waits for as long as `idle` says fails, between frames and inside one: requests whose frames
/// came whole are answered then, and all their replies were written, or as many as the peer took.
///
/// Where the store keeps anything, no byte of a reply is written to a connection before all entries of the history up to the connection's
/// last event are kept: where that can't be done now it's tried again for ten seconds, and then that connection ends. Where the store
/// fails no reply is written any more, each connection ends, and the server, with a fault. An image that isn't made is tried again.
///
/// Where the history is kept, no byte is written behind a rotation that a connection asked for before all up to there was taken; else that
/// connection ends.
///
/// A connection that may have waited for a worker for longer than a second is answered its first frame, and nothing more where its peer
/// has closed its socket by then.
///
/// A fault of a connection ends that one alone. A worker serves one connection at a time: further ones wait until a worker is free.
/// Moments are milliseconds since the beginning of 1970 by the machine's clock, 0 where it gives none.
pub fn run_server<
    R: Threads + Wait + Clock + Sync,
    N: Listener,
    H: History + Sync,
    D: Store + Sync,
>(
    rt: &R,
    alloc: Global,
    core: Core,
    listener: &N,
    options: Options,
    history: &H,
    store: &D,
) -> Result<(), ServerFault> {
    let blank = Blank::new(1 << 32);
    serve_book::<Brand, _, _, _, _>(rt, alloc, core, blank, listener, options, history, store)
}

// Serves over a book with this ledger, on which the seats count.
fn serve_book<
    L: Ledger + Send + Sync,
    R: Threads + Wait + Clock + Sync,
    N: Listener,
    H: History + Sync,
    D: Store + Sync,
>(
    rt: &R,
    alloc: Global,
    core: Core,
    blank: Blank,
    listener: &N,
    options: Options,
    history: &H,
    store: &D,
) -> Result<(), ServerFault>
    requires name { blank.name ≡ L.name }
    requires parts { blank.parts ≡ L.parts }
    requires enough { 2 ^ 32 ≤ blank.parts }
{
    let clock = core.clock();
    let Ok(book) = Book::<L>::new(alloc, core, blank) else {
        return Err(ServerFault::NoMemory);
    };
    let shared = Shared::recorded(book);
    let threads = threads_of(
        rt,
        alloc,
        &shared,
        options,
        store.keeps() && store.wants_sync(),
    )?;
    let connections = Connections::new(alloc, listener, options.workers)?;
    let log = Log::new(alloc, &shared, store, &connections, clock);
    let seats = serve_all(
        rt,
        alloc,
        &shared,
        threads,
        listener,
        options,
        history,
        &log,
        &connections,
    )?;
    let outcome = outcome_of(&log, &connections);
    drop(log);
    let _ = shared.end(seats);
    outcome
}

// Whether the server came to its end, or its connections were closed before.
fn outcome_of<L: Ledger, D: Store>(
    log: &Log<'_, L, D>,
    connections: &Connections,
) -> Result<(), ServerFault> {
    if log.is_broken() {
        Err(ServerFault::EntryMissing)
    } else if connections.are_closed() {
        Err(ServerFault::NotKept)
    } else {
        Ok(())
    }
}
