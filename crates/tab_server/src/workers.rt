//! The threads of a server.

use crate::accepting::{Accepted, accept_all};
use crate::clock::WallClock;
use crate::connection::{Ending, Peer};
use crate::connections::Connections;
use crate::counters::Counters;
use crate::handed::Handed;
use crate::idle::Idler;
use crate::inbox::{Inbox, Woken};
use crate::keeper::{keep_images, sync_often};
use crate::lingering::linger;
use crate::log::Log;
use crate::opening::Opening;
use crate::recorder::Recorder;
use crate::settled::{Marking, Marks, Settled};
use crate::tally::Tally;
use crate::threads::{ServerThread, ServerThreads, ThreadRole};
use crate::waiting::Waiting;
use crate::watch::Watch;
use crate::{History, Options, ServerFault, Store};
use crossbeam_channel::Receiver;
use std::alloc::{AllocError, Global};
use std::cell::Cell;
use std::io::{Read, Write};
use std::sync::Wait;
use std::sync::ledger::Ledger;
use std::thread;
use std::thread::{JoinHandle, Threads};
use std::time::Clock;
use tab_book::Seat;
use tab_io::{BlockReader, BlockWriter};
use tab_key::Name;
use tab_serve::ServeFault;
use tab_socket::{End, Listener, Stream};
use tab_work::{Claims, Compactor, Gate, Requests, Shared, serve_forgetting};

// What all threads of a server are lent.
#[derive(Drop)]
struct Context<'a, 'l, L: Ledger, R, H, D> {
    rt: &'a R,
    alloc: Global,
    shared: &'a Shared<L>,
    // where the connections come that were accepted
    from: &'a Receiver<Accepted>,
    inbox: &'a Inbox,
    claims: &'a Claims,
    counters: &'a Counters,
    history: &'a H,
    handed: &'a Handed,
    log: &'a Log<'l, L, D>,
    connections: &'a Connections,
    // from how many entries on the history is handed on
    many: u64,
}

/// Runs all threads: the workers serve the connections that are accepted, the compactors compact beside them, and the recorder
/// hands the history on. Gives the seats back.
pub(crate) fn serve_all<
    'a,
    L: Ledger + Send + Sync,
    R: Threads + Wait + Clock + Sync,
    N: Listener,
    H: History + Sync,
    D: Store + Sync,
>(
    rt: &'a R,
    alloc: Global,
    shared: &'a Shared<L>,
    threads: ServerThreads<'a, L, R>,
    listener: &'a N,
    options: Options,
    history: &'a H,
    log: &'a Log<'a, L, D>,
    connections: &'a Connections,
) -> Result<Vec<Seat<L>>, ServerFault> {
    let (to, from) = crossbeam_channel::bounded(alloc, options.workers as usize)?;
    let claims = Claims::new(alloc);
    let counters = Counters::new(alloc, options.workers)?;
    let handed = Handed::new(history.keeps());
    let ServerThreads { members, inbox } = threads;
    let (from, inbox, claims, counters, handed) = (&from, &inbox, &claims, &counters, &handed);
    let many = options.rotate_at.max(1);
    thread::scope(thread::scope_env(), rt, |scope| {
        let mut threads = Vec::new(alloc);
        for member in members {
            threads.reserve(1)?;
            match scope.spawn(move || {
                let context = Context {
                    rt,
                    alloc,
                    shared,
                    from,
                    inbox,
                    claims,
                    counters,
                    history,
                    handed,
                    log,
                    connections,
                    many,
                };
                work(&context, member)
            }) {
                Ok(thread) => threads.push_reserved(thread),
                Err(_) => return Err(ServerFault::NoThread),
            }
        }
        accept_all(rt, listener, to, options.accept, options.idle, connections);
        seats_of(rt, alloc, threads)
    })
}

// The seats of the threads, once they have ended.
fn seats_of<L: Ledger>(
    rt: &impl Threads,
    alloc: Global,
    threads: Vec<JoinHandle<Seat<L>>>,
) -> Result<Vec<Seat<L>>, ServerFault> {
    let mut seats = Vec::new(alloc);
    for thread in threads {
        seats.reserve(1)?;
        seats.push_reserved(thread.join(rt));
    }
    Ok(seats)
}

// What one of the threads does, to its end.
fn work<L: Ledger, R: Threads + Wait + Clock + Sync, H: History, D: Store>(
    context: &Context<'_, '_, L, R, H, D>,
    member: ServerThread<'_, L, R>,
) -> Seat<L> {
    let ServerThread { role, seat, life } = member;
    let seat = match role {
        ThreadRole::Worker(number, requests) => serve(context, seat, number, requests),
        ThreadRole::Compactor => compact(context, seat),
        ThreadRole::Keeper(others) => {
            keep_images(context.rt, context.log, context.history, &others);
            seat
        }
        ThreadRole::Syncer(others) => {
            sync_often(context.rt, context.log, &others);
            seat
        }
        ThreadRole::Recorder(others) => record(context, seat, others),
    };
    drop(life);
    seat
}

// Serves one connection after another, until the channel is closed, as the worker of this number. Nothing that happens to one of them
// stops the next.
fn serve<L: Ledger, R: Threads + Wait + Clock + Sync, H: History, D: Store>(
    context: &Context<'_, '_, L, R, H, D>,
    seat: Seat<L>,
    number: usize,
    requests: Requests<'_, R>,
) -> Seat<L> {
    let mut seat = seat;
    let tally = context.counters.take();
    for _ in context.rt.forever() {
        let Ok(accepted) = context.from.recv(context.rt) else {
            break;
        };
        if enters(context, number, &accepted.stream) {
            serve_stream(context, &mut seat, &accepted, &requests, tally);
        }
        context.connections.leave(context.rt, number);
    }
    seat
}

// Whether the worker of this number may serve the stream. One that couldn't be closed is dropped.
fn enters<L: Ledger, R: Wait, S: Stream, H, D>(
    context: &Context<'_, '_, L, R, H, D>,
    number: usize,
    stream: &S,
) -> bool {
    match stream.closer() {
        Ok(closer) => context.connections.enter(context.rt, number, closer),
        Err(_) => false,
    }
}

// Serves a connection to its end or its first fault, and tells of it.
fn serve_stream<L: Ledger, R: Threads + Wait + Clock + Sync, H: History, D: Store>(
    context: &Context<'_, '_, L, R, H, D>,
    seat: &mut Seat<L>,
    accepted: &Accepted,
    requests: &Requests<'_, R>,
    tally: &Tally,
) {
    let stream = &accepted.stream;
    let peer = peer_of(stream);
    let reader = Opening::new(stream, accepted.may_have_waited(context.rt));
    let is_late = Cell::new(false);
    let watch = Watch::new(context.rt, requests, tally, &is_late);
    let served = converse_over(context, seat, reader, End::new(stream), &is_late, &watch);
    let ended = watch.end(peer, served);
    context.history.end(&ended);
    if let Ending::Frame(_) = ended.ending {
        linger(context.rt, stream);
    }
}

// Answers on the writer what the reader asks, to its end or its first fault. The cell is set where that is a read or a write that has
// waited too long.
fn converse_over<
    L: Ledger,
    R: Threads + Wait + Clock + Sync,
    I: Read + Drop,
    W: Write + Drop,
    G: Gate,
    H: History,
    D: Store,
>(
    context: &Context<'_, '_, L, R, H, D>,
    seat: &mut Seat<L>,
    reader: I,
    writer: W,
    is_late: &Cell<bool>,
    gate: &G,
) -> Result<Result<(), ServeFault>, AllocError> {
    let (rt, alloc) = (context.rt, context.alloc);
    let mut input = BlockReader::new(alloc, Waiting::new(reader, is_late))?;
    let marks = Marks::new();
    let writer = Waiting::new(writer, is_late);
    let settled = Settled::new(rt, context.log, context.handed, &marks, writer);
    let mut output = BlockWriter::new(alloc, settled)?;
    let gate = Marking::new(gate, context.handed, &marks);
    let mut moments = WallClock::new(rt);
    Ok(serve_forgetting(
        rt,
        alloc,
        &mut input,
        &mut output,
        &mut moments,
        context.shared,
        seat,
        &gate,
    ))
}

// Who has connected.
fn peer_of<S: Stream>(stream: &S) -> Peer {
    match stream.peer() {
        Ok(Some(address)) => Peer::Address(address),
        Ok(None) => Peer::Socket,
        Err(_) => Peer::Unknown,
    }
}

// Compacts what is due at each request, as root, and in idle time what isn't, until nobody can send any more.
fn compact<L: Ledger, R: Threads + Wait + Clock + Sync, H, D>(
    context: &Context<'_, '_, L, R, H, D>,
    seat: Seat<L>,
) -> Seat<L> {
    let (rt, inbox) = (context.rt, context.inbox);
    let mut seat = seat;
    let mut idler = Idler::new(rt, context.alloc, context.shared, root(), context.counters);
    let mut woken = inbox.wait(rt);
    for _ in rt.forever() {
        if woken == Woken::Closed {
            break;
        }
        seat = compact_due(context, seat);
        woken = if woken == Woken::Idle {
            compact_idle(rt, inbox, &mut idler, &mut seat)
        } else {
            idler.forget();
            inbox.finish(rt)
        };
    }
    seat
}

// Compacts what is due.
fn compact_due<L: Ledger, R: Threads + Wait + Clock + Sync, H, D>(
    context: &Context<'_, '_, L, R, H, D>,
    seat: Seat<L>,
) -> Seat<L> {
    let moments = WallClock::new(context.rt);
    let mut compactor = Compactor::new(
        context.rt,
        context.alloc,
        context.shared,
        seat,
        root(),
        moments,
        context.claims,
        context.counters,
    );
    compactor.compact();
    compactor.into_parts().0
}

// Compacts one tablet on which nothing is due. Why the compactor is awake then.
fn compact_idle<L: Ledger, R: Wait + Clock>(
    rt: &R,
    inbox: &Inbox,
    idler: &mut Idler<'_, L, R>,
    seat: &mut Seat<L>,
) -> Woken {
    match idler.compact_next(seat) {
        Some(took) => inbox.go_on(rt, took),
        None => inbox.end(rt),
    }
}

// Hands the history on, as root, until nobody else is at work.
fn record<L: Ledger, R: Wait + Clock, H: History, D: Store>(
    context: &Context<'_, '_, L, R, H, D>,
    seat: Seat<L>,
    others: Receiver<()>,
) -> Seat<L> {
    let recorder = Recorder {
        rt: context.rt,
        alloc: context.alloc,
        shared: context.shared,
        seat,
        user: root(),
        history: context.history,
        handed: context.handed,
        counters: context.counters,
        log: context.log,
        queue: context.from,
        last: None,
    };
    recorder.record(context.many, &others)
}

// Who compacts, and who rotates.
fn root() -> Name {
    Name::new(b"root").unwrap()
}
