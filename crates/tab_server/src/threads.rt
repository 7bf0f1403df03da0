//! Who is at work in a server: workers, compactors, and those who keep what they did, each with a seat for its life.

use crate::inbox::Inbox;
use crate::{Options, ServerFault};
use crossbeam_channel::{Receiver, Sender};
use std::alloc::Global;
use std::sync::Wait;
use std::sync::ledger::Ledger;
use tab_book::Seat;
use tab_work::{Requests, Shared};

/// One thread's part in a server.
#[derive(Drop)]
pub(crate) enum ThreadRole<'a, R> {
    /// It serves connections, of all workers the one with this number, and sends requests to the compactors.
    Worker(usize, Requests<'a, R>),
    /// It compacts whenever it's requested to.
    Compactor,
    /// It hands the history on, whenever that is long and once all others have ended: then nobody can send to this channel any more.
    Recorder(Receiver<()>),
    /// It has the store make images, as long as the others are at work.
    Keeper(Receiver<()>),
    /// It has the disk hold what the store keeps, as long as the others are at work.
    Syncer(Receiver<()>),
}

/// One thread of a server: its part, and its seat. Unless it is the recorder, the keeper or the syncer it holds a sender to their channel,
/// to which nothing is sent: it's dropped when the thread ends.
#[derive(Drop)]
pub(crate) struct ServerThread<'a, L: Ledger, R> {
    pub(crate) role: ThreadRole<'a, R>,
    pub(crate) seat: Seat<L>,
    pub(crate) life: Option<Sender<()>>,
}

/// All threads of a server, and where the requests to those who compact come in.
#[derive(Drop)]
pub(crate) struct ServerThreads<'a, L: Ledger, R> {
    pub(crate) members: Vec<ServerThread<'a, L, R>>,
    pub(crate) inbox: Inbox,
}

/// So many workers and compactors, a recorder, a keeper, and a syncer where one is wanted. Only the workers can send to the inbox: its
/// channel is closed once all of them are gone.
pub(crate) fn threads_of<'a, L: Ledger, R: Wait>(
    rt: &'a R,
    alloc: Global,
    shared: &Shared<L>,
    options: Options,
    wants_sync: bool,
) -> Result<ServerThreads<'a, L, R>, ServerFault> {
    let (to, from) = crossbeam_channel::unbounded(alloc)?;
    let (life, others) = crossbeam_channel::unbounded(alloc)?;
    let mut members = Vec::new(alloc);
    add_workers(rt, shared, &mut members, options.workers, &to, &life)?;
    add_compactors(rt, shared, &mut members, options.compactors, &life)?;
    let keeper = ThreadRole::Keeper(others.clone()?);
    add_alone(rt, shared, &mut members, keeper)?;
    if wants_sync {
        let syncer = ThreadRole::Syncer(others.clone()?);
        add_alone(rt, shared, &mut members, syncer)?;
    }
    add_alone(rt, shared, &mut members, ThreadRole::Recorder(others))?;
    let inbox = Inbox::new(from);
    Ok(ServerThreads { members, inbox })
}

// So many workers, who send their requests there. There are always as many seats.
fn add_workers<'a, L: Ledger, R: Wait>(
    rt: &'a R,
    shared: &Shared<L>,
    members: &mut Vec<ServerThread<'a, L, R>>,
    count: u32,
    to: &Sender<()>,
    life: &Sender<()>,
) -> Result<(), ServerFault> {
    for number in 0..count {
        if let Some(seat) = shared.join(rt) {
            members.reserve(1)?;
            let role = ThreadRole::Worker(number as usize, Requests::new(rt, to.clone()?));
            let life = Some(life.clone()?);
            members.push_reserved(ServerThread { role, seat, life });
        }
    }
    Ok(())
}

// So many compactors. There are always as many seats.
fn add_compactors<'a, L: Ledger, R: Wait>(
    rt: &'a R,
    shared: &Shared<L>,
    members: &mut Vec<ServerThread<'a, L, R>>,
    count: u32,
    life: &Sender<()>,
) -> Result<(), ServerFault> {
    for _ in 0..count {
        if let Some(seat) = shared.join(rt) {
            members.reserve(1)?;
            let role = ThreadRole::Compactor;
            let life = Some(life.clone()?);
            members.push_reserved(ServerThread { role, seat, life });
        }
    }
    Ok(())
}

// One of this part, who waits for the end of the others. There is always a seat.
fn add_alone<'a, L: Ledger, R: Wait>(
    rt: &'a R,
    shared: &Shared<L>,
    members: &mut Vec<ServerThread<'a, L, R>>,
    role: ThreadRole<'a, R>,
) -> Result<(), ServerFault> {
    members.reserve(1)?;
    if let Some(seat) = shared.join(rt) {
        members.push_reserved(ServerThread {
            role,
            seat,
            life: None,
        });
    }
    Ok(())
}
