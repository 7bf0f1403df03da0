//! `tabd serve`.
use crate::counts::DiskCounts;
use crate::escaped::Escaped;
use crate::files::core_of;
use crate::folder_store::FolderStore;
use crate::history::LogFile;
use crate::telling::Telling;
use anyhow::Context;
use std::fmt::Display;
use std::net::{Ipv4Addr, TcpListener};
use std::process::ExitCode;
use std::sync::Wait;
use std::thread::Threads;
use std::time::Clock;
use tab_command::{ServeRequest, ServerAddress};
use tab_core::Core;
use tab_host::NetFault;
use tab_prog::ProgramFault;
use tab_serve::Moments;
use tab_server::{NoStore, Options, ServerFault, Store, WallClock, run_server};
use tab_socket::{Listener, SocketFile};

// A year, in milliseconds.
const YEAR: i64 = 31_557_600_000;

/// Listens on a port of 127.0.0.1, or at a socket file of this mode, says so on standard output, and answers connections over the core of
/// the folder that is named, which keeps what it answers; or else over that of the image, or a new one, which end with it. It tells so
/// much beside its answers as is asked for. Gives the status.
///
/// A fault tells the system's reason.
pub fn run_serve<R: Threads + Wait + Clock + Sync>(
    rt: &HostRuntime,
    threads: &R,
    serve: ServeRequest<'_>,
    mode: u32,
    options: Options,
) -> anyhow::Result<ExitCode> {
    match serve.store {
        None => {
            let core = core_of(rt, serve.image)?;
            answer(rt, threads, serve, mode, options, core, None, &NoStore)
        }
        Some(path) => {
            let (core, kept) = FolderStore::take_up(rt, path, serve)?;
            let counts = Some(kept.counts());
            answer(rt, threads, serve, mode, options, core, counts, &kept)
        }
    }
}

// Listens, and answers connections over the core, whose events the store keeps. Of that one these are the counts, if it keeps anything.
fn answer<R: Threads + Wait + Clock + Sync, D: Store + Sync>(
    rt: &HostRuntime,
    threads: &R,
    serve: ServeRequest<'_>,
    mode: u32,
    options: Options,
    core: Core,
    counts: Option<&DiskCounts>,
    store: &D,
) -> anyhow::Result<ExitCode> {
    if let Some(name) = serve.store.or(serve.image) {
        tell_clock(rt, name, core.clock());
    }
    let log = LogFile::open(rt, serve.history)?;
    let telling = Telling::new(rt, log, serve.metrics, counts, serve.logged)?;
    match serve.place {
        ServerAddress::Port(port) => at_port(rt, threads, port, options, core, &telling, store),
        ServerAddress::Socket(name) => at_file(
            rt, threads, name, mode, options, core, &telling, store,
        ),
    }
}

// Listens and answers on this port.
fn at_port<R: Threads + Wait + Clock + Sync, D: Store + Sync>(
    rt: &HostRuntime,
    threads: &R,
    port: u16,
    options: Options,
    core: Core,
    telling: &Telling<'_>,
    store: &D,
) -> anyhow::Result<ExitCode> {
    let listener = TcpListener::bind(rt, (Ipv4Addr::LOCALHOST, port)).with_context(
        || NetFault::Listen(port),
    )?;
    listen(rt, threads, &listener, port, options, core, telling, store)
}

// Listens and answers at a socket file of this name and mode, which goes at the end.
fn at_file<R: Threads + Wait + Clock + Sync, D: Store + Sync>(
    rt: &HostRuntime,
    threads: &R,
    name: &str,
    mode: u32,
    options: Options,
    core: Core,
    telling: &Telling<'_>,
    store: &D,
) -> anyhow::Result<ExitCode> {
    let file = SocketFile::bind(rt, name, mode).with_context(|| name)?;
    let outcome = listen(rt, threads, &file, name, options, core, telling, store);
    file.remove();
    outcome
}

// Answers connections by this listener, which has this name.
fn listen<R: Threads + Wait + Clock + Sync, N: Listener, T: Display + Drop, D: Store + Sync>(
    rt: &HostRuntime,
    threads: &R,
    listener: &N,
    name: T,
    options: Options,
    core: Core,
    telling: &Telling<'_>,
    store: &D,
) -> anyhow::Result<ExitCode> {
    println!(rt; "listening {name}").context(ProgramFault::Write)?;
    match run_server(threads, rt.alloc(), core, listener, options, telling, store) {
        Ok(()) => Ok(ExitCode::SUCCESS),
        // The store has said why.
        Err(ServerFault::NotKept) => Ok(ExitCode::FAILURE),
        Err(fault) => Err(fault.into()),
    }
}

// Says on standard error where the clock of an image is years ahead of the machine's: until then all that is written gets one time.
fn tell_clock(rt: &HostRuntime, name: &str, clock: i64) {
    let years = clock.saturating_sub(WallClock::new(rt).next()) / YEAR;
    if years > 1 {
        let _ = eprintln!(rt;
            "note: {}: its clock is {years} years ahead of this machine's, and stands still until then",
            Escaped(&name)
        );
    }
}
