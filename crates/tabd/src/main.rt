//! The program `tabd`: does what its command line says, and tells the exit status.
//!
//! | File | What |
//! |---|---|
//! | `closed_streams` | standard streams that are closed |
//! | `scripting`, `serving`, `shell` | `tabd script`, `tabd serve` and `tabd shell` |
//! | `watching` | how a run of lines ends that is watched |
//! | `opening`, `replaying` | a store's folder, taken up, and what runs left there, replayed |
//! | `line_replay`, `unheard` | the lines of a script, replayed, and the answers to them |
//! | `keeping` | a script over a folder, which keeps what it does |
//! | `folder_store` | what a server keeps in a folder |
//! | `history` | the history of a server, in a file |
//! | `telling`, `metrics`, `counts` | what a server tells beside its answers, what it tells of itself, in a file, and what it asks of the disk |
//! | `status` | what the system tells of the program itself |
//! | `looking`, `replayed_image` | `tabd inspect` and `tabd export`, and what a folder keeps for them |
//! | `importing` | `tabd import` |
//! | `files` | images in files, as lines and the command line name them |
//! | `escaped` | what is told on a line of standard error |
#![tactic(auto)]

mod closed_streams;
mod counts;
mod escaped;
mod files;
mod folder_store;
mod history;
mod importing;
mod keeping;
mod line_replay;
mod looking;
mod metrics;
mod opening;
mod replayed_image;
mod replaying;
mod scripting;
mod serving;
mod shell;
mod status;
mod telling;
mod unheard;
mod watching;

use anyhow::Context;
use clap::Error;
use closed_streams::ClosedStreams;
use escaped::Escaped;
use importing::run_import;
use looking::{Form, run_look};
use scripting::{Style, run_kept, run_script};
use serving::run_serve;
use shell::{Way, run_shell};
use status::tell_file_limit;
use std::io::ErrorKind;
use std::process::ExitCode;
use std::sync::Wait;
use std::thread::Threads;
use std::time::{Clock, Duration};
use tab_command::{
    ExportForm, ExportRequest, ImportRequest, LineHelp, Request, ScriptRequest, ServeRequest,
    ShellRequest, parse,
};
use tab_key::Name;
use tab_prog::ProgramFault;
use tab_server::Options;
use tab_socket::mode_of;
use tab_watch::RunOptions;

// From how many entries on a server's history is dropped.
const ROTATE_AT: u64 = 16_384;

// Who may connect to a server's socket file, unless the command line says otherwise: whoever runs the server.
const SOCKET_MODE: &str = "600";

// The status of an export that left something out.
const LEFT_OUT: u8 = 3;

fn main(rt: HostRuntime) -> ExitCode {
    let _closed = ClosedStreams::hold(&rt);
    match run(&rt, &rt) {
        Ok(status) => status,
        Err(fault) => {
            let _ = eprintln!(rt; "fault: {}", Escaped(&fault));
            ExitCode::FAILURE
        }
    }
}

// Does what the command line says, and tells the exit status. An error is a stream that failed, or want of memory. The second handle
// is the runtime too, as what may start threads and wait.
fn run<R: Threads + Wait + Clock + Sync>(
    rt: &HostRuntime,
    threads: &R,
) -> anyhow::Result<ExitCode> {
    let alloc = rt.alloc();
    let words: Vec<String> = match std::env::args(rt) {
        Ok(words) => words.collect(alloc).map_err(|_| ProgramFault::NoMemory)?,
        Err(error) if error.kind() == ErrorKind::InvalidData => {
            return Ok(refused(rt, "a word of the command line isn't UTF-8"));
        }
        Err(_) => return Err(ProgramFault::NoMemory.into()),
    };
    let lines = LineHelp::new(alloc).map_err(|_| ProgramFault::NoMemory)?;
    match parse(alloc, &lines, words.as_slice()) {
        Ok(request) => asked(rt, threads, request),
        Err(error) => told(rt, &error),
    }
}

// A command line that isn't understood, for this reason.
fn refused(rt: &HostRuntime, why: &str) -> ExitCode {
    let _ = eprintln!(rt; "error: {why}\n\nFor more information, try '--help'.");
    ExitCode::from(2)
}

// Prints the help or the version, or why the command line is refused; where the refusal goes doesn't matter.
fn told(rt: &HostRuntime, error: &Error) -> anyhow::Result<ExitCode> {
    if error.kind() == clap::error::ErrorKind::OutOfMemory {
        return Err(ProgramFault::NoMemory.into());
    }
    let printed = error.print(rt);
    if !error.use_stderr() {
        printed.context(ProgramFault::Write)?;
    }
    Ok(ExitCode::from(error.exit_code() as u8))
}

// Does what is asked for.
fn asked<R: Threads + Wait + Clock + Sync>(
    rt: &HostRuntime,
    threads: &R,
    request: Request<'_>,
) -> anyhow::Result<ExitCode> {
    match request {
        Request::Script(script) => scripted(rt, script),
        Request::Serve(serve) => served(rt, threads, serve),
        Request::Shell(shell) => shelled(rt, shell),
        Request::Inspect(inspect) => {
            run_look(rt, inspect.path, Form::Facts, inspect.progress)?;
            Ok(ExitCode::SUCCESS)
        }
        Request::Export(export) => exported(rt, export),
        Request::Import(import) => imported(rt, import),
        Request::Nothing => Ok(ExitCode::SUCCESS),
    }
}

// Writes an image as lines; says on standard error how many things they leave out, if any, and that is a status of its own.
fn exported(rt: &HostRuntime, export: ExportRequest<'_>) -> anyhow::Result<ExitCode> {
    let form = match export.form {
        ExportForm::Script => Form::Script,
        ExportForm::Accumulo => Form::Accumulo,
        ExportForm::Csv => Form::Csv,
    };
    let left = run_look(rt, export.path, form, export.progress)?;
    if left == 0 {
        return Ok(ExitCode::SUCCESS);
    }
    let _ = eprintln!(rt; "left out: {left}; each is a comment that begins \"# left out\"");
    Ok(ExitCode::from(LEFT_OUT))
}

// Writes CSV as lines.
fn imported(rt: &HostRuntime, import: ImportRequest<'_>) -> anyhow::Result<ExitCode> {
    let table = match import.table {
        Some(text) => Name::new(text.as_bytes()),
        None => None,
    };
    if import.table.is_some() && table.is_none() {
        return Ok(refused(rt, "the table isn't a name: 1 to 128 of a-z A-Z 0-9 _ - ."));
    }
    run_import(rt, import, &table)
}

// Runs a script.
fn scripted(rt: &HostRuntime, script: ScriptRequest<'_>) -> anyhow::Result<ExitCode> {
    let watch = RunOptions {
        strict: script.strict,
        quiet: script.quiet,
    };
    let style = style_of(script.prompted, script.explained || script.strict);
    match script.store {
        Some(folder) => {
            tell_file_limit(rt);
            run_kept(rt, folder, script.image, style, watch)
        }
        None => run_script(rt, script.image, style, watch),
    }
}

// What goes with the lines: prompts explain line faults too, and a strict run explains the one at which it stops.
fn style_of(prompted: bool, explained: bool) -> Style {
    match (prompted, explained) {
        (true, _) => Style::Prompted,
        (false, true) => Style::Explained,
        (false, false) => Style::Plain,
    }
}

// Runs a server.
fn served<R: Threads + Wait + Clock + Sync>(
    rt: &HostRuntime,
    threads: &R,
    serve: ServeRequest<'_>,
) -> anyhow::Result<ExitCode> {
    let Some(mode) = mode_of(serve.socket_mode.unwrap_or(SOCKET_MODE)) else {
        return Ok(refused(rt, "the mode isn't octal digits: 0 to 777"));
    };
    tell_file_limit(rt);
    let options = Options {
        workers: serve.workers,
        compactors: serve.compactors,
        accept: serve.accept,
        idle: serve.idle,
        rotate_at: ROTATE_AT,
    };
    run_serve(rt, threads, serve, mode, options)
}

// Runs a shell.
fn shelled(rt: &HostRuntime, shell: ShellRequest<'_>) -> anyhow::Result<ExitCode> {
    let Some(user) = Name::new(shell.user.as_bytes()) else {
        return Ok(refused(rt, "the user isn't a name: 1 to 128 of a-z A-Z 0-9 _ - ."));
    };
    let way = Way {
        place: shell.place,
        patience: Duration::from_secs(shell.timeout as u64),
        style: style_of(shell.prompted, shell.explained || shell.strict),
        watch: RunOptions {
            strict: shell.strict,
            quiet: shell.quiet,
        },
    };
    run_shell(rt, &way, user)
}
