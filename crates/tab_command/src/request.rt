//! What a command line asks for.
use crate::building::{LineHelp, command};
use crate::importing::{ImportRequest, import_request};
use crate::looking::{ExportRequest, InspectRequest, export_request, inspect_request};
use clap::{ArgMatches, Error};
use std::alloc::Global;

/// What a command line asks for: a subcommand, with its options.
#[derive(Clone, Copy)]
pub enum Request<'a> {
    /// `tabd script`.
    Script(ScriptRequest<'a>),
    /// `tabd serve`.
    Serve(ServeRequest<'a>),
    /// `tabd shell`.
    Shell(ShellRequest<'a>),
    /// `tabd inspect`.
    Inspect(InspectRequest<'a>),
    /// `tabd export`.
    Export(ExportRequest<'a>),
    /// `tabd import`.
    Import(ImportRequest<'a>),
    /// None of them. The command line asks for one, so this is never read.
    Nothing,
}

/// Where a server is.
#[derive(Clone, Copy)]
pub enum ServerAddress<'a> {
    /// A port of 127.0.0.1, 1 to 65,535.
    Port(u16),
    /// A socket file.
    Socket(&'a str),
}

/// What `tabd script` is asked for.
#[derive(Clone, Copy)]
pub struct ScriptRequest<'a> {
    /// The file of the image to begin with.
    pub image: Option<&'a str>,
    /// The folder that keeps what the script does.
    pub store: Option<&'a str>,
    /// Whether line faults are explained.
    pub explained: bool,
    /// Whether lines are prompted for.
    pub prompted: bool,
    /// Whether it stops at the first fault or refusal.
    pub strict: bool,
    /// Whether it prints only what isn't `ok`.
    pub quiet: bool,
}

/// When what a server keeps is on the disk.
#[derive(Clone, Copy, Debug, PartialEq, Eq)]
pub enum SyncMode {
    /// Before anything is answered that rests on it.
    Always,
    /// Within about a second.
    Interval,
}

/// What `tabd serve` is asked for.
#[derive(Clone, Copy)]
pub struct ServeRequest<'a> {
    /// The file of the image to begin with.
    pub image: Option<&'a str>,
    /// The folder that keeps what it does.
    pub store: Option<&'a str>,
    /// When what it does is on the disk.
    pub sync: SyncMode,
    /// From how many bytes of its journal on an image is made.
    pub checkpoint: u64,
    /// The file that its history goes to.
    pub history: Option<&'a str>,
    /// The file that it tells of itself in.
    pub metrics: Option<&'a str>,
    /// Whether it tells of each connection that has ended.
    pub logged: bool,
    /// Where it is.
    pub place: ServerAddress<'a>,
    /// The mode of its socket file, as it is written.
    pub socket_mode: Option<&'a str>,
    /// How many connections are answered at once, 1 to 64.
    pub workers: u32,
    /// How many threads compact and split tablets, 0 to 16.
    pub compactors: u32,
    /// After how many connections it ends, or 0 for never.
    pub accept: u32,
    /// After how many seconds a connection ends that says and takes nothing, or 0 for never.
    pub idle: u32,
}

/// What `tabd shell` is asked for.
#[derive(Clone, Copy)]
pub struct ShellRequest<'a> {
    /// Who asks.
    pub user: &'a str,
    /// Where the server is.
    pub place: ServerAddress<'a>,
    /// Whether line faults are explained.
    pub explained: bool,
    /// Whether lines are prompted for.
    pub prompted: bool,
    /// Whether it stops at the first fault or refusal.
    pub strict: bool,
    /// Whether it prints only what isn't `ok`.
    pub quiet: bool,
    /// For how many seconds the server is waited for, 1 to 86,400.
    pub timeout: u32,
}

/// Reads the words of a command line, of which the first is the program's name. `lines` is what help says of lines.
///
/// An error has the help or the version that was asked for, why the words are refused, or want of memory.
pub fn parse<'a>(
    alloc: Global,
    lines: &'a LineHelp,
    words: &'a [String],
) -> Result<Request<'a>, Error> {
    let matches = command(alloc, lines)?.try_get_matches_from(words)?;
    Ok(requested(&matches))
}

// What was matched.
fn requested<'a>(matches: &ArgMatches<'a>) -> Request<'a> {
    if let Some(script) = matches.subcommand_matches("script") {
        return Request::Script(script_request(script));
    }
    if let Some(serve) = matches.subcommand_matches("serve") {
        return Request::Serve(serve_request(serve));
    }
    if let Some(inspect) = matches.subcommand_matches("inspect") {
        return Request::Inspect(inspect_request(inspect));
    }
    if let Some(export) = matches.subcommand_matches("export") {
        return Request::Export(export_request(export));
    }
    if let Some(import) = matches.subcommand_matches("import") {
        return Request::Import(import_request(import));
    }
    match matches.subcommand_matches("shell") {
        Some(shell) => Request::Shell(shell_request(shell)),
        None => Request::Nothing,
    }
}

fn script_request<'a>(script: &ArgMatches<'a>) -> ScriptRequest<'a> {
    ScriptRequest {
        image: script.get_str("image"),
        store: script.get_str("store"),
        explained: script.get_flag("explain"),
        prompted: script.get_flag("prompt"),
        strict: script.get_flag("strict"),
        quiet: script.get_flag("quiet"),
    }
}

fn serve_request<'a>(serve: &ArgMatches<'a>) -> ServeRequest<'a> {
    ServeRequest {
        image: serve.get_str("image"),
        store: serve.get_str("store"),
        sync: sync_mode(serve),
        checkpoint: serve.get_one::<u64>("checkpoint").unwrap_or(u64::MAX),
        history: serve.get_str("history"),
        metrics: serve.get_str("metrics"),
        logged: serve.get_flag("log"),
        place: place_in(serve),
        socket_mode: serve.get_str("socket-mode"),
        workers: serve.get_one::<u32>("workers").unwrap_or(4),
        compactors: serve.get_one::<u32>("compactors").unwrap_or(1),
        accept: serve.get_one::<u32>("accept").unwrap_or(0),
        idle: serve.get_one::<u32>("idle").unwrap_or(600),
    }
}

fn shell_request<'a>(shell: &ArgMatches<'a>) -> ShellRequest<'a> {
    ShellRequest {
        user: shell.get_str("user").unwrap_or(""),
        place: place_in(shell),
        explained: shell.get_flag("explain"),
        prompted: shell.get_flag("prompt"),
        strict: shell.get_flag("strict"),
        quiet: shell.get_flag("quiet"),
        timeout: shell.get_one::<u32>("timeout").unwrap_or(10),
    }
}

// When what is kept is on the disk.
fn sync_mode(serve: &ArgMatches<'_>) -> SyncMode {
    match serve.get_str("sync") {
        Some("interval") => SyncMode::Interval,
        _ => SyncMode::Always,
    }
}

// The port or the socket file, one of which a command line can't do without.
fn place_in<'a>(subcommand: &ArgMatches<'a>) -> ServerAddress<'a> {
    match subcommand.get_str("socket") {
        Some(file) => ServerAddress::Socket(file),
        None => ServerAddress::Port(subcommand.get_one::<u16>("port").unwrap_or(0)),
    }
}
