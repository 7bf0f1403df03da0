//! The command line, built.
use crate::importing::import_command;
use crate::looking::{export_command, inspect_command};
use clap::builder::ValueParser;
use clap::{Arg, ArgAction, ArgGroup, Command, Error, value_parser};
use std::alloc::{AllocError, Global};
use tab_help::{Asks, Forms, Kinds, forms};

/// The version that `tabd --version` tells.
const VERSION: &str = "0.19.0";

/// What help says of lines: the texts of `tab_help`.
#[derive(Drop)]
pub struct LineHelp {
    script: String,
    shell: String,
}

impl LineHelp {
    /// Takes memory for some 12,000 bytes.
    pub fn new(alloc: Global) -> Result<LineHelp, AllocError> {
        let script = help_of(alloc, Asks::Script)?;
        let shell = help_of(alloc, Asks::Shell)?;
        Ok(LineHelp { script, shell })
    }
}

// What it says of these lines.
fn help_of(alloc: Global, asks: Asks) -> Result<String, AllocError> {
    let of = match asks {
        Asks::Script | Asks::KeptScript => "a script",
        Asks::Shell => "a shell",
    };
    let text = format!(in alloc;
        "The lines of {of}. Words are separated by spaces; a line that begins with # says nothing.\n{}\n\
         The updates of a mutate:\n{}\n\nThe words:\n{}\n\
         docs/SCRIPT.md says what each line does, and what it answers.",
        Forms(asks),
        forms::UPDATES,
        Kinds(asks)
    );
    text.map_err(|_| AllocError)
}

/// The command line, with this help of lines.
pub fn command<'a>(alloc: Global, lines: &'a LineHelp) -> Result<Command<'a>, Error> {
    let script = Command::new(alloc, "script")
        .about("Answers the lines of standard input on standard output")
        .after_help(lines.script.as_str())
        .arg(explain(alloc))?
        .arg(prompt(alloc))?
        .arg(strict(alloc))?
        .arg(quiet(alloc))?
        .arg(image(alloc))?
        .arg(store(alloc))?;
    let tabd = Command::new(alloc, "tabd")
        .version(VERSION)
        .about(
            "A sorted store in memory whose every cell carries a label that says who may read it",
        )
        .after_help(lines.script.as_str())
        .subcommand_required(true)
        .arg_required_else_help(true)
        .subcommand(script)?
        .subcommand(serve_command(alloc)?)?
        .subcommand(shell_command(alloc, lines)?)?
        .subcommand(inspect_command(alloc)?)?
        .subcommand(export_command(alloc)?)?
        .subcommand(import_command(alloc)?)?;
    Ok(tabd)
}

// Whether line faults are explained.
fn explain<'a>(alloc: Global) -> Arg<'a> {
    Arg::new(alloc, "explain")
        .long("explain")
        .action(ArgAction::SetTrue)
        .help("Explains each line fault on standard error")
}

// Whether a run stops at the first fault or refusal.
fn strict<'a>(alloc: Global) -> Arg<'a> {
    Arg::new(alloc, "strict")
        .long("strict")
        .action(ArgAction::SetTrue)
        .help(
            "Stops at the first fault or refusal, with the line's number on standard error and status 3",
        )
}

// Whether a run prints only what isn't `ok`.
fn quiet<'a>(alloc: Global) -> Arg<'a> {
    Arg::new(alloc, "quiet")
        .long("quiet")
        .action(ArgAction::SetTrue)
        .help("Prints no reply ok, and at the end on standard error how many there were")
}

// The image to begin with.
fn image<'a>(alloc: Global) -> Arg<'a> {
    Arg::new(alloc, "image")
        .long("image")
        .value_name("FILE")
        .action(ArgAction::Set)
        .allow_hyphen_values(true)
        .help("Begins with what this image holds, and not with nothing")
}

// The folder that keeps what a script does.
fn store<'a>(alloc: Global) -> Arg<'a> {
    Arg::new(alloc, "store")
        .long("store")
        .value_name("FOLDER")
        .action(ArgAction::Set)
        .help("Begins with what this folder keeps, and keeps there each line that was answered")
}

// The folder that keeps what a server does.
fn server_store<'a>(alloc: Global) -> Arg<'a> {
    Arg::new(alloc, "store")
        .long("store")
        .value_name("FOLDER")
        .action(ArgAction::Set)
        .help("Begins with what this folder keeps, and keeps there all that is answered")
}

// How large a journal gets.
fn checkpoint<'a>(alloc: Global) -> Result<Arg<'a>, AllocError> {
    Arg::new(alloc, "checkpoint")
        .long("checkpoint")
        .value_name("BYTES")
        .value_parser(value_parser!(u64))
        .default_value("67108864")
        .help("From how many bytes of its journal on an image is made in the place of them")
        .requires_arg("store")
}

// When what is kept is on the disk.
fn sync<'a>(alloc: Global) -> Result<Arg<'a>, AllocError> {
    Arg::new(alloc, "sync")
        .long("sync")
        .value_name("WHEN")
        .value_parser(ValueParser::Names(&["always", "interval"]))
        .default_value("always")
        .help("When to sync: always (before each answer) or interval (once a second)")
        .requires_arg("store")
}

// Whether lines are prompted for.
fn prompt<'a>(alloc: Global) -> Arg<'a> {
    Arg::new(alloc, "prompt")
        .long("prompt")
        .action(ArgAction::SetTrue)
        .help(
            "Asks for each line by a prompt, answers help, and says on standard error why a line is a line fault",
        )
}

// The port of a server.
fn port<'a>(alloc: Global) -> Arg<'a> {
    Arg::new(alloc, "port")
        .long("port")
        .value_name("N")
        .value_parser(value_parser!(u16).range(1..65_536))
        .help("The port of 127.0.0.1, 1 to 65535")
}

// The socket file of a server.
fn socket<'a>(alloc: Global) -> Arg<'a> {
    Arg::new(alloc, "socket")
        .long("socket")
        .value_name("FILE")
        .action(ArgAction::Set)
        .help("The socket file in place of a port, whose rights say who may connect")
}

// The mode of a server's socket file.
fn socket_mode<'a>(alloc: Global) -> Result<Arg<'a>, AllocError> {
    Arg::new(alloc, "socket-mode")
        .long("socket-mode")
        .value_name("MODE")
        .action(ArgAction::Set)
        .help("The socket file's mode in octal digits, 600 by default")
        .conflicts_with("port")
}

// Where a server is: at a port or at a socket file, one of them.
fn place<'a>(alloc: Global) -> Result<ArgGroup<'a>, AllocError> {
    let place = ArgGroup::new(alloc, "place").required(true);
    place.arg("port")?.arg("socket")
}

// The command line of `serve`.
fn serve_command<'a>(alloc: Global) -> Result<Command<'a>, Error> {
    let serve = Command::new(alloc, "serve")
        .about("Answers frames on a port of this machine, or on a socket file")
        .arg(port(alloc))?
        .arg(socket(alloc))?
        .arg(socket_mode(alloc)?)?
        .group(place(alloc)?)?;
    with_telling(alloc, with_keeping(alloc, with_threads(alloc, serve)?)?)
}

// With its threads, and how long it serves.
fn with_threads<'a>(alloc: Global, serve: Command<'a>) -> Result<Command<'a>, Error> {
    let serve = serve
        .arg(workers(alloc))?
        .arg(compactors(alloc))?
        .arg(accept(alloc))?
        .arg(idle(alloc))?;
    Ok(serve)
}

// With what it begins with, and where it keeps what it does.
fn with_keeping<'a>(alloc: Global, serve: Command<'a>) -> Result<Command<'a>, Error> {
    let serve = serve
        .arg(image(alloc))?
        .arg(server_store(alloc))?
        .arg(sync(alloc)?)?
        .arg(checkpoint(alloc)?)?;
    Ok(serve)
}

// With what it tells beside its answers.
fn with_telling<'a>(alloc: Global, serve: Command<'a>) -> Result<Command<'a>, Error> {
    let serve = serve
        .arg(history(alloc))?
        .arg(metrics(alloc))?
        .arg(log(alloc))?;
    Ok(serve)
}

// How many connections are served at once.
fn workers<'a>(alloc: Global) -> Arg<'a> {
    Arg::new(alloc, "workers")
        .long("workers")
        .value_name("W")
        .value_parser(value_parser!(u32).range(1..65))
        .default_value("4")
        .help("How many connections are answered at once, 1 to 64")
}

// How many threads compact beside them.
fn compactors<'a>(alloc: Global) -> Arg<'a> {
    Arg::new(alloc, "compactors")
        .long("compactors")
        .value_name("C")
        .value_parser(value_parser!(u32).range(0..17))
        .default_value("1")
        .help("How many threads compact and split tablets beside them, 0 to 16")
}

// After how many connections it ends.
fn accept<'a>(alloc: Global) -> Arg<'a> {
    Arg::new(alloc, "accept")
        .long("accept")
        .value_name("K")
        .value_parser(value_parser!(u32))
        .default_value("0")
        .help("Exits after this many connections; 0: never")
}

// How long a connection may say nothing.
fn idle<'a>(alloc: Global) -> Arg<'a> {
    Arg::new(alloc, "idle")
        .long("idle")
        .value_name("SECONDS")
        .value_parser(value_parser!(u32))
        .default_value("600")
        .help("Closes a connection idle for this many seconds; 0: never")
}

// The file of a server's history.
fn history<'a>(alloc: Global) -> Arg<'a> {
    Arg::new(alloc, "history")
        .long("history")
        .value_name("FILE")
        .action(ArgAction::Set)
        .help("Appends what is asked to this file, as lines of a script")
}

// The file in which a server tells of itself.
fn metrics<'a>(alloc: Global) -> Arg<'a> {
    Arg::new(alloc, "metrics")
        .long("metrics")
        .value_name("FILE")
        .action(ArgAction::Set)
        .help(
            "Writes counts of what it does to this file every ten seconds, as Prometheus reads them",
        )
}

// Whether a server tells of connections.
fn log<'a>(alloc: Global) -> Arg<'a> {
    Arg::new(alloc, "log")
        .long("log")
        .action(ArgAction::SetTrue)
        .help("Tells each connection that has ended in a line on standard error")
}

// The command line of `shell`.
fn shell_command<'a>(alloc: Global, lines: &'a LineHelp) -> Result<Command<'a>, Error> {
    let timeout = Arg::new(alloc, "timeout")
        .long("timeout")
        .value_name("SECONDS")
        .value_parser(value_parser!(u32).range(1..86_401))
        .default_value("10")
        .help("How long the server is waited for, to connect and for its first answer, 1 to 86400");
    let user = Arg::new(alloc, "user")
        .long("user")
        .value_name("U")
        .action(ArgAction::Set)
        .allow_hyphen_values(true)
        .required(true)
        .help("Who asks");
    let shell = Command::new(alloc, "shell")
        .about("Asks a server what the lines of standard input say")
        .after_help(lines.shell.as_str())
        .arg(port(alloc))?
        .arg(socket(alloc))?
        .group(place(alloc)?)?
        .arg(user)?
        .arg(timeout)?
        .arg(explain(alloc))?
        .arg(prompt(alloc))?
        .arg(strict(alloc))?
        .arg(quiet(alloc))?;
    Ok(shell)
}
