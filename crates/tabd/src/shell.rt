//! `tabd shell`.
use crate::scripting::Style;
use crate::watching::{ended, prompts_ended};
use anyhow::Context;
use std::io::{Error, ErrorKind, IsTerminal, Read, Write};
use std::net::{Ipv4Addr, SocketAddr, TcpStream};
use std::os::unix::net::UnixStream;
use std::process::ExitCode;
use std::time::Duration;
use std::{io, thread};
use tab_command::ServerAddress;
use tab_help::{Asks, Explaining, Prompting};
use tab_host::{FirstWait, NetFault, Noting};
use tab_io::{BlockReader, BlockWriter};
use tab_key::Name;
use tab_prog::{ShellFault, shell_run};
use tab_socket::{End, Stream};
use tab_watch::{Columns, Course, Replies, RunOptions, Steps};

// How many milliseconds stand between two tries to reach a server.
const PAUSE: u64 = 50;

/// Whom a shell asks, and how.
#[derive(Clone, Copy)]
pub struct Way<'a> {
    /// Where the server is.
    pub place: ServerAddress<'a>,
    /// How long the server is waited for, to connect and for its first answer.
    pub patience: Duration,
    /// What goes with the lines.
    pub style: Style,
    /// What is asked of the run.
    pub watch: RunOptions,
}

/// Asks the server what the lines of standard input say, as this user, and prints what it tells on standard output. Gives the status; a
/// fault tells the system's reason.
pub fn run_shell(rt: &HostRuntime, way: &Way<'_>, user: Name) -> anyhow::Result<ExitCode> {
    match way.place {
        ServerAddress::Port(port) => shell_over(rt, way, connected(rt, port, way.patience)?, user),
        ServerAddress::Socket(name) => shell_over(rt, way, opened(rt, name, way.patience)?, user),
    }
}

// Asks over a connection.
fn shell_over<S: Stream>(
    rt: &HostRuntime,
    way: &Way<'_>,
    stream: S,
    user: Name,
) -> anyhow::Result<ExitCode> {
    let mut first = FirstWait::new(&stream, way.patience)?;
    let course = Course::new(way.watch);
    let mut lines = Noting::new(rt.stdin());
    let mut out = Noting::new(rt.stdout());
    let mut prompts = Noting::new(rt.stdout());
    let mut reader = Noting::new(&mut first);
    let mut writer = Noting::new(End::new(&stream));
    let columns = Columns::new(
        rt.alloc(),
        &mut out,
        way.style == Style::Prompted && rt.stdout().is_terminal(),
    );
    let mut replies = Replies::new(rt.alloc(), &course, columns);
    let outcome = styled(
        rt,
        way.style,
        &course,
        &mut lines,
        &mut prompts,
        &mut replies,
        &mut reader,
        &mut writer,
        user,
    );
    let status = ended(rt, &course, &mut replies);
    drop(replies);
    let Err(fault) = outcome else {
        return Ok(status);
    };
    let reason = match fault {
        ShellFault::Read => lines.failure(),
        ShellFault::Write => out.failure().or(prompts.failure()),
        ShellFault::Send => writer.failure(),
        ShellFault::Receive => reader.failure(),
        _ => None,
    };
    drop(reader);
    if first.is_late() {
        return Err(silent(way.place));
    }
    Err(with_reason(fault, reason))
}

// A connection to the server on a port.
fn connected(rt: &HostRuntime, port: u16, patience: Duration) -> anyhow::Result<TcpStream> {
    let fault = NetFault::Connect(port);
    let stream = port_stream(rt, port, patience).with_context(|| fault)?;
    stream.set_nodelay(true).with_context(|| fault)?;
    Ok(stream)
}

// A connection to a port, which is asked again for so long while nobody listens there.
fn port_stream(rt: &HostRuntime, port: u16, patience: Duration) -> io::Result<TcpStream> {
    let address = SocketAddr::from((Ipv4Addr::LOCALHOST, port));
    for _ in 0..pauses_in(patience) {
        match another_stream(rt, &address, patience) {
            Err(error) if is_nobody(&error) => thread::sleep(rt, Duration::from_millis(PAUSE)),
            outcome => return outcome,
        }
    }
    another_stream(rt, &address, patience)
}

// A connection to another one's port: where nobody listens, the system may connect a port to itself.
fn another_stream(
    rt: &HostRuntime,
    address: &SocketAddr,
    patience: Duration,
) -> io::Result<TcpStream> {
    let stream = TcpStream::connect_timeout(rt, address, patience)?;
    if stream.local_addr()?.port() == address.port() {
        return Err(Error::from(ErrorKind::ConnectionRefused));
    }
    Ok(stream)
}

// A connection to the server at a socket file.
fn opened(rt: &HostRuntime, name: &str, patience: Duration) -> anyhow::Result<UnixStream> {
    let stream = file_stream(rt, name, patience)
        .with_context(|| NetFault::NoServer)
        .with_context(|| name)?;
    Ok(stream)
}

// A connection to a socket file, which is asked again for so long while it isn't there, or nobody listens.
fn file_stream(rt: &HostRuntime, name: &str, patience: Duration) -> io::Result<UnixStream> {
    for _ in 0..pauses_in(patience) {
        match UnixStream::connect(rt, name) {
            Err(error) if is_nobody(&error) => thread::sleep(rt, Duration::from_millis(PAUSE)),
            outcome => return outcome,
        }
    }
    UnixStream::connect(rt, name)
}

// Whether nobody is there, or nobody yet.
fn is_nobody(error: &Error) -> bool {
    matches!(
        error.kind(),
        ErrorKind::ConnectionRefused | ErrorKind::NotFound
    )
}

// How often a server is asked again in this time.
fn pauses_in(time: Duration) -> u64 {
    time.as_secs().saturating_mul(1000 / PAUSE)
}

// The fault of a server that gives no first answer.
fn silent(place: ServerAddress<'_>) -> anyhow::Error {
    match place {
        ServerAddress::Port(port) => NetFault::Silent(port).into(),
        ServerAddress::Socket(name) => anyhow::Error::from(NetFault::NoAnswer).context(name),
    }
}

// The lines, with what goes with them, asked of the server.
fn styled<L: Read + Drop, P: Write + Drop, O: Write + Drop, R: Read + Drop, W: Write + Drop>(
    rt: &HostRuntime,
    style: Style,
    course: &Course,
    lines: L,
    prompts: P,
    out: O,
    reader: R,
    writer: W,
    user: Name,
) -> Result<(), ShellFault> {
    match style {
        Style::Plain => plain(rt, course, lines, out, reader, writer, user),
        Style::Explained => explained(rt, course, lines, out, reader, writer, user),
        Style::Prompted => prompted(rt, course, lines, prompts, out, reader, writer, user),
    }
}

// The fault, with the system's reason behind it.
fn with_reason(fault: ShellFault, reason: Option<Error>) -> anyhow::Error {
    match reason {
        Some(reason) => anyhow::Error::from(reason).context(fault),
        None => fault.into(),
    }
}

// Each line, asked of the server.
fn asked<L: Read + Drop, O: Write + Drop, R: Read + Drop, W: Write + Drop>(
    rt: &HostRuntime,
    lines: L,
    out: O,
    reader: R,
    writer: W,
    user: Name,
) -> Result<(), ShellFault> {
    let alloc = rt.alloc();
    let Ok(mut lines) = BlockReader::new(alloc, lines) else {
        return Err(ShellFault::NoMemory);
    };
    let Ok(mut out) = BlockWriter::new(alloc, out) else {
        return Err(ShellFault::NoMemory);
    };
    let Ok(mut reader) = BlockReader::new(alloc, reader) else {
        return Err(ShellFault::NoMemory);
    };
    let Ok(mut writer) = BlockWriter::new(alloc, writer) else {
        return Err(ShellFault::NoMemory);
    };
    shell_run(alloc, &mut lines, &mut out, &mut reader, &mut writer, user)
}

// Each line, one by one where the run is watched.
fn plain<L: Read + Drop, O: Write + Drop, R: Read + Drop, W: Write + Drop>(
    rt: &HostRuntime,
    course: &Course,
    lines: L,
    out: O,
    reader: R,
    writer: W,
    user: Name,
) -> Result<(), ShellFault> {
    asked(
        rt,
        Steps::new(rt.alloc(), course, lines),
        out,
        reader,
        writer,
        user,
    )
}

// Asks each line, their faults explained on standard error.
fn explained<L: Read + Drop, O: Write + Drop, R: Read + Drop, W: Write + Drop>(
    rt: &HostRuntime,
    course: &Course,
    lines: L,
    out: O,
    reader: R,
    writer: W,
    user: Name,
) -> Result<(), ShellFault> {
    let alloc = rt.alloc();
    let Ok(notes) = BlockWriter::new(alloc, rt.stderr()) else {
        return Err(ShellFault::NoMemory);
    };
    let steps = Steps::new(alloc, course, lines);
    let lines = Explaining::new(alloc, Asks::Shell, steps, notes);
    asked(rt, lines, out, reader, writer, user)
}

// Asks each line behind a prompt.
fn prompted<L: Read + Drop, P: Write + Drop, O: Write + Drop, R: Read + Drop, W: Write + Drop>(
    rt: &HostRuntime,
    course: &Course,
    lines: L,
    prompts: P,
    out: O,
    reader: R,
    writer: W,
    user: Name,
) -> Result<(), ShellFault> {
    let alloc = rt.alloc();
    let Ok(prompts) = BlockWriter::new(alloc, prompts) else {
        return Err(ShellFault::NoMemory);
    };
    let Ok(notes) = BlockWriter::new(alloc, rt.stderr()) else {
        return Err(ShellFault::NoMemory);
    };
    let strict = course.watch().strict;
    let mut lines = Prompting::new(alloc, lines, Asks::Shell, user, strict, prompts, notes);
    let outcome = plain(rt, course, &mut lines, out, reader, writer, user);
    let said = prompts_ended(course, &mut lines);
    outcome?;
    said.map_err(|_| ShellFault::Write)
}
