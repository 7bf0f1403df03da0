//! `tabd import`.
use crate::escaped::Escaped;
use anyhow::Context;
use std::alloc::Global;
use std::fs::File;
use std::io::{Error, IsTerminal, Read, Write};
use std::process::ExitCode;
use tab_command::ImportRequest;
use tab_csv::{Faults, ImportFault, Mode, RecordFault, Tally, TextFault, import};
use tab_host::{Noting, Progress, ProgressStream};
use tab_io::{BlockReader, BlockWriter, Output};
use tab_key::Name;
use tab_prog::ProgramFault;

// The status of an import that left a record out.
const LEFT_OUT: u8 = 3;

/// Writes the records of a file of CSV as lines of a script to standard output, and tells on standard error which ones
/// mean nothing. `table` is that of all records, where no column names it. A fault names the file.
pub fn run_import(
    rt: &HostRuntime,
    asked: ImportRequest<'_>,
    table: &Option<Name>,
) -> anyhow::Result<ExitCode> {
    let tally = tally_of(rt, asked, table)?;
    if tally.bad == 0 {
        return Ok(ExitCode::SUCCESS);
    }
    let (name, bad, good) = (Escaped(&asked.path), tally.bad, tally.good);
    let _ = eprintln!(rt; "{name}: {bad} bad, {good} good");
    Ok(ExitCode::from(LEFT_OUT))
}

// Reads the file of this name, or standard input.
fn tally_of(
    rt: &HostRuntime,
    asked: ImportRequest<'_>,
    table: &Option<Name>,
) -> anyhow::Result<Tally> {
    if asked.path == "-" {
        return read(rt, asked, table, rt.stdin(), 0);
    }
    let (file, bytes) = opened(rt, asked.path)
        .with_context(|| ProgramFault::Read)
        .with_context(|| asked.path)?;
    read(rt, asked, table, file, bytes)
}

// The file of this name, and how many bytes it has.
fn opened(rt: &HostRuntime, path: &str) -> Result<(File, u64), Error> {
    let file = File::open(rt, path)?;
    let bytes = file.metadata()?.len();
    Ok((file, bytes))
}

// Reads a stream of so many bytes, or 0 where it isn't known.
fn read<R: Read + Drop>(
    rt: &HostRuntime,
    asked: ImportRequest<'_>,
    table: &Option<Name>,
    stream: R,
    bytes: u64,
) -> anyhow::Result<Tally> {
    let is_shown = asked.progress && (asked.check || !rt.stdout().is_terminal());
    let progress = Progress::new(rt, is_shown);
    let mut text = Noting::new(ProgressStream::new(stream, &progress, "reading", bytes));
    let mut lines = Noting::new(rt.stdout());
    let outcome = imported(rt, asked, table, &mut text, &mut lines);
    progress.end();
    match outcome {
        Ok(tally) => Ok(tally),
        Err(ImportFault::Write(_)) => Err(with_reason(ProgramFault::Write, lines.failure())),
        Err(ImportFault::Text(TextFault::Read)) => {
            Err(with_reason(ProgramFault::Read, text.failure()).context(asked.path))
        }
        Err(ImportFault::Text(TextFault::NoMemory)) => Err(ProgramFault::NoMemory.into()),
        Err(ImportFault::Header(fault)) => Err(anyhow::Error::from(fault).context(asked.path)),
    }
}

// Reads the records of a text, and writes the lines.
fn imported<R: Read + Drop, W: Write + Drop>(
    rt: &HostRuntime,
    asked: ImportRequest<'_>,
    table: &Option<Name>,
    text: R,
    lines: W,
) -> Result<Tally, ImportFault> {
    let alloc = rt.alloc();
    let Ok(input) = BlockReader::new(alloc, text) else {
        return Err(TextFault::NoMemory.into());
    };
    let Ok(mut output) = BlockWriter::new(alloc, lines) else {
        return Err(TextFault::NoMemory.into());
    };
    let mode = if asked.check {
        Mode::Check
    } else {
        Mode::Write
    };
    let mut told = Told {
        rt,
        name: asked.path,
    };
    let tally = import(alloc, input, table, mode, &mut output, &mut told);
    output.flush()?;
    tally
}

// The fault, with the system's reason behind it.
fn with_reason(fault: ProgramFault, reason: Option<Error>) -> anyhow::Error {
    match reason {
        Some(reason) => anyhow::Error::from(reason).context(fault),
        None => fault.into(),
    }
}

// Tells each fault of a record in a line on standard error.
#[derive(Drop)]
struct Told<'a> {
    rt: &'a HostRuntime,
    name: &'a str,
}

impl Faults for Told<'_> {
    fn tell(&mut self, line: u64, fault: &RecordFault) {
        let name = Escaped(&self.name);
        let _ = eprintln!(self.rt; "{name}:{line}: {fault}");
    }
}
