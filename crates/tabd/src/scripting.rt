//! `tabd script`.
use crate::files::{Disk, loaded};
use crate::keeping::Keeping;
use crate::opening::{Opened, open_folder};
use crate::watching::{ended, prompts_ended};
use anyhow::Context;
use std::io::{IsTerminal, Read, Write};
use std::process::ExitCode;
use tab_core::Core;
use tab_folder::{Format, ScriptLog, SyncedWriter};
use tab_help::{Asks, Explaining, Prompting};
use tab_host::Noting;
use tab_io::{BlockReader, BlockWriter};
use tab_key::Name;
use tab_prog::{ProgramFault, script, script_over};
use tab_shell::Script;
use tab_watch::{Columns, Course, Replies, RunOptions, Steps};

/// What goes with the lines of a script.
#[derive(Clone, Copy, Debug, PartialEq, Eq)]
pub enum Style {
    /// Replies alone.
    Plain,
    /// Line faults are explained on standard error.
    Explained,
    /// Each line is prompted for.
    Prompted,
}

// What a script begins with.
#[derive(Drop)]
enum Begins<'a> {
    // A new core.
    New,
    // This core, which ends with the script.
    Over(Core),
    // What a folder keeps, which it keeps on.
    Kept(Keeping<'a>),
}

/// Answers the lines of standard input on standard output, by the core of this image, or by a new one. Gives the status; a fault tells the
/// system's reason.
pub fn run_script(
    rt: &HostRuntime,
    image: Option<&str>,
    style: Style,
    watch: RunOptions,
) -> anyhow::Result<ExitCode> {
    match loaded(rt, image)? {
        Some(core) => styled(rt, Begins::Over(core), style, watch),
        None => styled(rt, Begins::New, style, watch),
    }
}

/// Answers the lines by the core that this folder keeps; or, where it keeps none yet, by the one of the image, or a new one. Each line that
/// was answered is kept from then on; once the input has ended, the folder has an image of what the core is then.
pub fn run_kept(
    rt: &HostRuntime,
    path: &str,
    image: Option<&str>,
    style: Style,
    watch: RunOptions,
) -> anyhow::Result<ExitCode> {
    let Opened {
        mut folder,
        core,
        journal,
        ..
    } = open_folder(rt, path, image, Format::Lines)?;
    let log = ScriptLog::new(journal);
    let mut script = Script::new(rt.alloc(), core);
    let keeping = Keeping::new(path, &folder, &log, &mut script);
    let outcome = styled(rt, Begins::Kept(keeping), style, watch);
    if let Some(fault) = log.failure() {
        return Err(fault).with_context(|| path);
    }
    let status = outcome?;
    let _journal = folder
        .renew(script.core(), Format::Events)
        .with_context(|| path)?;
    Ok(status)
}

impl<'a> Begins<'a> {
    // The journal that is on the disk before anything is answered, if there is one.
    fn log(&self) -> Option<&'a ScriptLog> {
        match self {
            Begins::Kept(keeping) => Some(keeping.log()),
            Begins::New | Begins::Over(_) => None,
        }
    }
}

// Answers the lines of standard input on standard output, in this style. Gives the status; a fault tells the system's reason.
fn styled(
    rt: &HostRuntime,
    begins: Begins<'_>,
    style: Style,
    watch: RunOptions,
) -> anyhow::Result<ExitCode> {
    let course = Course::new(watch);
    let mut input = Noting::new(rt.stdin());
    let mut output = Noting::new(rt.stdout());
    let mut prompts = Noting::new(rt.stdout());
    let log = begins.log();
    let columns = Columns::new(
        rt.alloc(),
        SyncedWriter::new(&mut output, log),
        style == Style::Prompted && rt.stdout().is_terminal(),
    );
    let mut replies = Replies::new(rt.alloc(), &course, columns);
    let outcome = match style {
        Style::Plain => plain(rt, begins, &course, &mut input, &mut replies),
        Style::Explained => explained(rt, begins, &course, &mut input, &mut replies),
        Style::Prompted => prompted(rt, begins, &course, &mut input, &mut prompts, &mut replies),
    };
    let status = if has_failed(log) {
        // the lines that are counted needn't be on the disk
        ExitCode::FAILURE
    } else {
        ended(rt, &course, &mut replies)
    };
    drop(replies);
    match outcome {
        Ok(()) => Ok(status),
        Err(fault) => Err(with_reason(fault, &input, &output, &prompts)),
    }
}

// Whether the journal couldn't be written, if there is one.
fn has_failed(log: Option<&ScriptLog>) -> bool {
    match log {
        Some(log) => log.failure().is_some(),
        None => false,
    }
}

// The fault, with the system's reason behind it.
fn with_reason<R, W, P>(
    fault: ProgramFault,
    input: &Noting<R>,
    output: &Noting<W>,
    prompts: &Noting<P>,
) -> anyhow::Error {
    let reason = match fault {
        ProgramFault::Read => input.failure(),
        ProgramFault::Write => output.failure().or(prompts.failure()),
        ProgramFault::NoMemory => None,
    };
    match reason {
        Some(reason) => anyhow::Error::from(reason).context(fault),
        None => fault.into(),
    }
}

// The lines of the reader, one by one where the run is watched, answered on the writer.
fn plain<R: Read + Drop, W: Write + Drop>(
    rt: &HostRuntime,
    begins: Begins<'_>,
    course: &Course,
    reader: R,
    writer: W,
) -> Result<(), ProgramFault> {
    answered(rt, begins, Steps::new(rt.alloc(), course, reader), writer)
}

// The lines of the reader, answered on the writer.
fn answered<R: Read + Drop, W: Write + Drop>(
    rt: &HostRuntime,
    begins: Begins<'_>,
    reader: R,
    writer: W,
) -> Result<(), ProgramFault> {
    match begins {
        Begins::New => dropped(rt, None, reader, writer),
        Begins::Over(core) => dropped(rt, Some(core), reader, writer),
        Begins::Kept(keeping) => keeping.answer(rt, reader, writer),
    }
}

// Answers the lines where nothing is kept.
fn dropped<R: Read + Drop, W: Write + Drop>(
    rt: &HostRuntime,
    core: Option<Core>,
    reader: R,
    writer: W,
) -> Result<(), ProgramFault> {
    let alloc = rt.alloc();
    let Ok(mut input) = BlockReader::new(alloc, reader) else {
        return Err(ProgramFault::NoMemory);
    };
    let Ok(mut output) = BlockWriter::new(alloc, writer) else {
        return Err(ProgramFault::NoMemory);
    };
    let mut files = Disk::new(rt);
    match core {
        Some(core) => Ok(script_over(alloc, core, &mut files, &mut input, &mut output)?),
        None => script(alloc, &mut files, &mut input, &mut output),
    }
}

// Answers the lines, their faults explained on standard error.
fn explained<R: Read + Drop, W: Write + Drop>(
    rt: &HostRuntime,
    begins: Begins<'_>,
    course: &Course,
    reader: R,
    writer: W,
) -> Result<(), ProgramFault> {
    let alloc = rt.alloc();
    let Ok(notes) = BlockWriter::new(alloc, rt.stderr()) else {
        return Err(ProgramFault::NoMemory);
    };
    let steps = Steps::new(alloc, course, reader);
    answered(
        rt,
        begins,
        Explaining::new(alloc, Asks::Script, steps, notes),
        writer,
    )
}

// Answers the lines behind a prompt for each.
fn prompted<R: Read + Drop, P: Write + Drop, W: Write + Drop>(
    rt: &HostRuntime,
    begins: Begins<'_>,
    course: &Course,
    reader: R,
    prompts: P,
    writer: W,
) -> Result<(), ProgramFault> {
    let alloc = rt.alloc();
    let Ok(prompts) = BlockWriter::new(alloc, prompts) else {
        return Err(ProgramFault::NoMemory);
    };
    let Ok(notes) = BlockWriter::new(alloc, rt.stderr()) else {
        return Err(ProgramFault::NoMemory);
    };
    let Some(root) = Name::new(b"root") else {
        return Err(ProgramFault::NoMemory);
    };
    let asks = match &begins {
        Begins::Kept(_) => Asks::KeptScript,
        Begins::New | Begins::Over(_) => Asks::Script,
    };
    let strict = course.watch().strict;
    let mut lines = Prompting::new(alloc, reader, asks, root, strict, prompts, notes);
    let outcome = plain(rt, begins, course, &mut lines, writer);
    let said = prompts_ended(course, &mut lines);
    outcome?;
    said.map_err(|_| ProgramFault::Write)
}
