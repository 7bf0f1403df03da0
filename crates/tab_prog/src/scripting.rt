//! `tabd script`.
ghost use Rattle.std.specs.Prelude.{IfOk};
ghost use Rattle.tab_prog.specs.Programs.{IsFresh, RunsTo, RunsThrough, RunsProgram};
ghost use Rattle.tab_shell.specs.Scripts.{new_script};

use crate::files::Files;
use crate::filing::work;
use std::alloc::{AllocError, Global};
use tab_core::Core;
use tab_io::{Input, Output};
use tab_shell::{Ended, Script, ScriptFault};

/// Why a subcommand ended before its input did.
#[derive(Clone, Copy, Debug, PartialEq, Eq, thiserror::Error)]
pub enum ProgramFault {
    /// There was no memory to begin with. Nothing was read or written.
    #[error("there is no memory")]
    NoMemory,
    /// The input can't be read. Every line that ended before has been answered, and the answers are written.
    #[error("the input can't be read")]
    Read,
    /// The output can't be written. The lines that were taken have been answered, and a beginning of the answers is written.
    #[error("the output can't be written")]
    Write,
}

impl From<ScriptFault> for ProgramFault {
    ghost use Rattle.std.specs.Prelude.{◌≡◌};
    ghost use Rattle.tab_prog.specs.Programs.{program_fault};

    ghost from_gives = { λ fault e. e ≡ program_fault fault };

    fn from(fault: ScriptFault) -> ProgramFault {
        match fault {
            ScriptFault::Read => ProgramFault::Read,
            ScriptFault::Write => ProgramFault::Write,
        }
    }
}

/// Answers the lines of the input on the output, beginning with a new core, until the input ends.
///
/// What an accepted `save` or `load` asks of its file, `files` does; what came of it is answered as `ok`, or as `fault`, the command
/// and why. A core that was loaded takes the place of the one before, whose sessions and jobs are dropped.
///
/// An error says which side failed in the call, or that there was no memory for a core.
pub fn script<F: Files, R: Input, W: Output>(
    alloc: Global,
    files: &mut F,
    input: &mut R,
    output: &mut W,
) -> Result<(), ProgramFault>
    ensures { RunsProgram F.Files R.Input W.Output files.old input.old output.old files.new input.new output.new result }
{
    match begun(alloc) {
        Ok(script) => match answered(script, files, input, output) {
            Ok(()) => Ok(()),
            Err(fault) => Err(ProgramFault::from(fault)),
        },
        Err(AllocError) => Err(ProgramFault::NoMemory),
    }
}

/// Answers the lines of the input on the output, beginning with this core.
pub fn script_over<F: Files, R: Input, W: Output>(
    alloc: Global,
    core: Core,
    files: &mut F,
    input: &mut R,
    output: &mut W,
) -> Result<(), ScriptFault>
    ensures { RunsThrough F.Files R.Input W.Output (new_script core) files.old input.old output.old files.new input.new output.new result }
{
    answered(Script::new(alloc, core), files, input, output)
}

// A script over a new core.
fn begun(alloc: Global) -> Result<Script, AllocError>
    ensures { IfOk result (λ script. IsFresh script) }
{
    let core = Core::new(alloc)?;
    Ok(Script::new(alloc, core))
}

// Answers the lines by a script that is dropped at the end.
fn answered<F: Files, R: Input, W: Output>(
    mut script: Script,
    files: &mut F,
    input: &mut R,
    output: &mut W,
) -> Result<(), ScriptFault>
    ensures { RunsThrough F.Files R.Input W.Output script files.old input.old output.old files.new input.new output.new result }
{
    script_on(&mut script, files, input, output)
}

/// Answers the lines of the input on the output by this script, until the input ends, and leaves the script as they leave it.
///
/// What an accepted `save` or `load` asks of its file, `files` does, as in [`script`]. An error says which side failed; the lines answered
/// before it have taken effect.
pub fn script_on<F: Files, R: Input, W: Output>(
    script: &mut Script,
    files: &mut F,
    input: &mut R,
    output: &mut W,
) -> Result<(), ScriptFault>
    ensures { RunsTo F.Files R.Input W.Output script.old files.old input.old output.old script.new files.new input.new output.new result }
{
    loop {
        match script.run(input, output) {
            Ok(Ended::File(line)) => match work(script, files, line, output) {
                Ok(()) => {}
                Err(_) => return Err(ScriptFault::Write),
            },
            Ok(Ended::Input) => return Ok(()),
            Err(fault) => return Err(fault),
        }
    }
}
