//! The files that lines name: what is done with them, and what is written of it.
ghost use Rattle.tab_prog.specs.Programs.{DoesWork};

use crate::files::Files;
use crate::outcome::{put_load_fault, put_save_fault};
use tab_io::{Output, WriteFault};
use tab_lines::{FileKind, FileLine, FileName};
use tab_shell::Script;

/// Does what an accepted line asks of its file, and writes what came of it. A core that is loaded takes the place of the script's,
/// and with a fault the script stays as it was.
pub fn work<F: Files, W: Output>(
    script: &mut Script,
    files: &mut F,
    line: FileLine,
    output: &mut W,
) -> Result<(), WriteFault>
    ensures { DoesWork F.Files W.Output line.kind line.name files.old script.old files.new script.new output.old output.new result }
{
    match line.kind {
        FileKind::Save => save(script, files, &line.name, output),
        FileKind::Load => load(script, files, &line.name, output),
    }
}

// A save.
fn save<F: Files, W: Output>(
    script: &Script,
    files: &mut F,
    name: &FileName,
    output: &mut W,
) -> Result<(), WriteFault>
    ensures { DoesWork F.Files W.Output FileKind.Save name.now files.old script.now files.new script.now output.old output.new result }
{
    match files.save(name, script.core()) {
        Ok(()) => output.put(b"ok\n"),
        Err(fault) => put_save_fault(output, fault),
    }
}

// A load.
fn load<F: Files, W: Output>(
    script: &mut Script,
    files: &mut F,
    name: &FileName,
    output: &mut W,
) -> Result<(), WriteFault>
    ensures { DoesWork F.Files W.Output FileKind.Load name.now files.old script.old files.new script.new output.old output.new result }
{
    match files.load(name) {
        Ok(core) => {
            script.replace(core);
            output.put(b"ok\n")
        }
        Err(fault) => put_load_fault(output, fault),
    }
}
