//! The lines that name a file: what they ask the core, and how an accepted one is handed back.
ghost use Rattle.std.specs.Prelude.{◌≡◌, MatchBool, MatchResult};
ghost use Rattle.tab_shell.specs.Progress.{HandsBack};
ghost use Rattle.tab_shell.specs.Scripts.{file_act};

use std::alloc::Global;
use std::mem;
use tab_history::{Act, Reply};
use tab_io::{Output, WriteFault};
use tab_lines::{FileKind, FileLine, FileName};

/// What a file line asks the core before anything is done with its file.
pub fn file_act(kind: FileKind) -> Act
    ensures { result ≡ file_act kind }
{
    match kind {
        FileKind::Save => Act::Save,
        FileKind::Load => Act::Load,
    }
}

/// Whether what was asked was done.
pub fn is_done(reply: &Reply) -> bool
    ensures { MatchBool result (reply.now ≡ Reply.Done) (reply.now ≡ Reply.Done → ⊥) }
{
    matches!(reply, Reply::Done)
}

/// The file line, taken out of its place, in which its kind is left alone.
pub fn taken(alloc: Global, file: &mut FileLine) -> FileLine
    ensures { result ≡ file.old }
{
    let none = FileName::new(Vec::new(alloc)).unwrap();
    FileLine {
        kind: file.kind,
        name: mem::replace(&mut file.name, none),
    }
}

/// Hands back a file line that was accepted, with nothing held unwritten.
pub fn hand_back<W: Output>(file: FileLine, output: &mut W) -> Result<Option<FileLine>, WriteFault>
    ensures { HandsBack W.Output file output.old output.new result }
{
    match output.flush() {
        Ok(()) => Ok(Some(file)),
        Err(fault) => Err(fault),
    }
}

/// What was printed of a line that isn't handed back.
pub fn printed(outcome: Result<(), WriteFault>) -> Result<Option<FileLine>, WriteFault>
    ensures { MatchResult outcome (λ _. result ≡ Ok None) (λ fault. result ≡ Err fault) }
{
    match outcome {
        Ok(()) => Ok(None),
        Err(fault) => Err(fault),
    }
}
