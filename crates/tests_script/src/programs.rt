//! A subcommand whose input or output fails.
use crate::running::{input, output};
use std::alloc::Global;
use std::io::ErrorKind;
use std::process::Abort;
use tab_core::Core;
use tab_io::memory::{Fault, PieceReader, PieceWriter};
use tab_io::{BlockReader, BlockWriter};
use tab_prog::{FileName, Files, LoadFault, ProgramFault, SaveFault, script};

// No files at all.
#[derive(Drop)]
struct NoFiles;

impl Files for NoFiles {
    ghost saves = { λ _ _ _ _ _. Unit {0} };

    ghost loads = { λ _ _ _ _. Unit {0} };

    fn save(&mut self, _name: &FileName, _core: &Core) -> Result<(), SaveFault> {
        Err(SaveFault::Io)
    }

    fn load(&mut self, _name: &FileName) -> Result<Core, LoadFault> {
        Err(LoadFault::Io)
    }
}

const LINES: &[u8] = b"createtable t\ninsert t r f q \\e v 5\nscan t \\0\n";

const ANSWERS: &[u8] = b"ok\nok\nr f q \\e 5 v\nend\n";

fn run(
    alloc: Global,
    input: &mut BlockReader<PieceReader<'_>>,
    output: &mut BlockWriter<PieceWriter>,
) -> Result<(), ProgramFault> {
    script(alloc, &mut NoFiles, input, output)
}

// What is written of the answers where the subcommand ends with this fault.
fn written(
    rt: &impl Abort,
    alloc: Global,
    reader: PieceReader<'_>,
    writer: PieceWriter,
    want: ProgramFault,
) -> Vec<u8> {
    let mut input = input(rt, alloc, reader);
    let mut output = output(rt, alloc, writer);
    assert!(rt; run(alloc, &mut input, &mut output) == Err(want));
    Vec::from_slice(alloc, output.get_ref().bytes()).expect(rt, "memory")
}

// The fault behind one call.
fn behind_one() -> Fault {
    let kind = ErrorKind::Other;
    Fault { after: 1, kind }
}

#[test]
fn tells_that_the_input_failed(rt: HostRuntime) {
    let reader = PieceReader::new(LINES, 14).failing(behind_one());
    let writer = PieceWriter::new(rt.alloc(), 10);
    let answers = written(&rt, rt.alloc(), reader, writer, ProgramFault::Read);
    assert!(rt; answers.as_slice() == b"ok\n".as_slice());
}

// A beginning of the answers is written then.
#[test]
fn tells_that_the_output_failed(rt: HostRuntime) {
    let reader = PieceReader::new(LINES, 14);
    let writer = PieceWriter::new(rt.alloc(), 2).failing(behind_one());
    let answers = written(&rt, rt.alloc(), reader, writer, ProgramFault::Write);
    assert!(rt; ANSWERS.starts_with(&answers));
}
