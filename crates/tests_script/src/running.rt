//! Helpers: scripts, their inputs and outputs in memory, and how a run ends, as a word.
use std::alloc::Global;
use std::process::Abort;
use tab_core::Core;
use tab_io::memory::{PieceReader, PieceWriter};
use tab_io::{BlockReader, BlockWriter};
use tab_shell::{Script, ScriptFault};

/// A script over a new core.
pub fn new_script(rt: &impl Abort, alloc: Global) -> Script {
    Script::new(alloc, Core::new(alloc).expect(rt, "memory"))
}

/// What the reader gives, as an input.
pub fn input<'a>(
    rt: &impl Abort,
    alloc: Global,
    reader: PieceReader<'a>,
) -> BlockReader<PieceReader<'a>> {
    BlockReader::new(alloc, reader).expect(rt, "memory")
}

/// An output to the writer.
pub fn output(rt: &impl Abort, alloc: Global, writer: PieceWriter) -> BlockWriter<PieceWriter> {
    BlockWriter::new(alloc, writer).expect(rt, "memory")
}

/// An output that nothing fails, in pieces of 1,000 bytes.
pub fn new_output(rt: &impl Abort, alloc: Global) -> BlockWriter<PieceWriter> {
    output(rt, alloc, PieceWriter::new(alloc, 1000))
}

fn word_of(fault: ScriptFault) -> &'static [u8] {
    match fault {
        ScriptFault::Read => b"read",
        ScriptFault::Write => b"write",
    }
}

/// The script, run on the input, ends so: `end` where the input does, `read` or `write` by a fault.
pub fn expect_run(
    rt: &impl Abort,
    script: &mut Script,
    input: &mut BlockReader<PieceReader<'_>>,
    output: &mut BlockWriter<PieceWriter>,
    want: &[u8],
) {
    match script.run(input, output) {
        Ok(_) => assert!(rt; want == b"end".as_slice()),
        Err(fault) => assert!(rt; word_of(fault) == want),
    }
}

/// That much was written.
pub fn expect_written(rt: &impl Abort, output: &BlockWriter<PieceWriter>, want: &[u8]) {
    assert!(rt; output.get_ref().bytes() == want);
}
