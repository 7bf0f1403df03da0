//! Scripts cut anywhere, and what a fault in the middle of a stream leaves.
use crate::running::{expect_run, expect_written, input, new_output, new_script, output};
use std::alloc::Global;
use std::io::ErrorKind;
use std::process::Abort;
use tab_io::memory::{Fault, PieceReader, PieceWriter};
use tab_lines::lines_are_forms;

const LINES: &[u8] =
    b"createtable t\ninsert t r f q \\e v 5\nbogus\nflush t\ncompact t full\nscan t \\0";

const TOLD: &[u8] = b"ok\nok\nline fault\nok\nok\nr f q \\e 5 v\nend\n";

// A new script prints this for the lines, read in pieces of this length.
fn expect_told(rt: &impl Abort, alloc: Global, lines: &[u8], piece: usize, want: &[u8]) {
    let mut script = new_script(rt, alloc);
    let mut input = input(rt, alloc, PieceReader::new(lines, piece));
    let mut output = new_output(rt, alloc);
    expect_run(rt, &mut script, &mut input, &mut output, b"end");
    expect_written(rt, &output, want);
    let _core = script.core();
}

#[test]
fn answers_lines_wherever_they_are_cut(rt: HostRuntime) {
    lines_are_forms();
    for piece in [1, 7, 1000] {
        expect_told(&rt, rt.alloc(), LINES, piece, TOLD);
    }
}

const STOPPED: &[u8] = b"createtable t\nscan t \\0  \nscan nope \\0\n";

#[test]
fn goes_on_behind_a_fault_of_the_reader(rt: HostRuntime) {
    let alloc = rt.alloc();
    let kind = ErrorKind::Other;
    let mut script = new_script(&rt, alloc);
    let reader = PieceReader::new(STOPPED, 14).failing(Fault { after: 1, kind });
    let mut input = input(&rt, alloc, reader);
    let mut output = new_output(&rt, alloc);
    expect_run(&rt, &mut script, &mut input, &mut output, b"read");
    expect_written(&rt, &output, b"ok\n");
    expect_run(&rt, &mut script, &mut input, &mut output, b"end");
    expect_written(&rt, &output, b"ok\nend\nrefused 2 NoTable nope\n")
}

#[test]
fn stops_at_a_fault_of_the_writer(rt: HostRuntime) {
    let alloc = rt.alloc();
    let kind = ErrorKind::Other;
    let mut script = new_script(&rt, alloc);
    let mut input = input(&rt, alloc, PieceReader::new(STOPPED, 14));
    let writer = PieceWriter::new(alloc, 2).failing(Fault { after: 2, kind });
    let mut output = output(&rt, alloc, writer);
    expect_run(&rt, &mut script, &mut input, &mut output, b"write");
    expect_written(&rt, &output, b"ok")
}
