//! A program for tests: it answers the frames of standard input on standard output, as one connection to a new core, at moment 0.
#![tactic(auto)]

use std::process::ExitCode;
use tab_core::Core;
use tab_io::{BlockReader, BlockWriter};
use tab_serve::{ListedMoments, serve};

fn main(rt: HostRuntime) -> ExitCode {
    match run(&rt) {
        Ok(()) => ExitCode::SUCCESS,
        Err(fault) => {
            let _ = eprintln!(rt; "fault: {fault:#}");
            ExitCode::FAILURE
        }
    }
}

// Serves the connection to its end.
fn run(rt: &HostRuntime) -> anyhow::Result<()> {
    let alloc = rt.alloc();
    let mut core = Core::new(alloc)?;
    let mut moments = ListedMoments::new(Vec::new(alloc));
    let mut input = BlockReader::new(alloc, rt.stdin())?;
    let mut output = BlockWriter::new(alloc, rt.stdout())?;
    serve(alloc, &mut input, &mut output, &mut moments, &mut core)?;
    Ok(())
}
