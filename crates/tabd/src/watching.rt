//! How a run of lines ends that is watched or prompted for.
use std::io::{Read, Write};
use std::process::ExitCode;
use tab_help::{PromptEnd, Prompting};
use tab_io::{Output, WriteFault};
use tab_watch::{Course, Replies};

// The status of a strict run that stopped.
const STOPPED: u8 = 3;

/// Says on standard error where a strict run has stopped, and of a quiet one how its lines were answered. Gives the status of the run.
pub fn ended<W: Write>(
    rt: &HostRuntime,
    course: &Course,
    replies: &mut Replies<'_, W>,
) -> ExitCode {
    let tally = replies.finish();
    if course.watch().quiet {
        let _ = eprintln!(rt; "{tally}");
    }
    if !course.has_stopped() {
        return ExitCode::SUCCESS;
    }
    // why a line wasn't sent, the prompt has said
    let stop = std::str::from_utf8(replies.stop()).unwrap_or("");
    if !stop.is_empty() {
        let _ = eprintln!(rt; "line {}: {stop}", course.line());
    }
    ExitCode::from(STOPPED)
}

/// Ends the prompts of a run. It is then at the line that was asked for last, and has stopped there if a line that wasn't sent stops it. An
/// error is a prompt that couldn't be written.
pub fn prompts_ended<R: Read, W: Output, N: Output>(
    course: &Course,
    lines: &mut Prompting<R, W, N>,
) -> Result<(), WriteFault> {
    course.set_line(lines.number());
    match lines.finish() {
        PromptEnd::Input => Ok(()),
        PromptEnd::Unsent => {
            course.stop();
            Ok(())
        }
        PromptEnd::Unwritten => Err(WriteFault),
    }
}
