//! Standard streams that are closed.

use std::fs::{File, OpenOptions};
use std::io::Error;
use std::os::fd::{AsRawFd, RawFd};

// What is opened in a closed stream's place.
const NOTHING: &str = "/dev/null";

/// Files in the places of those standard streams that are closed, for as long as this is held. Without them the next file that is opened,
/// as a journal, or the next socket would get a stream's number, and with it all that is meant for the stream. None of them can be used
/// as the stream: each read or write still tells that its descriptor is bad.
#[derive(Drop)]
pub(crate) struct ClosedStreams {
    _input: Option<File>,
    _output: Option<File>,
    _errors: Option<File>,
}

impl ClosedStreams {
    /// Takes the places that are free. What is opened gets the least number that is.
    pub(crate) fn hold(rt: &HostRuntime) -> ClosedStreams {
        let input = up_to(0, OpenOptions::new().write(true).open(rt, NOTHING));
        let output = up_to(2, File::open(rt, NOTHING));
        let errors = up_to(2, File::open(rt, NOTHING));
        ClosedStreams {
            _input: input,
            _output: output,
            _errors: errors,
        }
    }
}

// The file that was opened, where its number is at most the last one.
fn up_to(last: RawFd, opened: Result<File, Error>) -> Option<File> {
    let file = opened.ok()?;
    if file.as_raw_fd() <= last {
        Some(file)
    } else {
        None
    }
}
