//! Accepting connections.

use crate::clock::has_passed;
use crate::connections::Connections;
use crossbeam_channel::{SendError, Sender};
use std::io::{Error, ErrorKind};
use std::sync::Wait;
use std::thread;
use std::time::{Clock, Duration, Instant};
use tab_socket::{Connection, Listener, Stream};

// How many milliseconds are waited where the system can't accept: without descriptors or memory it would fail again at once.
const PAUSE: u64 = 50;

// For how many milliseconds who accepts has waited where no connection was in the system's queue.
const EMPTY: u64 = 1;

// For how many seconds a connection may wait for a worker before its peer is looked for.
const LONG: u64 = 1;

/// A connection that was accepted.
#[derive(Drop)]
pub(crate) struct Accepted {
    pub(crate) stream: Connection,
    // when it came at the earliest, if the clock told
    since: Option<Instant>,
}

impl Accepted {
    /// Whether it may have waited for longer than a second, so that its peer may have gone.
    pub(crate) fn may_have_waited(&self, clock: &impl Clock) -> bool {
        match self.since {
            Some(since) => has_passed(clock, since, Duration::from_secs(LONG)),
            None => false,
        }
    }
}

/// Accepts connections and hands them on, up to so many, or without end where that is 0, as long as the connections aren't closed. Then
/// the channel is closed. Of each a read or a write that waits so many seconds fails, or waits without end where that is 0.
///
/// A connection that can't be accepted, or handed on for want of memory, is passed over, and not counted.
pub(crate) fn accept_all<R: Wait + Clock, N: Listener>(
    rt: &R,
    listener: &N,
    to: Sender<Accepted>,
    accept: u32,
    idle: u32,
    connections: &Connections,
) {
    let mut left = accept;
    let mut since = Instant::now(rt).ok();
    for _ in rt.forever() {
        if connections.are_closed() {
            return;
        }
        let asked = Instant::now(rt).ok();
        match listener.next() {
            Ok(stream) => {
                limit(&stream, idle);
                since = came_since(rt, asked, since);
                if let Err(SendError::Disconnected(_)) = to.send(rt, Accepted { stream, since }) {
                    return;
                }
                left = left.saturating_sub(1);
                if left == 0 && accept > 0 {
                    return;
                }
            }
            Err(fault) => pass_over(rt, &fault),
        }
    }
}

// When a connection came at the earliest that was accepted now, and asked for then: now, where that had to be waited for, and else when
// the one before it did.
fn came_since(
    clock: &impl Clock,
    asked: Option<Instant>,
    before: Option<Instant>,
) -> Option<Instant> {
    match asked {
        Some(asked) if has_passed(clock, asked, Duration::from_millis(EMPTY)) => {
            Instant::now(clock).ok()
        }
        _ => before,
    }
}

// Has a read or a write of the stream fail that waits so many seconds, unless that is 0. Where the system can't, it waits without end.
fn limit<S: Stream>(stream: &S, seconds: u32) {
    if seconds > 0 {
        let longest = Some(Duration::from_secs(seconds as u64));
        let _ = stream.set_read_timeout(longest);
        let _ = stream.set_write_timeout(longest);
    }
}

// What was aborted by the peer or interrupted is tried again at once, all else after a pause.
fn pass_over(clock: &impl Clock, fault: &Error) {
    match fault.kind() {
        ErrorKind::ConnectionAborted | ErrorKind::ConnectionReset | ErrorKind::Interrupted => {}
        _ => thread::sleep(clock, Duration::from_millis(PAUSE)),
    }
}
