//! The end of a connection of which not all was read.

use std::time::{Clock, Duration, Instant};
use tab_socket::Stream;

// For how long it is read at most, in seconds, and how many pieces of how many bytes are passed over at most: 16 MiB.
const WAIT: u64 = 1;

const PIECES: usize = 256;

const PIECE: usize = 65_536;

/// Tells the peer the end behind what was written, and passes over what it still sends, for a second in all. A socket that is closed with
/// bytes unread would take back from the peer what it hadn't read of the replies.
#[inline(never)]
pub(crate) fn linger<S: Stream>(clock: &impl Clock, stream: &S) {
    let Ok(closer) = stream.closer() else {
        return;
    };
    let Ok(begun) = Instant::now(clock) else {
        return;
    };
    closer.close_writing();
    let mut piece = [0; PIECE];
    for _ in 0..PIECES {
        let Some(left) = left_since(clock, begun) else {
            return;
        };
        let _ = stream.set_read_timeout(Some(left));
        match stream.receive(&mut piece) {
            Ok(0) | Err(_) => return,
            Ok(_) => {}
        }
    }
}

// How much is left of the time since then; none where it's over, or the clock doesn't tell.
fn left_since(clock: &impl Clock, begun: Instant) -> Option<Duration> {
    let passed = begun.elapsed(clock).ok()?;
    let left = Duration::from_secs(WAIT).saturating_sub(passed);
    if left.is_zero() { None } else { Some(left) }
}
