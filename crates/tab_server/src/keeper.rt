//! Who has a server's store make images, and the disk hold what it keeps.

use crate::backoff::Backoff;
use crate::log::{Log, NoImage};
use crate::{History, NotKept, Note, Store};
use crossbeam_channel::{Receiver, RecvTimeoutError};
use std::sync::Wait;
use std::sync::ledger::Ledger;
use std::time::{Clock, Duration};

// How many milliseconds lie between two questions whether an image is wanted.
const PAUSE: u64 = 50;

// How many milliseconds lie between two tries to make one, at first and at most.
const FIRST_PAUSE: u64 = 1_000;

const LONGEST_PAUSE: u64 = 60_000;

// How many milliseconds lie between two calls to have the disk hold what is kept.
const SYNC: u64 = 1_000;

/// Has the store make an image whenever it wants one, until nobody can send to the channel any more. One that isn't made is tried again
/// after a second, then after two, and so on up to a minute.
pub(crate) fn keep_images<L: Ledger, R: Wait + Clock, H: History, D: Store>(
    rt: &R,
    log: &Log<'_, L, D>,
    history: &H,
    others: &Receiver<()>,
) {
    let mut backoff = Backoff::new(FIRST_PAUSE, LONGEST_PAUSE);
    let mut pause = Duration::from_millis(PAUSE);
    let mut is_told = false;
    for _ in rt.forever() {
        if have_ended(rt, others, pause) {
            return;
        }
        match log.keep_image_if_wanted(rt) {
            Ok(()) | Err(NoImage::NotKept(NotKept::Failed)) => {
                backoff = Backoff::new(FIRST_PAUSE, LONGEST_PAUSE);
                pause = Duration::from_millis(PAUSE);
                is_told = false;
            }
            Err(lack) => {
                is_told = tell_once(history, lack, is_told);
                pause = backoff.pause();
            }
        }
    }
}

// Says why no image was made, where nobody has. Whether that was said.
fn tell_once<H: History>(history: &H, lack: NoImage, is_told: bool) -> bool {
    if lack == NoImage::NoMemory && !is_told {
        history.note(Note::NoImage);
        return true;
    }
    is_told
}

/// Has the disk hold what the store keeps, once a second, until nobody can send to the channel any more. It waits for nothing but the
/// disk.
pub(crate) fn sync_often<L: Ledger, R: Wait + Clock, D: Store>(
    rt: &R,
    log: &Log<'_, L, D>,
    others: &Receiver<()>,
) {
    for _ in rt.forever() {
        if have_ended(rt, others, Duration::from_millis(SYNC)) {
            return;
        }
        log.sync(rt);
    }
}

// Waits for so long, or until all have ended that hold a sender to this channel. Whether they have.
fn have_ended<R: Wait + Clock>(rt: &R, others: &Receiver<()>, pause: Duration) -> bool {
    others.recv_timeout(rt, pause) == Err(RecvTimeoutError::Disconnected)
}
