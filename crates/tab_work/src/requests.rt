//! Requests to the compactors.

use crate::Gate;
use crossbeam_channel::{Receiver, Sender};
use std::sync::Wait;

/// The gate of a server's workers: behind each Write that was done it asks the compactors to look for what is due, unless they are asked
/// already by a request that still waits. It holds nothing up.
#[derive(Drop)]
pub struct Requests<'a, R> {
    rt: &'a R,
    to: Sender<()>,
}

impl<'a, R> Requests<'a, R> {
    /// Requests go to this channel. It has no bound, and is closed once no gate is left.
    pub fn new(rt: &'a R, to: Sender<()>) -> Requests<'a, R> {
        Requests { rt, to }
    }
}

impl<R: Wait> Gate for Requests<'_, R> {
    fn before_merge(&self) {}

    fn before_batch(&self) {}

    fn after_write(&self) {
        // A request that waits is taken before the next look, which sees this write too. Where memory lacks for one it's passed over: the
        // next write sends another one.
        if self.to.is_empty() {
            let _ = self.to.send(self.rt, ());
        }
    }
}

/// Waits for a request, and takes those that wait with it: one look answers them all. Whether there was one, and the channel isn't closed.
pub fn wait_for_requests<R: Wait>(rt: &R, from: &Receiver<()>) -> bool {
    if from.recv(rt).is_err() {
        return false;
    }
    for _ in 0..from.len() {
        let _ = from.try_recv(rt);
    }
    true
}
