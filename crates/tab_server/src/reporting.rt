//! Who reports what a server tells of itself.

use crate::accepting::Accepted;
use crate::counters::Counters;
use crate::{Figures, History};
use crossbeam_channel::Receiver;
use std::sync::Wait;
use std::sync::ledger::Ledger;
use std::time::{Clock, Duration, Instant};
use tab_work::Shared;

// How many seconds lie between two reports.
const PERIOD: u64 = 10;

/// It reports when a server begins, every ten seconds, and once more when it's asked to.
#[derive(Drop)]
pub(crate) struct Reporter<'a, R> {
    rt: &'a R,
    counters: &'a Counters,
    // where connections wait for a worker
    queue: &'a Receiver<Accepted>,
    begun: Option<Instant>,
    // how long the server had run when it reported last
    last: Option<Duration>,
}

impl<'a, R: Wait + Clock> Reporter<'a, R> {
    /// The server begins.
    pub(crate) fn new(
        rt: &'a R,
        counters: &'a Counters,
        queue: &'a Receiver<Accepted>,
    ) -> Reporter<'a, R> {
        Reporter {
            rt,
            counters,
            queue,
            begun: Instant::now(rt).ok(),
            last: None,
        }
    }

    /// Reports, where it hasn't yet, or not for ten seconds.
    pub(crate) fn look<L: Ledger, H: History>(&mut self, shared: &Shared<L>, history: &H) {
        let uptime = self.uptime();
        let is_due = match self.last {
            Some(last) => uptime.saturating_sub(last) >= Duration::from_secs(PERIOD),
            None => true,
        };
        if is_due {
            self.last = Some(uptime);
            self.report(shared, history);
        }
    }

    /// Reports, where somebody wants to know.
    pub(crate) fn report<L: Ledger, H: History>(&self, shared: &Shared<L>, history: &H) {
        if history.wants_figures() {
            history.report(&Figures {
                counters: self.counters,
                waiting: self.queue.len() as u64,
                holdings: shared.holdings(self.rt),
                uptime: self.uptime(),
            });
        }
    }

    // For how long the server runs.
    fn uptime(&self) -> Duration {
        let Some(begun) = self.begun else {
            return Duration::from_secs(0);
        };
        match begun.elapsed(self.rt) {
            Ok(uptime) => uptime,
            Err(_) => Duration::from_secs(0),
        }
    }
}
