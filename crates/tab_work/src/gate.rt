//! Where work that takes long may be held up, and what follows what was done.
ghost use Rattle.std.specs.Prelude.{◌≡◌, true};
ghost use Rattle.tab_work.specs.Writes.{is_done_write};

use std::sync::ledger::Ledger;
use tab_book::Receipt;
use tab_history::Reply;
use tab_wire::Asked;

/// What is asked before work that takes long, done outside of the lock, and told of what connections ask and are told: an observer, or in a test
/// whoever holds work up.
pub trait Gate {
    /// Before the sources of a compaction are merged.
    fn before_merge(&self);

    /// Before a batch of a session is cut: at each Next of a connection, and at no Many.
    fn before_batch(&self);

    /// Behind each Write that was done.
    fn after_write(&self);

    /// Behind each event of a connection, with the number of its entry. By default nothing.
    fn after_event(&self, _number: u64) {}

    /// Behind each Install of a compactor that was done. By default nothing.
    fn after_install(&self) {}

    /// At each frame of a connection, before it is told anything. By default nothing.
    fn hear(&self, _asked: &Asked) {}

    /// Behind each request of a connection, with what it is told. By default nothing.
    fn after_reply(&self, _reply: &Reply) {}
}

/// It holds nothing up.
#[derive(Clone, Copy)]
pub struct OpenGate;

impl Gate for OpenGate {
    fn before_merge(&self) {}

    fn before_batch(&self) {}

    fn after_write(&self) {}
}

/// Tells the gate of the event, if it is a Write that was done.
pub(crate) fn tell_if_written<L: Ledger, G: Gate>(gate: &G, receipt: &Receipt<L>) {
    if is_done_write(receipt) {
        tell_written(gate, receipt);
    }
}

// Tells the gate of a Write that was done.
fn tell_written<L: Ledger, G: Gate>(gate: &G, _written: &Receipt<L>)
    requires { is_done_write _written.now.entry ≡ true }
{
    gate.after_write();
}

// Whether the event is a Write that was done.
fn is_done_write<L: Ledger>(receipt: &Receipt<L>) -> bool
    ensures { result ≡ is_done_write receipt.now.entry }
{
    let entry = receipt.entry();
    entry.event().is_write() && matches!(entry.reply(), Reply::Done)
}
