//! Installs, each with the finished merge that comes with it.
ghost use Rattle.std.specs.Prelude.{◌≡◌};
ghost use Rattle.tab_book.specs.Installs.{event_of};

use tab_core::FinishedJob;
use tab_history::{Act, Event, Given};
use tab_key::Name;

/// An Install that a user asks for at a moment, with its finished merge. (Accumulo user manual: minor and major compactions)
#[derive(Drop)]
pub struct Installation {
    /// The caller.
    pub user: Name,
    /// The moment that the caller handed in.
    pub moment: i64,
    /// The table in which the merge is to be installed.
    pub table: Name,
    /// The merge, made.
    pub finished: FinishedJob,
}

impl Installation {
    /// The event, which names the merge by the number of its job.
    pub fn event(&self) -> Event
        ensures { result ≡ event_of self.now }
    {
        let given = Given::ByHand(self.finished.number());
        Event {
            user: self.user,
            moment: self.moment,
            act: Act::Install(self.table, given),
        }
    }
}
