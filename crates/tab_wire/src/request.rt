//! What a frame asks.

use tab_history::Act;
use tab_key::{Bounds, Items, Name};

/// What one frame asks.
#[derive(Drop)]
pub enum Request {
    /// The user who asks from now on: the first frame of a connection, and no other one.
    Hello(Name),
    /// An event of the user. It takes the next moment.
    Act(Act),
    /// The next cells of a session of the connection.
    Next {
        /// The number that the connection gave the session.
        slot: u32,
        /// How many cells are asked for.
        count: u32,
    },
    /// For each range, the cells of the session's whole answer in it.
    Many {
        /// The number of the session.
        slot: u32,
        /// The ranges, not checked yet: there may be more than are answered, and a low row may be above its high one.
        ranges: Items<Bounds>,
    },
    /// The session is closed.
    Close {
        /// The number of the session.
        slot: u32,
    },
}
