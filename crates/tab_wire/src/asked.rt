//! What comes next on a connection.

use crate::{Reason, Request};

/// What comes next on a connection.
#[derive(Drop)]
pub enum Asked {
    /// A request of the user of the connection: [`Conn::user`](crate::Conn::user).
    Request(Request),
    /// A frame that asks nothing, for this reason. The connection goes on.
    Bad(Reason),
    /// What is no frame, for this reason: an empty one, one that is too long, or one in which the input ended. The connection ends.
    Broken(Reason),
    /// A frame for which memory lacked. It was read to its end and dropped, and nothing is said of it. The connection goes on.
    NoMemory,
}
