//! What a server has to say at once.

use std::fmt;
use std::fmt::{Display, Formatter};

/// What a server has to say at once, of itself and of no connection.
#[derive(Clone, Copy, Debug, PartialEq, Eq)]
pub enum Note {
    /// All of so many workers are busy, and a connection has waited for one for a second. It's said again once none has waited for a
    /// minute.
    Full(u64),
    /// No image was made, since there was no memory for what is held; it's tried again. It's said once, until one is made.
    NoImage,
    /// What was asked last isn't in the history, since there was no memory to hand it on.
    NotHandedOn,
}

impl Display for Note {
    fn fmt<W: fmt::Write>(&self, f: &mut Formatter<W>) -> fmt::Result {
        match self {
            Note::Full(workers) => write!(
                f,
                "all workers are busy ({workers}), and further connections wait for one"
            ),
            Note::NoImage => f.write_str("there is no memory for an image, which is tried again"),
            Note::NotHandedOn => {
                f.write_str("there is no memory for the end of the history, which is lost")
            }
        }
    }
}
