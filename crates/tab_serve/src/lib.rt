//! Whole connections: frames in, frames out, whatever answers their requests.
//!
//! A [`Service`] answers one request after another. [`converse`] reads the frames of a connection, has each request answered, and
//! writes the replies, up to the end of the input or to what is no frame. [`serve`] has a core answer them.
//!
//! | File | What |
//! |---|---|
//! | `service` | what answers requests |
//! | `turn` | one frame, and what it is told |
//! | `conversation` | frame after frame: `converse` |
//! | `fault` | which side failed |
//! | `moments`, `listed` | where moments come from |
//! | `core_service` | a core that answers the requests of one connection |
//! | `serving` | a whole connection over a core: `serve` |
//!
//! In `specs`, `Turns` says what comes of the pieces of a stream, `Progress` how far a connection has come, also where the reader or the
//! writer failed, and what is written before a read, and `Moments` what a list of moments gives. `Serves` says what one request does to a
//! core, `CoreAnswers` the same of the service over it, and `Serving` what a whole connection does: its steps, its moments, its replies, and
//! the core that it leaves.
//! In `proofs`, `TurnLemmas` puts one turn behind others, and `ProgressLemmas` does so with what was read and put. `Counting` counts the
//! sessions of a connection over a core, with `Shut`; `Carrying` says what exchange a request comes to, with `Soundness`, and `Connecting`
//! makes a legal history of all exchanges.
#![tactic(auto)]

mod conversation;
mod core_service;
mod fault;
mod listed;
mod moments;
mod service;
mod serving;
mod turn;

pub use conversation::converse;
pub use fault::ServeFault;
pub use listed::ListedMoments;
pub use moments::Moments;
pub use service::Service;
pub use serving::serve;
