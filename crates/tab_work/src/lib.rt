//! Many clients at once: a book under a lock, connections over it, and compactors beside them.
//!
//! A [`Shared`] book is used by threads, each with a seat of its own. What happens under the lock is one step of the book, or a look at what
//! is due. [`serve_shared`] serves a connection by a seat, and a [`Compactor`] compacts what is due by another one.
//!
//! | File | What |
//! |---|---|
//! | `shared` | the book under its lock, its entries, shared, and what its core holds |
//! | `rotating` | its history, handed out part by part |
//! | `dues`, `holdings` | what is due in a book, and what it holds, counted |
//! | `gate` | where work that takes long may be held up, and what follows a write |
//! | `shared_service` | a seat that answers the requests of one connection |
//! | `reading` | ranges of a session, by threads where nobody else reads any |
//! | `serving` | a whole connection over a shared book: `serve_shared` |
//! | `forgetting` | the same for the server: its receipts aren't kept |
//! | `ends` | end rows of tablets, as a reply tells them |
//! | `compactor_seat`, `claims`, `begun`, `compactor` | a seat that asks by itself, what compactors are at work on, what they began, and what they do |
//! | `requests` | requests to the compactors |
//!
//! In `specs`, `Receiving` says what a seat receives, `Rotations` what a rotation hands out, `Shares` what one request does, `SharedAnswers` the same of the service over a seat, and
//! `Sharing` what a whole connection does; `Writes` says which entries a gate is told of, `Dues` what is due, `Holdings` what is counted, `Ends` which end row is a row's,
//! and `Compacting` what a compactor asks. In `proofs`, `Handing` says which sessions a book hands out, `Booking` what exchange a request comes
//! to, and `Joining` puts all exchanges of a connection together; `Following` does so for what a compactor asks.
#![tactic(auto)]

mod begun;
mod claims;
mod compactor;
mod compactor_seat;
mod dues;
mod ends;
mod forgetting;
mod gate;
mod holdings;
mod reading;
mod requests;
mod rotating;
mod serving;
mod shared;
mod shared_service;

pub use claims::Claims;
pub use compactor::Compactor;
pub use forgetting::serve_forgetting;
pub use gate::{Gate, OpenGate};
pub use holdings::Holdings;
pub use requests::{Requests, wait_for_requests};
pub use serving::serve_shared;
pub use shared::Shared;
