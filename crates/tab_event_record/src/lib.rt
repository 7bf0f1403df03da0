//! Events at rest: an event record is a user, a moment, and the body that spells the act: that of the frame that asks it, or one of the
//! record's own where no frame does. And how events end, and whether parts of two replies are one.
//!
//! Nothing here knows of a core: [`EventRecord::of`] writes an event's act, [`EventRecord::of_asked`] keeps a Write's body as it came,
//! [`EventRecord::to_event`] gives the event back, and a contract sees the event.
//!
//! | File | What |
//! |---|---|
//! | `event_record` | events at rest |
//! | `spelling`, `reading` | bodies of acts, written and read |
//! | `fitting` | acts fit the fields that they are written in |
//! | `outcome` | how events end |
//! | `equal` | whether parts of replies are equal |
//!
//! Of the definitions in `specs`, `Records` has the bodies of acts, `EventRecords` says which event is kept, `Fitting` which acts fit, and
//! `Outcomes` how events end. In `proofs`, `Spelled` and `Written` show that what fits is read as it is written, `Said` that a body says the act
//! that it was written for, and `Handed` that a Write has one spelling.
#![tactic(auto)]

mod equal;
mod event_record;
mod fitting;
mod outcome;
mod reading;
mod spelling;

pub use equal::{same_refusal, same_rights, same_rows};
pub use event_record::EventRecord;
pub use outcome::Outcome;
pub use reading::read_asked;
