//! The book: a core and the history of all that was asked of it, by the seats that use it.
//!
//! A thread that uses a book has a seat. Each event is one call of [`Book::apply`], which does it, writes an entry behind the others, and
//! gives a receipt with the entry's number, the entry, and the session or the job that was handed out; [`Book::install`] does the same for
//! a finished merge. The type of a book keeps that its history is legal from what its core held before the first entry, and that its core
//! refines it ([`book_is_legal`]). Once all seats are back, [`Book::end`] gives the book, whose next number is just what they counted; and
//! [`settle`] says of receipts whether their entries stand at their numbers. Where they do, no two have one number and they are as many as
//! the entries, no entry is without its receipt ([`receipts_are_whole`]).
//!
//! A history grows with every event, and lies in memory until it is handed out. [`Book::rotate`] does that: it writes its own entry, gives
//! all entries up to that one as a [`Part`], with what the core held before the first of them, and the book goes on without entries, on what
//! the core holds. Numbers go on, and so do sessions and jobs. A part is legal from its own base ([`part_is_legal`]) and settles its own
//! receipts ([`Part::settle`]); two parts of which the second follows on the first are one history ([`parts_are_one_history`]), and so are
//! any number of parts in turn ([`parts_in_turn_are_one_history`]).
//!
//! Two books whose histories look alike to a user told the user the same ([`books_tell_alike`]), and so did all parts that two books handed
//! out ([`parts_tell_alike`]).
//!
//! Who writes a history elsewhere takes its entries in a row ([`Book::slice`], [`Part::slice`]): they are shared, not copied.
//!
//! An entry takes 112 bytes beside those of its user's name and of its event's body, which is that of the frame that asks it. To these comes
//! a reply other than done and opened. The event is there once, for the book and for the receipt. A base keeps the sorted tables that it
//! shares with the core for as long as the book or the part has it: after compactions a table may be in memory twice.
//!
//! | File | What |
//! |---|---|
//! | `book` | books: seats that join, events, the end, and whether receipts settle |
//! | `seat` | seats |
//! | `held`, `receipt` | what an event hands out, and receipts |
//! | `installation`, `installing` | finished merges, installed |
//! | `posting` | an entry written behind the others |
//! | `rotating` | rotations: the history is handed out, and a new one begins |
//! | `part` | histories that were handed out |
//! | `entry` | entries, as a receipt has them and at rest |
//! | `blocks` | the entries of a book, in blocks: none moves once its block is full |
//! | `reservation` | the memory of an entry, which can be found before the book is locked |
//! | `recorded_reply`, `outcome` | replies at rest, and how the events ended that were told so |
//! | `slice` | entries of a history in a row, shared |
//! | `telling` | histories that look alike to a user, and parts in turn |
//!
//! Of the definitions in `specs`, `Entries` says what a book is and what each keeps, `Receipts` what a receipt is and what an event does to
//! a book, `Rotating` what a rotation does, and `Examples` computes them for a small history; `Wholeness` says when receipts are all that a
//! book gave, `HandedOut` and `Installs` say what goes with a reply and which event a finished
//! merge comes with, `RecordedReplies` which replies are kept, `Slices` which entries a slice shares, `Telling` when two histories tell the same, and `Blocks` how entries lie. Events at rest are `tab_event_record`'s.
#![tactic(auto)]

mod blocks;
mod book;
mod entry;
mod held;
mod installation;
mod installing;
mod outcome;
mod part;
mod posting;
mod receipt;
mod recorded_reply;
mod reservation;
mod rotating;
mod seat;
mod slice;
mod telling;

pub use book::{Book, SeatsOut, book_is_legal, receipts_are_whole, settle};
pub use entry::{Entry, RecordedEntry};
pub use held::Held;
pub use installation::Installation;
pub use part::{Part, part_is_legal, parts_are_one_history};
pub use receipt::Receipt;
pub use recorded_reply::RecordedReply;
pub use reservation::Reservation;
pub use seat::Seat;
pub use slice::{SharedEntry, Slice};
pub use tab_event_record::{EventRecord, Outcome};
pub use telling::{books_tell_alike, parts_in_turn_are_one_history, parts_tell_alike};

#[cfg(test)]
mod tests;
