//! Tests of connections over a core and over shared books, and of these, by public calls.
//!
//! What a connection is told frame by frame is tested by `tests/frames.sh`, with the built program.
//!
//! | File | What is tested |
//! |---|---|
//! | `talks` | the frames of some connections, and what they are told |
//! | `serving` | these served over a shared book, cut anywhere, and where reading or writing fails; the receipts settle afterwards |
//! | `core_serving` | these served over a core by one connection, in pieces, cut anywhere, and where reading or writing fails |
//! | `moments` | moments that are listed before |
//! | `settling` | threads that use one book by seats of their own, a thousand seats, and how many are out at its end |
//! | `own_writes` | a connection that writes and then reads, and the numbers of its receipts |
//! | `overlapping` | a batch that is held up until another connection's write was answered |
//! | `gates` | of what a connection's gate is asked and told |
//! | `merging` | the same of a merge, until a write and a scan were answered; it is due once the table is filled, and neither before nor behind it |
//! | `rotating` | histories that are handed out, by one seat, beside writers and over a connection; which receipts settle where |
//! | `under_load` | writers beside compactors, all that was written afterwards, and the receipts of all |
//! | `asking`, `books`, `signs` | helpers: events in short, shared books, and signs between threads |
//!
//! That `settle` is no where a receipt was changed is tested inside `tab_book`: outside no one can change one.
#![tactic(auto)]

#[cfg(test)]
mod asking;
#[cfg(test)]
mod books;
#[cfg(test)]
mod core_serving;
#[cfg(test)]
mod gates;
#[cfg(test)]
mod merging;
#[cfg(test)]
mod moments;
#[cfg(test)]
mod overlapping;
#[cfg(test)]
mod own_writes;
#[cfg(test)]
mod rotating;
#[cfg(test)]
mod serving;
#[cfg(test)]
mod settling;
#[cfg(test)]
mod signs;
#[cfg(test)]
mod talks;
#[cfg(test)]
mod under_load;
