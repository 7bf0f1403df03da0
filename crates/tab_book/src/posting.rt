//! Writing an entry of what was done.
ghost use Rattle.std.specs.Prelude.{◌≡◌, ◌+◌, ◌^◌, ◌<◌, ◌∷◌, [], ◌++◌, length};
ghost use Rattle.tab_history.specs.Answers.{told_of};
ghost use Rattle.tab_core.specs.EventReplies.{told_in};
ghost use Rattle.tab_book.specs.Entries.{place, posted};
ghost use Rattle.tab_book.specs.HandedOut.{held_of};

use crate::blocks::Blocks;
use crate::entry::{Entry, RecordedEntry};
use crate::held::Held;
use crate::receipt::Receipt;
use crate::recorded_reply::RecordedReply;
use crate::reservation::Reservation;
use crate::seat::Seat;
use std::sync::ledger::{Book as Tickets, Ledger};
use tab_core::{Answer, EventReply};

/// Writes the entry of an event that was answered so behind the others, the first of which has this number, where there is room for it, and
/// counts it for the seat. It copies nothing, and takes no memory beside what was reserved.
pub(crate) fn post<L: Ledger>(
    first: u64,
    entries: &mut Blocks,
    tickets: &mut Tickets<L>,
    seat: &mut Seat<L>,
    reservation: Reservation,
    answer: Answer,
    told: EventReply,
) -> Receipt<L>
    requires room { 0 < entries.old.room }
    requires number { first + length entries.old.entries + 1 < 2 ^ 64 }
    requires told { told_in told ≡ told_of answer }
    ensures receipt { result ≡ record { number = first + length entries.old.entries; entry = posted seat.old.number reservation (told_of answer); held = held_of answer } }
    ensures entries { entries.new.entries ≡ entries.old.entries ++ posted seat.old.number reservation (told_of answer) ∷ [] }
    ensures counts { tickets.new.total ≡ tickets.old.total + 1 }
    ensures seat { seat.new ≡ place seat.old.number (first + length entries.old.entries + 1) (seat.old.count + 1) }
{
    let number = first + entries.len();
    let (event_record, copy, place) = reservation.into_parts();
    let (reply, session, job) = answer.into_parts();
    entries.push_reserved(RecordedEntry::new(
        seat.number,
        event_record,
        RecordedReply::of(told, place),
    ));
    tickets.add(&mut seat.share, 1);
    seat.seen = number + 1;
    let entry = Entry::new(seat.number, copy, reply);
    Receipt::new(number, entry, Held::of(session, job))
}
