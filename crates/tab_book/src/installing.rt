//! Finished merges, installed.
ghost use Rattle.std.specs.Prelude.{◌≡◌, ◌≤◌, IfOk, IfErr, Some};
ghost use Rattle.tab_book.specs.Entries.{next_of};
ghost use Rattle.tab_book.specs.Installs.{event_of};
ghost use Rattle.tab_book.specs.Receipts.{Applies};

use crate::book::Book;
use crate::installation::Installation;
use crate::posting::post;
use crate::receipt::Receipt;
use crate::reservation::Reservation;
use crate::seat::Seat;
use std::alloc::{AllocError, Global};
use std::sync::ledger::Ledger;

impl<L: Ledger> Book<L> {
    /// Installs a finished merge, and gives the receipt of the Install's entry, which has the number of the merge's job. Whatever it is
    /// answered the merge is used up then. Where the history can't grow the Install is handed back with its merge, and nothing was done or
    /// counted: for want of memory, or with 2^64 - 1 entries.
    pub fn install(
        &mut self,
        alloc: Global,
        seat: &mut Seat<L>,
        asked: Installation,
    ) -> Result<Receipt<L>, (Installation, AllocError)>
        requires { seat.old.seen ≤ next_of self.old }
        ensures ok { IfOk result (λ r. Applies self.old seat.old (Some asked.finished) (event_of asked) r self.new seat.new) }
        ensures err { IfErr result (λ r. (r.0 ≡ asked) × (self.new ≡ self.old) × (seat.new ≡ seat.old)) }
    {
        match Reservation::of(alloc, &asked.event()) {
            Ok(reservation) => self.install_reserved(alloc, seat, asked, reservation),
            Err(AllocError) => Err((asked, AllocError)),
        }
    }

    /// Installs as [`Book::install`] does, with memory that was found before. It copies nothing of the event.
    pub fn install_reserved(
        &mut self,
        alloc: Global,
        seat: &mut Seat<L>,
        asked: Installation,
        reservation: Reservation,
    ) -> Result<Receipt<L>, (Installation, AllocError)>
        requires ready { seat.old.seen ≤ next_of self.old }
        requires reserved { reservation ≡ event_of asked }
        ensures ok { IfOk result (λ r. Applies self.old seat.old (Some asked.finished) (event_of asked) r self.new seat.new) }
        ensures err { IfErr result (λ r. (r.0 ≡ asked) × (self.new ≡ self.old) × (seat.new ≡ seat.old)) }
    {
        if self.entries.reserve(alloc, self.first).is_err() {
            return Err((asked, AllocError));
        }
        let Installation {
            user,
            moment,
            table,
            finished,
        } = asked;
        let (answer, told) = self
            .core
            .install_told(alloc, &user, moment, &table, finished);
        let (entries, tickets) = (&mut self.entries, &mut self.tickets);
        Ok(post(
            self.first,
            entries,
            tickets,
            seat,
            reservation,
            answer,
            told,
        ))
    }
}
