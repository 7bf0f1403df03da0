//! Rotations of a shared book.
ghost use Rattle.std.specs.Prelude.{◌≡◌, ◌≤◌, IfOk, OnErr};
ghost use Rattle.tab_book.specs.Entries.{next_of};
ghost use Rattle.tab_book.specs.HandedOut.{session_in};
ghost use Rattle.tab_book.specs.Receipts.{Receives};
ghost use Rattle.tab_book.specs.Rotating.{rotation};
ghost use Rattle.tab_work.specs.Receiving.{HandsOut};
ghost use Rattle.tab_work.specs.Rotations.{HandsHistory};

use crate::Shared;
use std::alloc::{AllocError, Global};
use std::sync::Wait;
use std::sync::ledger::Ledger;
use tab_book::{Book, Part, Receipt, Reservation, Seat, book_is_legal};
use tab_history::Act;
use tab_key::Name;

// Has the book rotate for the user at the moment.
fn rotate_in<L: Ledger>(
    alloc: Global,
    book: &mut Book<L>,
    seat: &mut Seat<L>,
    user: &Name,
    moment: i64,
    memory: Reservation,
) -> Result<(Receipt<L>, Option<Part<L>>), AllocError>
    requires ready { seat.old.seen ≤ next_of book.old }
    requires fits { memory ≡ rotation user.now moment }
    ensures ok { IfOk result (λ r. Receives seat.old (rotation user.now moment) r.0 seat.new) }
    ensures hands { IfOk result (λ r. HandsOut Act.Rotate (session_in r.0.held)) }
    ensures history { IfOk result (λ r. HandsHistory r.0 r.1) }
    ensures err { OnErr result (seat.new ≡ seat.old) }
    ensures back { book.new.back ≡ book.old.back }
{
    book_is_legal(book);
    book.rotate_reserved(alloc, seat, user, moment, memory)
}

impl<L: Ledger> Shared<L> {
    /// Does the user's rotation at the moment, as [`Shared::apply`] does an event. Where it was done it hands out the history up to its own
    /// entry, legal from its base as each part is, and the book has no entry then, on what its core holds. One that was refused is an entry,
    /// and nothing is handed out. Numbers go on.
    ///
    /// The book is locked while the base is taken ([`tab_core::Core::base`] says what that copies). The part, with all its entries, is dropped
    /// by the caller, when nothing is locked. Where memory lacks for the base or the entry nothing was done or counted.
    pub fn rotate<R: Wait>(
        &self,
        rt: &R,
        alloc: Global,
        seat: &mut Seat<L>,
        user: &Name,
        moment: i64,
    ) -> Result<(Receipt<L>, Option<Part<L>>), AllocError>
        ensures ok { IfOk result (λ r. Receives seat.old (rotation user.now moment) r.0 seat.new) }
        ensures hands { IfOk result (λ r. HandsOut Act.Rotate (session_in r.0.held)) }
        ensures history { IfOk result (λ r. HandsHistory r.0 r.1) }
        ensures err { OnErr result (seat.new ≡ seat.old) }
    {
        let memory = Reservation::of_lent(alloc, user, moment, &Act::Rotate)?;
        let mut locked = self.ready(rt, seat);
        let rotated = rotate_in(alloc, &mut locked.book, seat, user, moment, memory)?;
        if rotated.1.is_some() {
            locked.events = 0;
        }
        Ok(rotated)
    }

    /// Lets the history count as long, so that whoever asks hands it on.
    pub(crate) fn call_long(&self, rt: &impl Wait) {
        self.locked.lock(rt).events = u64::MAX;
    }

    /// Whether so many events, or more, were asked of the book since its history was handed out last, or since it was shared: as many entries
    /// the history has, but that an event for which memory lacked has none.
    pub fn is_long(&self, rt: &impl Wait, many: u64) -> bool {
        self.locked.lock(rt).events >= many
    }
}
