//! Rotations: the history so far is handed out, and a new one begins.
ghost use Rattle.std.specs.Prelude.{◌≡◌, ◌≤◌, ◌↔◌, [], None, IsTrue, IfOk, OnErr};
ghost use Rattle.tab_core.specs.Recording.{RefinesHistory};
ghost use Rattle.tab_book.specs.Entries.{next_of};
ghost use Rattle.tab_book.specs.Receipts.{Applies};
ghost use Rattle.tab_book.specs.Rotating.{portion_of, rotation, Rotates};

use crate::blocks::Blocks;
use crate::book::{Book, book_is_legal};
use crate::part::Part;
use crate::receipt::Receipt;
use crate::reservation::Reservation;
use crate::seat::Seat;
use std::alloc::{AllocError, Global};
use std::mem;
use std::sync::ledger::Ledger;
use tab_core::Base;
use tab_history::{Act, Reply};
use tab_key::Name;

impl<L: Ledger> Book<L> {
    /// Does a rotation: its own entry is written as of any event; where it was done, the history up to that entry is handed out, and the book
    /// has no entry then, on what its core holds. One that was refused is an entry, and nothing is handed out. Numbers go on. Sessions and
    /// jobs outlive it.
    ///
    /// It takes memory for a base, as [`tab_core::Core::base`] says, and for the entry. Where that lacks, or with 2^64 - 1 entries, nothing was
    /// done or counted.
    pub fn rotate(
        &mut self,
        alloc: Global,
        seat: &mut Seat<L>,
        user: &Name,
        moment: i64,
    ) -> Result<(Receipt<L>, Option<Part<L>>), AllocError>
        requires { seat.old.seen ≤ next_of self.old }
        ensures ok { IfOk result (λ r. Rotates self.old seat.old user.now moment r.0 r.1 self.new seat.new) }
        ensures err { OnErr result ((self.new ≡ self.old) × (seat.new ≡ seat.old)) }
    {
        let reservation = Reservation::of_lent(alloc, user, moment, &Act::Rotate)?;
        self.rotate_reserved(alloc, seat, user, moment, reservation)
    }

    /// Rotates as [`Book::rotate`] does, with memory for the entry that was found before.
    pub fn rotate_reserved(
        &mut self,
        alloc: Global,
        seat: &mut Seat<L>,
        user: &Name,
        moment: i64,
        reservation: Reservation,
    ) -> Result<(Receipt<L>, Option<Part<L>>), AllocError>
        requires ready { seat.old.seen ≤ next_of self.old }
        requires reserved { reservation ≡ rotation user.now moment }
        ensures ok { IfOk result (λ r. Rotates self.old seat.old user.now moment r.0 r.1 self.new seat.new) }
        ensures err { OnErr result ((self.new ≡ self.old) × (seat.new ≡ seat.old)) }
    {
        let mut base = self.core().base(alloc)?;
        self.core().begins();
        book_is_legal(self);
        let receipt = self.apply_rotation(alloc, seat, user, moment, reservation)?;
        if !was_done(&receipt) {
            return Ok((receipt, None));
        }
        self.core().rotated(&base, user, moment);
        base.raise(moment);
        let part = self.begin_anew(alloc, base);
        Ok((receipt, Some(part)))
    }

    // Does the rotation as any event.
    fn apply_rotation(
        &mut self,
        alloc: Global,
        seat: &mut Seat<L>,
        user: &Name,
        moment: i64,
        reservation: Reservation,
    ) -> Result<Receipt<L>, AllocError>
        requires ready { seat.old.seen ≤ next_of self.old }
        requires reserved { reservation ≡ rotation user.now moment }
        ensures ok { IfOk result (λ r. Applies self.old seat.old None (rotation user.now moment) r self.new seat.new) }
        ensures err { OnErr result ((self.new ≡ self.old) × (seat.new ≡ seat.old)) }
    {
        let mut act = Act::Rotate;
        self.apply_reserved(alloc, seat, user, moment, &mut act, reservation)
    }

    // Hands out the history, and begins a new one on this base, which the core refines.
    fn begin_anew(&mut self, alloc: Global, base: Base) -> Part<L>
        requires { RefinesHistory self.old.core base [] }
        ensures part { result ≡ portion_of self.old }
        ensures book { self.new ≡ record self.old { base = base; first = next_of self.old; entries = [] } }
    {
        let first = self.first;
        self.first = first + self.entries.len();
        let base = mem::replace(&mut self.base, base);
        let entries = mem::replace(&mut self.entries, Blocks::new(alloc));
        Part::new(first, base, entries)
    }
}

// Whether the receipt says that its event was done.
fn was_done<L: Ledger>(receipt: &Receipt<L>) -> bool
    ensures { IsTrue result ↔ (receipt.now.entry.reply ≡ Reply.Done) }
{
    matches!(receipt.entry().reply(), Reply::Done)
}
