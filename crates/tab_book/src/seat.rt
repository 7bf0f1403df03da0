//! Seats at a book.
ghost use Rattle.std.specs.Prelude.{◌≡◌};

use std::marker::Model;
use std::sync::ledger::{Ledger, Share};

/// What a thread needs to use a book. It knows the number above all that it has seen, and counts its own entries, by a share of the
/// book's ledger, which nobody else can change.
#[derive(Drop)]
pub struct Seat<L: Ledger> {
    pub(crate) number: u32,
    pub(crate) seen: u64,
    pub(crate) share: Share<L>,
}

impl<L: Ledger> Model for Seat<L> {
    ghost use Rattle.std.specs.Prelude.{◌≡◌};
    ghost use Rattle.tab_book.specs.Entries.{SeatState};

    ghost Value = { SeatState };

    ghost view = { λ s. record { number = s.number; seen = s.seen; count = s.share.amount } };

    ghost invariant = { λ s. s.share.parts ≡ 1 };
}

impl<L: Ledger> Seat<L> {
    /// The seat's number: how many seats joined before it.
    pub fn number(&self) -> u32
        ensures { result ≡ self.now.number }
    {
        self.number
    }

    // The share with its count.
    pub(crate) fn into_share(self) -> Share<L>
        ensures parts { result.parts ≡ 1 }
        ensures amount { result.amount ≡ self.count }
    {
        let Seat { share, .. } = self;
        share
    }
}
