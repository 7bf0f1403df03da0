//! Books.
ghost use Rattle.std.specs.Prelude.{◌≡◌, ◌+◌, ◌^◌, ◌<◌, ◌≤◌, [], None, IfOk, IfErr, OnErr, IfSome, IfNone, IsTrue, ◌↔◌, All, length, nat_le, sum_by, vec_len};
ghost use Rattle.tab_core.specs.Spending.{left_of};
ghost use Rattle.tab_core.specs.Stores.{base_of};
ghost use Rattle.tab_core.specs.Stepping.{asked_at};
ghost use Rattle.tab_core.specs.Recording.{RefinesHistory, IsLegalFrom};
ghost use Rattle.tab_book.specs.Entries.{place, next_of, past};
ghost use Rattle.tab_book.specs.Receipts.{Applies, Has};
ghost use Rattle.tab_book.specs.Slices.{stretch_of};
ghost use Rattle.tab_book.specs.Wholeness.{AreApart, IsWhole};

use crate::blocks::Blocks;
use crate::part::stands_in;
use crate::posting::post;
use crate::receipt::Receipt;
use crate::reservation::Reservation;
use crate::seat::Seat;
use crate::slice::{Slice, slice_of};
use std::alloc::{AllocError, Global};
use std::marker::Model;
use std::sync::ledger::{Blank, Book as Tickets, Ledger, Share};
use tab_core::{Base, Core};
use tab_history::{Act, Event};
use tab_key::Name;

/// How many seats aren't back.
#[derive(Clone, Copy, PartialEq, Eq, Debug)]
pub struct SeatsOut(pub u32);

/// A core and the history of its events, oldest first, with what the core held before the first of them. The history is legal from that,
/// and the core refines it.
///
/// It grows with every event, until it is handed out: see [`Book::rotate`].
#[derive(Drop)]
pub struct Book<L: Ledger> {
    pub(crate) base: Base,
    // the number of the first entry
    pub(crate) first: u64,
    pub(crate) entries: Blocks,
    pub(crate) core: Core,
    joined: u32,
    out: u32,
    pub(crate) tickets: Tickets<L>,
    // the parts of the ledger that no seat has
    rest: Share<L>,
}

impl<L: Ledger> Model for Book<L> {
    ghost use Rattle.tab_book.specs.Entries.{Record, IsKept};

    ghost Value = { Record };

    ghost view = { λ b. record { base = b.base; first = b.first; entries = b.entries.entries; core = b.core; joined = b.joined; out = b.out; back = b.rest.amount } };

    ghost invariant = { λ b. IsKept b.base b.first b.entries.entries b.core b.joined b.out L.parts b.rest.parts b.tickets.total };
}

impl<L: Ledger> Book<L> {
    /// A book over a core, without entries, on what the core holds. The blank is the ledger on which its seats count.
    ///
    /// It takes memory for the base, as [`Core::base`] says. Where that lacks the core comes back.
    pub fn new(alloc: Global, core: Core, blank: Blank) -> Result<Book<L>, (Core, AllocError)>
        requires name { blank.name ≡ L.name }
        requires parts { blank.parts ≡ L.parts }
        requires enough { 2 ^ 32 ≤ blank.parts }
        ensures ok { IfOk result (λ b. b ≡ record { base = base_of core; first = 0; entries = []; core = core; joined = 0; out = 0; back = 0 }) }
        ensures err { IfErr result (λ r. r.0 ≡ core) }
    {
        core.begins();
        let Ok(base) = core.base(alloc) else {
            return Err((core, AllocError));
        };
        let (tickets, rest) = blank.open::<L>();
        Ok(Book {
            base,
            first: 0,
            entries: Blocks::new(alloc),
            core,
            joined: 0,
            out: 0,
            tickets,
            rest,
        })
    }

    /// A new seat, which has seen nothing and has no entry. There are 4,294,967,295 of them.
    pub fn join(&mut self) -> Option<Seat<L>>
        ensures some { IfSome result (λ s. (s ≡ place self.old.joined 0 0) × (self.new ≡ record self.old { joined = self.old.joined + 1; out = self.old.out + 1 })) }
        ensures none { IfNone result ((self.old.joined + 1 ≡ 2 ^ 32) × (self.new ≡ self.old)) }
    {
        if self.joined == u32::MAX {
            return None;
        }
        let number = self.joined;
        self.joined += 1;
        self.out += 1;
        Some(Seat {
            number,
            seen: 0,
            share: self.rest.split_off(1, 0),
        })
    }

    /// The number of the next entry: how many there were.
    pub fn next(&self) -> u64
        ensures { result ≡ next_of self.now }
    {
        self.first + self.entries.len()
    }

    /// How many entries it has: those since its history was handed out.
    pub fn len(&self) -> u64
        ensures { result ≡ length self.now.entries }
    {
        self.entries.len()
    }

    /// Whether the next entry's number is above all that the seat saw, as it is of a seat of this book.
    pub fn ready(&self, seat: &Seat<L>) -> bool
        ensures { result ≡ nat_le seat.now.seen (next_of self.now) }
    {
        seat.seen <= self.next()
    }

    /// The core.
    pub fn core(&self) -> &Core
        ensures { result.now ≡ self.now.core }
    {
        &self.core
    }

    /// Does an event, and gives the receipt of its entry. Where the history can't grow the event is handed back, and nothing was done or
    /// counted: for want of memory, or with 2^64 - 1 entries.
    ///
    /// A finished merge is installed by [`Book::install`]. Here none comes with an Install, which is told at best that it is stale; and a book
    /// has no slots, so one by a slot is told that no job is there, and changes nothing.
    pub fn apply(
        &mut self,
        alloc: Global,
        seat: &mut Seat<L>,
        event: Event,
    ) -> Result<Receipt<L>, (Event, AllocError)>
        requires { seat.old.seen ≤ next_of self.old }
        ensures ok { IfOk result (λ r. Applies self.old seat.old None event r self.new seat.new) }
        ensures err { IfErr result (λ r. (r.0 ≡ event) × (self.new ≡ self.old) × (seat.new ≡ seat.old)) }
    {
        let Ok(reservation) = Reservation::of(alloc, &event) else {
            return Err((event, AllocError));
        };
        let mut event = event;
        let (user, moment, act) = (&event.user, event.moment, &mut event.act);
        match self.apply_reserved(alloc, seat, user, moment, act, reservation) {
            Ok(receipt) => Ok(receipt),
            Err(AllocError) => Err((event, AllocError)),
        }
    }

    /// Does what the user asks at the moment, with the memory that was found before for that event, and gives the receipt of its entry. It
    /// copies nothing of the event, and may take parts out of the act. Where the history can't grow, for want of memory or with 2^64 - 1
    /// entries, nothing was done or counted, and the act is as it was.
    pub fn apply_reserved(
        &mut self,
        alloc: Global,
        seat: &mut Seat<L>,
        user: &Name,
        moment: i64,
        act: &mut Act,
        reservation: Reservation,
    ) -> Result<Receipt<L>, AllocError>
        requires ready { seat.old.seen ≤ next_of self.old }
        requires reserved { reservation ≡ asked_at user.now moment act.old }
        ensures ok { IfOk result (λ r. Applies self.old seat.old None (asked_at user.now moment act.old) r self.new seat.new) }
        ensures left { IfOk result (λ r. act.new ≡ left_of act.old r.entry.reply) }
        ensures err { OnErr result ((self.new ≡ self.old) × (seat.new ≡ seat.old) × (act.new ≡ act.old)) }
    {
        self.entries.reserve(alloc, self.first)?;
        let (answer, told) = self.core.step_told_lent(alloc, user, moment, act);
        let (entries, tickets) = (&mut self.entries, &mut self.tickets);
        Ok(post(
            self.first,
            entries,
            tickets,
            seat,
            reservation,
            answer,
            told,
        ))
    }

    /// The entries from this number on, at most so many, each shared with the book: no event and no reply is copied. From a number below that
    /// of the first entry that is still there they are those from the first on; behind the last one there are none.
    ///
    /// It takes memory for 16 bytes an entry, and time by how many these are.
    pub fn slice(&self, alloc: Global, from: u64, most: u64) -> Result<Slice<L>, AllocError>
        ensures { IfOk result (λ s. s ≡ stretch_of self.now.first self.now.entries from most) }
    {
        slice_of(alloc, self.first, &self.entries, from, most)
    }

    // Whether the receipt's entry stands at its number.
    fn has(&self, receipt: &Receipt<L>) -> bool
        ensures { IsTrue result ↔ Has self.now receipt.now }
    {
        stands_in(self.first, &self.entries, receipt)
    }

    /// Ends it, where all seats are back. The history then has as many entries as they counted, those of seats that were back before apart.
    pub fn end(self, seats: Vec<Seat<L>>) -> Result<Book<L>, (Book<L>, Vec<Seat<L>>, SeatsOut)>
        ensures ok { IfOk result (λ b. b ≡ record self { out = 0; back = next_of self }) }
        ensures counted { IfOk result (λ _. next_of self ≡ self.back + sum_by (λ s. s.count) seats.items) }
        ensures err { IfErr result (λ r. (r.0 ≡ self) × (r.1 ≡ seats) × (0 < r.2.0) × (r.2.0 + vec_len seats ≡ self.out)) }
    {
        let mut book = self;
        let back = seats.len() as u64;
        if back < book.out as u64 {
            let out = SeatsOut(book.out - back as u32);
            return Err((book, seats, out));
        }
        gather(&mut book.rest, seats);
        book.tickets.audit(&mut book.rest);
        book.out = 0;
        Ok(book)
    }
}

// The seats' counts come back into the share.
fn gather<L: Ledger>(rest: &mut Share<L>, seats: Vec<Seat<L>>)
    requires { rest.old.parts ≤ L.parts }
    ensures parts { rest.new.parts ≡ rest.old.parts + vec_len seats }
    ensures amount { rest.new.amount ≡ rest.old.amount + sum_by (λ s. s.count) seats.items }
    ensures apart { rest.new.parts ≤ L.parts }
{
    for seat in seats {
        rest.merge(seat.into_share());
    }
}

/// Every book's history is legal from its base, and its core refines it. Nothing is done.
pub fn book_is_legal<L: Ledger>(book: &Book<L>)
    ensures legal { IsLegalFrom book.now.base (past book.now.entries) }
    ensures refines { RefinesHistory book.now.core book.now.base (past book.now.entries) }
{
    let _ = &book.entries;
}

/// Whether each receipt's entry stands in the book at its number.
pub fn settle<L: Ledger>(book: &Book<L>, receipts: &[Receipt<L>]) -> bool
    ensures { IsTrue result ↔ All (λ receipt. Has book.now receipt) receipts.now }
{
    receipts.iter().all(|receipt| book.has(receipt))
}

/// Where receipts stand in a book, no two with one number, and they are as many as its entries, each entry has one receipt among them.
/// Nothing is done.
#[tactic(auto, using(crate::proofs::Whole::whole))]
pub fn receipts_are_whole<L: Ledger>(_book: &Book<L>, _receipts: &[Receipt<L>])
    requires stand { All (λ receipt. Has _book.now receipt) _receipts.now }
    requires apart { AreApart _receipts.now }
    requires many { length _receipts.now ≡ length _book.now.entries }
    ensures { IsWhole _book.now _receipts.now }
{}
