//! Histories that are handed out.
ghost use Rattle.std.specs.Prelude.{◌≡◌, ◌++◌, ◌↔◌, All, IsTrue, IfOk, IfSome, IfNone, Some, None, length, slice_get};
ghost use Rattle.tab_core.specs.Recording.{IsLegalFrom};
ghost use Rattle.tab_book.specs.Entries.{past};
ghost use Rattle.tab_book.specs.Receipts.{StandsIn};
ghost use Rattle.tab_book.specs.Rotating.{FollowsOn};
ghost use Rattle.tab_book.specs.Slices.{stretch_of};

use crate::blocks::Blocks;
use crate::entry::RecordedEntry;
use crate::receipt::Receipt;
use crate::slice::{Slice, slice_of};
use std::alloc::{AllocError, Global};
use std::marker::{Model, PhantomData};
use std::sync::ledger::Ledger;
use tab_core::Base;

/// The history of a book up to a rotation, with what the core held before its first entry. It is legal from that. Only a book hands one
/// out.
#[derive(Drop)]
pub struct Part<L: Ledger> {
    first: u64,
    base: Base,
    entries: Blocks,
    of: PhantomData<L>,
}

impl<L: Ledger> Model for Part<L> {
    ghost use Rattle.tab_core.specs.Recording.{IsLegalFrom};
    ghost use Rattle.tab_book.specs.Entries.{past};
    ghost use Rattle.tab_book.specs.Rotating.{Portion};

    ghost Value = { Portion };

    ghost view = { λ p. record { first = p.first; base = p.base; entries = p.entries.entries } };

    ghost invariant = { λ p. IsLegalFrom p.base (past p.entries.entries) };
}

impl<L: Ledger> Part<L> {
    // The part of these entries, from this number on.
    pub(crate) fn new(first: u64, base: Base, entries: Blocks) -> Part<L>
        requires { IsLegalFrom base (past entries.entries) }
        ensures { result ≡ record { first = first; base = base; entries = entries.entries } }
    {
        Part {
            first,
            base,
            entries,
            of: PhantomData,
        }
    }

    /// The number of its first entry.
    pub fn first(&self) -> u64
        ensures { result ≡ self.now.first }
    {
        self.first
    }

    /// How many entries it has.
    pub fn len(&self) -> u64
        ensures { result ≡ length self.now.entries }
    {
        self.entries.len()
    }

    /// What the core held before its first entry.
    pub fn base(&self) -> &Base
        ensures { result.now ≡ self.now.base }
    {
        &self.base
    }

    /// The entry at this place, from 0 on: its number is that of the first one and the place.
    pub fn entry(&self, place: u64) -> Option<&RecordedEntry>
        ensures some { IfSome result (λ entry. slice_get self.now.entries place ≡ Some entry.now) }
        ensures none { IfNone result (slice_get self.now.entries place ≡ None) }
    {
        self.entries.get(place)
    }

    /// The entries from this number on, at most so many, each shared with the part: as [`crate::Book::slice`] gives those of a book.
    pub fn slice(&self, alloc: Global, from: u64, most: u64) -> Result<Slice<L>, AllocError>
        ensures { IfOk result (λ s. s ≡ stretch_of self.now.first self.now.entries from most) }
    {
        slice_of(alloc, self.first, &self.entries, from, most)
    }

    /// Whether each receipt's entry stands in it at its number.
    pub fn settle(&self, receipts: &[Receipt<L>]) -> bool
        ensures { IsTrue result ↔ All (λ receipt. StandsIn self.now.first self.now.entries receipt) receipts.now }
    {
        receipts
            .iter()
            .all(|receipt| stands_in(self.first, &self.entries, receipt))
    }
}

/// Whether the receipt's entry stands at its number among these, the first of which has the number that is given.
pub(crate) fn stands_in<L: Ledger>(first: u64, entries: &Blocks, receipt: &Receipt<L>) -> bool
    ensures { IsTrue result ↔ StandsIn first entries.now.entries receipt.now }
{
    let Some(place) = receipt.number.checked_sub(first) else {
        return false;
    };
    match entries.get(place) {
        Some(entry) => entry.is(&receipt.entry),
        None => false,
    }
}

/// The history of a part is legal from its base. Nothing is done.
pub fn part_is_legal<L: Ledger>(part: &Part<L>)
    ensures { IsLegalFrom part.now.base (past part.now.entries) }
{
    let _ = &part.entries;
}

/// Two parts of which the second follows on the first are one history: all entries of both are legal from the base of the first. Nothing is
/// done.
#[tactic(auto, using(crate::proofs::OneHistory::one_history))]
pub fn parts_are_one_history<L: Ledger>(earlier: &Part<L>, later: &Part<L>)
    requires { FollowsOn earlier.now later.now }
    ensures { IsLegalFrom earlier.now.base (past (earlier.now.entries ++ later.now.entries)) }
{
    part_is_legal(earlier);
    part_is_legal(later);
}
