//! A record and its table.
ghost use Rattle.std.specs.Prelude.{◌≡◌};
ghost use Rattle.tab_export.specs.Places.{place, number_cmp, written_cmp};

use std::cmp::Ordering;
use std::marker::Model;
use tab_key::{Name, RecordRef};

/// A record of a table. A contract sees it with the table's name.
#[derive(Drop)]
pub struct Placed<'a> {
    table: &'a Name,
    held: RecordRef<'a>,
}

impl<'a> Model for Placed<'a> {
    ghost use Rattle.tab_export.specs.Places.{Place, place};

    ghost Value = { Place };

    ghost view = { λ p. place p.table.now p.held };
}

impl<'a> Placed<'a> {
    /// The record of the table of this name.
    pub(crate) fn new(table: &'a Name, source: RecordRef<'a>) -> Placed<'a>
        ensures { result ≡ place table.now source.entry }
    {
        Placed {
            table,
            held: source,
        }
    }

    /// The table's name.
    pub fn table(&self) -> &'a Name
        ensures { result.now ≡ self.now.table }
    {
        self.table
    }

    /// The record.
    pub fn held(&self) -> &RecordRef<'a>
        ensures { result.now ≡ self.now.held }
    {
        &self.held
    }

    // By time, then by the number of the mutation, then by the place in it.
    #[tactic(auto, unfolding(crate::specs::Places::written_cmp))]
    pub(crate) fn cmp(&self, other: &Placed<'_>) -> Ordering
        ensures { result ≡ written_cmp self.now.held other.now.held }
    {
        match self.held.timestamp().cmp(&other.held.timestamp()) {
            Ordering::Equal => self.number_cmp(other),
            decided => decided,
        }
    }

    #[tactic(auto, unfolding(crate::specs::Places::number_cmp))]
    fn number_cmp(&self, other: &Placed<'_>) -> Ordering
        ensures { result ≡ number_cmp self.now.held other.now.held }
    {
        match self.held.seq().cmp(&other.held.seq()) {
            Ordering::Equal => self.held.idx().cmp(&other.held.idx()),
            decided => decided,
        }
    }
}
