//! Where the history of a server goes, and what it tells of itself.

use crate::{Connection, Figures, Note};
use std::sync::ledger::Ledger;
use tab_book::Part;

/// A part of the history isn't where it should be. Whoever answers it has said why.
#[derive(Clone, Copy, Debug, PartialEq, Eq)]
pub struct NotTaken;

/// Where the history of a server goes, part by part, the oldest first.
///
/// A part is legal from its base ([`tab_book::part_is_legal`]), and begins where the one before it ended: a rotation that a connection
/// asks for is an entry, behind which the history is handed on at the next look.
pub trait History {
    /// Takes what it needs of a part, which is dropped afterwards. The book isn't locked, and requests are answered meanwhile; the next
    /// part comes once this call has ended.
    fn take<L: Ledger>(&self, part: &Part<L>) -> Result<(), NotTaken>;

    /// Whether it keeps what it takes. Then the history is handed on about twice a second, where it has any entry; and who asks for a
    /// rotation is answered once all up to its entry were taken, or else the connection ends. By default it doesn't.
    fn keeps(&self) -> bool {
        false
    }

    /// Whether it wants to know what the server tells of itself. By default it doesn't.
    fn wants_figures(&self) -> bool {
        false
    }

    /// Takes what the server tells of itself, where it wants to know that: when the server begins, every ten seconds, and behind the last
    /// part. No part is handed on meanwhile. By default nothing is done.
    fn report(&self, _figures: &Figures<'_>) {}

    /// Takes what is told of a connection that has ended. Its worker serves the next one once this call has ended, and workers may call it
    /// at the same time. By default nothing is done.
    fn end(&self, _connection: &Connection) {}

    /// Takes what the server has to say at once. By default nothing is done.
    fn note(&self, _note: Note) {}
}

/// It keeps nothing.
#[derive(Clone, Copy)]
pub struct Dropped;

impl History for Dropped {
    fn take<L: Ledger>(&self, _part: &Part<L>) -> Result<(), NotTaken> {
        Ok(())
    }
}
