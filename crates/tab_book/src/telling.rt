//! What histories tell: books, and parts one after another, that look alike to a user.
ghost use Rattle.std.specs.Prelude.{All};
ghost use Rattle.tab_core.specs.Recording.{IsLegalFrom};
ghost use Rattle.tab_book.specs.Entries.{past};
ghost use Rattle.tab_book.specs.Telling.{TellAlike, AreInTurn, entries_in};

use crate::book::{Book, book_is_legal};
use crate::part::{Part, part_is_legal};
use std::sync::ledger::Ledger;

/// Two books, as those of two servers: where their histories look alike to a user, the user was told the same. Nothing is done.
#[tactic(auto, using(crate::proofs::Alike::tell_alike))]
pub fn books_tell_alike<L: Ledger, K: Ledger>(one: &Book<L>, other: &Book<K>)
    ensures { TellAlike one.now.base (past one.now.entries) other.now.base (past other.now.entries) }
{
    book_is_legal(one);
    book_is_legal(other);
}

// Each of the parts is legal from its base.
fn are_legal<L: Ledger>(parts: &[Part<L>])
    ensures { All (λ p. IsLegalFrom p.base (past p.entries)) parts.now }
{
    for part in parts {
        part_is_legal(part);
    }
}

/// Parts of which each follows on the one before are one history: all their entries are legal from the base of the first. Nothing is done.
#[tactic(auto, using(crate::proofs::Alike::in_turn))]
pub fn parts_in_turn_are_one_history<L: Ledger>(first: &Part<L>, later: &[Part<L>])
    requires { AreInTurn first.now later.now }
    ensures { IsLegalFrom first.now.base (past (entries_in first.now later.now)) }
{
    part_is_legal(first);
    are_legal(later);
}

/// What [`books_tell_alike`] says of two books, of the parts that two books handed out, each one after another. Nothing is done.
#[tactic(auto, using(crate::proofs::Alike::tell_alike))]
pub fn parts_tell_alike<L: Ledger, K: Ledger>(
    first: &Part<L>,
    later: &[Part<L>],
    others_first: &Part<K>,
    others_later: &[Part<K>],
)
    requires turn { AreInTurn first.now later.now }
    requires others_turn { AreInTurn others_first.now others_later.now }
    ensures { TellAlike first.now.base (past (entries_in first.now later.now)) others_first.now.base (past (entries_in others_first.now others_later.now)) }
{
    parts_in_turn_are_one_history(first, later);
    parts_in_turn_are_one_history(others_first, others_later);
}
