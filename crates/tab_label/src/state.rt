//! The parser's state behind some front of a text.
use crate::joiner::Joiner;
use crate::tree::Tree;
use std::alloc::{AllocError, AllocFailed};

/// An open level: nothing yet, or operands with a joiner behind the last.
#[derive(Drop)]
pub enum Frame {
    /// No operand is complete.
    Fresh,
    /// What joins the operands, and they.
    Joined(Joiner, Vec<Tree>),
}

/// Where in a level the reader stands: before an operand, inside a term with its bytes so far, or behind an operand.
#[derive(Drop)]
pub enum Phase {
    /// An operand has to begin.
    Awaiting,
    /// Inside an unquoted term.
    InPlain(Vec<u8>),
    /// Between quotes.
    InQuotes(Vec<u8>),
    /// Between quotes, behind an escaping `\`.
    Escaping(Vec<u8>),
    /// Behind an operand.
    Behind(Tree),
}

/// The reader behind some front of a text: the levels below the open one, outermost first, the open one, and where in it.
#[derive(Drop)]
pub struct State {
    /// The levels below the open one.
    pub below: Vec<Frame>,
    /// The open level.
    pub frame: Frame,
    /// Where in it the reader stands.
    pub phase: Phase,
}

/// Why a byte was not taken.
#[derive(Clone, Copy)]
pub enum StepError {
    /// No label begins with the bytes so far and this one.
    NoLabel,
    /// Memory ran out.
    NoMemory,
}

impl From<AllocError> for StepError {
    ghost use Rattle.std.specs.Prelude.{◌≡◌};
    ghost use Rattle.tab_label.specs.declared.state.StepError.TheVariants.{NoMemory};

    ghost from_gives = { λ _ e. e ≡ NoMemory };

    fn from(_: AllocError) -> Self {
        StepError::NoMemory
    }
}

impl<T: Drop> From<AllocFailed<T>> for StepError {
    ghost use Rattle.std.specs.Prelude.{◌≡◌};
    ghost use Rattle.tab_label.specs.declared.state.StepError.TheVariants.{NoMemory};

    ghost from_gives = { λ _ e. e ≡ NoMemory };

    fn from(_: AllocFailed<T>) -> Self {
        StepError::NoMemory
    }
}
