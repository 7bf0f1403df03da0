//! The steps of the parser, byte by byte.
ghost use Rattle.std.specs.Prelude.{◌≡◌, [], ◌∷◌, IfOk};
ghost use Rattle.tab_label.specs.Grammar.{is_term_byte};
ghost use Rattle.tab_label.specs.Machine as machine;
ghost use Rattle.tab_label.specs.Views.{expr_of, meaning_of};
ghost use Rattle.tab_label.specs.ParserViews.{frame_of, phase_of, levels_of, state_of, is_joined_by, Gives, Advances, Takes};

use crate::joiner::Joiner;
use crate::state::{Frame, Phase, State, StepError};
use crate::tree::{Label, Tree};
use std::alloc::{AllocError, Global};
use std::mem;
use tab_key::MAX_LABEL_DEPTH;

/// Whether the byte may stand in an unquoted term.
#[tactic(auto, unfolding(crate::specs::Grammar::is_term_byte))]
pub fn is_term_byte(b: u8) -> bool
    ensures { result ≡ is_term_byte b }
{
    (b'a' <= b && b <= b'z')
        || (b'A' <= b && b <= b'Z')
        || (b'0' <= b && b <= b'9')
        || b == b'_'
        || b == b'-'
        || b == b':'
        || b == b'.'
        || b == b'/'
}

/// The expression of the open level, with its last operand.
#[tactic(auto, using(crate::proofs::ViewLemmas::made_trees))]
fn closed(frame: Frame, last: Tree) -> Result<Tree, AllocError>
    ensures { IfOk result (λ t. expr_of t ≡ machine.closed (frame_of frame) (expr_of last)) }
{
    match frame {
        Frame::Fresh => Ok(last),
        Frame::Joined(joiner, operands) => {
            let mut operands = operands;
            operands.push(last)?;
            Ok(Tree::Join(joiner, operands))
        }
    }
}

/// The open level with one more operand and a joiner behind it.
#[tactic(auto, using(crate::proofs::ViewLemmas::made_trees))]
fn joined(alloc: Global, joiner: Joiner, frame: Frame, last: Tree) -> Result<Frame, StepError>
    ensures { Gives frame_of result (machine.joined joiner (frame_of frame) (expr_of last)) }
{
    match (frame, joiner) {
        (Frame::Fresh, _) => {
            let mut operands = Vec::new(alloc);
            operands.push(last)?;
            Ok(Frame::Joined(joiner, operands))
        }
        (Frame::Joined(Joiner::And, operands), Joiner::And) => {
            let mut operands = operands;
            operands.push(last)?;
            Ok(Frame::Joined(Joiner::And, operands))
        }
        (Frame::Joined(Joiner::Or, operands), Joiner::Or) => {
            let mut operands = operands;
            operands.push(last)?;
            Ok(Frame::Joined(Joiner::Or, operands))
        }
        _ => Err(StepError::NoLabel),
    }
}

/// Takes a byte behind an operand.
fn after(
    alloc: Global,
    below: Vec<Frame>,
    frame: Frame,
    last: Tree,
    b: u8,
) -> Result<State, StepError>
    ensures { Gives state_of result (machine.after (levels_of below.items) (frame_of frame) (expr_of last) b) }
{
    match b {
        b'&' => Ok(State {
            below,
            frame: joined(alloc, Joiner::And, frame, last)?,
            phase: Phase::Awaiting,
        }),
        b'|' => Ok(State {
            below,
            frame: joined(alloc, Joiner::Or, frame, last)?,
            phase: Phase::Awaiting,
        }),
        b')' => {
            let mut below = below;
            match below.pop() {
                None => Err(StepError::NoLabel),
                Some(outer) => Ok(State {
                    below,
                    frame: outer,
                    phase: Phase::Behind(closed(frame, last)?),
                }),
            }
        }
        _ => Err(StepError::NoLabel),
    }
}

/// Takes a byte where an operand has to begin.
fn awaiting(alloc: Global, below: Vec<Frame>, frame: Frame, b: u8) -> Result<State, StepError>
    ensures { Gives state_of result (machine.step_in (levels_of below.items) (frame_of frame) machine.Awaiting b) }
{
    if is_term_byte(b) {
        let mut bytes = Vec::new(alloc);
        bytes.push(b)?;
        return Ok(State {
            below,
            frame,
            phase: Phase::InPlain(bytes),
        });
    }
    if b == b'"' {
        return Ok(State {
            below,
            frame,
            phase: Phase::InQuotes(Vec::new(alloc)),
        });
    }
    if b == b'(' && below.len() < MAX_LABEL_DEPTH {
        let mut below = below;
        below.push(frame)?;
        return Ok(State {
            below,
            frame: Frame::Fresh,
            phase: Phase::Awaiting,
        });
    }
    Err(StepError::NoLabel)
}

/// Takes a byte between quotes, behind these bytes of a term.
#[tactic(auto, using(crate::proofs::ViewLemmas::made_trees))]
fn in_quotes(below: Vec<Frame>, frame: Frame, bytes: Vec<u8>, b: u8) -> Result<State, StepError>
    ensures { Gives state_of result (machine.step_in (levels_of below.items) (frame_of frame) (machine.InQuotes bytes.items) b) }
{
    if b == b'\\' {
        return Ok(State {
            below,
            frame,
            phase: Phase::Escaping(bytes),
        });
    }
    if b == b'"' {
        if bytes.is_empty() {
            return Err(StepError::NoLabel);
        }
        return Ok(State {
            below,
            frame,
            phase: Phase::Behind(Tree::Term(bytes)),
        });
    }
    let mut bytes = bytes;
    bytes.push(b)?;
    Ok(State {
        below,
        frame,
        phase: Phase::InQuotes(bytes),
    })
}

/// Takes a byte behind an escaping `\`.
fn escaping(below: Vec<Frame>, frame: Frame, bytes: Vec<u8>, b: u8) -> Result<State, StepError>
    ensures { Gives state_of result (machine.step_in (levels_of below.items) (frame_of frame) (machine.Escaping bytes.items) b) }
{
    if b != b'"' && b != b'\\' {
        return Err(StepError::NoLabel);
    }
    let mut bytes = bytes;
    bytes.push(b)?;
    Ok(State {
        below,
        frame,
        phase: Phase::InQuotes(bytes),
    })
}

/// Takes a byte anywhere.
#[tactic(auto, using(crate::proofs::ViewLemmas::made_trees), unfolding(crate::specs::Machine::step))]
fn step(alloc: Global, state: State, b: u8) -> Result<State, StepError>
    ensures { Gives state_of result (machine.step (state_of state) b) }
{
    let State {
        below,
        frame,
        phase,
    } = state;
    match phase {
        Phase::Awaiting => awaiting(alloc, below, frame, b),
        Phase::InPlain(bytes) => {
            if is_term_byte(b) {
                let mut bytes = bytes;
                bytes.push(b)?;
                Ok(State {
                    below,
                    frame,
                    phase: Phase::InPlain(bytes),
                })
            } else {
                after(alloc, below, frame, Tree::Term(bytes), b)
            }
        }
        Phase::InQuotes(bytes) => in_quotes(below, frame, bytes, b),
        Phase::Escaping(bytes) => escaping(below, frame, bytes, b),
        Phase::Behind(last) => after(alloc, below, frame, last, b),
    }
}

impl State {
    /// Before the first byte.
    pub fn new(alloc: Global) -> Self
        ensures { state_of result ≡ machine.start }
    {
        State {
            below: Vec::new(alloc),
            frame: Frame::Fresh,
            phase: Phase::Awaiting,
        }
    }

    /// Takes one byte. After an error the state is any.
    #[tactic(auto, using(crate::proofs::ViewLemmas::made_trees), unfolding(crate::specs::Machine::step))]
    pub fn advance(&mut self, alloc: Global, b: u8) -> Result<(), StepError>
        ensures { Advances result (state_of self.old) b (state_of self.new) }
    {
        if self.grow(alloc, b)? || self.join(b)? {
            return Ok(());
        }
        let whole = mem::replace(self, State::new(alloc));
        *self = step(alloc, whole, b)?;
        Ok(())
    }

    // Takes a byte of an unquoted term in place, and leaves any other byte.
    #[tactic(auto, using(crate::proofs::ViewLemmas::made_trees), unfolding(crate::specs::Machine::step))]
    fn grow(&mut self, alloc: Global, b: u8) -> Result<bool, StepError>
        ensures { Takes result (state_of self.old) b (state_of self.new) }
    {
        if !is_term_byte(b) {
            return Ok(false);
        }
        match &mut self.phase {
            Phase::InPlain(bytes) => {
                bytes.push(b)?;
                Ok(true)
            }
            Phase::Awaiting => {
                self.phase = Phase::InPlain(one_byte(alloc, b)?);
                Ok(true)
            }
            _ => Ok(false),
        }
    }

    // Takes the joiner of the open level behind an unquoted term in place, and leaves any other byte.
    #[tactic(auto, using(crate::proofs::ViewLemmas::made_trees, crate::proofs::Joining::step_joins))]
    fn join(&mut self, b: u8) -> Result<bool, StepError>
        ensures { Takes result (state_of self.old) b (state_of self.new) }
    {
        match &mut self.frame {
            Frame::Joined(joiner, operands) if is_joined_by(*joiner, b) => {
                match mem::replace(&mut self.phase, Phase::Awaiting) {
                    Phase::InPlain(bytes) => {
                        operands.push(Tree::Term(bytes))?;
                        Ok(true)
                    }
                    phase => {
                        self.phase = phase;
                        Ok(false)
                    }
                }
            }
            _ => Ok(false),
        }
    }
}

// The first byte of a term.
fn one_byte(alloc: Global, b: u8) -> Result<Vec<u8>, AllocError>
    ensures { IfOk result (λ bytes. bytes.items ≡ b ∷ []) }
{
    let mut bytes = Vec::new(alloc);
    bytes.push(b)?;
    Ok(bytes)
}

// Whether the byte spells the joiner.
fn is_joined_by(joiner: Joiner, b: u8) -> bool
    ensures { result ≡ is_joined_by joiner b }
{
    match joiner {
        Joiner::And => b == b'&',
        Joiner::Or => b == b'|',
    }
}

/// What a text says that ends here.
#[tactic(auto, using(crate::proofs::ViewLemmas::made_trees), unfolding(crate::specs::Machine::ending))]
pub fn finish(state: State) -> Result<Label, StepError>
    ensures { Gives meaning_of result (machine.ending (state_of state)) }
{
    let State {
        below,
        frame,
        phase,
    } = state;
    if !below.is_empty() {
        return Err(StepError::NoLabel);
    }
    match phase {
        Phase::Awaiting => match frame {
            Frame::Fresh => Ok(Label::Everyone),
            Frame::Joined(_, _) => Err(StepError::NoLabel),
        },
        Phase::InPlain(bytes) => Ok(Label::Only(closed(frame, Tree::Term(bytes))?)),
        Phase::Behind(last) => Ok(Label::Only(closed(frame, last)?)),
        Phase::InQuotes(_) => Err(StepError::NoLabel),
        Phase::Escaping(_) => Err(StepError::NoLabel),
    }
}
