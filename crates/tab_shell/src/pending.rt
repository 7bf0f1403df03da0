//! The line that has begun, and how the next one is taken.
ghost use Rattle.std.specs.Prelude.{◌≡◌, ◌<◌, ◌^◌, ◌++◌, ℕ, List, [], length, IfSome, IfNone, MatchBool, MatchOption};
ghost use Rattle.tab_shell.specs.Scripts.{IsInside};
ghost use Rattle.tab_shell.specs.Ahead.{Pends, AddsOn, ReadsLine, TakesLine, TakesOn, IsLineEnd, OpensNoSession};

use std::alloc::Global;
use tab_io::{Input, length_before};
use tab_lines::{Line, ParseError, read_line};

/// The bytes of a line that has begun. Where memory for them lacked, only that there are some.
#[derive(Drop)]
pub struct Pending {
    bytes: Vec<u8>,
    lost: bool,
}

impl Pending {
    /// No line has begun.
    pub fn new(alloc: Global) -> Pending
        ensures { Pends result [] }
    {
        Pending {
            bytes: Vec::new(alloc),
            lost: false,
        }
    }

    /// Forgets the line, and keeps its memory for the next one.
    pub fn clear(&mut self)
        ensures { Pends self.new [] }
    {
        self.bytes.clear();
        self.lost = false;
    }

    /// Adds a part of the line. Where memory lacks, the line is lost.
    pub fn add(&mut self, part: &[u8])
        requires { IsInside part.now }
        ensures { AddsOn self.old self.new part.now }
    {
        if part.len() == 0 {
            return;
        }
        if self.lost {
            return;
        }
        if self.bytes.extend_from_slice(part).is_err() {
            self.bytes.clear();
            self.lost = true;
        }
    }

    /// Whether a line has begun.
    pub fn has_begun(&self) -> bool
        ensures { (gone : List ℕ) → Pends self.now gone → MatchBool result (0 < length gone) (gone ≡ []) }
    {
        self.lost || !self.bytes.is_empty()
    }

    // The bytes of the line, unless they are lost.
    pub(crate) fn text(&self) -> Option<&[u8]>
        ensures { IfSome result (λ text. (gone : List ℕ) → Pends self.now gone → text.now ≡ gone) }
    {
        if self.lost { None } else { Some(&self.bytes) }
    }

    /// What the line says, which ends in this part.
    pub fn said(&mut self, alloc: Global, part: &[u8]) -> Result<Line, ParseError>
        ensures line { (gone : List ℕ) → Pends self.old gone → ReadsLine result (gone ++ part.now) }
        ensures none { OpensNoSession result }
    {
        if self.lost {
            return Err(ParseError::NoMemory);
        }
        if self.bytes.is_empty() {
            return read_line(alloc, part);
        }
        if self.bytes.extend_from_slice(part).is_err() {
            return Err(ParseError::NoMemory);
        }
        read_line(alloc, &self.bytes)
    }
}

// Where the first line of these bytes ends, if it ends there.
pub(crate) fn line_end(front: &[u8]) -> Option<usize>
    ensures some { IfSome result (λ at. IsLineEnd front.now at) }
    ensures none { IfNone result (IsInside front.now) }
{
    let at = length_before(b'\n', front);
    if at == front.len() { None } else { Some(at) }
}

// Takes all of the front, in which no line ends.
pub(crate) fn take_part<R: Input>(input: &mut R, pending: &mut Pending)
    requires { IsInside (R.front input.old) }
    ensures front { R.front input.new ≡ [] }
    ensures on { TakesOn (R.remaining input.old) pending.old (R.remaining input.new) pending.new }
    ensures calls { (R.faults input.new ≡ R.faults input.old) × (R.budget input.new ≡ R.budget input.old) }
{
    let front = input.front();
    let length = front.len();
    pending.add(front);
    input.consume(length);
}

/// Takes the next line of the front, or else all of the front.
pub fn take_line<R: Input>(
    alloc: Global,
    input: &mut R,
    pending: &mut Pending,
) -> Option<Result<Line, ParseError>>
    ensures taken { MatchOption result
        ((R.front input.new ≡ []) × TakesOn (R.remaining input.old) pending.old (R.remaining input.new) pending.new)
        (λ said. (length (R.front input.new) < length (R.front input.old)) × TakesLine (R.remaining input.old) pending.old said (R.remaining input.new) pending.new) }
    ensures none { IfSome result (λ said. OpensNoSession said) }
    ensures fits { length (R.front input.old) < 2 ^ 64 }
    ensures calls { (R.faults input.new ≡ R.faults input.old) × (R.budget input.new ≡ R.budget input.old) }
{
    let Some(at) = line_end(input.front()) else {
        take_part(input, pending);
        return None;
    };
    let said = pending.said(alloc, input.front().split_at(at).0);
    pending.clear();
    input.consume(at + 1);
    Some(said)
}
