//! A stack of levels that lies in place.
ghost use Rattle.tab_key.specs.declared.limited_part.TheConstants.{MAX_LABEL_DEPTH};
ghost use Rattle.std.specs.Prelude.{◌≡◌, ◌≤◌, ◌<◌, ◌==◌, ◌∷◌, [], length, nat_lt, MatchOption};

use crate::joiner::Joiner;
use tab_key::MAX_LABEL_DEPTH;

/// What a level of an expression comes to so far: nothing yet, or the value of the operands up to a joiner.
#[derive(Clone, Copy)]
pub enum Level {
    /// No operand is complete.
    Empty,
    /// Operands with a joiner behind the last: what joins them, and their value.
    Joined(Joiner, bool),
}

/// The levels below the open one, in place: at most `MAX_LABEL_DEPTH`.
#[derive(Drop)]
pub struct Levels {
    held: [Level; MAX_LABEL_DEPTH],
    count: usize,
    ghost in_range: { count ≤ MAX_LABEL_DEPTH },
}

impl Levels {
    ghost use Rattle.tab_label.specs.JudgeViews.{levels_held};

    /// The stack without a level.
    pub fn new() -> Self
        ensures { levels_held result ≡ [] }
    {
        Levels {
            held: [Level::Empty; MAX_LABEL_DEPTH],
            count: 0,
        }
    }

    /// Whether one more may be pushed.
    pub fn has_room(&self) -> bool
        ensures { result ≡ nat_lt (length (levels_held self.now)) MAX_LABEL_DEPTH }
    {
        self.count < MAX_LABEL_DEPTH
    }

    /// Whether there is none.
    pub fn is_empty(&self) -> bool
        ensures { result ≡ (length (levels_held self.now) == 0) }
    {
        self.count == 0
    }

    /// One more, the innermost.
    pub fn push(&mut self, level: Level)
        requires { length (levels_held self.old) < MAX_LABEL_DEPTH }
        ensures { levels_held self.new ≡ level ∷ levels_held self.old }
    {
        self.held[self.count] = level;
        self.count += 1;
    }

    /// Takes the innermost away.
    pub fn pop(&mut self) -> Option<Level>
        ensures { MatchOption result
            ((levels_held self.old ≡ []) × (levels_held self.new ≡ []))
            (λ level. levels_held self.old ≡ level ∷ levels_held self.new) }
    {
        if self.count == 0 {
            return None;
        }
        self.count -= 1;
        Some(self.held[self.count])
    }
}
