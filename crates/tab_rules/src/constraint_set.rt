//! The constraints of one table.
ghost use Rattle.std.specs.Prelude.{◌≡◌, []};
ghost use Rattle.tab_rules.specs.Constraints.{is_set, constraint_set_of};

use crate::Constraint;
use std::alloc::AllocError;
use std::marker::Model;

/// A set of constraints: one value, in whatever order and however often its members were named. It takes no memory.
///
/// A contract sees the list of its members, rising by their numbers.
#[derive(Drop)]
pub struct ConstraintSet {
    key_size: bool,
    alphanumeric: bool,
    numeric: bool,
    visibility: bool,
}

impl Model for ConstraintSet {
    ghost use Rattle.std.specs.Prelude.{List};
    ghost use Rattle.tab_rules.specs.declared.constraint.Constraint.{Constraint};

    ghost Value = { List Constraint };

    ghost use Rattle.tab_rules.specs.ConstraintFlags.{members};

    ghost view = { members };
}

impl ConstraintSet {
    /// No constraint.
    pub fn none() -> ConstraintSet
        ensures { result ≡ [] }
    {
        ConstraintSet {
            key_size: false,
            alphanumeric: false,
            numeric: false,
            visibility: false,
        }
    }

    /// The set of these.
    pub fn of(constraints: &[Constraint]) -> ConstraintSet
        ensures { result ≡ constraint_set_of constraints.now }
    {
        ConstraintSet {
            key_size: is_among(constraints, Constraint::KeySize),
            alphanumeric: is_among(constraints, Constraint::Alphanumeric),
            numeric: is_among(constraints, Constraint::Numeric),
            visibility: is_among(constraints, Constraint::Visibility),
        }
    }

    /// What each set keeps: it is in its one form. Nothing is done, and it is known afterwards.
    pub fn keeps(&self)
        ensures { constraint_set_of self.now ≡ self.now }
    {
        let _flag = self.key_size;
    }

    /// Whether the constraint is a member.
    pub fn contains(&self, constraint: Constraint) -> bool
        ensures { result ≡ is_set self.now constraint }
    {
        match constraint {
            Constraint::KeySize => self.key_size,
            Constraint::Alphanumeric => self.alphanumeric,
            Constraint::Numeric => self.numeric,
            Constraint::Visibility => self.visibility,
        }
    }
}

impl Clone for ConstraintSet {
    ghost is_clone = { λ source copy. copy ≡ source };

    fn clone(&self) -> Result<ConstraintSet, AllocError> {
        Ok(ConstraintSet {
            key_size: self.key_size,
            alphanumeric: self.alphanumeric,
            numeric: self.numeric,
            visibility: self.visibility,
        })
    }
}

// Whether the constraint is one of these.
fn is_among(constraints: &[Constraint], constraint: Constraint) -> bool
    ensures { result ≡ is_set constraints.now constraint }
{
    constraints
        .iter()
        .any(|set| constraint.number() == set.number())
}
