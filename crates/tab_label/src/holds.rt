//! Whether a label holds under authorizations.
ghost use Rattle.std.specs.Prelude.{◌≡◌, ◌↔◌, IsTrue};
ghost use Rattle.tab_label.specs.Holding.{ExprHolds, Holds, holds};
ghost use Rattle.tab_label.specs.Views.{expr_of, meaning_of};

use crate::auths::AuthSet;
use crate::joiner::Joiner;
use crate::tree::{Label, Tree};

impl Label {
    /// Whether one who has these authorizations sees what has this label.
    pub fn holds(&self, auths: &AuthSet) -> bool
        ensures fact { IsTrue result ↔ Holds (meaning_of self.now) auths.now }
        ensures test { result ≡ holds (meaning_of self.now) auths.now }
    {
        match self {
            Label::Everyone => true,
            Label::Only(tree) => tree.holds(auths),
        }
    }
}

impl Tree {
    /// Whether the expression holds for one who has these authorizations.
    pub fn holds(&self, auths: &AuthSet) -> bool
        ensures { IsTrue result ↔ ExprHolds (expr_of self.now) auths.now }
    {
        match self {
            Tree::Term(bytes) => auths.contains(bytes),
            Tree::Join(joiner, operands) => match joiner {
                Joiner::And => {
                    'all: for operand in operands {
                        if !operand.holds(auths) {
                            return false;
                        }
                    }
                    true
                }
                Joiner::Or => {
                    'any: for operand in operands {
                        if operand.holds(auths) {
                            return true;
                        }
                    }
                    false
                }
            },
        }
    }
}
