//! Sets of authorizations.
ghost use Rattle.std.specs.Prelude.{◌≡◌, ◌↔◌, ◌==◌, [], IsTrue, IsNone, IfSome, length, nat_lt, option_copied};
ghost use Rattle.std.specs.List.{All, Contains, list_any};
ghost use Rattle.tab_label.specs.Sets.{byte_lists, IsRising, IsFirstMissing, has, has_longer, first_missing, set_of};
ghost use Rattle.tab_label.specs.Judging.{unescaped};

use crate::escapes::compare;
use std::alloc::{AllocError, Global};
use std::marker::Model;

/// A set of authorizations: byte strings, each below the next by unsigned bytes.
#[derive(Debug)]
pub struct AuthSet {
    members: Vec<Vec<u8>>,
}

// Written out, so that a crate above needn't prove anew how the parts are dropped.
impl Drop for AuthSet {
    #[inline(always)]
    fn drop(self) {
        let AuthSet { members: _ } = self;
    }
}

impl Model for AuthSet {
    ghost use Rattle.std.specs.Prelude.{List, ℕ};
    ghost use Rattle.tab_label.specs.Sets.{byte_lists, IsRising};

    ghost Value = { List (List ℕ) };

    ghost view = { λ a. byte_lists a.members.items };

    ghost invariant = { λ a. IsRising (byte_lists a.members.items) };
}

impl Clone for AuthSet {
    ghost is_clone = { λ x y. y ≡ x };

    fn clone(&self) -> Result<Self, AllocError> {
        let members = self.members.clone()?;
        Ok(AuthSet { members })
    }
}

impl PartialEq for AuthSet {
    ghost use Rattle.std.specs.Prelude.{bytes_eq};
    ghost use Rattle.std.specs.Cmp.Lexicographic.{pointwise};
    ghost use Rattle.std.specs.Cmp.Rules.{comparing};
    ghost use Rattle.std.proofs.Common.{rules};

    ghost eq = { pointwise bytes_eq };

    ghost laws = { Prim.search (comparing, rules) };

    fn eq(&self, other: &AuthSet) -> bool {
        self.terms() == other.terms()
    }
}

impl AuthSet {
    /// The set of these byte strings, in whatever order and however often they stand there.
    /// Takes no memory: it sorts in place and drops what stands twice.
    pub fn new(terms: Vec<Vec<u8>>) -> Self
        ensures set { result ≡ set_of (byte_lists terms.items) }
        ensures members { (term : _) → Contains result term ↔ Contains (byte_lists terms.items) term }
        ensures rising { IsRising result }
    {
        let mut members = terms;
        members.sort_unstable();
        members.dedup();
        AuthSet { members }
    }

    /// The set without members, which takes no memory.
    pub fn empty(alloc: Global) -> Self
        ensures { result ≡ [] }
    {
        AuthSet {
            members: Vec::new(alloc),
        }
    }

    /// The members, rising.
    pub fn terms(&self) -> &[Vec<u8>]
        ensures all { byte_lists result.now ≡ self.now }
        ensures rising { IsRising self.now }
    {
        &self.members
    }

    /// How many members there are.
    pub fn len(&self) -> usize
        ensures { result ≡ length self.now }
    {
        self.members.len()
    }

    /// Whether there is none.
    pub fn is_empty(&self) -> bool
        ensures { result ≡ (length self.now == 0) }
    {
        self.members.is_empty()
    }

    /// Whether the byte string is a member, by a binary search.
    pub fn contains(&self, term: &[u8]) -> bool
        ensures fact { IsTrue result ↔ Contains self.now term.now }
        ensures test { result ≡ has self.now term.now }
    {
        self.members
            .binary_search_by(|held| held.as_slice().cmp(term))
            .is_ok()
    }

    /// Whether what the bytes between two quotes stand for is a member, by a binary search that builds nothing.
    pub(crate) fn contains_quoted(&self, quoted: &[u8]) -> bool
        ensures { result ≡ has self.now (unescaped quoted.now) }
    {
        self.members
            .binary_search_by(|held| compare(held, quoted))
            .is_ok()
    }

    /// Whether some member is longer than this many bytes.
    pub fn has_longer(&self, limit: usize) -> bool
        ensures { result ≡ has_longer self.now limit }
    {
        some_longer(&self.members, limit)
    }

    /// The least member that the other set lacks, if it lacks one.
    pub fn first_missing(&self, other: &AuthSet) -> Option<&[u8]>
        ensures none { IsNone result ↔ All (Contains other.now) self.now }
        ensures some { IfSome result (λ term. IsFirstMissing self.now other.now term.now) }
        ensures exact { option_copied result ≡ first_missing self.now other.now }
    {
        for member in &self.members {
            if !other.contains(member) {
                return Some(member);
            }
        }
        None
    }
}

/// Whether some byte string is longer than this many bytes.
fn some_longer(members: &[Vec<u8>], limit: usize) -> bool
    ensures { result ≡ list_any (λ member. nat_lt limit (length member.items)) members.now }
{
    members.iter().any(|member| limit < member.as_slice().len())
}
