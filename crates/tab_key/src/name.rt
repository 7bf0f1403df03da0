//! Names of users and tables.
ghost use Rattle.std.specs.Prelude.{◌≡◌, ◌↔◌, IsTrue, IsSome, IfSome, ◌≤◌, ◌-◌, ◌++◌, length, nat_eq, replicate, drop};
ghost use Rattle.std.specs.List.{list_all};
ghost use Rattle.std.specs.Ordering.{nat_cmp, as_partial_cmp};
ghost use Rattle.std.specs.Cmp.Lexicographic.{pointwise, slice_cmp, nat_list_cmp_total};
ghost use Rattle.std.specs.Cmp.{partial_order_from_own_ties};
ghost use Rattle.std.specs.Cmp.Rules.{comparing};
ghost use Rattle.std.proofs.Common.{rules};
ghost use Rattle.tab_key.specs.Names.{IsName, is_name_byte};

use crate::spelled::write_bytes;
use std::cmp::Ordering;
use std::fmt;
use std::marker::Model;

/// The most bytes in a name.
pub const MAX_NAME_LEN: usize = 128;

/// A name of a user or a table: 1 to 128 bytes of `a-z A-Z 0-9 _ - .`, kept in place.
#[derive(Clone, Copy)]
pub struct Name {
    bytes: [u8; MAX_NAME_LEN],
    len: usize,
}

impl Model for Name {
    ghost use Rattle.std.specs.Prelude.{ℕ, List, take};

    ghost Value = { List ℕ };

    ghost use Rattle.tab_key.specs.NameFields.{IsKept, fields_of, fields_of_kept};

    ghost view = { λ n. take n.len n.bytes };

    ghost invariant = { IsKept };

    ghost inverse = { fields_of };

    ghost inverse_ok = { fields_of_kept };
}

impl Name {
    /// The name of these bytes, if they are one. It takes no memory.
    #[tactic(auto, using(crate::specs::NameFields::kept_of))]
    pub fn new(bytes: &[u8]) -> Option<Name>
        ensures valid { IsSome result ↔ IsName bytes.now }
        ensures value { IfSome result (λ name. name ≡ bytes.now) }
    {
        if bytes.is_empty() || bytes.len() > MAX_NAME_LEN || !is_spelled(bytes) {
            return None;
        }
        Some(Name {
            bytes: padded(bytes),
            len: bytes.len(),
        })
    }

    /// The bytes.
    pub fn as_bytes(&self) -> &[u8]
        ensures value { result.now ≡ self.now }
        ensures valid { IsName self.now }
    {
        &self.bytes[..self.len]
    }
}

// The bytes, and zeros up to the longest name.
fn padded(bytes: &[u8]) -> [u8; MAX_NAME_LEN]
    requires { length bytes.now ≤ MAX_NAME_LEN }
    ensures { result ≡ bytes.now ++ replicate (MAX_NAME_LEN - length bytes.now) 0 }
{
    let mut kept = [0u8; MAX_NAME_LEN];
    write_front(&mut kept, bytes);
    kept
}

fn write_front(kept: &mut [u8], bytes: &[u8])
    requires { length bytes.now ≤ length kept.old }
    ensures { kept.new ≡ bytes.now ++ drop (length bytes.now) kept.old }
{
    kept[..bytes.len()].copy_from_slice(bytes);
}

fn is_spelled(bytes: &[u8]) -> bool
    ensures { result ≡ list_all is_name_byte bytes.now }
{
    bytes.iter().all(|b| b.is_ascii_alphanumeric() || *b == b'_' || *b == b'-' || *b == b'.')
}

impl PartialEq for Name {
    ghost eq = { pointwise nat_eq };

    ghost laws = { Prim.search (comparing, rules) };

    fn eq(&self, other: &Name) -> bool {
        self.as_bytes() == other.as_bytes()
    }
}

impl Eq for Name {
    ghost laws = { Prim.search (comparing, rules) };
}

impl Ord for Name {
    ghost cmp = { slice_cmp nat_cmp };

    ghost total = { nat_list_cmp_total };

    ghost matches_partial_cmp = { Prim.search (comparing, rules) };

    ghost matches_eq = { Prim.search (comparing, rules) };

    fn cmp(&self, other: &Name) -> Ordering {
        self.as_bytes().cmp(other.as_bytes())
    }
}

impl PartialOrd for Name {
    ghost partial_cmp = { as_partial_cmp (slice_cmp nat_cmp) };

    ghost laws = { partial_order_from_own_ties (Prim.search (comparing, rules)) (Prim.search (comparing, rules)) };

    fn partial_cmp(&self, other: &Name) -> Option<Ordering> {
        Some(self.cmp(other))
    }
}

impl fmt::Debug for Name {
    fn fmt<W: fmt::Write>(&self, f: &mut fmt::Formatter<W>) -> fmt::Result {
        write_bytes(self.as_bytes(), f)
    }
}
