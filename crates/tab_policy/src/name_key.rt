//! Names as the keys of maps.
ghost use Rattle.std.specs.Prelude.{◌≡◌, IfOk};
ghost use Rattle.std.specs.Ordering.{nat_cmp, as_partial_cmp, eq_by_cmp};
ghost use Rattle.std.specs.Cmp.Lexicographic.{slice_cmp, nat_list_cmp_total};
ghost use Rattle.std.specs.Cmp.{partial_equiv_from_equiv, eq_by_cmp_equiv, partial_order_from_own_ties};
ghost use Rattle.std.specs.Cmp.Rules.{comparing};
ghost use Rattle.std.proofs.Common.{rules};
ghost use Rattle.std.specs.BTreeMap.Comparable.{le_lt_trans};
ghost use Rattle.tab_key.specs.Names.{IsName};

use std::alloc::{AllocError, Global};
use std::cmp::Ordering;
use std::collections::btree_map::Comparable;
use std::marker::Model;
use tab_key::{ByteString, Name};

/// A name that takes no more memory than its bytes need, to be searched for by a `Name`. A contract sees its bytes.
pub struct NameKey {
    bytes: ByteString,
}

// Written out, so that a crate above needn't prove anew how the parts are dropped.
impl Drop for NameKey {
    #[inline(always)]
    fn drop(self) {
        let NameKey { bytes: _ } = self;
    }
}

impl Model for NameKey {
    ghost use Rattle.std.specs.Prelude.{ℕ, List};
    ghost use Rattle.tab_key.specs.Names.{IsName};

    ghost Value = { List ℕ };

    ghost view = { λ k. k.bytes };

    ghost invariant = { λ k. IsName k.bytes };
}

impl NameKey {
    /// The name as a key.
    ///
    /// # Errors
    ///
    /// There was no memory for its bytes.
    pub fn new(alloc: Global, name: &Name) -> Result<NameKey, AllocError>
        ensures { IfOk result (λ key. key ≡ name.now) }
    {
        Ok(NameKey {
            bytes: ByteString::from_slice(alloc, name.as_bytes())?,
        })
    }

    /// The name itself. It takes no memory.
    pub fn to_name(&self) -> Name
        ensures { result ≡ self.now }
    {
        Name::new(self.as_bytes()).unwrap()
    }

    // The bytes of the name.
    fn as_bytes(&self) -> &[u8]
        ensures value { result.now ≡ self.now }
        ensures valid { IsName self.now }
    {
        self.bytes.as_bytes()
    }
}

impl Clone for NameKey {
    ghost is_clone = { λ source copy. copy ≡ source };

    fn clone(&self) -> Result<NameKey, AllocError> {
        Ok(NameKey {
            bytes: self.bytes.clone()?,
        })
    }
}

impl PartialEq for NameKey {
    ghost eq = { eq_by_cmp (slice_cmp nat_cmp) };

    ghost laws = { partial_equiv_from_equiv (eq_by_cmp_equiv nat_list_cmp_total) };

    fn eq(&self, other: &NameKey) -> bool {
        self.cmp(other).is_eq()
    }
}

impl Eq for NameKey {
    ghost laws = { eq_by_cmp_equiv nat_list_cmp_total };
}

impl Ord for NameKey {
    ghost cmp = { slice_cmp nat_cmp };

    ghost total = { nat_list_cmp_total };

    ghost matches_partial_cmp = { Prim.search (comparing, rules) };

    ghost matches_eq = { Prim.search (comparing, rules) };

    fn cmp(&self, other: &NameKey) -> Ordering {
        self.as_bytes().cmp(other.as_bytes())
    }
}

impl PartialOrd for NameKey {
    ghost partial_cmp = { as_partial_cmp (slice_cmp nat_cmp) };

    ghost laws = { partial_order_from_own_ties (Prim.search (comparing, rules)) (Prim.search (comparing, rules)) };

    fn partial_cmp(&self, other: &NameKey) -> Option<Ordering> {
        Some(self.cmp(other))
    }
}

impl Comparable<NameKey> for &Name {
    ghost compare = { λ q. slice_cmp nat_cmp q.now };

    ghost respects_cmp = { λ q. nat_list_cmp_total.congr q.now };

    ghost below_greater = { λ q. le_lt_trans nat_list_cmp_total q.now };

    fn compare(&self, key: &NameKey) -> Ordering {
        self.as_bytes().cmp(key.as_bytes())
    }
}
