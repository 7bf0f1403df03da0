//! How many versions of a column a table shows.
ghost use Rattle.std.specs.Prelude.{◌≡◌, ◌≤◌, Some, None, cond, nat_eq};
ghost use Rattle.std.specs.Cmp.Rules.{comparing};
ghost use Rattle.std.proofs.Common.{rules};
ghost use Rattle.tab_history.specs.Settings.{is_version_count};
ghost use Rattle.tab_key.specs.declared.limited_part.TheConstants.{MAX_VERSIONS};

use std::marker::Model;
use tab_key::MAX_VERSIONS;

/// A number of versions: 1 to 1,000. (Accumulo user manual: the versioning iterator)
#[derive(Clone, Copy)]
pub struct Versions {
    count: u32,
}

impl Model for Versions {
    ghost use Rattle.std.specs.Prelude.{ℕ, ◌≡◌, true};

    ghost Value = { ℕ };

    ghost use Rattle.tab_history.specs.Settings.{is_version_count};

    ghost view = { λ v. v.count };

    ghost invariant = { λ v. is_version_count v.count ≡ true };

    ghost inverse = { λ n. record { count = n } };

    ghost inverse_ok = { λ v counted i. v };
}

impl Versions {
    /// The newest version alone.
    pub fn one() -> Versions
        ensures { result ≡ 1 }
    {
        Versions { count: 1 }
    }

    /// This number, if it is 1 to 1,000.
    pub fn new(count: u64) -> Option<Versions>
        ensures { result ≡ cond (is_version_count count) (Some count) None }
    {
        if 1 <= count && count <= MAX_VERSIONS as u64 {
            Some(Versions {
                count: count as u32,
            })
        } else {
            None
        }
    }

    /// The number.
    pub fn get(self) -> u32
        ensures value { result ≡ self }
        ensures least { 1 ≤ result }
        ensures most { result ≤ MAX_VERSIONS }
    {
        self.count
    }
}

impl PartialEq for Versions {
    ghost eq = { nat_eq };

    ghost laws = { Prim.search (comparing, rules) };

    fn eq(&self, other: &Versions) -> bool {
        self.count == other.count
    }
}

impl Eq for Versions {
    ghost laws = { Prim.search (comparing, rules) };
}
