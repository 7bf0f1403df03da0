//! The records of tablets.
ghost use Rattle.std.specs.Prelude.{◌≡◌, ◌==◌, true, length, map, IfOk, OnOk};
ghost use Rattle.tab_key.specs.Sorted.{sorted};
ghost use Rattle.tab_key.specs.Records.{cell_of};
ghost use Rattle.tab_cells.specs.Cells.{cells};
ghost use Rattle.tab_iter.specs.Bags.{flat};
ghost use Rattle.tab_iter.specs.Lists.{IsRising};
ghost use Rattle.tab_iter.specs.Stack.{query_of};
ghost use Rattle.tab_iter.specs.Verdicts.{IsSound};
ghost use Rattle.tab_mem.specs.Lists.{HasShortParts};
ghost use Rattle.tab_version.specs.Shown.{shown};
ghost use Rattle.tab_version.specs.Sources.{records_of};

use crate::has_records::read_all;
use crate::tablets::drop_empty;
use crate::{Caches, Clips, InTurn, TabletSource, Tablets};
use std::alloc::Global;
use std::marker::Model;
use tab_iter::{NoMemory, Source, Verdicts, stack_of, stack_unread};
use tab_key::Column;
use tab_label::AuthSet;

/// What a scan of a version reads: the layers over all of its records.
pub type Stack<'a> = tab_iter::Stack<'a, Raw<'a>>;

/// All records of a version, markers and hidden ones among them: one tablet after another.
pub type Raw<'a> = InTurn<Tablets<'a>, TabletSource<'a>>;

/// What a session reads: the clips of tablets, as they stood. The tablets lie one behind the other, and no two records stand at one
/// place. A contract sees the records of all clips, one clip after another.
pub struct Version {
    // without those that hold no record
    tablets: Vec<Clips>,
}

// Written out, so that a crate above needn't prove anew how the parts are dropped.
impl Drop for Version {
    #[inline(always)]
    fn drop(self) {
        let Version { tablets: _ } = self;
    }
}

impl Model for Version {
    ghost use Rattle.std.specs.Prelude.{List};
    ghost use Rattle.tab_key.specs.Records.{Record as Fields};
    ghost use Rattle.tab_version.specs.Versions.{IsVersion, records_of_all};

    ghost Value = { List Fields };

    ghost view = { λ v. records_of_all v.tablets.items };

    ghost invariant = { λ v. IsVersion v.tablets.items };
}

impl Version {
    /// The clips of these tablets, of which each record of one stands before those of the next. It takes no memory, and time linear
    /// in the number of clips.
    pub fn of(tablets: Vec<Clips>) -> Version
        requires { IsRising (flat (map (λ t. sorted (records_of t)) tablets.items)) }
        ensures { result ≡ flat (map records_of tablets.items) }
    {
        let mut filled = tablets;
        drop_empty(&mut filled);
        read_all(&filled);
        Version { tablets: filled }
    }

    /// Whether there is no record. None is read for it.
    pub fn is_empty(&self) -> bool
        ensures { result ≡ (length self.now == 0) }
    {
        self.tablets.is_empty()
    }

    /// The records that a scan of all rows shows: of these columns, under these authorizations, so many versions of each column. There
    /// may be verdicts on labels under these authorizations, and caches, of an earlier batch.
    ///
    /// NoMemory comes only from want of memory. The version stays as it is; the stack reads it for as long as it lives.
    pub fn stack<'a>(
        &'a self,
        alloc: Global,
        columns: &'a [Column],
        auths: &'a AuthSet,
        verdicts: Verdicts,
        caches: Caches,
        versions: u32,
    ) -> Result<Stack<'a>, NoMemory>
        requires { IsSound auths.now verdicts }
        ensures shown { IfOk result (λ s. ⟦<Stack<'a> as Source>⟧.whole s ≡ shown self.now versions columns.now auths.now) }
        ensures cells { IfOk result (λ s. map cell_of (⟦<Stack<'a> as Source>⟧.whole s) ≡ cells self.now versions (query_of columns.now auths.now)) }
        ensures at_start { IfOk result (λ s. ⟦<Stack<'a> as Source>⟧.rest s ≡ ⟦<Stack<'a> as Source>⟧.whole s) }
    {
        let tablets = Tablets {
            tablets: self.tablets.as_slice(),
            caches,
        };
        let all = InTurn::new(alloc, tablets)?;
        let stack = stack_of(alloc, all, columns, auths, verdicts, versions)?;
        Ok(stack)
    }

    /// The stack of [`Version::stack`], unpositioned: nothing is read before a seek, which reads nothing before the column of its key, and
    /// no tablet but the one that the column lies in. It takes no memory, and can be sought in again and again.
    pub fn unread_stack<'a>(
        &'a self,
        alloc: Global,
        columns: &'a [Column],
        auths: &'a AuthSet,
        verdicts: Verdicts,
        caches: Caches,
        versions: u32,
    ) -> Stack<'a>
        requires { IsSound auths.now verdicts }
        ensures shown { ⟦<Stack<'a> as Source>⟧.whole result ≡ shown self.now versions columns.now auths.now }
        ensures unpositioned { ⟦<Stack<'a> as Source>⟧.is_unpositioned result ≡ true }
    {
        let tablets = Tablets {
            tablets: self.tablets.as_slice(),
            caches,
        };
        let all = InTurn::unpositioned(alloc, tablets);
        stack_unread(alloc, all, columns, auths, verdicts, versions)
    }

    /// All records, in their order. One tablet at a time is read.
    ///
    /// NoMemory comes only from want of memory. The version stays as it is; the source reads it for as long as it lives.
    pub fn raw<'a>(&'a self, alloc: Global) -> Result<Raw<'a>, NoMemory>
        ensures whole { IfOk result (λ s. ⟦<Raw<'a> as Source>⟧.whole s ≡ sorted self.now) }
        ensures rest { IfOk result (λ s. ⟦<Raw<'a> as Source>⟧.rest s ≡ ⟦<Raw<'a> as Source>⟧.whole s) }
        ensures short { OnOk result (HasShortParts self.now) }
    {
        let tablets = Tablets {
            tablets: self.tablets.as_slice(),
            caches: Caches::of(alloc, 0),
        };
        let all = InTurn::new(alloc, tablets)?;
        Ok(all)
    }
}

/// The caches that a scan began with, with what it read last.
pub fn caches_of(all: Raw<'_>) -> Caches {
    let Tablets { caches, .. } = all.into_lists();
    caches
}
