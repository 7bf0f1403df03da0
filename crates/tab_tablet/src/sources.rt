//! A tablet's sources, and the place where they lie.
ghost use Rattle.std.specs.Prelude.{◌≡◌, ◌++◌, ◌∷◌, [], is_some, IfOk, OnOk, OnErr};
ghost use Rattle.tab_key.specs.Sorted.{IsDistinct};
ghost use Rattle.tab_version.specs.Sources.{no_sources, records_of};
ghost use Rattle.tab_compact.specs.Merges.{captured};
ghost use Rattle.tab_tablet.specs.MergedRuns.{AreMergedRuns};
ghost use Rattle.tab_tablet.specs.Spared.{sources_after};

use crate::freeze::Freeze;
use crate::source_lists::SourceLists;
use std::alloc::{AllocError, Global};
use std::marker::Model;
use tab_cells::Compaction;
use tab_iter::NoMemory;
use tab_version::{Clip, TableClip};

/// The lists, if there is a run or a table: memory for them is taken with the first. A contract sees the runs and the tables.
#[derive(Drop)]
pub(crate) struct Sources {
    source_lists: Option<Box<SourceLists>>,
}

impl Model for Sources {
    ghost use Rattle.std.specs.Prelude.{option_map, unwrap_or};
    ghost use Rattle.tab_version.specs.Sources.{Sources as Contents, no_sources};

    ghost Value = { Contents };

    ghost view = { λ s. unwrap_or (option_map (λ l. l.value) s.source_lists) no_sources };
}

impl Sources {
    /// None. It takes no memory.
    pub(crate) fn new() -> Sources
        ensures { result ≡ no_sources }
    {
        Sources { source_lists: None }
    }

    /// These. It takes no memory where there are none. `AllocError` says that it lacked.
    pub(crate) fn of(alloc: Global, source_lists: SourceLists) -> Result<Sources, AllocError>
        ensures { IfOk result (λ s. s ≡ source_lists) }
    {
        if source_lists.is_empty() {
            return Ok(Sources::new());
        }
        let source_lists = Box::new(alloc, source_lists)?;
        Ok(Sources {
            source_lists: Some(source_lists),
        })
    }

    /// The runs.
    pub(crate) fn runs(&self) -> &[Clip]
        ensures { result.now ≡ self.now.runs }
    {
        match &self.source_lists {
            Some(source_lists) => source_lists.sources().runs(),
            None => &[],
        }
    }

    /// The tables.
    pub(crate) fn tables(&self) -> &[TableClip]
        ensures { result.now ≡ self.now.tables }
    {
        match &self.source_lists {
            Some(source_lists) => source_lists.sources().tables(),
            None => &[],
        }
    }

    /// The lists. Where there are none, it lends the ones it is handed, which are none either.
    pub(crate) fn lists_or<'a>(&'a self, none: &'a SourceLists) -> &'a SourceLists
        requires { none.now ≡ no_sources }
        ensures { result.now ≡ self.now }
    {
        match &self.source_lists {
            Some(source_lists) => source_lists,
            None => none,
        }
    }

    // The lists, out of their place.
    fn into_lists(self, alloc: Global) -> SourceLists
        ensures { result ≡ self }
    {
        match self.source_lists {
            Some(source_lists) => Box::into_inner(source_lists),
            None => SourceLists::new(alloc),
        }
    }

    /// A copy that shares the sources and the merged runs.
    pub(crate) fn share(&self, alloc: Global) -> Result<Sources, AllocError>
        ensures { IfOk result (λ s. s ≡ self.now) }
    {
        let none = SourceLists::new(alloc);
        let source_lists = self.lists_or(&none).share(alloc)?;
        Sources::of(alloc, source_lists)
    }

    /// Puts the run behind the others. `AllocError` leaves all as it was.
    pub(crate) fn put(&mut self, alloc: Global, freeze: Freeze) -> Result<(), AllocError>
        requires { AreMergedRuns (self.old.runs ++ freeze.run ∷ []) freeze.merged_runs }
        ensures ok { OnOk result (self.new ≡ record (self.old) { runs = self.old.runs ++ freeze.run ∷ [] }) }
        ensures err { OnErr result (self.new ≡ self.old) }
    {
        match &mut self.source_lists {
            Some(source_lists) => source_lists.put(freeze),
            None => {
                let mut source_lists = SourceLists::new(alloc);
                source_lists.put(freeze)?;
                self.source_lists = Some(Box::new(alloc, source_lists)?);
                Ok(())
            }
        }
    }

    /// The sources after a compaction of this kind of the tablet with this number, and whether there was anything to merge, as
    /// `compacting` says.
    pub(crate) fn compacted(
        self,
        alloc: Global,
        tablet: u64,
        kind: Compaction,
        floor: i64,
        versions: u32,
    ) -> Result<(Sources, bool), NoMemory>
        requires { IsDistinct (records_of self) }
        ensures sources { IfOk result (λ p. p.0 ≡ sources_after kind (captured tablet 0 kind floor versions self) self) }
        ensures is_merged { IfOk result (λ p. p.1 ≡ is_some (captured tablet 0 kind floor versions self)) }
    {
        let source_lists = self.into_lists(alloc);
        let (source_lists, is_merged) = source_lists.compacted(
            alloc, tablet, kind, floor, versions,
        )?;
        let sources = Sources::of(alloc, source_lists)?;
        Ok((sources, is_merged))
    }
}
