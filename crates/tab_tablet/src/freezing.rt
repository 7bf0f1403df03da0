//! What was written, made a run.
ghost use Rattle.std.specs.Prelude.{◌≡◌, ◌++◌, IfOk, OnOk};
ghost use Rattle.tab_key.specs.Sorted.{IsDistinct};
ghost use Rattle.tab_version.specs.Sources.{records_of};
ghost use Rattle.tab_tablet.specs.Tablets.{run_of};

use crate::source_lists::SourceLists;
use crate::sources::Sources;
use std::alloc::{AllocError, Global};
use tab_mem::Active;
use tab_version::{Clip, Clips};

/// Puts what was written behind the runs, as one run, if there is any.
pub(crate) fn add_frozen(
    alloc: Global,
    active: &Active,
    sources: &mut Clips,
) -> Result<(), AllocError>
    ensures { OnOk result (sources.new ≡ record (sources.old) { runs = sources.old.runs ++ run_of active.now }) }
{
    if active.is_empty() {
        return Ok(());
    }
    let run = active.to_run(alloc)?;
    sources.add_run(Clip::whole(run))
}

/// The sources with what was written as one more run, if there is any, which the merged runs hold too. These stay as they are.
pub(crate) fn frozen_sources(
    alloc: Global,
    active: &Active,
    sources: &Sources,
) -> Result<Sources, AllocError>
    requires { IsDistinct (active.now ++ records_of sources.now) }
    ensures { IfOk result (λ s. s ≡ record (sources.now) { runs = sources.now.runs ++ run_of active.now }) }
{
    let mut frozen = sources.share(alloc)?;
    add_prepared(alloc, active, &mut frozen)?;
    Ok(frozen)
}

// Puts what was written behind the runs, if there is any, so that the merged runs hold it too.
fn add_prepared(alloc: Global, active: &Active, sources: &mut Sources) -> Result<(), AllocError>
    requires { IsDistinct (active.now ++ records_of sources.old) }
    ensures { OnOk result (sources.new ≡ record (sources.old) { runs = sources.old.runs ++ run_of active.now }) }
{
    if active.is_empty() {
        return Ok(());
    }
    let none = SourceLists::new(alloc);
    let freeze = sources.lists_or(&none).prepare(alloc, active)?;
    sources.put(alloc, freeze)
}
