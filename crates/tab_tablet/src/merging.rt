//! Sources merged into one run, of which no record is dropped.
ghost use Rattle.std.specs.Prelude.{◌≡◌, IfOk};
ghost use Rattle.tab_key.specs.Sorted.{sorted, IsDistinct};
ghost use Rattle.tab_version.specs.Sources.{records_of};

use std::alloc::Global;
use tab_iter::{Merging, NoMemory};
use tab_version::{Clip, Clips};

/// A run of all records of the sources. It takes time linear in these, and for each the logarithm of the number of sources.
///
/// It takes the memory that the run keeps. NoMemory says that it lacked.
pub(crate) fn merged(alloc: Global, sources: &Clips) -> Result<Clip, NoMemory>
    requires { IsDistinct (records_of sources.now) }
    ensures { IfOk result (λ c. c ≡ sorted (records_of sources.now)) }
{
    let cursors = sources.cursors(alloc)?;
    let mut all = Merging::new(cursors)?;
    let run = sources.run_of(alloc, &mut all)?;
    Ok(run)
}
