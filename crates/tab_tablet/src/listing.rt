//! All that sources hold, to be listed.
ghost use Rattle.std.specs.Prelude.{◌≡◌, IfOk};
ghost use Rattle.tab_key.specs.Sorted.{IsDistinct};
ghost use Rattle.tab_version.specs.Sources.{records_of};

use std::alloc::{AllocError, Global};
use tab_version::{Clips, Version};

/// All records of the sources.
///
/// It takes memory for one place in a list. `AllocError` says that it lacked.
pub(crate) fn version_of(alloc: Global, sources: Clips) -> Result<Version, AllocError>
    requires { IsDistinct (records_of sources) }
    ensures { IfOk result (λ v. v ≡ records_of sources) }
{
    let mut tablets = Vec::with_capacity(alloc, 1)?;
    tablets.push(sources)?;
    Ok(Version::of(tablets))
}
