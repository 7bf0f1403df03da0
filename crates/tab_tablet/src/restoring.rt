//! Records, made a sorted table.
ghost use Rattle.std.specs.Prelude.{◌≡◌, [], IfOk};
ghost use Rattle.tab_tablet.specs.Tablets.{table_of};

use std::alloc::Global;
use tab_iter::NoMemory;
use tab_version::{Clip, Clips, TableClip};

/// The records as one sorted table, if there are any.
pub(crate) fn table_of(alloc: Global, records: &Clip) -> Result<Clips, NoMemory>
    ensures { IfOk result (λ c. c ≡ record { runs = []; tables = table_of records.now }) }
{
    let mut sources = Clips::new(alloc);
    if records.is_empty() {
        return Ok(sources);
    }
    let table = TableClip::of_run(alloc, records)?;
    sources.add_table(table)?;
    Ok(sources)
}
