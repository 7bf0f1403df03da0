//! Sources that are taken out, each for an input of equal contents.
ghost use Rattle.std.specs.Prelude.{◌≡◌, ◌&&◌, ◌==◌, Some, None, cond};
ghost use Rattle.tab_version.specs.Sources.{same_table, without, or_else, without_runs, without_tables};

use crate::sought::{WithSize, take_first};
use crate::{Clip, TableClip};

/// Takes out a run of equal contents for each of the inputs, and says whether each input had one of its own. Where one had none, some
/// are taken out.
pub(crate) fn take_runs(runs: &mut Vec<Clip>, inputs: &[Clip]) -> bool
    ensures { without_runs inputs.now runs.old.items ≡ cond result (Some runs.new.items) None }
{
    for input in inputs {
        if !take_first(runs, input) {
            return false;
        }
    }
    true
}

// Takes out the first table of equal contents, of equal size if there is such a one, and says whether there was one.
fn take_table(tables: &mut Vec<TableClip>, input: &TableClip) -> bool
    ensures { or_else (without (λ y. same_table input.now y && input.now.size == y.size) tables.old.items) (without (same_table input.now) tables.old.items) ≡ cond result (Some tables.new.items) None }
{
    if take_first(tables, &WithSize { table: input }) {
        return true;
    }
    take_first(tables, input)
}

/// Takes out a table of equal contents for each of the inputs, and says whether each input had one of its own. Of tables with equal
/// contents one of equal size is taken first. Where an input had none, some are taken out.
pub(crate) fn take_tables(tables: &mut Vec<TableClip>, inputs: &[TableClip]) -> bool
    ensures { without_tables inputs.now tables.old.items ≡ cond result (Some tables.new.items) None }
{
    for input in inputs {
        if !take_table(tables, input) {
            return false;
        }
    }
    true
}
