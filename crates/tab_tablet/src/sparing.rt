//! The sources that a compaction doesn't read.
ghost use Rattle.std.specs.Prelude.{◌≡◌, filter, not, nat_le};
ghost use Rattle.tab_compact.specs.Plans.{largest};
ghost use Rattle.tab_compact.specs.Merges.{by_size, sizes_of, taken, inputs_of};
ghost use Rattle.tab_tablet.specs.Spared.{plan_of, larger_than, spared};

use std::alloc::Global;
use tab_cells::Compaction;
use tab_version::{Clips, TableClip};

/// What a compaction of this kind leaves of the sources, of which it reads these inputs: a minor one the tables, a partial one the
/// runs and the tables that are larger than its inputs, a full one nothing. It takes no memory.
pub(crate) fn spared(alloc: Global, kind: Compaction, inputs: &Clips, sources: Clips) -> Clips
    requires { inputs.now ≡ inputs_of kind sources }
    ensures { result ≡ spared kind sources }
{
    let (runs, tables) = sources.into_parts();
    match kind {
        Compaction::Minor => Clips::of(Vec::new(alloc), tables),
        Compaction::Partial => Clips::of(runs, larger(tables, inputs.tables())),
        Compaction::Full => Clips::new(alloc),
    }
}

// The tables that are larger than the inputs, which are the smallest ones, as many as the plan says.
fn larger(mut tables: Vec<TableClip>, inputs: &[TableClip]) -> Vec<TableClip>
    requires { inputs.now ≡ taken (plan_of tables.items) (by_size tables.items) }
    ensures { result.items ≡ larger_than (plan_of tables.items) tables.items }
{
    if inputs.is_empty() {
        return tables;
    }
    keep_above(&mut tables, largest(inputs));
    tables
}

// Leaves the tables that are larger than this, in bytes.
fn keep_above(tables: &mut Vec<TableClip>, limit: u64)
    ensures { tables.new.items ≡ filter (λ t. not (nat_le t.size limit)) tables.old.items }
{
    tables.retain(|table| limit < table.size());
}

// The size of the largest of the tables, in bytes; 0 without one.
fn largest(tables: &[TableClip]) -> u64
    ensures { result ≡ largest (sizes_of tables.now) }
{
    let mut limit = 0u64;
    for table in tables {
        limit = limit.max(table.size());
    }
    limit
}
