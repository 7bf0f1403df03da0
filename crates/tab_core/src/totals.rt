//! What all tables hold, counted.
ghost use Rattle.std.specs.Prelude.{◌≡◌};
ghost use Rattle.tab_core.specs.Totals.{added, totals_of};

use tab_history::Counts;
use tab_store::Tables;

// What a status tells of each of the tables, summed.
pub(crate) fn totals(tables: &Tables) -> Counts
    ensures { result ≡ totals_of tables.now }
{
    let mut sums = Counts {
        tablets: 0,
        sources: 0,
        records: 0,
    };
    for (_, table) in tables.iter() {
        sums = added(sums, table.counts());
    }
    sums
}

// The sums of these counts.
fn added(a: Counts, b: Counts) -> Counts
    ensures { result ≡ added a b }
{
    Counts {
        tablets: a.tablets.saturating_add(b.tablets),
        sources: a.sources.saturating_add(b.sources),
        records: a.records.saturating_add(b.records),
    }
}
