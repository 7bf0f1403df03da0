//! How many records sources hold, and how large their tables are.
ghost use Rattle.std.specs.Prelude.{◌≡◌, length, map, min, sum};
ghost use Rattle.tab_iter.specs.Bags.{flat};
ghost use Rattle.tab_version.specs.Sources.{records_of};

use tab_version::{Clip, TableClip};

/// How many records there are, markers and hidden ones among them; the greatest `u64` for any number above it.
pub(crate) fn count_records(runs: &[Clip], tables: &[TableClip]) -> u64
    ensures { result ≡ min (length (records_of (record { runs = runs.now; tables = tables.now }))) 18446744073709551615 }
{
    count_in_runs(runs).saturating_add(count_in_tables(tables))
}

/// How many records the runs have; the greatest `u64` for any number above it.
pub(crate) fn count_in_runs(runs: &[Clip]) -> u64
    ensures { result ≡ min (length (flat runs.now)) 18446744073709551615 }
{
    let mut count = 0u64;
    for run in runs {
        count = count.saturating_add(run.len() as u64);
    }
    count
}

fn count_in_tables(tables: &[TableClip]) -> u64
    ensures { result ≡ min (length (flat (map (λ t. t.records) tables.now))) 18446744073709551615 }
{
    let mut count = 0u64;
    for table in tables {
        count = count.saturating_add(table.len() as u64);
    }
    count
}

/// The sizes of the tables together, in bytes; the greatest `u64` for any number above it.
pub(crate) fn total_size(tables: &[TableClip]) -> u64
    ensures { result ≡ min (sum (map (λ t. t.size) tables.now)) 18446744073709551615 }
{
    let mut size = 0u64;
    for table in tables {
        size = size.saturating_add(table.size());
    }
    size
}
