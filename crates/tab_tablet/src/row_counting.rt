//! How many records of sources have rows in bounds.
ghost use Rattle.std.specs.Prelude.{◌≡◌, ◌<◌, ◌^◌, length, filter, map};
ghost use Rattle.tab_key.specs.Ranges.{is_in_range};
ghost use Rattle.tab_iter.specs.Bags.{flat};
ghost use Rattle.tab_version.specs.Sources.{records_of};

use tab_key::Bounds;
use tab_version::{Clip, Clips, TableClip};

/// How many records have rows in bounds. It takes time logarithmic in each source.
pub(crate) fn count_rows(sources: &Clips, bounds: &Bounds) -> u128
    ensures { result ≡ length (filter (λ u. is_in_range bounds.now u.key.row) (records_of sources.now)) }
{
    count_in_runs(sources.runs(), bounds) + count_in_tables(sources.tables(), bounds)
}

fn count_in_runs(runs: &[Clip], bounds: &Bounds) -> u128
    ensures count { result ≡ length (filter (λ u. is_in_range bounds.now u.key.row) (flat runs.now)) }
    ensures fits { result < 2 ^ 127 }
{
    let mut count = 0u128;
    for run in runs {
        count += run.count_in(bounds) as u128;
    }
    count
}

fn count_in_tables(tables: &[TableClip], bounds: &Bounds) -> u128
    ensures count { result ≡ length (filter (λ u. is_in_range bounds.now u.key.row) (flat (map (λ t. t.records) tables.now))) }
    ensures fits { result < 2 ^ 127 }
{
    let mut count = 0u128;
    for table in tables {
        count += table.count_in(bounds) as u128;
    }
    count
}
