//! Work that is due on a tablet.
ghost use Rattle.std.specs.Prelude.{◌≡◌, is_some};
ghost use Rattle.std.specs.List.{list_any};
ghost use Rattle.tab_compact.specs.Plans.{plan};
ghost use Rattle.tab_compact.specs.Merges.{by_size, sizes_of};
ghost use Rattle.tab_tablet.specs.Due.{fit_within};

use tab_version::TableClip;

/// The bytes that a tablet's sorted tables have together from which on it is split.
pub const SPLIT_SIZE: u64 = 16_777_216;

/// What work a tablet may be due for.
#[derive(Clone, Copy, Debug, PartialEq, Eq)]
pub enum DueKind {
    /// A minor compaction: what was written to it and its runs come to 4,096 records or more.
    Minor,
    /// A partial compaction: it would merge some of its sorted tables.
    Partial,
    /// A split in the middle of what it holds: its sorted tables come to 16,777,216 bytes or more.
    Split,
}

/// Whether a partial compaction would merge some of these tables. It takes no memory, and time quadratic in their number.
pub(crate) fn has_plan(tables: &[TableClip]) -> bool
    ensures { result ≡ is_some (plan (sizes_of (by_size tables.now))) }
{
    some_fit(tables)
}

// Whether one of the tables has a size up to which they fit.
fn some_fit(tables: &[TableClip]) -> bool
    ensures { result ≡ list_any (λ t. fit_within t.size tables.now) tables.now }
{
    tables.iter().any(|table| fit_within(tables, table.size()))
}

// Whether those of the tables that are no larger than this are two or more, of which three times this is at most the sum.
fn fit_within(tables: &[TableClip], limit: u64) -> bool
    ensures { result ≡ fit_within limit tables.now }
{
    let mut count = 0usize;
    let mut sum = 0u128;
    for table in tables {
        let size = table.size();
        if size <= limit {
            count += 1;
            sum += u128::from(size);
        }
    }
    2 <= count && 3 * u128::from(limit) <= sum
}
