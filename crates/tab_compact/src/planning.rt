//! Which tables a partial compaction merges.
ghost use Rattle.std.specs.Prelude.{◌≡◌};
ghost use Rattle.std.specs.List.Sorted.{IsNonDecreasing};
ghost use Rattle.tab_compact.specs.Plans.{plan};

/// How many of the smallest tables a partial compaction merges, of tables of these sizes in bytes, the smallest first.
///
/// It is the greatest number of at least two for which three times the largest of so many tables is at most the sum of their
/// sizes; without one there is nothing to merge. It takes no memory, and one step for each size.
pub fn plan(sizes: &[u64]) -> Option<usize>
    requires { IsNonDecreasing sizes.now }
    ensures { result ≡ plan sizes.now }
{
    let mut sum: u128 = 0;
    let mut fitting = None;
    for (i, size) in sizes.iter().enumerate() {
        let largest = u128::from(*size);
        sum += largest;
        if 0 < i && 3 * largest <= sum {
            fitting = Some(i + 1);
        }
    }
    fitting
}
