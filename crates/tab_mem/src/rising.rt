//! How many of some numbers that rise are below another one.
ghost use Rattle.std.specs.Prelude.{◌≡◌, ◌⊎◌, ◌+◌, ◌*◌, ◌<◌, ◌≤◌, length, max, min};
ghost use Rattle.std.specs.List.Sorted.{IsNonDecreasing};
ghost use Rattle.tab_mem.specs.Numbers.{count_below};

/// So many numbers are compared one by one.
const FEW: usize = 8;

/// How many of the numbers are below the bound.
///
/// It takes time logarithmic in the numbers: each step leaves a quarter of them. No branch depends on what a comparison tells: the
/// processor would foresee half of such branches wrongly.
pub fn count_below(numbers: &[u128], bound: u128) -> usize
    requires { IsNonDecreasing numbers.now }
    ensures { result ≡ count_below bound numbers.now }
{
    let mut from = 0;
    let mut left = numbers.len();
    while left > FEW {
        let part = (left + 1) / 4;
        from += passed(numbers, from, part, bound);
        left -= 3 * part;
    }
    end_of_below(numbers, from, from + left, bound)
}

// How many of the numbers from this place on are passed, of three parts of one size: all of each part whose last number is below the
// bound. What the comparisons tell is added up and multiplied, since a choice between two places would be compiled to a branch.
fn passed(numbers: &[u128], from: usize, part: usize, bound: u128) -> usize
    requires rising { IsNonDecreasing numbers.now }
    requires some { 0 < part }
    requires inside { from + 3 * part ≤ length numbers.now }
    requires below { from ≤ count_below bound numbers.now }
    ensures whole { result ≤ 3 * part }
    ensures below { from + result ≤ count_below bound numbers.now }
    ensures most { (result ≡ 3 * part) ⊎ (count_below bound numbers.now < from + result + part) }
{
    let first = numbers[from + part - 1] < bound;
    let second = numbers[from + 2 * part - 1] < bound;
    let third = numbers[from + 3 * part - 1] < bound;
    (first as usize + second as usize + third as usize) * part
}

// Where the numbers below the bound end, of those between two places.
fn end_of_below(numbers: &[u128], from: usize, end: usize, bound: u128) -> usize
    requires rising { IsNonDecreasing numbers.now }
    requires order { from ≤ end }
    requires inside { end ≤ length numbers.now }
    ensures { result ≡ max from (min (count_below bound numbers.now) end) }
{
    let mut reached = from;
    for place in from..end {
        reached += (numbers[place] < bound) as usize;
    }
    reached
}

/// How many of the numbers are up to the bound, where so many are below it. It searches only where one of them is the bound.
pub fn count_up_to(numbers: &[u128], below: usize, bound: u128) -> usize
    requires rising { IsNonDecreasing numbers.now }
    requires below { below ≡ count_below bound numbers.now }
    ensures { result ≡ count_below (bound + 1) numbers.now }
{
    if below >= numbers.len() {
        return below;
    }
    if numbers[below] != bound {
        return below;
    }
    match bound.checked_add(1) {
        None => numbers.len(),
        Some(next) => count_below(numbers, next),
    }
}
