//! The numbers that tablets and jobs get, one after another.
ghost use Rattle.std.specs.Prelude.{◌≡◌};
ghost use Rattle.tab_store.specs.Tablets.{next_number};

/// The number behind this one. The greatest `u64` stays.
pub fn next_number(number: u64) -> u64
    ensures { result ≡ next_number number }
{
    number.saturating_add(1)
}
