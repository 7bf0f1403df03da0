//! Whether two parts of replies are equal.
ghost use Rattle.std.specs.Prelude.{◌≡◌, ◌↔◌, IsTrue};

use tab_history::{Refusal, Rights};
use tab_key::ByteString;

/// Whether the two tell the same.
#[tactic(auto, using(crate::proofs::Comparing::rights))]
pub fn same_rights(a: &Rights, b: &Rights) -> bool
    ensures { IsTrue result ↔ (a.now ≡ b.now) }
{
    a == b
}

/// Whether the two lists have the same rows, in the same order.
#[tactic(auto, using(tab_key::proofs::Each::lists_equal))]
pub fn same_rows(rows: &[ByteString], others: &[ByteString]) -> bool
    ensures { IsTrue result ↔ (rows.now ≡ others.now) }
{
    rows == others
}

/// Whether the two are one refusal.
#[tactic(auto, using(crate::proofs::Comparing::refusals))]
pub fn same_refusal(refusal: &Refusal, other: &Refusal) -> bool
    ensures { IsTrue result ↔ (refusal.now ≡ other.now) }
{
    refusal == other
}
