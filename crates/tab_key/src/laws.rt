//! Laws of the definitions, each shown by a function that does nothing.
ghost use Rattle.std.specs.Cmp.{IsTotalOrder};
ghost use Rattle.tab_key.specs.Order.{key_cmp, record_cmp, TiesAreOne};
ghost use Rattle.tab_key.specs.Sorted.{SortsOnce};
ghost use Rattle.tab_key.specs.Words.{WordsTellApart};

/// Keys and records are in a total order.
#[tactic(auto, using(crate::proofs::Order::key_cmp_total, crate::proofs::Order::record_cmp_total))]
pub fn orders_are_total()
    ensures keys { IsTotalOrder key_cmp }
    ensures records { IsTotalOrder record_cmp }
{}

/// Two records tie only where they are one but for their values: no two of a table do, since each has numbers of its own.
#[tactic(auto, using(crate::proofs::Ties::ties_are_one))]
pub fn ties_are_one()
    ensures { TiesAreOne }
{}

/// There is one rising list of the records that pass a test, and sorting them makes it.
pub fn sorts_once()
    ensures { SortsOnce }
{}

/// Two byte strings that spell one number behind a one are the same.
#[tactic(auto, using(crate::proofs::WordLaws::same_words))]
pub fn words_tell_apart()
    ensures { WordsTellApart }
{}
