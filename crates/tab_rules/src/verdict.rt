//! The check of a mutation against a table's constraints.
ghost use Rattle.std.specs.Prelude.{◌≡◌, IfOk, not};
ghost use Rattle.std.specs.Char.{is_ascii_alphanumeric};
ghost use Rattle.std.specs.List.{filter_map, list_all};
ghost use Rattle.tab_mutation.specs.Shape.{first_index};
ghost use Rattle.tab_rules.specs.Verdict.{fails, violation, violations};

use crate::fails::fails;
use crate::syntax::is_all_alphanumeric;
use crate::violation::Test;
use crate::{Constraint, ConstraintSet, Verdict, Violation};
use std::alloc::{AllocError, Global};
use tab_key::Items;
use tab_label::AuthSet;
use tab_mutation::Shaped;

/// All pairs of constraint and code, rising.
const TESTS: [Test; 6] = [
    Test {
        constraint: Constraint::KeySize,
        code: 1,
    },
    Test {
        constraint: Constraint::Alphanumeric,
        code: 1,
    },
    Test {
        constraint: Constraint::Alphanumeric,
        code: 2,
    },
    Test {
        constraint: Constraint::Alphanumeric,
        code: 3,
    },
    Test {
        constraint: Constraint::Numeric,
        code: 1,
    },
    Test {
        constraint: Constraint::Visibility,
        code: 2,
    },
];

// The first update, where the row isn't all letters and digits.
fn first_by_row(mutation: &Shaped<'_>) -> Option<u32>
    ensures { result ≡ first_index (λ u. not (list_all is_ascii_alphanumeric mutation.now.row)) 0
        mutation.now.updates }
{
    mutation.keeps();
    if is_all_alphanumeric(mutation.row()) {
        None
    } else {
        Some(0)
    }
}

// The first update that fails the test.
#[tactic(auto, using(tab_mutation::proofs::Shapes::shaped_few))]
fn first_failing(mutation: &Shaped<'_>, auths: &AuthSet, test: Test) -> Option<u32>
    ensures { result ≡ first_index (fails auths.now mutation.now.row test.constraint test.code) 0
        mutation.now.updates }
{
    mutation.keeps();
    for index in 0..mutation.len() {
        if fails(auths, mutation.row(), test, &mutation.update(index)) {
            return Some(index as u32);
        }
    }
    None
}

// The violation of the test, where its constraint is set and an update fails it. The row is looked at
// once, however many updates there are.
fn violation(
    constraints: &ConstraintSet,
    auths: &AuthSet,
    mutation: &Shaped<'_>,
    test: Test,
) -> Option<Violation>
    ensures { result ≡ violation constraints.now auths.now mutation.now test }
{
    if !constraints.contains(test.constraint) {
        return None;
    }
    let first = match (test.constraint, test.code) {
        (Constraint::Alphanumeric, 1) => first_by_row(mutation),
        _ => first_failing(mutation, auths, test),
    };
    match first {
        Some(update) => Some(Violation {
            constraint: test.constraint,
            code: test.code,
            update,
        }),
        None => None,
    }
}

// The violations of these tests, in their order.
fn violations_among(
    alloc: Global,
    tests: &[Test],
    constraints: &ConstraintSet,
    auths: &AuthSet,
    mutation: &Shaped<'_>,
) -> Result<Vec<Violation>, AllocError>
    ensures { IfOk result (λ v. v.items ≡
        filter_map (violation constraints.now auths.now mutation.now) tests.now) }
{
    tests
        .iter()
        .filter_map(|test| violation(constraints, auths, mutation, *test))
        .collect(alloc)
}

/// What the mutation fails of a table's constraints, for a writer who holds these authorizations. Its shape was accepted.
///
/// Every violation is listed, rising by constraint and code, each with the first update that fails
/// so, counted from 0. The list is empty where nothing fails.
#[tactic(auto, unfolding(crate::specs::Verdict::violations))]
pub fn check(
    alloc: Global,
    constraints: &ConstraintSet,
    mutation: &Shaped<'_>,
    auths: &AuthSet,
) -> Result<Verdict, AllocError>
    ensures { IfOk result (λ v. v ≡ violations constraints.now auths.now mutation.now) }
{
    let violations = violations_among(alloc, &TESTS, constraints, auths, mutation)?;
    Ok(Items::from_vec(violations))
}
