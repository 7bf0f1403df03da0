//! Two runs compared by what one user is told in them.
ghost use Rattle.std.specs.Prelude.{◌≡◌, IfOk};
ghost use Rattle.tab_history.specs.Histories.{user_of, is_by};
ghost use Rattle.tab_core.specs.Comparing.{those_of, IsTold, Compares};

use crate::running::run;
use std::alloc::{AllocError, Global};
use tab_history::{Reply, Step, copied};
use tab_key::Name;

/// What one user was told in two runs.
#[derive(Drop)]
pub struct Compared {
    /// All replies to him in the first run, in order.
    pub first: Vec<Reply>,
    /// What they were told in the second run.
    pub second: Vec<Reply>,
}

/// Runs the steps of each list from a new core, as exactly as [`run`] does, and gives the replies to the user's steps in both.
///
/// Where he sees the same of both runs and nothing ran out in either, he is told the same: each scan that he opened has the same
/// whole list in both, and the replies to his scans, batches, writes and questions for his rights are equal, in order. What others
/// write under labels that he never holds is nothing that he sees, as long as it doesn't move the clock that his events meet.
///
/// An error means that there was no memory for a list of replies, for a copy of the steps, or for a core itself.
pub fn compare_runs(
    alloc: Global,
    first: &[Step],
    second: &[Step],
    user: &Name,
) -> Result<Compared, AllocError>
    ensures { IfOk result (λ told. Compares user.now first.now second.now told.first.items told.second.items) }
{
    let first = told_in(alloc, first, user)?;
    let second = told_in(alloc, second, user)?;
    Ok(Compared { first, second })
}

// What the user is told in a run of the steps.
fn told_in(alloc: Global, steps: &[Step], user: &Name) -> Result<Vec<Reply>, AllocError>
    ensures { IfOk result (λ told. IsTold user.now steps.now told.items) }
{
    let replies = run(alloc, copies(alloc, steps)?)?;
    pick(alloc, steps, replies, user)
}

// A copy of the steps.
fn copies(alloc: Global, steps: &[Step]) -> Result<Vec<Step>, AllocError>
    ensures { IfOk result (λ copies. copies.items ≡ steps.now) }
{
    let mut copies = Vec::new(alloc);
    for step in steps {
        let copy = copy_of(step)?;
        copies.push(copy)?;
    }
    Ok(copies)
}

// A copy of the step.
fn copy_of(step: &Step) -> Result<Step, AllocError>
    ensures { IfOk result (λ copy. copy ≡ step.now) }
{
    match step {
        Step::Event(event) => Ok(Step::Event(copied(event)?)),
        Step::Next { user, slot, count } => Ok(Step::Next {
            user: *user,
            slot: *slot,
            count: *count,
        }),
        Step::Many { user, slot, ranges } => Ok(Step::Many {
            user: *user,
            slot: *slot,
            ranges: ranges.clone()?,
        }),
        Step::Close { user, slot } => Ok(Step::Close {
            user: *user,
            slot: *slot,
        }),
        Step::Merge { slot } => Ok(Step::Merge { slot: *slot }),
    }
}

// Of the replies to the steps those to the user's steps.
fn pick(
    alloc: Global,
    steps: &[Step],
    replies: Vec<Reply>,
    user: &Name,
) -> Result<Vec<Reply>, AllocError>
    ensures { IfOk result (λ told. told.items ≡ those_of (is_by user.now) steps.now replies.items) }
{
    let mut rest = replies;
    rest.reverse();
    let mut told = Vec::new(alloc);
    for step in steps {
        let Some(reply) = rest.pop() else {
            break;
        };
        if is_by(step, user) {
            told.push(reply)?;
        }
    }
    Ok(told)
}

// Whether the step is the user's.
fn is_by(step: &Step, user: &Name) -> bool
    ensures { result ≡ is_by user.now step.now }
{
    asker(step) == user.as_bytes()
}

// The name of him whose step it is; no bytes, if it is nobody's.
fn asker(step: &Step) -> &[u8]
    ensures { result.now ≡ user_of step.now }
{
    match step {
        Step::Event(event) => event.user.as_bytes(),
        Step::Next { user, .. } => user.as_bytes(),
        Step::Many { user, .. } => user.as_bytes(),
        Step::Close { user, .. } => user.as_bytes(),
        Step::Merge { .. } => b"",
    }
}
