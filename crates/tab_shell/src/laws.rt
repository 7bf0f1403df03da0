//! What holds of runs: a law, proved as what a function with an empty body ensures.
ghost use Rattle.tab_shell.specs.Progress.{RunsAreOne};

use tab_io::{Input, Output};

/// Two runs of a script, one behind the other, are one run over the bytes of both, where the first bytes are whole lines.
#[tactic(auto, using(crate::proofs::Ending::runs_are_one))]
pub fn runs_are_one<R: Input, W: Output>()
    ensures { RunsAreOne R.Input W.Output }
{}
