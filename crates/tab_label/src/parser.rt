//! Reading a text as a label.
ghost use Rattle.std.specs.Prelude.{◌≡◌, IfOk, IfErr};
ghost use Rattle.tab_label.specs.Grammar.{Reads, IsNoLabel, IsOffset};
ghost use Rattle.tab_label.specs.Reading.{label_of};
ghost use Rattle.tab_label.specs.Views.{meaning_of, IfMalformed, IsReadAs, IsReadBy};

use crate::fault::LabelFault;
use crate::state::{State, StepError};
use crate::steps::finish;
use crate::tree::Label;
use std::alloc::Global;

impl Label {
    /// The label that a text spells.
    pub fn parse(alloc: Global, text: &[u8]) -> Result<Label, LabelFault>
        // What is read, the text says.
        ensures label { IfOk result (λ l. Reads text.now (meaning_of l)) }
        // A text that says something is read, unless memory runs out.
        ensures only { (m : _) → Reads text.now m → IsReadAs result m }
        // What is refused is no label, and the offset is that of the longest front that begins one.
        ensures malformed { IfErr result (λ e. IfMalformed e (λ n. IsNoLabel text.now × IsOffset text.now n)) }
        // The label, by the function with which other definitions compute.
        ensures exact { IsReadBy result (label_of text.now) }
    {
        parse(alloc, text)
    }
}

/// Reads byte by byte, and so finds the first that no label has there.
fn parse(alloc: Global, text: &[u8]) -> Result<Label, LabelFault>
    // What is read, the text says.
    ensures label { IfOk result (λ l. Reads text.now (meaning_of l)) }
    // What is refused is no label, and the offset is that of the longest front that begins one.
    ensures malformed { IfErr result (λ e. IfMalformed e (λ n. IsNoLabel text.now × IsOffset text.now n)) }
{
    let mut state = State::new(alloc);
    for i in 0..text.len() {
        match state.advance(alloc, text[i]) {
            Ok(()) => {}
            Err(StepError::NoLabel) => return Err(LabelFault::Malformed(i)),
            Err(StepError::NoMemory) => return Err(LabelFault::NoMemory),
        }
    }
    match finish(state) {
        Ok(label) => Ok(label),
        Err(StepError::NoLabel) => Err(LabelFault::Malformed(text.len())),
        Err(StepError::NoMemory) => Err(LabelFault::NoMemory),
    }
}
