//! What holds of lines: a law, proved as what a function with an empty body ensures.
ghost use Rattle.tab_lines.specs.Forms.{LinesAreForms};

/// Reading a line gives exactly what the forms of lines say: a text is a line that says something exactly where one of
/// the forms fits it, and it then says that and nothing else. What fits no form is a fault.
#[tactic(auto, using(crate::proofs::LineLaw::lines_are_forms))]
pub fn lines_are_forms()
    ensures { LinesAreForms }
{}
