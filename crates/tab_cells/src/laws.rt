//! Laws of the definitions. Each is the contract of a function that does nothing, so that it is proved.
ghost use Rattle.tab_cells.specs.Cells.{OneAnswerList};

/// A scan of updates of which no two stand at one place has one answer, and it is what the definitions compute.
pub fn one_answer_list()
    ensures { OneAnswerList }
{}
