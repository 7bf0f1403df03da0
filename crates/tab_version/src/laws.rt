//! Laws of the definitions. Each is the contract of a function that does nothing, so that it is proved.
ghost use Rattle.tab_version.specs.Choices.{LeftByChoice};

/// What is left of sources is what some choice of the inputs leaves, each of which has an equal source of its own; where nothing is left,
/// the inputs have no such choice.
pub fn left_by_choice()
    ensures { LeftByChoice }
{}
