//! Laws of the definitions, each shown by a function that does nothing.
ghost use Rattle.tab_label.specs.Laws.{OneMeaning, ReadingIsTheGrammar, TheGrammarIsReading, HoldingIsTheRelation, MoreAuthsHoldMore};

/// No text says two things.
pub fn one_meaning()
    ensures { OneMeaning }
{}

/// The function `label_of` finds what the grammar reads: Ok what a text of bytes says, Err the offset of one that says nothing.
pub fn reading_is_the_grammar()
    ensures { ReadingIsTheGrammar }
{}

/// What the grammar reads in a text of bytes, or the offset of one that it does not read, is what `label_of` gives.
pub fn the_grammar_is_reading()
    ensures { TheGrammarIsReading }
{}

/// The test `holds` is true exactly where the label holds.
pub fn holding_is_the_relation()
    ensures { HoldingIsTheRelation }
{}

/// What holds under some authorizations holds under more.
pub fn more_authorizations_hold_more()
    ensures { MoreAuthsHoldMore }
{}
