//! What labels mean. Each law is the contract of a function that does nothing, so that it is proved.
ghost use Rattle.tab_label_meaning.specs.Meaning.{LabelsAreRead, LabelsHold, MalformedIsTheFirst};

/// A text of bytes is read as a label exactly where it is one by the grammar.
pub fn labels_are_read()
    ensures { LabelsAreRead }
{}

/// The test of a text of bytes is true exactly where it is a label that holds.
pub fn labels_hold()
    ensures { LabelsHold }
{}

/// A mutation is malformed at the update and the offset exactly where that is the first whose label is none, and the label's own offset.
pub fn malformed_is_the_first()
    ensures { MalformedIsTheFirst }
{}
