//! What holds of the lines: laws, each the contract of a function that does nothing.
ghost use Rattle.tab_accumulo.specs.Shell.{PlainLinesAreRead, SplitsAreRead, RecordsAreRead};
ghost use Rattle.tab_accumulo.specs.Shell.{LabelsAreTaken, TermsAreRead, TermsAreTaken};

/// Accumulo's shell, as `specs/Shell` has it, takes a line of words without spaces, quotes and backslashes apart into these words.
pub fn plain_lines_are_read()
    ensures { PlainLinesAreRead }
{}

/// It takes the line of a split apart into the command and the row, whatever the row's bytes.
pub fn splits_are_read()
    ensures { SplitsAreRead }
{}

/// It takes the line of a record apart into just the record's parts, whatever their bytes.
pub fn records_are_read()
    ensures { RecordsAreRead }
{}

/// A label that goes over is taken as it is: as no option, without a quote that is taken off, and with the same bytes.
pub fn labels_are_taken()
    ensures { LabelsAreTaken }
{}

/// It takes the line of a user's authorizations apart into the name and one word that lists them, whatever their bytes.
pub fn terms_are_read()
    ensures { TermsAreRead }
{}

/// Authorizations that go over are taken as they are: just these, with the same bytes.
pub fn terms_are_taken()
    ensures { TermsAreTaken }
{}
