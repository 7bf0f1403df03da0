//! What holds of the entries that are kept: laws, each the contract of a function that does nothing.
ghost use Rattle.tab_lasting.specs.Lasting.{LastingIsAll};
ghost use Rattle.tab_lasting.specs.Recovered.{RecoveredAnswersAsLost};

/// The entries that are kept make all changes of their history, leave no later a clock, and are legal where it is.
pub fn lasting_is_all()
    ensures { LastingIsAll }
{}

/// A core that refines what the kept entries leave answers as one that refines what all of them leave, from the first event on that is at
/// or above the clock of the latter.
pub fn recovered_answers_as_lost()
    ensures { RecoveredAnswersAsLost }
{}
