//! What holds of recovery: laws, each the contract of a function that does nothing.
ghost use Rattle.tab_recovery.specs.Answering.{RecoveredCoreAnswersAsLost};
ghost use Rattle.tab_recovery.specs.TakingUp.{CrashesAreTakenUp, CutsKeepAll};

/// A core that did the entries again that are kept of a history answers as the one that was lost, from the first event on that is at or above
/// the clock of the latter.
pub fn recovered_core_answers_as_lost()
    ensures { RecoveredCoreAnswersAsLost }
{}

/// What is cut off behind all that is read of a journal changes nothing of what is read.
pub fn cuts_keep_all()
    ensures { CutsKeepAll }
{}

/// What a crash leaves of a journal, and what another one leaves while that is taken up, is taken up: what was on the disk is read, and a beginning
/// of what was put.
pub fn crashes_are_taken_up()
    ensures { CrashesAreTakenUp }
{}
