//! What holds of journals: laws, each the contract of a function that does nothing.
ghost use Rattle.tab_journal.specs.Laws.{JournalsAreRead, WholeBatchesAreKept, CutsAreBeginnings, EntriesAreRead, TextsHaveForm};
ghost use Rattle.tab_journal.specs.Crashes.{CrashesLeaveBeginnings};
ghost use Rattle.tab_journal.specs.Damage.{CrashesLeaveTornEnds, CutsAreTorn, DamageIsTold};
ghost use Rattle.tab_journal.specs.Outcomes.{OutcomesSuffice};
ghost use Rattle.tab_journal.specs.Stretches.{GatheredIsLasting};

/// What is read of a journal's bytes is what they say, and bytes that say something are read so.
pub fn journals_are_read()
    ensures { JournalsAreRead }
{}

/// What is read in front of something left is a whole journal, and no batch begins behind it.
pub fn whole_batches_are_kept()
    ensures { WholeBatchesAreKept }
{}

/// A beginning of a journal, with its header, says the first of its batches, whole ones alone.
pub fn cuts_are_beginnings()
    ensures { CutsAreBeginnings }
{}

/// Of what a crash leaves of a journal a beginning of what was put is read, with all that was on the disk.
pub fn crashes_leave_beginnings()
    ensures { CrashesLeaveBeginnings }
{}

/// What a crash leaves of a journal behind the batches that are read is torn, and never damaged.
pub fn crashes_leave_torn_ends()
    ensures { CrashesLeaveTornEnds }
{}

/// Each cut of a journal that leaves what was on the disk is torn.
pub fn cuts_are_torn()
    ensures { CutsAreTorn }
{}

/// What is changed of what was on the disk is told, where a batch that was written later still stands.
pub fn damage_is_told()
    ensures { DamageIsTold }
{}

/// Bytes are read as a batch's entries exactly where they are these entries.
pub fn entries_are_read()
    ensures { EntriesAreRead }
{}

/// What is written has its form.
pub fn texts_have_form()
    ensures { TextsHaveForm }
{}

/// What was gathered entry by entry is what is to be kept of all of them, each at the clock that it met.
pub fn gathered_is_lasting()
    ensures { GatheredIsLasting }
{}

/// What is kept of an entry hangs on how its event ended alone.
#[tactic(auto, using(crate::proofs::Outcomes::outcomes_suffice))]
pub fn outcomes_suffice()
    ensures { OutcomesSuffice }
{}
