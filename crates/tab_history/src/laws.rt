//! Laws of the definitions. Each is the contract of a function that does nothing, so that it is proved.
ghost use Rattle.tab_history.specs.OwnRights.{RightsAreTold};
ghost use Rattle.tab_history.specs.Lives.{LivesAreApart};
ghost use Rattle.tab_history.specs.Rooted.{RootStays};
ghost use Rattle.tab_history.specs.Refinement.{SameHistories, SameEvents, RefinementIsTransitive, SoundRefinesItself, NewCoreIsSound, NewCoreRefines, RefinementIsSound, AlikeRefines, AnswersAreOne};
ghost use Rattle.tab_history.specs.Chains.{RightStep, GoesOn, SlotsAreAside, InstallsUseUp, ChainsRefine};
ghost use Rattle.tab_history.specs.Runs.{EveryRunIsAnswered, OneHistory, MemoryLacksWhereItMay, Unmoved};

/// What a user is told of his rights has just the permissions that he has, and his authorizations.
pub fn rights_are_told()
    ensures { RightsAreTold }
{}

/// A table or a user that is made begins with nothing of what an earlier one of its name had, and nothing stays of one that is dropped.
pub fn lives_are_apart()
    ensures { LivesAreApart }
{}

/// In each legal history from a new core root is a user, and no one else may grant system permissions.
pub fn root_stays()
    ensures { RootStays }
{}

/// Each list of steps has a legal history.
pub fn every_run_is_answered()
    ensures { EveryRunIsAnswered }
{}

/// Two legal histories of the same steps, with the same replies where they are left open, in which memory never lacked, are one.
pub fn one_history()
    ensures { OneHistory }
{}

/// In each legal history memory lacks only for steps that may take some.
pub fn memory_lacks_where_it_may()
    ensures { MemoryLacksWhereItMay }
{}

/// What is no event leaves users, rights, tables and the clock as they were.
pub fn unmoved()
    ensures { Unmoved }
{}

/// Where one world refines another, the same runs are legal from both, and each user's sessions are the same.
pub fn same_histories()
    ensures { SameHistories }
{}

/// Refinement keeps legality and sessions of events that stand alone, in no one's list of sessions, too.
pub fn same_events()
    ensures { SameEvents }
{}

/// What refines what refines a world refines it.
pub fn refinement_is_transitive()
    ensures { RefinementIsTransitive }
{}

/// A world of which no two records stand at one place, and all numbers are used up, refines itself.
pub fn sound_refines_itself()
    ensures { SoundRefinesItself }
{}

/// A new core is sound.
pub fn new_core_is_sound()
    ensures { NewCoreIsSound }
{}

/// A base that reads as a new core refines it.
pub fn new_core_refines()
    ensures { NewCoreRefines }
{}

/// A base that refines some world is sound.
pub fn refinement_is_sound()
    ensures { RefinementIsSound }
{}

/// A world that reads the same as another one, and holds the same records in any order, refines it.
pub fn alike_refines()
    ensures { AlikeRefines }
{}

/// After a legal run from a sound world each scan has one answer.
pub fn answers_are_one()
    ensures { AnswersAreOne }
{}

/// A step of a sound core is right if its reply is an answer and it leaves what its entry leaves.
pub fn right_step()
    ensures { RightStep }
{}

/// A step that is right on what a core holds goes on with each history that the core refines.
pub fn goes_on()
    ensures { GoesOn }
{}

/// An Install by a slot with a finished merge is answered as one that came with its merge, and leaves the same.
pub fn slots_are_aside()
    ensures { SlotsAreAside }
{}

/// Behind an Install its slot holds no finished merge, whatever it was told; a job whose merge is to be made waits on, and so does all else.
pub fn installs_use_up()
    ensures { InstallsUseUp }
{}

/// A chain of right steps makes a legal history, which its last core refines.
pub fn chains_refine()
    ensures { ChainsRefine }
{}
