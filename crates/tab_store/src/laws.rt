//! Laws of the definitions. Each is the contract of a function that does nothing, so that it is proved.
ghost use Rattle.tab_store.specs.Stepping.{TellsLegally, CapturesAreThere};
ghost use Rattle.tab_store.specs.Keeping.{FreezesKeep, WritesKeep, CompactionsKeep, BeginningsKeep, InstallsKeep, SplitsKeep, LaterKeeps, FewerKeeps, SoundWithFewer, WorkKeeps, StaysWhole, TabletsHoldAll, SoundTabletsLieApart, MiddlesLieInside, EachTabletRefines, WorkStaysSound, NewTablesAreSound, SoundLater, BasesRead};
ghost use Rattle.tab_store.specs.Numbers.{NewStoresAreNumbered, NumbersStay};
ghost use Rattle.tab_store.specs.Belonging.{ChainsKeepNumbers, InstallsByNumber, OthersAreStale, BegunBelong, BelongingStays, BegunBelongOn, ElsewhereIsStale};
ghost use Rattle.tab_store.specs.Due.{DueIsFirst};
ghost use Rattle.tab_store.specs.Targets.{StartsLieInside, TargetsAreDue};
ghost use Rattle.tab_store.specs.Rightness.{NewStoresAreStores, StoresAreSound, StepsAreRight, StoresStay};
ghost use Rattle.tab_store.specs.Chains.{ChainsStay, ChainsAreLegal};

/// A freeze leaves a tablet refining the updates in its rows, and its merges under way such that they may be installed.
pub fn freezes_keep()
    ensures { FreezesKeep }
{}

/// So does a write at or above the floor, for the updates with it.
pub fn writes_keep()
    ensures { WritesKeep }
{}

/// So does a whole compaction of any kind.
pub fn compactions_keep()
    ensures { CompactionsKeep }
{}

/// So does a merge that begins.
pub fn beginnings_keep()
    ensures { BeginningsKeep }
{}

/// So does a merge that is installed, whichever came.
pub fn installs_keep()
    ensures { InstallsKeep }
{}

/// So does a split, of both its tablets.
pub fn splits_keep()
    ensures { SplitsKeep }
{}

/// So does time that passes.
pub fn later_keeps()
    ensures { LaterKeeps }
{}

/// Work on the tablets of a table leaves each of them refining the updates in its rows.
pub fn work_keeps()
    ensures { WorkKeeps }
{}

/// Each row has one tablet, before and after.
pub fn stays_whole()
    ensures { StaysWhole }
{}

/// Where each tablet refines the updates in its rows, all that they hold refines all updates of the table.
pub fn tablets_hold_all()
    ensures { TabletsHoldAll }
{}

/// What one tablet of a sound table holds lies before what the next one holds.
pub fn sound_tablets_lie_apart()
    ensures { SoundTabletsLieApart }
{}

/// The row in the middle of what one of them holds lies in its own rows, and is no end row.
pub fn middles_lie_inside()
    ensures { MiddlesLieInside }
{}

/// Where all that a sound table holds refines some updates, what each of its tablets holds refines those in the tablet's rows.
pub fn each_tablet_refines()
    ensures { EachTabletRefines }
{}

/// Work keeps what a core keeps of a table's tablets, and what the table holds then refines what it held before with what was written.
pub fn work_stays_sound()
    ensures { WorkStaysSound }
{}

/// A table begins so.
pub fn new_tables_are_sound()
    ensures { NewTablesAreSound }
{}

/// It stays so while the clock or the horizon rises, and where other tables are written.
pub fn sound_later()
    ensures { SoundLater }
{}

/// What an event is told exactly is one of the answers that histories allow.
pub fn tells_legally()
    ensures { TellsLegally }
{}

/// A merge that a compaction makes finds its inputs among the sources, and leaves those that the compaction spares.
pub fn captures_are_there()
    ensures { CapturesAreThere }
{}

/// What histories read of a core is what its tablets hold.
pub fn bases_read()
    ensures { BasesRead }
{}

/// A new core is a store.
pub fn new_stores_are_stores()
    ensures { NewStoresAreStores }
{}

/// What histories see of a store is sound.
pub fn stores_are_sound()
    ensures { StoresAreSound }
{}

/// An exact step of a store, which leaves all else as its entry says, is a right step.
pub fn steps_are_right()
    ensures { StepsAreRight }
{}

/// And it leaves a store.
pub fn stores_stay()
    ensures { StoresStay }
{}

/// A chain of exact steps of a store ends in one, which refines what the entries leave.
pub fn chains_stay()
    ensures { ChainsStay }
{}

/// A chain of events alone is a legal history.
pub fn chains_are_legal()
    ensures { ChainsAreLegal }
{}

/// A number of versions that is lowered leaves a tablet refining the updates in its rows.
pub fn fewer_keeps()
    ensures { FewerKeeps }
{}

/// Sound tablets are sound with fewer versions.
pub fn sound_with_fewer()
    ensures { SoundWithFewer }
{}

/// No two tablets of a new core have one number.
pub fn new_stores_are_numbered()
    ensures { NewStoresAreNumbered }
{}

/// An exact step leaves it so, as long as there are numbers.
pub fn numbers_stay()
    ensures { NumbersStay }
{}

/// So does a chain of exact steps, as a run is one.
pub fn chains_keep_numbers()
    ensures { ChainsKeepNumbers }
{}

/// Where no tablet but that of its row has the number of a merge's tablet, the merge is installed as by the number alone.
pub fn installs_by_number()
    ensures { InstallsByNumber }
{}

/// Where no tablet has it, the merge is stale, and nothing changes.
pub fn others_are_stale()
    ensures { OthersAreStale }
{}

/// A merge that was begun has the number of the tablet of its row, and belongs to its table.
pub fn begun_belong()
    ensures { BegunBelong }
{}

/// An exact step leaves it so, as long as there are numbers.
pub fn belonging_stays()
    ensures { BelongingStays }
{}

/// So does a chain of exact steps.
pub fn begun_belong_on()
    ensures { BegunBelongOn }
{}

/// An Install of it that names another table is stale, and changes no tablet and no merge under way.
pub fn elsewhere_is_stale()
    ensures { ElsewhereIsStale }
{}

/// The least row of a tablet lies in it.
pub fn starts_lie_inside()
    ensures { StartsLieInside }
{}

/// Work that is due has a target, which is the tablet that is due, as long as there are numbers.
pub fn targets_are_due()
    ensures { TargetsAreDue }
{}

/// The first work of a list of those that are due is the first that is due.
pub fn due_is_first()
    ensures { DueIsFirst }
{}
