//! What holds of the tablets of a table: laws, each the contract of a function that does nothing.
ghost use Rattle.tab_tablets.specs.Listing.{ListsOn, ListsInOrder};
ghost use Rattle.tab_tablets.specs.Restored.{RestoredAreWhole, RestoredHoldAll};

/// To list the tablets up to a place is to list those before it, and then the one that is there.
pub fn lists_on()
    ensures { ListsOn }
{}

/// What tablets hold that lie apart, listed one tablet behind the other, is all that the table holds, in the order of records.
pub fn lists_in_order()
    ensures { ListsInOrder }
{}

/// Of tablets that are restored each row has one, and they end at the rows that were given.
pub fn restored_are_whole()
    ensures { RestoredAreWhole }
{}

/// Tablets that are restored hold exactly the records that were given, in their order, and lie apart.
pub fn restored_hold_all()
    ensures { RestoredHoldAll }
{}
