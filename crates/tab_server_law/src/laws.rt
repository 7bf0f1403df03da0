//! Noninterference over a server's histories. It is the contract of functions that do nothing, so that it is proved.
ghost use Rattle.tab_server_law.specs.ServerNoninterference.{NoninterferenceOfEvents, NoninterferenceOver, LastAlike};

/// Two legal histories of events that stand alone, from any sound base, that look alike to a user, and in which nothing ran out, tell them
/// the same.
pub fn noninterference_of_events()
    ensures { NoninterferenceOfEvents }
{}

/// Noninterference of two histories from two bases that refine one.
pub fn noninterference_over()
    ensures { NoninterferenceOver }
{}

/// The newest event of two such histories is answered alike, with the whole list of the session that it opens.
pub fn last_alike()
    ensures { LastAlike }
{}
