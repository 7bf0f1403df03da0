//! Noninterference. It is the contract of functions that do nothing, so that it is proved.
ghost use Rattle.tab_noninterference.specs.Noninterference.{Noninterference, NoninterferenceFromABase};

/// Two legal histories from a new core that look alike to a user, and in which nothing ran out, tell him the same.
pub fn noninterference()
    ensures { Noninterference }
{}

/// Noninterference from any sound base, as what a core holds is.
pub fn noninterference_from_a_base()
    ensures { NoninterferenceFromABase }
{}
