//! Refusals by their names.

use tab_history::Refusal;

/// How many names there are.
pub(crate) const REFUSAL_COUNT: usize = 23;

/// The names of the refusals that a connection may be told, in the order of their numbers, as PROTOCOL.md has them.
pub(crate) const REFUSAL_NAMES: [&str; REFUSAL_COUNT] = [
    "UnknownUser",
    "NoTable",
    "PermissionDenied",
    "BadAuthorizations",
    "MalformedVisibility",
    "ConstraintViolation",
    "TimestampNotAllowed",
    "EmptyMutation",
    "TooLarge",
    "TableExists",
    "UserExists",
    "NoUser",
    "BadRange",
    "NoSession",
    "BadFrame",
    "NoMemory",
    "RootFixed",
    "GrantInvalid",
    "BadSplit",
    "VersionsRaised",
    "HorizonLowered",
    "BelowHorizon",
    "ServerTime",
];

/// The place of the name of what is told of a frame that asks nothing.
pub(crate) const BAD_FRAME: usize = 14;

/// The place of the name of what is told where memory lacks.
pub(crate) const NO_MEMORY: usize = 15;

/// The place of the refusal's name. That a merge is stale is told to no connection, and has none.
pub(crate) fn place_of(refusal: &Refusal) -> Option<usize> {
    let place = match refusal {
        Refusal::UnknownUser(_) => 0,
        Refusal::NoTable(_) => 1,
        Refusal::PermissionDenied(_) => 2,
        Refusal::BadAuthorizations(_) => 3,
        Refusal::MalformedVisibility(_, _) => 4,
        Refusal::ConstraintViolation(_) => 5,
        Refusal::TimestampNotAllowed(_) => 6,
        Refusal::EmptyMutation => 7,
        Refusal::TooLarge(_) => 8,
        Refusal::TableExists(_) => 9,
        Refusal::UserExists(_) => 10,
        Refusal::NoUser(_) => 11,
        Refusal::BadRange => 12,
        Refusal::NoSession(_) | Refusal::NoJob(_) => 13,
        Refusal::NoMemory => NO_MEMORY,
        Refusal::RootFixed => 16,
        Refusal::GrantInvalid => 17,
        Refusal::BadSplit(_) => 18,
        Refusal::VersionsRaised(_) => 19,
        Refusal::HorizonLowered(_) => 20,
        Refusal::BelowHorizon(_) => 21,
        Refusal::ServerTime => 22,
        Refusal::Stale(_) => return None,
    };
    Some(place)
}
